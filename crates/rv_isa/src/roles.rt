ghost use Rattle.std.specs.Prelude.{◌≡◌};
ghost use Rattle.rv_isa.specs.Roles as roles;

use crate::inst::Inst;

/// What an instruction occupies in a pipeline. `Ebreak` counts as `Alu`, and never completes.
#[derive(Clone, Copy, Debug, PartialEq, Eq)]
pub enum Class {
    Alu,
    Mul,
    Div,
    Load,
    Store,
    Control,
    Ecall,
}

/// The class of an instruction.
pub fn class_of(inst: &Inst) -> Class
    ensures { result ≡ roles.class_of inst.now }
{
    match *inst {
        Inst::Lui { .. }
        | Inst::Auipc { .. }
        | Inst::Fence { .. }
        | Inst::FenceI { .. }
        | Inst::Ebreak => Class::Alu,
        Inst::Addi { .. }
        | Inst::Slti { .. }
        | Inst::Sltiu { .. }
        | Inst::Xori { .. }
        | Inst::Ori { .. }
        | Inst::Andi { .. }
        | Inst::Slli { .. }
        | Inst::Srli { .. }
        | Inst::Srai { .. } => Class::Alu,
        Inst::Add { .. }
        | Inst::Sub { .. }
        | Inst::Sll { .. }
        | Inst::Slt { .. }
        | Inst::Sltu { .. }
        | Inst::Xor { .. }
        | Inst::Srl { .. }
        | Inst::Sra { .. }
        | Inst::Or { .. }
        | Inst::And { .. } => Class::Alu,
        Inst::Mul { .. } | Inst::Mulh { .. } | Inst::Mulhsu { .. } | Inst::Mulhu { .. } =>
            Class::Mul,
        Inst::Div { .. } | Inst::Divu { .. } | Inst::Rem { .. } | Inst::Remu { .. } => Class::Div,
        Inst::Lb { .. } | Inst::Lh { .. } | Inst::Lw { .. } | Inst::Lbu { .. } | Inst::Lhu { .. } =>
            Class::Load,
        Inst::Sb { .. } | Inst::Sh { .. } | Inst::Sw { .. } => Class::Store,
        Inst::Jal { .. }
        | Inst::Jalr { .. }
        | Inst::Beq { .. }
        | Inst::Bne { .. }
        | Inst::Blt { .. }
        | Inst::Bge { .. }
        | Inst::Bltu { .. }
        | Inst::Bgeu { .. } => Class::Control,
        Inst::Ecall => Class::Ecall,
    }
}

/// The registers that an instruction reads, in the places of rs1 and rs2, without register 0.
/// `Ecall`, `Ebreak` and the fences read none.
pub fn sources(inst: &Inst) -> (Option<u8>, Option<u8>)
    ensures { result ≡ roles.sources_of inst.now }
{
    match *inst {
        Inst::Beq { rs1, rs2, .. }
        | Inst::Bne { rs1, rs2, .. }
        | Inst::Blt { rs1, rs2, .. }
        | Inst::Bge { rs1, rs2, .. }
        | Inst::Bltu { rs1, rs2, .. }
        | Inst::Bgeu { rs1, rs2, .. }
        | Inst::Sb { rs1, rs2, .. }
        | Inst::Sh { rs1, rs2, .. }
        | Inst::Sw { rs1, rs2, .. }
        | Inst::Add { rs1, rs2, .. }
        | Inst::Sub { rs1, rs2, .. }
        | Inst::Sll { rs1, rs2, .. }
        | Inst::Slt { rs1, rs2, .. }
        | Inst::Sltu { rs1, rs2, .. }
        | Inst::Xor { rs1, rs2, .. }
        | Inst::Srl { rs1, rs2, .. }
        | Inst::Sra { rs1, rs2, .. }
        | Inst::Or { rs1, rs2, .. }
        | Inst::And { rs1, rs2, .. }
        | Inst::Mul { rs1, rs2, .. }
        | Inst::Mulh { rs1, rs2, .. }
        | Inst::Mulhsu { rs1, rs2, .. }
        | Inst::Mulhu { rs1, rs2, .. }
        | Inst::Div { rs1, rs2, .. }
        | Inst::Divu { rs1, rs2, .. }
        | Inst::Rem { rs1, rs2, .. }
        | Inst::Remu { rs1, rs2, .. } => (register(rs1), register(rs2)),
        Inst::Jalr { rs1, .. }
        | Inst::Lb { rs1, .. }
        | Inst::Lh { rs1, .. }
        | Inst::Lw { rs1, .. }
        | Inst::Lbu { rs1, .. }
        | Inst::Lhu { rs1, .. }
        | Inst::Addi { rs1, .. }
        | Inst::Slti { rs1, .. }
        | Inst::Sltiu { rs1, .. }
        | Inst::Xori { rs1, .. }
        | Inst::Ori { rs1, .. }
        | Inst::Andi { rs1, .. }
        | Inst::Slli { rs1, .. }
        | Inst::Srli { rs1, .. }
        | Inst::Srai { rs1, .. } => (register(rs1), None),
        Inst::Lui { .. }
        | Inst::Auipc { .. }
        | Inst::Jal { .. }
        | Inst::Fence { .. }
        | Inst::FenceI { .. }
        | Inst::Ecall
        | Inst::Ebreak => (None, None),
    }
}

/// The register that an instruction writes, without register 0. Stores, branches, fences and
/// `Ebreak` write none. `Ecall` has none either, though a call's answer goes to register 10, because
/// the next fetch waits until the call has retired.
pub fn dest(inst: &Inst) -> Option<u8>
    ensures { result ≡ roles.dest_of inst.now }
{
    match *inst {
        Inst::Lui { rd, .. }
        | Inst::Auipc { rd, .. }
        | Inst::Jal { rd, .. }
        | Inst::Jalr { rd, .. }
        | Inst::Lb { rd, .. }
        | Inst::Lh { rd, .. }
        | Inst::Lw { rd, .. }
        | Inst::Lbu { rd, .. }
        | Inst::Lhu { rd, .. }
        | Inst::Addi { rd, .. }
        | Inst::Slti { rd, .. }
        | Inst::Sltiu { rd, .. }
        | Inst::Xori { rd, .. }
        | Inst::Ori { rd, .. }
        | Inst::Andi { rd, .. }
        | Inst::Slli { rd, .. }
        | Inst::Srli { rd, .. }
        | Inst::Srai { rd, .. }
        | Inst::Add { rd, .. }
        | Inst::Sub { rd, .. }
        | Inst::Sll { rd, .. }
        | Inst::Slt { rd, .. }
        | Inst::Sltu { rd, .. }
        | Inst::Xor { rd, .. }
        | Inst::Srl { rd, .. }
        | Inst::Sra { rd, .. }
        | Inst::Or { rd, .. }
        | Inst::And { rd, .. }
        | Inst::Mul { rd, .. }
        | Inst::Mulh { rd, .. }
        | Inst::Mulhsu { rd, .. }
        | Inst::Mulhu { rd, .. }
        | Inst::Div { rd, .. }
        | Inst::Divu { rd, .. }
        | Inst::Rem { rd, .. }
        | Inst::Remu { rd, .. } => register(rd),
        Inst::Beq { .. }
        | Inst::Bne { .. }
        | Inst::Blt { .. }
        | Inst::Bge { .. }
        | Inst::Bltu { .. }
        | Inst::Bgeu { .. }
        | Inst::Sb { .. }
        | Inst::Sh { .. }
        | Inst::Sw { .. }
        | Inst::Fence { .. }
        | Inst::FenceI { .. }
        | Inst::Ecall
        | Inst::Ebreak => None,
    }
}

fn register(number: u8) -> Option<u8>
    ensures { result ≡ roles.register number }
{
    if number == 0 { None } else { Some(number) }
}
