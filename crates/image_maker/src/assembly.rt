//! Instructions by the names and the order of fields that the manual gives them.
ghost use Rattle.std.specs.Prelude.{◌≡◌};
ghost use Rattle.rv_isa.specs.declared.inst.Inst.TheVariants as inst;

use rv_isa::Inst;

pub fn lui(rd: u8, imm: i32) -> Inst
    ensures { result ≡ inst.Lui rd imm }
{
    Inst::Lui { rd, imm }
}

pub fn addi(rd: u8, rs1: u8, imm: i32) -> Inst
    ensures { result ≡ inst.Addi rd rs1 imm }
{
    Inst::Addi { rd, rs1, imm }
}

pub fn andi(rd: u8, rs1: u8, imm: i32) -> Inst
    ensures { result ≡ inst.Andi rd rs1 imm }
{
    Inst::Andi { rd, rs1, imm }
}

pub fn add(rd: u8, rs1: u8, rs2: u8) -> Inst
    ensures { result ≡ inst.Add rd rs1 rs2 }
{
    Inst::Add { rd, rs1, rs2 }
}

pub fn and(rd: u8, rs1: u8, rs2: u8) -> Inst
    ensures { result ≡ inst.And rd rs1 rs2 }
{
    Inst::And { rd, rs1, rs2 }
}

pub fn xor(rd: u8, rs1: u8, rs2: u8) -> Inst
    ensures { result ≡ inst.Xor rd rs1 rs2 }
{
    Inst::Xor { rd, rs1, rs2 }
}

pub fn mul(rd: u8, rs1: u8, rs2: u8) -> Inst
    ensures { result ≡ inst.Mul rd rs1 rs2 }
{
    Inst::Mul { rd, rs1, rs2 }
}

pub fn lw(rd: u8, rs1: u8, imm: i32) -> Inst
    ensures { result ≡ inst.Lw rd rs1 imm }
{
    Inst::Lw { rd, rs1, imm }
}

pub fn sw(rs1: u8, rs2: u8, imm: i32) -> Inst
    ensures { result ≡ inst.Sw rs1 rs2 imm }
{
    Inst::Sw { rs1, rs2, imm }
}

pub fn beq(rs1: u8, rs2: u8, imm: i32) -> Inst
    ensures { result ≡ inst.Beq rs1 rs2 imm }
{
    Inst::Beq { rs1, rs2, imm }
}

pub fn bne(rs1: u8, rs2: u8, imm: i32) -> Inst
    ensures { result ≡ inst.Bne rs1 rs2 imm }
{
    Inst::Bne { rs1, rs2, imm }
}
