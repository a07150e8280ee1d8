ghost use Rattle.std.specs.Prelude.{◌≡◌, IfSome, IfNone};
ghost use Rattle.rv_isa.specs.Field.{opcode_of, funct3_of};
ghost use Rattle.rv_isa.specs.Table.{IsWordOf, IsEncodable};
ghost use Rattle.rv_isa.specs.Decoding.{decode_of};

use crate::field::{
    funct3, funct7, imm_b, imm_i, imm_j, imm_s, imm_u, opcode, rd, rest, rs1, rs2, shamt,
};
use crate::inst::Inst;

/// The instruction that a word stands for. `None` is any word that is not in the table.
#[tactic(auto, using(crate::proofs::Rows::none_outside, crate::proofs::Ranges::encodable))]
#[inline(always)]
pub fn decode(word: u32) -> Option<Inst>
    ensures value { result ≡ decode_of word }
    ensures in_table { IfSome result (IsWordOf word) }
    ensures in_range { IfSome result IsEncodable }
    ensures not_in_table { IfNone result ((i : Inst) → ¬ IsWordOf word i) }
{
    by_opcode(word)
}

#[tactic(auto, unfolding(crate::specs::Decoding::decode_of))]
#[inline(always)]
fn by_opcode(word: u32) -> Option<Inst>
    ensures value { result ≡ decode_of word }
    ensures in_table { IfSome result (IsWordOf word) }
{
    let rd = rd(word);
    match opcode(word) {
        0x03 => load(word),
        0x0F => fence(word),
        0x13 => with_immediate(word),
        0x17 => Some(Inst::Auipc {
            rd,
            imm: imm_u(word),
        }),
        0x23 => store(word),
        0x33 => with_registers(word),
        0x37 => Some(Inst::Lui {
            rd,
            imm: imm_u(word),
        }),
        0x63 => branch(word),
        0x67 => indirect_jump(word),
        0x6F => Some(Inst::Jal {
            rd,
            imm: imm_j(word),
        }),
        0x73 => environment(word),
        _ => None,
    }
}

#[tactic(auto, unfolding(crate::specs::Decoding::decode_of))]
fn load(word: u32) -> Option<Inst>
    requires { opcode_of word ≡ 0x03 }
    ensures value { result ≡ decode_of word }
    ensures in_table { IfSome result (IsWordOf word) }
{
    let (rd, rs1, imm) = (rd(word), rs1(word), imm_i(word));
    match funct3(word) {
        0 => Some(Inst::Lb { rd, rs1, imm }),
        1 => Some(Inst::Lh { rd, rs1, imm }),
        2 => Some(Inst::Lw { rd, rs1, imm }),
        4 => Some(Inst::Lbu { rd, rs1, imm }),
        5 => Some(Inst::Lhu { rd, rs1, imm }),
        _ => None,
    }
}

#[tactic(auto, unfolding(crate::specs::Decoding::decode_of))]
fn fence(word: u32) -> Option<Inst>
    requires { opcode_of word ≡ 0x0F }
    ensures value { result ≡ decode_of word }
    ensures in_table { IfSome result (IsWordOf word) }
{
    let rest = rest(word);
    match funct3(word) {
        0 => Some(Inst::Fence { rest }),
        1 => Some(Inst::FenceI { rest }),
        _ => None,
    }
}

#[tactic(auto, unfolding(crate::specs::Decoding::decode_of))]
fn with_immediate(word: u32) -> Option<Inst>
    requires { opcode_of word ≡ 0x13 }
    ensures value { result ≡ decode_of word }
    ensures in_table { IfSome result (IsWordOf word) }
{
    let (rd, rs1, imm) = (rd(word), rs1(word), imm_i(word));
    match funct3(word) {
        0 => Some(Inst::Addi { rd, rs1, imm }),
        1 => shift_left(word),
        2 => Some(Inst::Slti { rd, rs1, imm }),
        3 => Some(Inst::Sltiu { rd, rs1, imm }),
        4 => Some(Inst::Xori { rd, rs1, imm }),
        5 => shift_right(word),
        6 => Some(Inst::Ori { rd, rs1, imm }),
        7 => Some(Inst::Andi { rd, rs1, imm }),
        _ => None,
    }
}

#[tactic(auto, unfolding(crate::specs::Decoding::decode_of))]
fn shift_left(word: u32) -> Option<Inst>
    requires opcode { opcode_of word ≡ 0x13 }
    requires funct3 { funct3_of word ≡ 1 }
    ensures value { result ≡ decode_of word }
    ensures in_table { IfSome result (IsWordOf word) }
{
    let (rd, rs1, imm) = (rd(word), rs1(word), shamt(word));
    match funct7(word) {
        0 => Some(Inst::Slli { rd, rs1, imm }),
        _ => None,
    }
}

#[tactic(auto, unfolding(crate::specs::Decoding::decode_of))]
fn shift_right(word: u32) -> Option<Inst>
    requires opcode { opcode_of word ≡ 0x13 }
    requires funct3 { funct3_of word ≡ 5 }
    ensures value { result ≡ decode_of word }
    ensures in_table { IfSome result (IsWordOf word) }
{
    let (rd, rs1, imm) = (rd(word), rs1(word), shamt(word));
    match funct7(word) {
        0 => Some(Inst::Srli { rd, rs1, imm }),
        0x20 => Some(Inst::Srai { rd, rs1, imm }),
        _ => None,
    }
}

#[tactic(auto, unfolding(crate::specs::Decoding::decode_of))]
fn store(word: u32) -> Option<Inst>
    requires { opcode_of word ≡ 0x23 }
    ensures value { result ≡ decode_of word }
    ensures in_table { IfSome result (IsWordOf word) }
{
    let (rs1, rs2, imm) = (rs1(word), rs2(word), imm_s(word));
    match funct3(word) {
        0 => Some(Inst::Sb { rs1, rs2, imm }),
        1 => Some(Inst::Sh { rs1, rs2, imm }),
        2 => Some(Inst::Sw { rs1, rs2, imm }),
        _ => None,
    }
}

#[tactic(auto, unfolding(crate::specs::Decoding::decode_of))]
fn with_registers(word: u32) -> Option<Inst>
    requires { opcode_of word ≡ 0x33 }
    ensures value { result ≡ decode_of word }
    ensures in_table { IfSome result (IsWordOf word) }
{
    let (rd, rs1, rs2) = (rd(word), rs1(word), rs2(word));
    match (funct7(word), funct3(word)) {
        (0, 0) => Some(Inst::Add { rd, rs1, rs2 }),
        (0, 1) => Some(Inst::Sll { rd, rs1, rs2 }),
        (0, 2) => Some(Inst::Slt { rd, rs1, rs2 }),
        (0, 3) => Some(Inst::Sltu { rd, rs1, rs2 }),
        (0, 4) => Some(Inst::Xor { rd, rs1, rs2 }),
        (0, 5) => Some(Inst::Srl { rd, rs1, rs2 }),
        (0, 6) => Some(Inst::Or { rd, rs1, rs2 }),
        (0, 7) => Some(Inst::And { rd, rs1, rs2 }),
        (0x20, 0) => Some(Inst::Sub { rd, rs1, rs2 }),
        (0x20, 5) => Some(Inst::Sra { rd, rs1, rs2 }),
        (1, 0) => Some(Inst::Mul { rd, rs1, rs2 }),
        (1, 1) => Some(Inst::Mulh { rd, rs1, rs2 }),
        (1, 2) => Some(Inst::Mulhsu { rd, rs1, rs2 }),
        (1, 3) => Some(Inst::Mulhu { rd, rs1, rs2 }),
        (1, 4) => Some(Inst::Div { rd, rs1, rs2 }),
        (1, 5) => Some(Inst::Divu { rd, rs1, rs2 }),
        (1, 6) => Some(Inst::Rem { rd, rs1, rs2 }),
        (1, 7) => Some(Inst::Remu { rd, rs1, rs2 }),
        _ => None,
    }
}

#[tactic(auto, unfolding(crate::specs::Decoding::decode_of))]
fn branch(word: u32) -> Option<Inst>
    requires { opcode_of word ≡ 0x63 }
    ensures value { result ≡ decode_of word }
    ensures in_table { IfSome result (IsWordOf word) }
{
    let (rs1, rs2, imm) = (rs1(word), rs2(word), imm_b(word));
    match funct3(word) {
        0 => Some(Inst::Beq { rs1, rs2, imm }),
        1 => Some(Inst::Bne { rs1, rs2, imm }),
        4 => Some(Inst::Blt { rs1, rs2, imm }),
        5 => Some(Inst::Bge { rs1, rs2, imm }),
        6 => Some(Inst::Bltu { rs1, rs2, imm }),
        7 => Some(Inst::Bgeu { rs1, rs2, imm }),
        _ => None,
    }
}

#[tactic(auto, unfolding(crate::specs::Decoding::decode_of))]
fn indirect_jump(word: u32) -> Option<Inst>
    requires { opcode_of word ≡ 0x67 }
    ensures value { result ≡ decode_of word }
    ensures in_table { IfSome result (IsWordOf word) }
{
    let (rd, rs1, imm) = (rd(word), rs1(word), imm_i(word));
    match funct3(word) {
        0 => Some(Inst::Jalr { rd, rs1, imm }),
        _ => None,
    }
}

#[tactic(auto, unfolding(crate::specs::Decoding::decode_of))]
fn environment(word: u32) -> Option<Inst>
    requires { opcode_of word ≡ 0x73 }
    ensures value { result ≡ decode_of word }
    ensures in_table { IfSome result (IsWordOf word) }
{
    match word {
        0x0000_0073 => Some(Inst::Ecall),
        0x0010_0073 => Some(Inst::Ebreak),
        _ => None,
    }
}
