ghost use Rattle.std.specs.Prelude.{◌≡◌, ◌<◌, ◌^◌, Some};
ghost use Rattle.rv_isa.specs.Table.{IsWordOf, IsEncodable, Holds, InRange, R, I, Shift, S, B, U, J, Order};
ghost use Rattle.rv_isa.specs.Decoding.{decode_of};
ghost use Rattle.rv_isa.specs.Encoding.{word_of, word_of_row};

use crate::inst::Inst;

/// The word that stands for an instruction.
#[tactic(auto, using(crate::proofs::Rows::decode_of_word))]
pub fn encode(inst: &Inst) -> u32
    requires { IsEncodable inst.now }
    ensures value { result ≡ word_of inst.now }
    ensures in_table { IsWordOf result inst.now }
    ensures decodes { decode_of result ≡ Some inst.now }
{
    word(inst)
}

fn word(inst: &Inst) -> u32
    requires { IsEncodable inst.now }
    ensures value { result ≡ word_of inst.now }
    ensures in_table { IsWordOf result inst.now }
{
    match *inst {
        Inst::Lui { rd, imm } => u_word(0x37, rd, imm),
        Inst::Auipc { rd, imm } => u_word(0x17, rd, imm),
        Inst::Jal { rd, imm } => j_word(0x6F, rd, imm),
        Inst::Jalr { rd, rs1, imm } => i_word(0x67, 0, rd, rs1, imm),
        Inst::Beq { rs1, rs2, imm } => b_word(0x63, 0, rs1, rs2, imm),
        Inst::Bne { rs1, rs2, imm } => b_word(0x63, 1, rs1, rs2, imm),
        Inst::Blt { rs1, rs2, imm } => b_word(0x63, 4, rs1, rs2, imm),
        Inst::Bge { rs1, rs2, imm } => b_word(0x63, 5, rs1, rs2, imm),
        Inst::Bltu { rs1, rs2, imm } => b_word(0x63, 6, rs1, rs2, imm),
        Inst::Bgeu { rs1, rs2, imm } => b_word(0x63, 7, rs1, rs2, imm),
        Inst::Lb { rd, rs1, imm } => i_word(0x03, 0, rd, rs1, imm),
        Inst::Lh { rd, rs1, imm } => i_word(0x03, 1, rd, rs1, imm),
        Inst::Lw { rd, rs1, imm } => i_word(0x03, 2, rd, rs1, imm),
        Inst::Lbu { rd, rs1, imm } => i_word(0x03, 4, rd, rs1, imm),
        Inst::Lhu { rd, rs1, imm } => i_word(0x03, 5, rd, rs1, imm),
        Inst::Sb { rs1, rs2, imm } => s_word(0x23, 0, rs1, rs2, imm),
        Inst::Sh { rs1, rs2, imm } => s_word(0x23, 1, rs1, rs2, imm),
        Inst::Sw { rs1, rs2, imm } => s_word(0x23, 2, rs1, rs2, imm),
        Inst::Addi { rd, rs1, imm } => i_word(0x13, 0, rd, rs1, imm),
        Inst::Slti { rd, rs1, imm } => i_word(0x13, 2, rd, rs1, imm),
        Inst::Sltiu { rd, rs1, imm } => i_word(0x13, 3, rd, rs1, imm),
        Inst::Xori { rd, rs1, imm } => i_word(0x13, 4, rd, rs1, imm),
        Inst::Ori { rd, rs1, imm } => i_word(0x13, 6, rd, rs1, imm),
        Inst::Andi { rd, rs1, imm } => i_word(0x13, 7, rd, rs1, imm),
        Inst::Slli { rd, rs1, imm } => shift_word(0x13, 1, 0, rd, rs1, imm),
        Inst::Srli { rd, rs1, imm } => shift_word(0x13, 5, 0, rd, rs1, imm),
        Inst::Srai { rd, rs1, imm } => shift_word(0x13, 5, 0x20, rd, rs1, imm),
        Inst::Add { rd, rs1, rs2 } => r_word(0x33, 0, 0, rd, rs1, rs2),
        Inst::Sub { rd, rs1, rs2 } => r_word(0x33, 0, 0x20, rd, rs1, rs2),
        Inst::Sll { rd, rs1, rs2 } => r_word(0x33, 1, 0, rd, rs1, rs2),
        Inst::Slt { rd, rs1, rs2 } => r_word(0x33, 2, 0, rd, rs1, rs2),
        Inst::Sltu { rd, rs1, rs2 } => r_word(0x33, 3, 0, rd, rs1, rs2),
        Inst::Xor { rd, rs1, rs2 } => r_word(0x33, 4, 0, rd, rs1, rs2),
        Inst::Srl { rd, rs1, rs2 } => r_word(0x33, 5, 0, rd, rs1, rs2),
        Inst::Sra { rd, rs1, rs2 } => r_word(0x33, 5, 0x20, rd, rs1, rs2),
        Inst::Or { rd, rs1, rs2 } => r_word(0x33, 6, 0, rd, rs1, rs2),
        Inst::And { rd, rs1, rs2 } => r_word(0x33, 7, 0, rd, rs1, rs2),
        Inst::Mul { rd, rs1, rs2 } => r_word(0x33, 0, 1, rd, rs1, rs2),
        Inst::Mulh { rd, rs1, rs2 } => r_word(0x33, 1, 1, rd, rs1, rs2),
        Inst::Mulhsu { rd, rs1, rs2 } => r_word(0x33, 2, 1, rd, rs1, rs2),
        Inst::Mulhu { rd, rs1, rs2 } => r_word(0x33, 3, 1, rd, rs1, rs2),
        Inst::Div { rd, rs1, rs2 } => r_word(0x33, 4, 1, rd, rs1, rs2),
        Inst::Divu { rd, rs1, rs2 } => r_word(0x33, 5, 1, rd, rs1, rs2),
        Inst::Rem { rd, rs1, rs2 } => r_word(0x33, 6, 1, rd, rs1, rs2),
        Inst::Remu { rd, rs1, rs2 } => r_word(0x33, 7, 1, rd, rs1, rs2),
        Inst::Fence { rest } => order_word(0x0F, 0, rest),
        Inst::FenceI { rest } => order_word(0x0F, 1, rest),
        Inst::Ecall => 0x00000073,
        Inst::Ebreak => 0x00100073,
    }
}

fn r_word(opcode: u32, funct3: u32, funct7: u32, rd: u8, rs1: u8, rs2: u8) -> u32
    requires numbers { (opcode < 2 ^ 7) × (funct3 < 2 ^ 3) × (funct7 < 2 ^ 7) }
    requires fields { InRange (R opcode funct3 funct7 rd rs1 rs2) }
    ensures value { result ≡ word_of_row (R opcode funct3 funct7 rd rs1 rs2) }
    ensures in_table { Holds result (R opcode funct3 funct7 rd rs1 rs2) }
{
    opcode
        + (u32::from(rd) << 7)
        + (funct3 << 12)
        + (u32::from(rs1) << 15)
        + (u32::from(rs2) << 20)
        + (funct7 << 25)
}

fn i_word(opcode: u32, funct3: u32, rd: u8, rs1: u8, imm: i32) -> u32
    requires numbers { (opcode < 2 ^ 7) × (funct3 < 2 ^ 3) }
    requires fields { InRange (I opcode funct3 rd rs1 imm) }
    ensures value { result ≡ word_of_row (I opcode funct3 rd rs1 imm) }
    ensures in_table { Holds result (I opcode funct3 rd rs1 imm) }
{
    opcode
        + (u32::from(rd) << 7)
        + (funct3 << 12)
        + (u32::from(rs1) << 15)
        + ((imm.cast_unsigned() & 0xFFF) << 20)
}

fn shift_word(opcode: u32, funct3: u32, funct7: u32, rd: u8, rs1: u8, amount: i32) -> u32
    requires numbers { (opcode < 2 ^ 7) × (funct3 < 2 ^ 3) × (funct7 < 2 ^ 7) }
    requires fields { InRange (Shift opcode funct3 funct7 rd rs1 amount) }
    ensures value { result ≡ word_of_row (Shift opcode funct3 funct7 rd rs1 amount) }
    ensures in_table { Holds result (Shift opcode funct3 funct7 rd rs1 amount) }
{
    opcode
        + (u32::from(rd) << 7)
        + (funct3 << 12)
        + (u32::from(rs1) << 15)
        + ((amount.cast_unsigned() & 0x1F) << 20)
        + (funct7 << 25)
}

fn s_word(opcode: u32, funct3: u32, rs1: u8, rs2: u8, imm: i32) -> u32
    requires numbers { (opcode < 2 ^ 7) × (funct3 < 2 ^ 3) }
    requires fields { InRange (S opcode funct3 rs1 rs2 imm) }
    ensures value { result ≡ word_of_row (S opcode funct3 rs1 rs2 imm) }
    ensures in_table { Holds result (S opcode funct3 rs1 rs2 imm) }
{
    let imm = imm.cast_unsigned();
    opcode
        + ((imm & 0x1F) << 7)
        + (funct3 << 12)
        + (u32::from(rs1) << 15)
        + (u32::from(rs2) << 20)
        + (((imm >> 5) & 0x7F) << 25)
}

fn b_word(opcode: u32, funct3: u32, rs1: u8, rs2: u8, imm: i32) -> u32
    requires numbers { (opcode < 2 ^ 7) × (funct3 < 2 ^ 3) }
    requires fields { InRange (B opcode funct3 rs1 rs2 imm) }
    ensures value { result ≡ word_of_row (B opcode funct3 rs1 rs2 imm) }
    ensures in_table { Holds result (B opcode funct3 rs1 rs2 imm) }
{
    let imm = imm.cast_unsigned();
    opcode
        + (((imm >> 11) & 1) << 7)
        + (((imm >> 1) & 0xF) << 8)
        + (funct3 << 12)
        + (u32::from(rs1) << 15)
        + (u32::from(rs2) << 20)
        + (((imm >> 5) & 0x3F) << 25)
        + (((imm >> 12) & 1) << 31)
}

fn u_word(opcode: u32, rd: u8, imm: i32) -> u32
    requires numbers { opcode < 2 ^ 7 }
    requires fields { InRange (U opcode rd imm) }
    ensures value { result ≡ word_of_row (U opcode rd imm) }
    ensures in_table { Holds result (U opcode rd imm) }
{
    opcode + (u32::from(rd) << 7) + ((imm.cast_unsigned() >> 12) << 12)
}

fn j_word(opcode: u32, rd: u8, imm: i32) -> u32
    requires numbers { opcode < 2 ^ 7 }
    requires fields { InRange (J opcode rd imm) }
    ensures value { result ≡ word_of_row (J opcode rd imm) }
    ensures in_table { Holds result (J opcode rd imm) }
{
    let imm = imm.cast_unsigned();
    opcode
        + (u32::from(rd) << 7)
        + (((imm >> 12) & 0xFF) << 12)
        + (((imm >> 11) & 1) << 20)
        + (((imm >> 1) & 0x3FF) << 21)
        + (((imm >> 20) & 1) << 31)
}

fn order_word(opcode: u32, funct3: u32, rest: u32) -> u32
    requires numbers { (opcode < 2 ^ 7) × (funct3 < 2 ^ 3) }
    requires fields { InRange (Order opcode funct3 rest) }
    ensures value { result ≡ word_of_row (Order opcode funct3 rest) }
    ensures in_table { Holds result (Order opcode funct3 rest) }
{
    opcode + (funct3 << 12) + rest
}
