ghost use Rattle.std.specs.Prelude.{◌≡◌, ◌<◌, ◌≤◌, ◌*◌, ◌^◌, ◌-ℤ◌, pos, nat_lt, if◌then◌else◌};
ghost use Rattle.rv_isa.specs.Field.{opcode_of, funct3_of, funct7_of, rd_of, rs1_of, rs2_of, shamt_of, imm_i, imm_s, imm_b, imm_u, imm_j, rest_of};

pub fn opcode(word: u32) -> u32
    ensures { result ≡ opcode_of word }
{
    word & 0x7F
}

pub fn funct3(word: u32) -> u32
    ensures { result ≡ funct3_of word }
{
    (word >> 12) & 7
}

pub fn funct7(word: u32) -> u32
    ensures { result ≡ funct7_of word }
{
    word >> 25
}

pub fn rd(word: u32) -> u8
    ensures { result ≡ rd_of word }
{
    ((word >> 7) & 0x1F) as u8
}

pub fn rs1(word: u32) -> u8
    ensures { result ≡ rs1_of word }
{
    ((word >> 15) & 0x1F) as u8
}

pub fn rs2(word: u32) -> u8
    ensures { result ≡ rs2_of word }
{
    ((word >> 20) & 0x1F) as u8
}

/// The amount of a shift by an immediate.
pub fn shamt(word: u32) -> i32
    ensures { result ≡ shamt_of word }
{
    ((word >> 20) & 0x1F) as i32
}

/// The number that bits stand for in two's complement, where `half` is the place of the sign bit.
fn sign_extended(value: u32, half: u32) -> i32
    requires half { half ≤ 2 ^ 20 }
    requires value { value < 2 * half }
    ensures { result ≡ (if nat_lt value half then pos value else pos value -ℤ pos (2 * half)) }
{
    if value < half {
        value as i32
    } else {
        value as i32 - 2 * half as i32
    }
}

pub fn imm_i(word: u32) -> i32
    ensures { result ≡ imm_i word }
{
    sign_extended(word >> 20, 0x800)
}

pub fn imm_s(word: u32) -> i32
    ensures { result ≡ imm_s word }
{
    sign_extended(((word >> 25) << 5) + ((word >> 7) & 0x1F), 0x800)
}

pub fn imm_b(word: u32) -> i32
    ensures { result ≡ imm_b word }
{
    let value = ((word >> 31) << 12)
        + (((word >> 7) & 1) << 11)
        + (((word >> 25) & 0x3F) << 5)
        + (((word >> 8) & 0xF) << 1);
    sign_extended(value, 0x1000)
}

pub fn imm_u(word: u32) -> i32
    ensures { result ≡ imm_u word }
{
    (word & 0xFFFF_F000).cast_signed()
}

pub fn imm_j(word: u32) -> i32
    ensures { result ≡ imm_j word }
{
    let value = ((word >> 31) << 20)
        + (((word >> 12) & 0xFF) << 12)
        + (((word >> 20) & 1) << 11)
        + (((word >> 21) & 0x3FF) << 1);
    sign_extended(value, 0x10_0000)
}

/// A fence's word with its opcode and funct3 cleared.
pub fn rest(word: u32) -> u32
    ensures { result ≡ rest_of word }
{
    ((word >> 15) << 15) + (((word >> 7) & 0x1F) << 7)
}
