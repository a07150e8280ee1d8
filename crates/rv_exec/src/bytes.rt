ghost use Rattle.std.specs.Prelude.{◌≡◌, ◌<◌, ◌%◌, ◌^◌, ℕ};
ghost use Rattle.std.specs.Int.{cast_signed, w8, w16};
ghost use Rattle.rv_exec.specs.Bytes as meaning;
ghost use Rattle.rv_exec.specs.Word as words;

use crate::action::Size;

#[tactic(auto, unfolding(crate::specs::Bytes::byte_in))]
fn byte_in(word: u32, addr: u32) -> u8
    ensures { result ≡ meaning.byte_in word addr }
{
    word.to_le_bytes()[(addr % 4) as usize]
}

#[tactic(auto, unfolding(crate::specs::Bytes::half_in))]
fn half_in(word: u32, addr: u32) -> u16
    requires { addr % 2 ≡ 0 }
    ensures { result ≡ meaning.half_in word addr }
{
    u16::from(byte_in(word, addr)) + (u16::from(byte_in(word, addr + 1)) << 8)
}

#[tactic(auto, unfolding(crate::specs::Bytes::with_byte))]
fn with_byte(word: u32, addr: u32, value: u32) -> u32
    ensures { result ≡ meaning.with_byte word addr value }
{
    let mut bytes = word.to_le_bytes();
    bytes[(addr % 4) as usize] = (value & 0xFF) as u8;
    u32::from_le_bytes(bytes)
}

#[tactic(auto, unfolding(crate::specs::Bytes::with_half))]
fn with_half(word: u32, addr: u32, value: u32) -> u32
    requires { addr % 2 ≡ 0 }
    ensures { result ≡ meaning.with_half word addr value }
{
    with_byte(with_byte(word, addr, value), addr + 1, value >> 8)
}

/// How many bytes a load or a store moves.
pub fn size_of(size: Size) -> u32
    ensures { result ≡ meaning.size_of size }
{
    match size {
        Size::Byte => 1,
        Size::Half => 2,
        Size::Word => 4,
    }
}

fn sign_of_byte(byte: u8) -> u32
    ensures { result ≡ words.word (cast_signed w8 byte) }
{
    i32::from(byte.cast_signed()).cast_unsigned()
}

fn sign_of_half(half: u16) -> u32
    ensures { result ≡ words.word (cast_signed w16 half) }
{
    i32::from(half.cast_signed()).cast_unsigned()
}

/// What a load gives of the word that holds the address.
pub fn loaded(size: Size, signed: bool, word: u32, addr: u32) -> u32
    requires { addr % meaning.size_of size ≡ 0 }
    ensures { result ≡ meaning.loaded size signed word addr }
{
    match size {
        Size::Byte if signed => sign_of_byte(byte_in(word, addr)),
        Size::Byte => u32::from(byte_in(word, addr)),
        Size::Half if signed => sign_of_half(half_in(word, addr)),
        Size::Half => u32::from(half_in(word, addr)),
        Size::Word => word,
    }
}

/// The word that holds the address, after a store.
pub fn with_part(size: Size, word: u32, addr: u32, value: u32) -> u32
    requires { addr % meaning.size_of size ≡ 0 }
    ensures { result ≡ meaning.with_part size word addr value }
{
    match size {
        Size::Byte => with_byte(word, addr, value),
        Size::Half => with_half(word, addr, value),
        Size::Word => value,
    }
}
