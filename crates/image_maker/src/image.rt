ghost use Rattle.std.specs.Prelude.{◌≡◌, ◌++◌, ◌<◌, ◌≤◌, length, map, All, OnOk, IfOk};
ghost use Rattle.rv_isa.specs.Encoding.{word_of};
ghost use Rattle.rv_isa.specs.Table.{IsEncodable};
ghost use Rattle.image_maker.specs.Image as meaning;

use crate::program::program;
use rv_isa::{Inst, encode};
use smarts_base::NoMemory;
use std::alloc::Global;

/// The ELF32 header of an executable for RISC-V with two program headers behind it.
const FILE_HEADER: [u8; 52] = [
    0x7F, 0x45, 0x4C, 0x46, 1, 1, 1, 0, 0, 0, 0, 0, 0, 0, 0, 0, //
    2, 0, 243, 0, 1, 0, 0, 0, 0x74, 0, 1, 0, 52, 0, 0, 0, //
    0, 0, 0, 0, 0, 0, 0, 0, 52, 0, 32, 0, 2, 0, 0, 0, 0, 0, 0, 0,
];

/// Two segments: the program, which stands behind these headers, and its data, which the file has no
/// bytes of.
const PROGRAM_HEADERS: [u32; 16] = [
    1,
    116,
    0x0001_0074,
    0x0001_0074,
    1064,
    1064,
    5,
    4, //
    1,
    0,
    0x0002_0000,
    0x0002_0000,
    0,
    65536,
    6,
    4,
];

/// Appends words, each with its lowest byte first.
fn write_words(file: &mut Vec<u8>, words: &[u32]) -> Result<(), NoMemory>
    ensures { OnOk result (file.new.items ≡ file.old.items ++ meaning.words words.now) }
{
    for word in words {
        file.extend_from_slice(&word.to_le_bytes())?;
    }
    Ok(())
}

/// Appends the words of instructions.
fn write_program(file: &mut Vec<u8>, program: &[Inst]) -> Result<(), NoMemory>
    requires { All IsEncodable program.now }
    ensures { OnOk result
        (file.new.items ≡ file.old.items ++ meaning.words (map word_of program.now)) }
{
    for inst in program {
        file.extend_from_slice(&encode(inst).to_le_bytes())?;
    }
    Ok(())
}

/// The file of a program whose loop turns `size` times over drawn instructions, and which then
/// exits. It is an ELF file of 1180 bytes, a function of the two numbers.
pub fn make_image(alloc: Global, size: u32, seed: u64) -> Result<Vec<u8>, NoMemory>
    requires some { 0 < size }
    requires most { size ≤ 1_000_000 }
    ensures bytes { IfOk result (λ file. file.items ≡ meaning.image_file size seed) }
    ensures len { IfOk result (λ file. length file.items ≡ 1180) }
{
    let mut file = Vec::with_capacity(alloc, 1180)?;
    file.extend_from_slice(&FILE_HEADER)?;
    write_words(&mut file, &PROGRAM_HEADERS)?;
    write_program(&mut file, &program(alloc, size, seed)?)?;
    Ok(file)
}
