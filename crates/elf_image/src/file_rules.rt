ghost use Rattle.std.specs.Prelude.{◌≡◌, ℕ, ◌≤◌, length, OnOk, true};
ghost use Rattle.elf_image.specs.Rules.{is_riscv32, verdict, file_rules};
ghost use Rattle.elf_image.specs.Fields.{has_headers};

use crate::fault::ImageFault;
use crate::fields::{
    FILE_HEADER, file_type, flags, header_count, header_size, headers_place, machine,
};
use crate::program_header::PROGRAM_HEADER;

/// The most bytes that a file may have, and the most that its memory may span.
pub const LIMIT: usize = 67_108_864;

const MAGIC: [u8; 4] = [0x7F, 0x45, 0x4C, 0x46];

/// EM_RISCV.
const RISCV: u16 = 243;

/// ET_EXEC.
const EXECUTABLE: u16 = 2;

/// EF_RISCV_RVC: the file has compressed instructions.
const COMPRESSED: u32 = 1;

fn is_riscv32(bytes: &[u8]) -> bool
    requires { 52 ≤ length bytes.now }
    ensures { result ≡ is_riscv32 bytes.now }
{
    bytes[4] == 1 && bytes[5] == 1 && machine(bytes) == RISCV
}

fn has_headers(bytes: &[u8]) -> bool
    requires { 52 ≤ length bytes.now }
    ensures { result ≡ has_headers bytes.now }
{
    let count = usize::from(header_count(bytes));
    if count == 0 {
        return true;
    }
    let end = headers_place(bytes) as usize + PROGRAM_HEADER * count;
    usize::from(header_size(bytes)) == PROGRAM_HEADER && end <= bytes.len()
}

/// Judges the rules on the file header and on the table of program headers.
#[tactic(auto, unfolding(crate::specs::Rules::breaks, crate::specs::Rules::verdict))]
pub fn judge_file(bytes: &[u8]) -> Result<(), ImageFault>
    ensures verdict { result ≡ verdict bytes.now file_rules }
    ensures header { OnOk result (52 ≤ length bytes.now) }
    ensures table { OnOk result (has_headers bytes.now ≡ true) }
{
    if bytes.len() > LIMIT {
        return Err(ImageFault::TooLarge);
    }
    if bytes.len() < FILE_HEADER || !bytes.starts_with(&MAGIC) {
        return Err(ImageFault::NotElf);
    }
    if !is_riscv32(bytes) {
        return Err(ImageFault::NotRiscv32);
    }
    if file_type(bytes) != EXECUTABLE {
        return Err(ImageFault::NotExecutable);
    }
    if flags(bytes) & COMPRESSED != 0 {
        return Err(ImageFault::Compressed);
    }
    if !has_headers(bytes) {
        return Err(ImageFault::HeaderOutside);
    }
    Ok(())
}
