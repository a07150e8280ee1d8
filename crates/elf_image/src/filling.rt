ghost use Rattle.std.specs.Prelude.{◌≡◌, ℕ, ◌+◌, ◌-◌, ◌<◌, ◌≤◌, length, slice_index, if◌then◌else◌, false, IfOk};
ghost use Rattle.elf_image.specs.Segments.{fills, passes_file};
ghost use Rattle.elf_image.specs.Filling.{CanFill};
ghost use Rattle.elf_image.specs.Image.{byte_at};

use crate::program_header::ProgramHeader;
use smarts_base::NoMemory;
use std::alloc::Global;

/// Copies the segment's bytes of the file to their place in memory, which begins at `low`.
fn fill(memory: &mut [u8], low: u32, bytes: &[u8], segment: &ProgramHeader)
    requires above { low ≤ segment.now.address }
    requires below { segment.now.address + segment.now.file_size ≤ low + length memory.old }
    requires in_file { passes_file (length bytes.now) segment.now ≡ false }
    ensures { (k : ℕ) → k < length memory.old → slice_index memory.new k
        ≡ (if fills segment.now (low + k) then slice_index bytes.now (segment.now.offset + (low + k - segment.now.address))
        else slice_index memory.old k) }
{
    if segment.file_size == 0 {
        return;
    }
    let place = (segment.address - low) as usize;
    let from = segment.offset as usize;
    let count = segment.file_size as usize;
    memory[place..place + count].copy_from_slice(&bytes[from..from + count]);
}

/// Fills memory, which begins at `low` and is all zeros, with the bytes that the segments have in
/// the file.
fn fill_all(memory: &mut [u8], low: u32, bytes: &[u8], segments: &[ProgramHeader])
    requires zeros { (k : ℕ) → slice_index memory.old k ≡ 0 }
    requires segments { CanFill low (length memory.old) bytes.now segments.now }
    ensures { (k : ℕ) → k < length memory.old → slice_index memory.new k ≡ byte_at bytes.now segments.now (low + k) }
{
    for segment in segments {
        fill(memory, low, bytes, segment);
    }
}

/// The bytes of memory from `low` on, as the segments give them.
pub fn memory_of(
    alloc: Global,
    low: u32,
    len: usize,
    bytes: &[u8],
    segments: &[ProgramHeader],
) -> Result<Vec<u8>, NoMemory>
    requires { CanFill low len bytes.now segments.now }
    ensures len { IfOk result (λ memory. length memory.items ≡ len) }
    ensures bytes { IfOk result (λ memory. (k : ℕ) → k < len →
        slice_index memory.items k ≡ byte_at bytes.now segments.now (low + k)) }
{
    let mut memory = vec![in alloc; 0u8; len]?;
    fill_all(&mut memory, low, bytes, segments);
    Ok(memory)
}
