ghost use Rattle.std.specs.Prelude.{◌≡◌, ℕ, ◌-◌, ◌<◌, ◌≤◌, length, slice_index_or, All, IfOk, true, false};
ghost use Rattle.std.specs.List.{AllAdjacentBelow};
ghost use Rattle.elf_image.specs.Segments.{memory_end, overlap};
ghost use Rattle.elf_image.specs.declared.program_header.ProgramHeader.{ProgramHeader};

use crate::program_header::ProgramHeader;
use smarts_base::NoMemory;
use std::alloc::Global;

/// Whether a segment goes on past the address at which the next one begins.
fn reaches_next(sorted: &[ProgramHeader]) -> bool
    ensures none { result ≡ false → AllAdjacentBelow (λ a b. memory_end a ≤ b.address) sorted.now (length sorted.now) }
    ensures some { result ≡ true → (k : ℕ) × (0 < k) × (k < length sorted.now) × ((d : ProgramHeader) →
        (slice_index_or sorted.now k d).address < memory_end (slice_index_or sorted.now (k - 1) d)) }
{
    for i in 1..sorted.len() {
        if u64::from(sorted[i].address) < sorted[i - 1].memory_end() {
            return true;
        }
    }
    false
}

/// Whether two of the segments share an address. Only neighbours by address need a look.
pub fn overlap(alloc: Global, segments: &[ProgramHeader]) -> Result<bool, NoMemory>
    requires { All (λ s. 0 < s.memory_size) segments.now }
    ensures { IfOk result (λ found. found ≡ overlap segments.now) }
{
    let mut sorted = segments.to_vec(alloc)?;
    sorted.sort_unstable_by_key(|segment| segment.address);
    Ok(reaches_next(&sorted))
}
