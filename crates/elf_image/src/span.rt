ghost use Rattle.std.specs.Prelude.{◌≡◌, ℕ, ◌+◌, ◌-◌, ◌*◌, ◌/◌, ◌≤◌, false};
ghost use Rattle.std.specs.List.{list_any};
ghost use Rattle.elf_image.specs.Segments.{is_misplaced};
ghost use Rattle.elf_image.specs.Span.{lowest_address, highest_end, low_of, heap_low_of};

use crate::program_header::ProgramHeader;

/// Memory begins and ends where a page does.
const PAGE: u32 = 4096;

#[tactic(auto, unfolding(crate::specs::Span::lowest_address))]
fn lowest_address(segments: &[ProgramHeader]) -> u32
    ensures { result ≡ lowest_address segments.now }
{
    segments
        .iter()
        .fold(u32::MAX, |least, segment| least.min(segment.address))
}

#[tactic(auto, unfolding(crate::specs::Span::highest_end))]
fn highest_end(segments: &[ProgramHeader]) -> u64
    ensures { result ≡ highest_end segments.now }
{
    segments
        .iter()
        .fold(0, |most: u64, segment| most.max(segment.memory_end()))
}

/// The start of the page with the lowest address of a segment.
pub fn low_of(segments: &[ProgramHeader]) -> u32
    ensures { result ≡ low_of segments.now }
{
    lowest_address(segments) / PAGE * PAGE
}

/// The end of the page with the highest address of a segment, where the heap begins.
#[tactic(auto, using(crate::proofs::Spans::highest_below))]
pub fn heap_low_of(segments: &[ProgramHeader]) -> u32
    requires { list_any is_misplaced segments.now ≡ false }
    ensures { result ≡ heap_low_of segments.now }
{
    (highest_end(segments) as u32 + (PAGE - 1)) / PAGE * PAGE
}
