ghost use Rattle.std.specs.Prelude.{◌≡◌, ℕ, ◌≤◌, length};
ghost use Rattle.std.specs.List.{list_any};
ghost use Rattle.elf_image.specs.Fields.{entry_of};
ghost use Rattle.elf_image.specs.Segments.{segments_of, passes_file, is_misplaced, holds, is_entry};
ghost use Rattle.elf_image.specs.Rules.{verdict, segment_rules};
ghost use Rattle.smarts_base.specs.Outcome.{Answers};

use crate::fault::ImageFault;
use crate::fields::entry_of;
use crate::file_rules::LIMIT;
use crate::overlap::overlap;
use crate::program_header::ProgramHeader;
use crate::span::{heap_low_of, low_of};
use smarts_base::Refusal;
use std::alloc::Global;

fn some_passes_file(segments: &[ProgramHeader], len: usize) -> bool
    ensures { result ≡ list_any (passes_file len) segments.now }
{
    segments
        .iter()
        .any(|segment| segment.passes_file(len as u64))
}

fn some_is_misplaced(segments: &[ProgramHeader]) -> bool
    ensures { result ≡ list_any is_misplaced segments.now }
{
    segments.iter().any(|segment| segment.is_misplaced())
}

fn some_holds(segments: &[ProgramHeader], addr: u32) -> bool
    ensures { result ≡ list_any (λ s. holds s addr) segments.now }
{
    segments.iter().any(|segment| segment.holds(addr))
}

fn is_entry(segments: &[ProgramHeader], addr: u32) -> bool
    ensures { result ≡ is_entry segments.now addr }
{
    addr % 4 == 0 && some_holds(segments, addr)
}

/// Judges the rules on a file's loaded segments.
#[tactic(auto, unfolding(crate::specs::Rules::breaks, crate::specs::Rules::verdict), using(crate::proofs::Loaded::sizes_of))]
pub fn judge_segments(
    alloc: Global,
    bytes: &[u8],
    segments: &[ProgramHeader],
) -> Result<(), Refusal<ImageFault>>
    requires header { 52 ≤ length bytes.now }
    requires segments { segments.now ≡ segments_of bytes.now }
    ensures { Answers (λ u. u) result (verdict bytes.now segment_rules) }
{
    if some_passes_file(segments, bytes.len()) {
        return Err(Refusal::Fault(ImageFault::SegmentOutside));
    }
    if some_is_misplaced(segments) {
        return Err(Refusal::Fault(ImageFault::SegmentRange));
    }
    if overlap(alloc, segments)? {
        return Err(Refusal::Fault(ImageFault::Overlap));
    }
    let span = heap_low_of(segments).saturating_sub(low_of(segments));
    if span as usize > LIMIT {
        return Err(Refusal::Fault(ImageFault::SpanTooLarge));
    }
    if !is_entry(segments, entry_of(bytes)) {
        return Err(Refusal::Fault(ImageFault::BadEntry));
    }
    Ok(())
}
