ghost use Rattle.std.specs.Prelude.{◌≡◌, All, OnOk, IfErr, false};
ghost use Rattle.smarts_base.specs.Outcome.{Answers};
ghost use Rattle.elf_image.specs.Image.{image_of};
ghost use Rattle.elf_image.specs.Rules.{rules, breaks};
ghost use Rattle.elf_image.specs.FirstBroken.{IsOfFirstBroken};

use crate::fault::ImageFault;
use crate::file_rules::judge_file;
use crate::image::Image;
use crate::segment::loaded_segments;
use crate::segment_rules::judge_segments;
use smarts_base::Refusal;
use std::alloc::Global;

/// Judges the parts of the file in turn, and loads what keeps all rules.
#[tactic(auto, unfolding(crate::specs::Image::image_of), using(crate::proofs::Verdicts::by_parts))]
fn judge_and_load(alloc: Global, bytes: &[u8]) -> Result<Image, Refusal<ImageFault>>
    ensures { Answers (λ image. image) result (image_of bytes.now) }
{
    judge_file(bytes).map_err(Refusal::Fault)?;
    let segments = loaded_segments(alloc, bytes)?;
    judge_segments(alloc, bytes, &segments)?;
    Ok(Image::load(alloc, bytes, &segments)?)
}

/// Reads an image from the bytes of an ELF file, or answers the fault of the first rule that the
/// file breaks.
///
/// Memory is taken for the program headers, at most 65,535 of them twice, and for the bytes that the
/// segments span, at most 64 MiB.
pub fn read_image(alloc: Global, bytes: &[u8]) -> Result<Image, Refusal<ImageFault>>
    ensures exact { Answers (λ image. image) result (image_of bytes.now) }

    // An image comes only where no rule is broken, and a fault is that of the first one.
    ensures kept { OnOk result (All (λ rule. breaks bytes.now rule ≡ false) rules) }
    ensures first { IfErr result (IsOfFirstBroken bytes.now) }
{
    judge_and_load(alloc, bytes)
}
