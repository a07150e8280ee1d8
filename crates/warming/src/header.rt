ghost use Rattle.std.specs.Prelude.{◌≡◌, IfOk};
ghost use Rattle.live_points.specs.Kinds.{AreKinds};
ghost use Rattle.livepoint_format.specs.Format.{IsHeader};
ghost use Rattle.livepoint_format.specs.Views.{head_of};
ghost use Rattle.rv_machine.specs.Outcome.{outcome_of};
ghost use Rattle.rv_machine.specs.Start.{start_of};
ghost use Rattle.sample_design.specs.Design.{IsUsable};
ghost use Rattle.smarts_base.specs.Outcome.{Answers};
ghost use Rattle.warming.specs.Collecting.{CanCollect};
ghost use Rattle.warming.specs.Learning.{AreUsable};
ghost use Rattle.warming.specs.Warming.{GoesTo, header_or_fault, header_with, length_or_fault};

use crate::copying::copied;
use crate::fault::WarmFault;
use elf_image::Image;
use live_points::{Header, Records};
use rv_machine::{Outcome, Whole};
use sample_design::Design;
use smarts_base::Refusal;
use std::alloc::Global;

/// The length of an image's run, which exits within the budget.
fn length_of(alloc: Global, image: &Image, budget: u64) -> Result<u64, Refusal<WarmFault>>
    ensures answer { Answers (λ n. n) result (length_or_fault (outcome_of (start_of image.now) budget)) }
    ensures goes { IfOk result (λ n. GoesTo (start_of image.now) budget n) }
{
    let mut whole = Whole::new(alloc, image, false)?;
    match whole.run(budget)? {
        Outcome::Exited { length, .. } => Ok(length),
        Outcome::Trapped { at, trap } => Err(Refusal::Fault(WarmFault::Trapped { at, trap })),
        Outcome::Spent => Err(Refusal::Fault(WarmFault::Spent)),
    }
}

/// The header of a library of so many points.
fn header_with(
    design: &Design,
    records: &Records,
    heap_low: u32,
    length: u64,
    points: u32,
) -> Header
    ensures value { result ≡ header_with design.now records.now heap_low length points }
    ensures kinds { AreKinds records.now.kinds }
{
    Header {
        version: 2,
        length,
        points,
        design: Design {
            budget: 1,
            ..*design
        },
        heap_low,
        records: copied(records),
    }
}

/// What all live-points of a run have in common, or the first fault: of the run, of its units.
pub fn header_of(
    alloc: Global,
    image: &Image,
    design: &Design,
    records: &Records,
) -> Result<Header, Refusal<WarmFault>>
    requires design { IsUsable design.now }
    requires records { AreUsable records.now }
    ensures answer { Answers (λ header. header) result (header_or_fault (start_of image.now) design.now records.now) }
    ensures collects { IfOk result (λ header. CanCollect (start_of image.now) header) }
    ensures header { IfOk result (λ header. IsHeader (head_of header)) }
    ensures version { IfOk result (λ header. header.version ≡ 2) }
    ensures heap { IfOk result (λ header. header.heap_low ≡ (start_of image.now).heap_low) }
{
    let length = length_of(alloc, image, design.budget)?;
    let points = match design.units(length) {
        Ok(count) => count,
        Err(fault) => return Err(Refusal::Fault(WarmFault::Units(fault))),
    };
    Ok(header_with(design, records, image.heap_low(), length, points))
}
