ghost use Rattle.rv_machine.specs.Start.{start_of};
ghost use Rattle.sample_design.specs.Design.{IsUsable};
ghost use Rattle.warming.specs.Learning.{AreUsable};
ghost use Rattle.warming.specs.Warming.{IsWarmed, header_or_fault};

use crate::collecting::collect;
use crate::fault::WarmFault;
use crate::header::header_of;
use crate::visiting::put_in_visit_order;
use elf_image::Image;
use live_points::Records;
use livepoint_format::{Library, sharing};
use sample_design::Design;
use smarts_base::Refusal;
use std::alloc::Global;

/// The library of an image's run: the live-points of its sampled units in the order of visits, and the pairs that
/// they share. Or the first fault: the run traps, it goes on beyond the budget, it has no sample of this design. The
/// run is done twice, first for how it ends.
pub fn warm(
    alloc: Global,
    image: &Image,
    design: &Design,
    records: &Records,
) -> Result<Library, Refusal<WarmFault>>
    requires design { IsUsable design.now }
    requires records { AreUsable records.now }
    ensures { IsWarmed (start_of image.now) (header_or_fault (start_of image.now) design.now records.now) result }
{
    let _entry = image.entry();
    let header = header_of(alloc, image, design, records)?;
    let mut points = collect(alloc, image, &header)?;
    put_in_visit_order(&mut points, header.design.seed);
    let shared = sharing(alloc, points.as_slice())?;
    Ok(Library::from_points(header, shared, points))
}
