ghost use Rattle.std.specs.Prelude.{◌≡◌, ◌≤◌, ◌<◌, ◌^◌, length, slice_index_or, slice_set, All, IfOk, OnOk};
ghost use Rattle.live_points.specs.declared.point.LivePoint as point;
ghost use Rattle.rv_exec.specs.Machine.{State};
ghost use Rattle.rv_machine.specs.Start.{start_of};
ghost use Rattle.sample_design.specs.Design.{IsUsable};
ghost use Rattle.sample_design.specs.Units.{sampled_unit};
ghost use Rattle.warming.specs.Collecting.{CanCollect, IsCollecting, IsUnderWay, begin_of, points_in_order, with_words};
ghost use Rattle.warming.specs.Passing.{HasFields};

use crate::pass::Pass;
use elf_image::Image;
use live_points::{Header, LivePoint};
use live_words::Words;
use smarts_base::NoMemory;
use std::alloc::Global;

/// The number of a sampled unit.
fn unit_at(header: &Header, p: u32) -> u32
    requires few { p < 65536 }
    requires design { IsUsable header.now.design }
    requires fits { sampled_unit header.now.design p < 2 ^ 32 }
    ensures { result ≡ sampled_unit header.now.design p }
{
    (u64::from(header.design.offset) + u64::from(header.design.every) * u64::from(p)) as u32
}

/// Starts the windows that begin before so many instructions are done.
fn start_until(
    pass: &mut Pass,
    points: &mut Vec<LivePoint>,
    header: &Header,
    end: u64,
) -> Result<(), NoMemory>
    requires at { pass.old.at ≤ end }
    requires end { end ≤ header.now.length }
    requires way { IsUnderWay header.now pass.old points.old.items }
    ensures way { OnOk result ((start : State) → CanCollect start header.now
        → IsCollecting start header.now pass.old points.old.items
        → IsCollecting start header.now pass.new points.new.items) }
    ensures at { OnOk result (pass.new.at ≤ end) }
    ensures ended { OnOk result (pass.new.windows.ended ≡ pass.old.windows.ended) }
    ensures all { OnOk result (length points.new.items < header.now.points
        → end ≤ begin_of header.now.design (length points.new.items)) }
{
    for p in points.len() as u32..header.points {
        let unit = unit_at(header, p);
        let window = header.design.window(u64::from(unit));
        if window.start >= end {
            return Ok(());
        }
        pass.run_to(window.start)?;
        points.push(pass.start(unit)?)?;
    }
    Ok(())
}

/// Gives the point at a place its words.
fn put_words_at(points: &mut [LivePoint], place: usize, words: Words)
    requires { place < length points.old }
    ensures { (begun : point.LivePoint) → begun ≡ slice_index_or points.old place begun
        → points.new ≡ slice_set points.old place (with_words begun words) }
{
    points[place].words = words;
}

fn put_words(points: &mut Vec<LivePoint>, place: usize, words: Words)
    requires { place < length points.old.items }
    ensures { (begun : point.LivePoint) → begun ≡ slice_index_or points.old.items place begun
        → points.new.items ≡ slice_set points.old.items place (with_words begun words) }
{
    put_words_at(points.as_mut_slice(), place, words);
}

/// The live-points of the sampled units of a run, in the order of the run.
pub fn collect(alloc: Global, image: &Image, header: &Header) -> Result<Vec<LivePoint>, NoMemory>
    requires { CanCollect (start_of image.now) header.now }
    ensures points { IfOk result (λ points.
        points.items ≡ points_in_order header.now (start_of image.now) header.now.points) }
    ensures fields { IfOk result (λ points. All HasFields points.items) }
{
    let mut pass = Pass::new(alloc, image, &header.records)?;
    let mut points = Vec::new(alloc);
    for p in 0..header.points {
        let window = header.design.window(u64::from(unit_at(header, p)));
        let end = window.start + u64::from(window.len);
        start_until(&mut pass, &mut points, header, end)?;
        pass.run_to(end)?;
        let words = pass.end()?;
        put_words(&mut points, p as usize, words);
    }
    Ok(points)
}
