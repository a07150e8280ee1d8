ghost use Rattle.std.specs.Prelude.{◌≡◌, ◌<◌, ◌≤◌, Some, None, Err, IfOk};
ghost use Rattle.confidence.specs.Confidence.{IsInRange};
ghost use Rattle.ordered_fold.specs.Batch.{pushed_number};
ghost use Rattle.ordered_fold.specs.Front.{IsSound};
ghost use Rattle.ordered_fold.specs.declared.ending.Ending.TheVariants.{Going};
ghost use Rattle.sample_design.specs.Design.{IsUsable};
ghost use Rattle.smarts_base.specs.Outcome.{Answers};
ghost use Rattle.smarts_io.specs.Causes.{Rose};
ghost use Rattle.smarts_text.specs.Processor.{IsAsked};
ghost use Rattle.smarts_text.specs.Report.{IsReported, report_of};
ghost use Rattle.turbosmarts.specs.commands.Estimate.{estimate_result, report_or_fault};
ghost use Rattle.turbosmarts.specs.Served.{IsServed};
ghost use Rattle.turbosmarts.specs.Stages.{library_limit, written_as};

use crate::fault::InputFault;
use crate::stop::Stop;
use crate::written::Written;
use confidence::Test;
use library_fold::{fold_points, pass_points, read_header};
use library_reader::Intake;
use live_points::{Header, within};
use livepoint_format::LibraryFault;
use ordered_fold::{Ending, Front};
use smarts_base::{Gate, NoMemory, Refusal};
use smarts_io::{ReadError, Source};
use smarts_text::{Asked, DesignFault, report_text};
use std::alloc::Global;
use std::thread::Threads;
use window_sim::crew;

/// The report on the library that the source gives, or the first fault: of the library, of the processor, of its
/// points. The library is read to its end before there is an answer, and no more of it is kept than a batch of points.
pub fn answer<R: Threads + Sync, S: Source, G: Gate + Sync>(
    rt: &R,
    alloc: Global,
    asked: &Asked,
    test: &Test,
    workers: u32,
    source: &mut S,
    gate: &G,
) -> Result<Written, Stop>
    requires asked { IsAsked asked.now }
    requires test { IsInRange test.now }
    requires workers { (1 ≤ workers) × (workers ≤ 64) }
    ensures served { IsServed result (Some library_limit) (estimate_result asked.now test.now) (S.rest source.old) (S.rest source.new) }
    ensures failed { result ≡ Err (Stop.Read ReadError.Failed) → Rose (S.faults source.old) (S.faults source.new) }
    ensures later { S.faults source.old ≤ S.faults source.new }
{
    let mut intake = Intake::new(alloc)?;
    let header = read_header(alloc, &mut intake, source)?;
    let config = asked.config(&header.records);
    if let Some(structure) = within(&header, &config) {
        pass_points(alloc, &mut intake, source)?;
        return Err(Stop::Fault(InputFault::BadDesign(DesignFault::Beyond { structure })));
    }
    let mut crew = crew(alloc, &header, &config, *test, workers as usize)?;
    fold_points(rt, alloc, &mut intake, source, &mut crew, gate)?;
    Ok(report(alloc, &header, test, crew.front())?)
}

// The report on the points of a header, of which this is the fold, or the point at which it ended.
fn report(
    alloc: Global,
    header: &Header,
    test: &Test,
    front: Front,
) -> Result<Written, Refusal<InputFault>>
    requires design { IsUsable header.now.design }
    requires test { IsInRange test.now }
    requires sound { IsSound front }
    requires ended { (front.ending ≡ Going → ⊥) × (0 < pushed_number front) }
    ensures { Answers (λ written. written) result (report_or_fault front.ending
        (report_of header.now.length header.now.points header.now.design.unit front.ending front.sums test.now.z)) }
{
    match front.ending() {
        Ending::Faulted { point, fault } => Err(Refusal::Fault(InputFault::BadLibrary(
            LibraryFault::BadPoint { point, fault },
        ))),
        Ending::Going => unreachable!(),
        Ending::Stopped { .. } => Ok(told(alloc, header, test, front)?),
        Ending::Exhausted => Ok(told(alloc, header, test, front)?),
    }
}

fn told(alloc: Global, header: &Header, test: &Test, front: Front) -> Result<Written, NoMemory>
    requires design { IsUsable header.now.design }
    requires test { IsInRange test.now }
    requires sound { IsSound front }
    requires reported { IsReported front.ending }
    requires measured { 1 ≤ front.sums.n }
    ensures { IfOk result (λ written. written ≡ written_as
        (report_of header.now.length header.now.points header.now.design.unit front.ending front.sums test.now.z) None) }
{
    let text = report_text(
        alloc,
        header.length,
        header.points,
        header.design.unit,
        front.ending(),
        front.sums(),
        test.z,
    )?;
    Ok(Written::new(text.into_bytes(), None))
}
