ghost use Rattle.std.specs.Prelude.{◌≡◌, ◌≤◌, [], IsSome, Err, IfOk, IfErr, length};
ghost use Rattle.library_fold.specs.Batches.{AreTaken, HaveRoom, IsBatchRead};
ghost use Rattle.library_fold.specs.Stops.{IsStopped};
ghost use Rattle.smarts_io.specs.Causes.{Rose};

use crate::stop::Stop;
use library_reader::{Intake, Part};
use live_points::LivePoint;
use smarts_io::{ReadError, Source};
use std::alloc::Global;

/// A crew takes points in batches of so many.
const BATCH: usize = 128;

/// Reads the next batch of points: whether the library has ended behind it.
pub fn next_batch<S: Source>(
    alloc: Global,
    intake: &mut Intake,
    source: &mut S,
    batch: &mut Vec<LivePoint>,
) -> Result<bool, Stop>
    requires front { IsSome intake.old.front }
    requires none_yet { batch.old.items ≡ [] }
    ensures read { IfOk result (λ over. IsBatchRead over intake.old intake.new (S.rest source.old) (S.rest source.new) batch.new.items) }
    ensures taken { AreTaken intake.old.front batch.new.items }
    ensures room { HaveRoom intake.old batch.new.items }
    ensures few { length batch.new.items ≤ 128 }
    ensures fault { IfErr result (λ stop. IsStopped stop intake.old (S.rest source.old) (S.rest source.new)) }
    ensures failed { result ≡ Err (Stop.Read ReadError.Failed) → Rose (S.faults source.old) (S.faults source.new) }
    ensures later { S.faults source.old ≤ S.faults source.new }
{
    while batch.len() < BATCH {
        match intake.next(alloc, source)? {
            Part::Point(point) => batch.push(point)?,
            Part::Fault(fault) => return Err(Stop::Library(fault)),
            Part::End => return Ok(true),
            Part::Header | Part::More => unreachable!(),
        }
    }
    Ok(false)
}
