ghost use Rattle.std.specs.Prelude.{◌≡◌, ◌<◌, ◌≤◌, ◌+◌, min, length, map, All, IfOk};
ghost use Rattle.confidence.specs.Confidence.{IsInRange};
ghost use Rattle.workers.specs.Crew.{Alike};
ghost use Rattle.workers.specs.Tally.{IsTally};

use crate::{Crew, Simulator};
use confidence::{Sums, Test};
use ordered_fold::Ending;
use smarts_base::{Gate, NoMemory};
use std::alloc::Global;
use std::thread::Threads;

/// How the fold of all points ended, with its sums, and how many points were simulated for it.
#[derive(Clone, Copy, Debug, PartialEq, Eq)]
pub struct Tally {
    pub ending: Ending,
    pub sums: Sums,
    pub windows: u32,
}

/// Points are given to a crew in batches of so many.
const BATCH: usize = 128;

/// Where the batch ends that begins here.
fn batch_end(first: usize, points: usize) -> usize
    requires first { first < points }
    requires most { points ≤ 65536 }
    ensures { result ≡ min (first + 128) points }
{
    points.min(first + BATCH)
}

/// Folds the answers of all points, in batches of 128, with a worker for each simulator. No batch is
/// begun after the one in which the fold ends.
pub fn run_points<S: Simulator + Send, R: Threads + Sync, G: Gate + Sync>(
    rt: &R,
    alloc: Global,
    simulators: Vec<S>,
    points: &[S::Point],
    test: Test,
    gate: &G,
) -> Result<Tally, NoMemory>
where
    S::Point: Sync,
    requires points { (0 < length points.now) × (length points.now ≤ 65536) }
    requires test { IsInRange test }
    requires workers { (0 < length simulators.items) × (length simulators.items ≤ 64) }
    requires takes { (u : S.Setup) × Alike S.setup u simulators.items × All (S.takes u) points.now }
    ensures tally { IfOk result (λ tally. (u : S.Setup) → Alike S.setup u simulators.items
        → IsTally test (map (S.answer u) points.now) (length simulators.items) tally) }
{
    let mut crew = Crew::new(points.len() as u32, test, simulators);
    let mut first = 0;
    while crew.front().is_going() {
        let end = batch_end(first, points.len());
        crew.run_batch(rt, alloc, &points[first..end], gate)?;
        first = end;
    }
    Ok(Tally {
        ending: crew.front().ending(),
        sums: crew.front().sums(),
        windows: crew.windows(),
    })
}
