ghost use Rattle.std.specs.Prelude.{◌≡◌, ◌≤◌, ◌<◌, ◌+◌, ℕ, List, [], IsSome, Err, All, IfOk, IfErr, length};
ghost use Rattle.library_fold.specs.Batches.{HasEnded};
ghost use Rattle.library_fold.specs.Folding.{AreFor, HasFolded, with_answers};
ghost use Rattle.library_fold.specs.Stops.{IsStopped};
ghost use Rattle.library_reader.specs.Laws.{IsReadingOf};
ghost use Rattle.livepoint_format.specs.Values.{Point};
ghost use Rattle.ordered_fold.specs.Front.{IsSound};
ghost use Rattle.ordered_fold.specs.declared.ending.Ending.TheVariants.{Going};
ghost use Rattle.smarts_io.specs.Causes.{Rose};
ghost use Rattle.window_sim.specs.Desk.{IsServed, IsTaken, Setup};
ghost use Rattle.workers.specs.Crew.{Alike, IsCrew};

use crate::batch::next_batch;
use crate::stop::Stop;
use library_reader::Intake;
use live_points::LivePoint;
use smarts_base::{Gate, NoMemory};
use smarts_io::{ReadError, Source};
use std::alloc::Global;
use std::thread::Threads;
use window_sim::Desk;
use workers::Crew;

// Folds the answers of a batch, unless it is empty or the fold has ended.
fn fold_batch<'a, R: Threads + Sync, G: Gate + Sync>(
    rt: &R,
    alloc: Global,
    crew: &mut Crew<Desk<'a>>,
    batch: &[LivePoint],
    gate: &G,
) -> Result<(), NoMemory>
    requires crew { IsCrew crew.old.front crew.old.windows (length crew.old.simulators.items) }
    requires room { crew.old.front.ending ≡ Going → crew.old.front.sums.n + length batch.now ≤ crew.old.front.total }
    requires takes { (setup : Setup) × Alike (λ desk. desk) setup crew.old.simulators.items
        × IsServed setup × All (IsTaken setup) batch.now }
    ensures crew { IsCrew crew.new.front crew.new.windows (length crew.new.simulators.items) }
    ensures folded { IfOk result (λ _. (setup : Setup) → Alike (λ desk. desk) setup crew.old.simulators.items
        → crew.new.front ≡ with_answers setup crew.old.front batch.now) }
    ensures going { IfOk result (λ _. crew.new.front.ending ≡ Going
        → (crew.old.front.ending ≡ Going) × (crew.new.front.sums.n ≡ crew.old.front.sums.n + length batch.now)) }
    ensures total { crew.new.front.total ≡ crew.old.front.total }
    ensures alike { (setup : Setup) → Alike (λ desk. desk) setup crew.old.simulators.items
        → Alike (λ desk. desk) setup crew.new.simulators.items }
    ensures long { length crew.new.simulators.items ≡ length crew.old.simulators.items }
{
    if batch.is_empty() || !crew.front().is_going() {
        return Ok(());
    }
    crew.run_batch(rt, alloc, batch, gate)
}

/// Reads the points of a library, of which the header came, from a source, and folds their answers in batches. When
/// the fold has ended, the rest is read and isn't simulated.
pub fn fold_points<'a, R: Threads + Sync, S: Source, G: Gate + Sync>(
    rt: &R,
    alloc: Global,
    intake: &mut Intake,
    source: &mut S,
    crew: &mut Crew<Desk<'a>>,
    gate: &G,
) -> Result<(), Stop>
    requires read { (bytes : List ℕ) × IsReadingOf bytes [] intake.old }
    requires crew { IsCrew crew.old.front crew.old.windows (length crew.old.simulators.items) }
    requires start { (crew.old.front.ending ≡ Going) × (crew.old.front.sums.n ≡ 0) }
    requires desks { (setup : Setup) × Alike (λ desk. desk) setup crew.old.simulators.items
        × AreFor setup intake.old.front × (crew.old.front.total ≡ setup.header.points) }
    ensures folded { IfOk result (λ _. (setup : Setup) → Alike (λ desk. desk) setup crew.old.simulators.items
        → HasFolded setup intake.old (S.rest source.old) (S.rest source.new) crew.old.front crew.new.front) }
    ensures sound { IfOk result (λ _. IsSound crew.new.front) }
    ensures fault { IfErr result (λ stop. IsStopped stop intake.old (S.rest source.old) (S.rest source.new)) }
    ensures failed { result ≡ Err (Stop.Read ReadError.Failed) → Rose (S.faults source.old) (S.faults source.new) }
    ensures later { S.faults source.old ≤ S.faults source.new }
{
    let mut batch = Vec::new(alloc);
    loop {
        let over = next_batch(alloc, intake, source, &mut batch)?;
        fold_batch(rt, alloc, crew, &batch, gate)?;
        if over {
            return Ok(());
        }
        batch.clear();
    }
}

/// Reads the points of a library, of which the header came, from a source, and answers none.
pub fn pass_points<S: Source>(
    alloc: Global,
    intake: &mut Intake,
    source: &mut S,
) -> Result<(), Stop>
    requires read { (bytes : List ℕ) × IsReadingOf bytes [] intake.old }
    requires front { IsSome intake.old.front }
    ensures ended { IfOk result (λ _. (points : List Point) × HasEnded intake.old (S.rest source.old) (S.rest source.new) points) }
    ensures fault { IfErr result (λ stop. IsStopped stop intake.old (S.rest source.old) (S.rest source.new)) }
    ensures failed { result ≡ Err (Stop.Read ReadError.Failed) → Rose (S.faults source.old) (S.faults source.new) }
    ensures later { S.faults source.old ≤ S.faults source.new }
{
    let mut batch = Vec::new(alloc);
    loop {
        if next_batch(alloc, intake, source, &mut batch)? {
            return Ok(());
        }
        batch.clear();
    }
}
