ghost use Rattle.std.specs.Prelude.{◌≡◌, ◌+◌, ◌<◌, ◌≤◌, ℕ, List, [], ◌∷◌, length, map, All, IfOk, IfErr};
ghost use Rattle.confidence.specs.Confidence.{IsInRange};
ghost use Rattle.confidence.specs.declared.answer.Answer.{Answer as AnswerValue};
ghost use Rattle.ordered_fold.specs.Front.{first_front, IsSound};
ghost use Rattle.ordered_fold.specs.declared.ending.Ending.TheVariants.{Going};
ghost use Rattle.ordered_fold.specs.Batch.{IsHeldAnswer};
ghost use Rattle.workers.specs.Crew.{Alike, IsCrew, IsBatchRun};

use crate::Simulator;
use crate::member::{join_members, members_of, run_members};
use claim_table::{Board, Listed};
use confidence::Test;
use ordered_fold::Front;
use smarts_base::{Gate, NoMemory};
use std::alloc::Global;
use std::marker::Brand;
use std::thread::Threads;

/// The answers of points that a simulator takes can stand in the cells of a board.
fn fits_cells<S: Simulator>(points: &[S::Point])
    ensures { (u : S.Setup) → All (S.takes u) points.now → All IsHeldAnswer (map (S.answer u) points.now) }
{}

/// Folds a batch from a front on: the new front, and how many windows were simulated.
fn fold_batch<L: Listed + Send, S: Simulator + Send, R: Threads + Sync, G: Gate + Sync>(
    rt: &R,
    alloc: Global,
    simulators: &mut Vec<S>,
    start: Front,
    points: &[S::Point],
    gate: &G,
) -> Result<(Front, u32), NoMemory>
where
    S::Point: Sync,
    requires workers { (0 < length simulators.old.items) × (length simulators.old.items ≤ 64) }
    requires sound { IsSound start }
    requires going { start.ending ≡ Going }
    requires points { (0 < length points.now) × (start.sums.n + length points.now ≤ start.total) }
    requires list { (u : S.Setup) × Alike S.setup u simulators.old.items × All (S.takes u) points.now
        × (L.lists ≡ map (S.answer u) points.now ∷ []) }
    ensures run { IfOk result (λ r. (answers : List AnswerValue) → L.lists ≡ answers ∷ []
        → IsBatchRun answers (length simulators.old.items) start r.0 r.1) }
    ensures alike { (u : S.Setup) → Alike S.setup u simulators.old.items → Alike S.setup u simulators.new.items }
    ensures long { length simulators.new.items ≡ length simulators.old.items }
{
    fits_cells::<S>(points);
    let (board, first) = Board::<L>::resume(alloc, 0, start, points.len() as u32)?;
    let mut members = members_of(alloc, &board, first, simulators)?;
    run_members(rt, &board, &mut members, points, start.count(), gate);
    let (pass, windows) = join_members(&board, members, simulators);
    Ok((board.close(pass), windows))
}

/// Workers that make one fold of batch after batch of points, each worker with a simulator of its own.
/// The fold is that of the answers in order, at any number of workers.
#[derive(Drop)]
pub struct Crew<S: Simulator> {
    front: Front,
    windows: u32,
    simulators: Vec<S>,
}

impl<S: Simulator> Crew<S> {
    /// A worker for each simulator, and the fold of no answers of `total` that may come.
    pub fn new(total: u32, test: Test, simulators: Vec<S>) -> Crew<S>
        requires some { 0 < total }
        requires most { total ≤ 65536 }
        requires test { IsInRange test }
        requires workers { (0 < length simulators.items) × (length simulators.items ≤ 64) }
        ensures crew { IsCrew result.front result.windows (length result.simulators.items) }
        ensures front { result.front ≡ first_front total test }
        ensures windows { result.windows ≡ 0 }
        ensures simulators { result.simulators ≡ simulators }
    {
        Crew {
            front: Front::new(total, test),
            windows: 0,
            simulators,
        }
    }

    /// The fold of the batches so far.
    pub fn front(&self) -> Front
        ensures { result ≡ self.now.front }
    {
        self.front
    }

    /// How many points were simulated for it.
    pub fn windows(&self) -> u32
        ensures { result ≡ self.now.windows }
    {
        self.windows
    }

    /// Folds the next batch. The gate is told each point's number among all that may come, before it is
    /// simulated. All memory is taken before a worker starts.
    pub fn run_batch<R: Threads + Sync, G: Gate + Sync>(
        &mut self,
        rt: &R,
        alloc: Global,
        points: &[S::Point],
        gate: &G,
    ) -> Result<(), NoMemory>
    where
        S: Send,
        S::Point: Sync,
        requires crew { IsCrew self.old.front self.old.windows (length self.old.simulators.items) }
        requires going { self.old.front.ending ≡ Going }
        requires points { (0 < length points.now) × (self.old.front.sums.n + length points.now ≤ self.old.front.total) }
        requires takes { (u : S.Setup) × Alike S.setup u self.old.simulators.items × All (S.takes u) points.now }
        ensures crew { IsCrew self.new.front self.new.windows (length self.new.simulators.items) }
        ensures run { IfOk result (λ _. (u : S.Setup) → Alike S.setup u self.old.simulators.items
            → (windows : ℕ) × (self.new.windows ≡ self.old.windows + windows)
            × IsBatchRun (map (S.answer u) points.now) (length self.old.simulators.items) self.old.front self.new.front windows) }
        ensures err { IfErr result (λ _. (self.new.front ≡ self.old.front) × (self.new.windows ≡ self.old.windows)) }
        ensures alike { (u : S.Setup) → Alike S.setup u self.old.simulators.items → Alike S.setup u self.new.simulators.items }
        ensures long { length self.new.simulators.items ≡ length self.old.simulators.items }
    {
        let (front, windows) = fold_batch::<Brand, S, R, G>(
            rt,
            alloc,
            &mut self.simulators,
            self.front,
            points,
            gate,
        )?;
        self.front = front;
        self.windows += windows;
        Ok(())
    }
}
