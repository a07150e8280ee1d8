//! The members of a crew, while they work on one board.

ghost use Rattle.std.specs.Prelude.{◌≡◌, ◌+◌, ◌*◌, ◌<◌, ◌≤◌, None, length, map, All, IfOk, OnErr};
ghost use Rattle.std.specs.List.{sum_by};
ghost use Rattle.std.specs.Vec.{vec_capacity};
ghost use Rattle.ordered_fold.specs.Batch.{fold_from, folded_number};
ghost use Rattle.claim_table.specs.Board.{list_at, IsAlone};
ghost use Rattle.claim_table.specs.Shown.{IsPassOf};
ghost use Rattle.workers.specs.Worker.{IsNew, IsOver};
ghost use Rattle.workers.specs.Crew.{Alike, IsFresh, IsSpent, share};

use crate::{Simulator, work};
use claim_table::{Board, Listed, Pass};
use smarts_base::{Gate, NoMemory};
use std::alloc::Global;
use std::thread::{Threads, for_each_mut};

/// One worker of a crew: its pass, what it simulates with, and how many points it answered.
#[derive(Drop)]
pub(crate) struct Member<L: Listed, S: Simulator> {
    pass: Pass<L>,
    simulator: S,
    answered: u32,
}

/// A member for each simulator, the first pass going to the last of them. Room for all is taken before
/// any simulator leaves its list.
pub(crate) fn members_of<L: Listed, S: Simulator>(
    alloc: Global,
    board: &Board<L>,
    first: Pass<L>,
    simulators: &mut Vec<S>,
) -> Result<Vec<Member<L, S>>, NoMemory>
    requires fresh { IsFresh board.now first }
    requires all { IsAlone first.view }
    requires merged { first.view.merged ≡ 1 }
    requires workers { (0 < length simulators.old.items) × (length simulators.old.items ≤ 64) }
    ensures fresh { IfOk result (λ members. All (λ m. IsFresh board.now m.pass) members.items) }
    ensures shares { IfOk result (λ members. sum_by (λ m. share m.pass.view) members.items ≡ 65) }
    ensures long { IfOk result (λ members. length members.items ≡ length simulators.old.items) }
    ensures alike { (u : S.Setup) → Alike S.setup u simulators.old.items
        → IfOk result (λ members. All (λ m. S.setup m.simulator ≡ u) members.items) }
    ensures room { IfOk result (λ members. (length simulators.new.items ≡ 0) × (length members.items ≤ vec_capacity simulators.new)) }
    ensures kept { OnErr result (simulators.new ≡ simulators.old) }
{
    let mut members = Vec::with_capacity(alloc, simulators.len())?;
    let mut first = first;
    let Some(last) = simulators.pop() else {
        unreachable!();
    };
    while let Some(simulator) = simulators.pop() {
        members.push_reserved(Member {
            pass: board.split(&mut first),
            simulator,
            answered: 0,
        });
    }
    members.push_reserved(Member {
        pass: first,
        simulator: last,
        answered: 0,
    });
    Ok(members)
}

/// Each member works, in a thread of its own where one can be made.
pub(crate) fn run_members<L: Listed + Send, S: Simulator + Send, R: Threads + Sync, G: Gate + Sync>(
    rt: &R,
    board: &Board<L>,
    members: &mut [Member<L, S>],
    points: &[S::Point],
    first: u32,
    gate: &G,
)
where
    S::Point: Sync,
    requires workers { (0 < length members.old) × (length members.old ≤ 64) }
    requires fresh { All (λ m. IsFresh board.now m.pass) members.old }
    requires list { All (λ m. list_at L.lists board.now.which ≡ map (S.answer (S.setup m.simulator)) points.now) members.old }
    requires takes { All (λ m. All (S.takes (S.setup m.simulator)) points.now) members.old }
    requires numbers { first + length points.now ≤ 65536 }
    ensures spent { All (λ m. IsSpent board.now (list_at L.lists board.now.which) m.pass m.answered) members.new }
    ensures shares { sum_by (λ m. share m.pass.view) members.new ≡ sum_by (λ m. share m.pass.view) members.old }
    ensures long { length members.new ≡ length members.old }
    ensures alike { (u : S.Setup) → All (λ m. S.setup m.simulator ≡ u) members.old → All (λ m. S.setup m.simulator ≡ u) members.new }
{
    let threads = members.len();
    for_each_mut(
        rt,
        members,
        threads,
        &|i, member: &mut Member<L, S>|
            requires { IsFresh board.now member.now.pass
                × (list_at L.lists board.now.which ≡ map (S.answer (S.setup member.now.simulator)) points.now)
                × All (S.takes (S.setup member.now.simulator)) points.now
                × (first + length points.now ≤ 65536)
                × (i < 64) }
            ensures { IsSpent board.entry.now (list_at L.lists board.entry.now.which) member.exit.now.pass member.exit.now.answered
                × (share member.exit.now.pass.view ≡ share member.entry.now.pass.view)
                × (S.setup member.exit.now.simulator ≡ S.setup member.entry.now.simulator) }
        {
            member.answered = work(
                board,
                &mut member.pass,
                &mut member.simulator,
                points,
                first,
                i as u32,
                gate,
            );
        },
    );
}

/// One pass of all that they are, and how many points they answered in all. The simulators go back into
/// their list, which kept its room.
pub(crate) fn join_members<L: Listed, S: Simulator>(
    board: &Board<L>,
    members: Vec<Member<L, S>>,
    simulators: &mut Vec<S>,
) -> (Pass<L>, u32)
    requires workers { (0 < length members.items) × (length members.items ≤ 64) }
    requires spent { All (λ m. IsSpent board.now (list_at L.lists board.now.which) m.pass m.answered) members.items }
    requires shares { sum_by (λ m. share m.pass.view) members.items ≡ 65 }
    requires most { length (list_at L.lists board.now.which) ≤ 65536 }
    requires room { (length simulators.old.items ≡ 0) × (length members.items ≤ vec_capacity simulators.old) }
    ensures own { IsPassOf board.now result.0 }
    ensures hand { result.0.view.seat.hand ≡ None }
    ensures over { IsOver result.0.view }
    ensures all { IsAlone result.0.view }
    ensures points { result.0.view.points ≡ result.1 }
    ensures alone { length members.items ≡ 1
        → result.1 ≡ folded_number board.now.start (fold_from board.now.start (list_at L.lists board.now.which) (length (list_at L.lists board.now.which))) }
    ensures long { length simulators.new.items ≡ length members.items }
    ensures alike { (u : S.Setup) → All (λ m. S.setup m.simulator ≡ u) members.items → Alike S.setup u simulators.new.items }
{
    let mut members = members;
    let Some(
        Member {
            pass,
            simulator,
            answered,
        },
    ) = members.pop()
    else {
        unreachable!();
    };
    let (mut first, mut total) = (pass, answered);
    simulators.push_reserved(simulator);
    while let Some(member) = members.pop() {
        board.join(&mut first, member.pass);
        total += member.answered;
        simulators.push_reserved(member.simulator);
    }
    (first, total)
}
