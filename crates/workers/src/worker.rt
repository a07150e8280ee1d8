ghost use Rattle.std.specs.Prelude.{◌≡◌, ◌+◌, ◌≤◌, None, length, map, All, MatchBool};
ghost use Rattle.ordered_fold.specs.Batch.{fold_from, folded_number, IsBatch};
ghost use Rattle.claim_table.specs.Board.{list_at, IsAlone};
ghost use Rattle.claim_table.specs.Shown.{IsPassOf};
ghost use Rattle.workers.specs.Worker.{IsNew, IsOver, SameShare, Turned, Stopped};

use crate::Simulator;
use claim_table::{Board, Claim, Listed, Pass};
use smarts_base::Gate;

/// One turn: whether a point was answered.
fn turn<L: Listed, S: Simulator, G: Gate>(
    board: &Board<L>,
    pass: &mut Pass<L>,
    simulator: &mut S,
    points: &[S::Point],
    first: u32,
    worker: u32,
    gate: &G,
) -> bool
    requires own { IsPassOf board.now pass.old }
    requires hand { pass.old.view.seat.hand ≡ None }
    requires list { list_at L.lists board.now.which ≡ map (S.answer (S.setup simulator.old)) points.now }
    requires takes { All (S.takes (S.setup simulator.old)) points.now }
    requires numbers { first + length points.now ≤ 65536 }
    requires batch { IsBatch board.now.start (list_at L.lists board.now.which) }
    requires size { board.now.size ≡ length points.now }
    ensures own { IsPassOf board.now pass.new }
    ensures pass { (pass.new.table ≡ pass.old.table) × (pass.new.id ≡ pass.old.id) }
    ensures simulator { S.setup simulator.new ≡ S.setup simulator.old }
    ensures turned { MatchBool result (Turned L.lists pass.old.view pass.new.view) (Stopped L.lists pass.old.view pass.new.view) }
{
    if pass.past() || pass.seen_end().is_some() || board.ended(pass).is_some() {
        return false;
    }
    let Claim::Point(number) = board.claim(pass) else {
        return false;
    };
    gate.pass(worker, first + number);
    let answer = simulator.simulate(&points[number as usize]);
    board.report(pass, answer);
    board.advance(pass);
    true
}

/// One worker's loop: it asks whether the fold has ended, draws a number, tells the gate, answers the
/// point, reports and folds, until an end is seen or no number is left. How many points it answered.
pub fn work<L: Listed, S: Simulator, G: Gate>(
    board: &Board<L>,
    pass: &mut Pass<L>,
    simulator: &mut S,
    points: &[S::Point],
    first: u32,
    worker: u32,
    gate: &G,
) -> u32
    requires own { IsPassOf board.now pass.old }
    requires hand { pass.old.view.seat.hand ≡ None }
    requires list { list_at L.lists board.now.which ≡ map (S.answer (S.setup simulator.old)) points.now }
    requires takes { All (S.takes (S.setup simulator.old)) points.now }
    requires numbers { first + length points.now ≤ 65536 }
    ensures own { IsPassOf board.now pass.new }
    ensures pass { (pass.new.table ≡ pass.old.table) × (pass.new.id ≡ pass.old.id) }
    ensures share { SameShare pass.old.view pass.new.view }
    ensures simulator { S.setup simulator.new ≡ S.setup simulator.old }
    ensures over { IsOver pass.new.view }
    ensures points { pass.new.view.points ≡ pass.old.view.points + result }
    ensures few { result ≤ length points.now }
    ensures alone { IsNew pass.old.view → IsAlone pass.old.view
        → result ≡ folded_number board.now.start (fold_from board.now.start (list_at L.lists board.now.which) (length points.now)) }
{
    // Tells that the board has an answer for each point.
    let _size = board.size();
    let mut answered = 0;
    while turn(board, pass, simulator, points, first, worker, gate) {
        answered += 1;
    }
    answered
}
