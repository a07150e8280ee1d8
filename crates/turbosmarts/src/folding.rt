ghost use Rattle.std.specs.Prelude.{◌≡◌, ◌<◌, ◌≤◌, ℕ, List, length, slice_index};
ghost use Rattle.confidence.specs.Confidence.{IsInRange};
ghost use Rattle.confidence.specs.Sums.{IsCycles};
ghost use Rattle.ordered_fold.specs.Front.{IsSound, front_of, is_going};
ghost use Rattle.smarts_text.specs.Report.{IsReported};
ghost use Rattle.turbosmarts.specs.Folding.{visited, ArePlaces};

use confidence::{Answer, Test};
use ordered_fold::{Ending, Front};
use sample_design::Order;

/// Folds the cycles of the units in the order of visits, until the sample ends.
pub fn fold_in_order(cycles: &[u32], order: &Order, test: &Test) -> Front
    requires some { 0 < length order.now }
    requires few { length order.now ≤ 65536 }
    requires places { ArePlaces order.now (length cycles.now) }
    requires cycles { (p : ℕ) → p < length cycles.now → IsCycles (slice_index cycles.now p) }
    requires test { IsInRange test.now }
    ensures fold { result ≡ front_of (length order.now) test.now (visited cycles.now order.now) }
    ensures sound { IsSound result }
    ensures measured { 1 ≤ result.sums.n }
    ensures reported { IsReported result.ending }
{
    let mut front = Front::new(order.len(), *test);
    for k in 0..order.len() {
        front.push(Answer::Cycles(cycles[order.at(k) as usize]));
        if !is_going(front.ending()) {
            return front;
        }
    }
    front
}

fn is_going(ending: Ending) -> bool
    ensures { result ≡ is_going ending }
{
    matches!(ending, Ending::Going)
}
