//! How a pass takes the front, folds the cells that it finds full in order, and gives it back. These
//! work on the pass's seat: in between the pass isn't as it is between two calls.

ghost use Rattle.std.specs.Prelude.{◌≡◌, ◌≢◌, ◌+◌, ◌*◌, ◌%◌, ◌||◌, not, ◌<◌, ◌≤◌, ℕ, true, false, Some, None, [], length, MatchResult};
ghost use mathlib.Core.Option.{none};
ghost use Rattle.ordered_fold.specs.Front.{is_going};
ghost use Rattle.claim_table.specs.Board.{IsAlone};
ghost use Rattle.claim_table.specs.Steps.{answers_of, front_at, refused_view, holding_view, released_view};
ghost use Rattle.claim_table.specs.Calls.{HasFront, FoldsCells, IsAtRest};

use crate::plays::{Announces, Glances, Releases, Tries};
use crate::rule::{Key, Listed, Rule, View};
use atomic_table::{Seat, Shared};
use ordered_fold::{Front, answer_of};

pub(crate) type Words<L> = Shared<Option<Front>, View, Key, Rule<L>>;

pub(crate) type Place = Seat<Option<Front>, View>;

/// The front, or the lock word where another pass has it.
pub(crate) fn take_front<L: Listed>(words: &Words<L>, seat: &mut Place) -> Result<Front, u64>
    requires table { seat.old.table_id ≡ words.now.table_id }
    requires words { 1 < words.now.table_id.words }
    requires idle { IsAtRest seat.old.me }
    ensures taken { MatchResult result
        (λ front. HasFront L.lists seat.new.me None front
        × ((n : ℕ) × (seat.new.me.0 ≡ holding_view n seat.old.me.0)))
        (λ found. (seat.new.me ≡ (refused_view found seat.old.me.0, [])) × (found % 2 ≡ 1)
        × (IsAlone seat.old.me.0 → ⊥)) }
    ensures seat { (seat.new.table_id ≡ seat.old.table_id) × (seat.new.id ≡ seat.old.id) }
{
    let found = words.fetch_or::<Tries<L>>(seat, 1, 1);
    if found % 2 == 1 {
        return Err(found);
    }
    match words.exchange(seat, 0, None) {
        Some(front) => Ok(front),
        None => unreachable!(),
    }
}

/// Folds cell after cell, up to the first that is empty or the end.
pub(crate) fn fold_cells<L: Listed>(
    words: &Words<L>,
    seat: &mut Place,
    mut front: Front,
    first: u32,
    size: u32,
) -> Front
    requires table { seat.old.table_id ≡ words.now.table_id }
    requires words { words.now.table_id.words ≡ size + 3 }
    requires front { HasFront L.lists seat.old.me None front }
    requires first { first ≡ seat.old.me.0.start.sums.n }
    requires size { size ≡ length (answers_of L.lists seat.old.me.0) }
    ensures front { HasFront L.lists seat.new.me None result }
    ensures folds { FoldsCells L.lists seat.old.me.0 seat.new.me.0 result }
    ensures seat { (seat.new.table_id ≡ seat.old.table_id) × (seat.new.id ≡ seat.old.id) }
{
    while front.is_going() {
        let place = front.count() - first;
        if place == size {
            return front;
        }
        let word = words.load::<Glances<L>>(seat, place as usize + 3);
        if word == 0 {
            return front;
        }
        front.push(answer_of(word));
    }
    front
}

/// Tells all passes that the fold has ended, where it has and this pass hasn't told. Whether it has now.
pub(crate) fn announce_end<L: Listed>(
    words: &Words<L>,
    seat: &mut Place,
    front: &Front,
    announced: bool,
) -> bool
    requires table { seat.old.table_id ≡ words.now.table_id }
    requires words { 2 < words.now.table_id.words }
    requires front { HasFront L.lists seat.old.me None front.now }
    requires announced { seat.old.me.0.announced ≡ announced }
    ensures front { HasFront L.lists seat.new.me None front.now }
    ensures view { seat.new.me.0 ≡ record seat.old.me.0 { announced = result; steps = seat.new.me.0.steps } }
    ensures later { seat.old.me.0.steps ≤ seat.new.me.0.steps }
    ensures told { result ≡ (announced || not (is_going front.now.ending)) }
    ensures seat { (seat.new.table_id ≡ seat.old.table_id) × (seat.new.id ≡ seat.old.id) }
{
    if announced || front.is_going() {
        return announced;
    }
    let word = u64::from(front.count()) + 1;
    words.store::<Announces<L>>(seat, 2, word);
    true
}

/// Gives the front back.
pub(crate) fn put_front<L: Listed>(words: &Words<L>, seat: &mut Place, front: Front, first: u32)
    requires table { seat.old.table_id ≡ words.now.table_id }
    requires words { 1 < words.now.table_id.words }
    requires front { HasFront L.lists seat.old.me None front }
    requires first { first ≡ seat.old.me.0.start.sums.n }
    ensures view { seat.new.me ≡ (released_view seat.old.me.0, []) }
    ensures seat { (seat.new.table_id ≡ seat.old.table_id) × (seat.new.id ≡ seat.old.id) }
{
    let folded = front.pushed() - u64::from(first);
    words.exchange(seat, 0, Some(front));
    words.store::<Releases>(seat, 1, 2 * folded);
}
