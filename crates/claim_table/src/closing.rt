//! The end of a board: what its cells hold, folded once more.

ghost use Rattle.std.specs.Prelude.{◌≡◌, ◌≢◌, ◌⊎◌, ◌+◌, ◌<◌, ◌≤◌, ℕ, true, None, length};
ghost use Rattle.std.specs.Slots.{slots_items, slots_len, IsFull};
ghost use Rattle.ordered_fold.specs.Batch.{fold_from, folded_number, IsBatch};
ghost use Rattle.ordered_fold.specs.Front.{IsSound};
ghost use Rattle.claim_table.specs.Board.{list_at, IsAlone};
ghost use Rattle.claim_table.specs.Shown.{IsPassOf};
ghost use Rattle.claim_table.specs.Closing.{HasCells};

use crate::board::Board;
use crate::pass::Pass;
use crate::rule::Listed;
use atomic_table::Closed;
use ordered_fold::{Front, answer_of};
use std::alloc::Global;

/// The fold of the cells from a front on. The place of their answers in the list of lists is for the
/// contract alone.
fn fold_words<L: Listed>(
    closed: &Closed<Option<Front>, Global>,
    start: Front,
    size: u32,
    which: u32,
) -> Front
    requires full { IsFull closed.now.words }
    requires words { slots_len closed.now.words ≡ size + 3 }
    requires size { size ≡ length (list_at L.lists which) }
    requires batch { IsBatch start (list_at L.lists which) }
    requires cells { HasCells start (list_at L.lists which) (slots_items closed.now.words) }
    ensures { result ≡ fold_from start (list_at L.lists which) size }
{
    let mut front = start;
    for k in 0..size {
        if !front.is_going() {
            return front;
        }
        let word = closed.word(k as usize + 3);
        front.push(answer_of(word));
    }
    front
}

impl<L: Listed> Board<L> {
    /// Ends the board, with the one pass that is left: the front is the fold of the whole batch.
    pub fn close(self, pass: Pass<L>) -> Front
        requires pass { IsPassOf self pass }
        requires alone { IsAlone pass.view }
        requires hand { pass.view.seat.hand ≡ None }
        requires done { (pass.view.seat.past ≡ true) ⊎ (pass.view.seat.seen_end ≢ None) }
        ensures front { result ≡ fold_from self.start (list_at L.lists self.which) self.size }
        ensures sound { IsSound result }
        ensures points { (folded_number self.start result ≤ pass.view.points) × (pass.view.points ≤ self.size) }
    {
        let (start, size, which) = (self.start, self.size, self.which);
        let mut closed = self.table.close_with(pass.seat);
        let front = fold_words::<L>(&closed, start, size, which);
        closed.take(0);
        closed.free();
        front
    }
}
