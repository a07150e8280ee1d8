ghost use Rattle.std.specs.Prelude.{◌≡◌};

use crate::rule::{Listed, View};
use atomic_table::Seat;
use ordered_fold::Front;
use std::marker::{Model, PhantomData};

/// One worker's share in a board. A pass may go to another thread; it is used with its own board.
#[derive(Drop)]
pub struct Pass<L: Listed> {
    pub(crate) seat: Seat<Option<Front>, View>,
    pub(crate) hand: Option<u32>,
    pub(crate) last: Option<u64>,
    pub(crate) past: bool,
    pub(crate) seen_end: Option<u32>,
    pub(crate) announced: bool,
    pub(crate) of: PhantomData<L>,
}

impl<L: Listed> Model for Pass<L> {
    ghost use Rattle.claim_table.specs.Shown.{PassShown, IsResting};

    ghost Value = { PassShown };

    ghost view = { λ p. record { table = p.seat.table_id; id = p.seat.id; view = p.seat.me.0 } };

    ghost invariant = { λ p. IsResting p.seat.me p.hand p.last p.past p.seen_end p.announced };
}

impl<L: Listed> Pass<L> {
    /// The number that it drew and hasn't reported.
    pub fn hand(&self) -> Option<u32>
        ensures { result ≡ self.now.view.seat.hand }
    {
        self.hand
    }

    /// The number that it drew last, or a later one of a pass that was joined to it.
    pub fn last(&self) -> Option<u64>
        ensures { result ≡ self.now.view.seat.last }
    {
        self.last
    }

    /// Whether it drew a number beyond the last answer's.
    pub fn past(&self) -> bool
        ensures { result ≡ self.now.view.seat.past }
    {
        self.past
    }

    /// The count of answers before the end, where it has seen one announced.
    pub fn seen_end(&self) -> Option<u32>
        ensures { result ≡ self.now.view.seat.seen_end }
    {
        self.seen_end
    }
}
