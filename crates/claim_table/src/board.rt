ghost use Rattle.std.specs.Prelude.{◌≡◌, ◌≢◌, ◌⊎◌, ◌<◌, ◌≤◌, ℕ, true, false, Some, None, length, slice_get, All, IfOk};
ghost use Rattle.ordered_fold.specs.Batch.{IsHeldAnswer, IsBatch};
ghost use Rattle.ordered_fold.specs.Front.{first_front};
ghost use Rattle.confidence.specs.Confidence.{IsInRange};
ghost use Rattle.claim_table.specs.Board.{list_at, first_view, IsAlone};
ghost use Rattle.claim_table.specs.Steps.{answers_of, reported_view, parent_view, child_view, joined_view};
ghost use Rattle.claim_table.specs.Shown.{IsPassOf};
ghost use Rattle.claim_table.specs.Calls.{Advances, Draws, Ends};

use crate::advance::Advance;
use crate::claim::Claim;
use crate::folding::{announce_end, fold_cells, put_front, take_front};
use crate::pass::Pass;
use crate::plays::{Claims, Joins, Looks, Reports, Splits};
use crate::rule::{BoardTable, Key, Listed};
use atomic_table::Table;
use confidence::{Answer, Test};
use ordered_fold::{Front, code};
use smarts_base::NoMemory;
use std::alloc::Global;
use std::marker::{Model, PhantomData};

/// Where workers draw numbers, report answers and fold them, each through a pass of its own. Every call
/// but those that make or end a board is a few steps on atomic words; none waits.
#[derive(Drop)]
pub struct Board<L: Listed> {
    pub(crate) table: BoardTable<L>,
    pub(crate) which: u32,
    pub(crate) size: u32,
    pub(crate) start: Front,
}

impl<L: Listed> Model for Board<L> {
    ghost use Rattle.claim_table.specs.Shown.{BoardShown, IsSoundBoard};

    ghost Value = { BoardShown };

    ghost view = { λ b. record {
      table = b.table.shared.table_id;
      which = b.which;
      size = b.size;
      start = b.start;
    } };

    ghost invariant = { λ b. IsSoundBoard L.lists b.table.shared.key (record {
      table = b.table.shared.table_id;
      which = b.which;
      size = b.size;
      start = b.start;
    }) };
}

impl<L: Listed> Board<L> {
    /// A board for the fold of all answers of a list, and its first pass.
    pub fn new(
        alloc: Global,
        which: u32,
        total: u32,
        test: Test,
    ) -> Result<(Board<L>, Pass<L>), NoMemory>
        requires listed { total ≡ length (list_at L.lists which) }
        requires some { 0 < total }
        requires most { total ≤ 65536 }
        requires held { All IsHeldAnswer (list_at L.lists which) }
        requires test { IsInRange test }
        ensures board { IfOk result (λ r. (r.0.which ≡ which) × (r.0.size ≡ total)
            × (r.0.start ≡ first_front total test)) }
        ensures pass { IfOk result (λ r. IsPassOf r.0 r.1
            × (r.1.view ≡ first_view (record { which = which; start = first_front total test }))) }
    {
        Board::resume(alloc, which, Front::new(total, test), total)
    }

    /// A board for the fold of a batch of `size` answers from a front on, and its first pass.
    pub fn resume(
        alloc: Global,
        which: u32,
        start: Front,
        size: u32,
    ) -> Result<(Board<L>, Pass<L>), NoMemory>
        requires listed { size ≡ length (list_at L.lists which) }
        requires batch { IsBatch start (list_at L.lists which) }
        ensures board { IfOk result (λ r. (r.0.which ≡ which) × (r.0.size ≡ size) × (r.0.start ≡ start)) }
        ensures pass { IfOk result (λ r. IsPassOf r.0 r.1
            × (r.1.view ≡ first_view (record { which = which; start = start }))) }
    {
        let words = vec![in alloc; 0; size as usize + 3]?;
        let mut slots = Vec::with_capacity(alloc, 1)?;
        slots.push_reserved(Some(start));
        let key = Key { which, start };
        match Table::new(alloc, &words, slots, &key) {
            Ok((table, seat)) => Ok((
                Board {
                    table,
                    which,
                    size,
                    start,
                },
                Pass {
                    seat,
                    hand: None,
                    last: None,
                    past: false,
                    seen_end: None,
                    announced: false,
                    of: PhantomData,
                },
            )),
            Err(_) => Err(NoMemory),
        }
    }

    /// How many answers the batch has.
    pub fn size(&self) -> u32
        ensures value { result ≡ self.now.size }
        ensures listed { result ≡ length (list_at L.lists self.now.which) }
        ensures batch { IsBatch self.now.start (list_at L.lists self.now.which) }
    {
        self.size
    }

    /// Draws the next number: one atomic addition.
    pub fn claim(&self, pass: &mut Pass<L>) -> Claim
        requires pass { IsPassOf self.now pass.old }
        requires hand { pass.old.view.seat.hand ≡ None }
        requires past { pass.old.view.seat.past ≡ false }
        requires unseen { pass.old.view.seat.seen_end ≡ None }
        ensures draws { Draws self.now.size pass.old.view pass.new.view result }
        ensures pass { (pass.new.table ≡ pass.old.table) × (pass.new.id ≡ pass.old.id) }
    {
        let number = self
            .table
            .shared
            .fetch_add::<Claims<L>>(&mut pass.seat, 0, 1);
        pass.last = Some(number);
        if number < u64::from(self.size) {
            let point = number as u32;
            pass.hand = Some(point);
            Claim::Point(point)
        } else {
            pass.past = true;
            Claim::Past { drawn: number }
        }
    }

    /// Reports the answer of the number in the pass's hand: one atomic swap.
    pub fn report(&self, pass: &mut Pass<L>, answer: Answer)
        requires pass { IsPassOf self.now pass.old }
        requires hand { (k : ℕ) × (pass.old.view.seat.hand ≡ Some k)
            × (slice_get (answers_of L.lists pass.old.view) k ≡ Some answer) }
        ensures view { pass.new.view ≡ reported_view pass.old.view }
        ensures pass { (pass.new.table ≡ pass.old.table) × (pass.new.id ≡ pass.old.id) }
    {
        if let Some(point) = pass.hand {
            let place = point as usize + 3;
            let word = code(answer);
            self.table
                .shared
                .swap::<Reports<L>>(&mut pass.seat, place, word);
            pass.hand = None;
        }
    }

    /// Folds the cells that are full, in order, where no other pass has the front: it takes the front, goes
    /// on to the first empty cell or the end, announces the end once, and gives the front back.
    pub fn advance(&self, pass: &mut Pass<L>) -> Advance
        requires pass { IsPassOf self.now pass.old }
        requires hand { pass.old.view.seat.hand ≡ None }
        ensures advances { Advances L.lists pass.old.view pass.new.view result }
        ensures pass { (pass.new.table ≡ pass.old.table) × (pass.new.id ≡ pass.old.id) }
    {
        let first = self.start.count();
        let words = &self.table.shared;
        let front = match take_front(words, &mut pass.seat) {
            Ok(front) => front,
            Err(found) => return Advance::Busy { found },
        };
        let front = fold_cells(words, &mut pass.seat, front, first, self.size);
        pass.announced = announce_end(words, &mut pass.seat, &front, pass.announced);
        let ending = front.ending();
        put_front(words, &mut pass.seat, front, first);
        Advance::Moved(ending)
    }

    /// Looks whether an end was announced: one load. The count of answers before the end, where it was.
    pub fn ended(&self, pass: &mut Pass<L>) -> Option<u32>
        requires pass { IsPassOf self.now pass.old }
        ensures ends { Ends L.lists pass.old.view pass.new.view result }
        ensures pass { (pass.new.table ≡ pass.old.table) × (pass.new.id ≡ pass.old.id) }
    {
        let word = self.table.shared.load::<Looks<L>>(&mut pass.seat, 2);
        if word == 0 {
            return None;
        }
        let count = (word - 1) as u32;
        pass.seen_end = Some(count);
        Some(count)
    }

    /// Makes another pass, which knows what this one does. A board makes at most 65.
    pub fn split(&self, pass: &mut Pass<L>) -> Pass<L>
        requires pass { IsPassOf self.now pass.old }
        requires hand { pass.old.view.seat.hand ≡ None }
        requires spare { 0 < pass.old.view.spare }
        ensures parent { pass.new.view ≡ parent_view pass.old.view }
        ensures child { result.view ≡ child_view pass.old.view }
        ensures pass { (pass.new.table ≡ pass.old.table) × (pass.new.id ≡ pass.old.id) }
        ensures board { IsPassOf self.now result }
    {
        let seat = self.table.shared.split_seat::<Splits>(&mut pass.seat);
        Pass {
            seat,
            hand: None,
            last: pass.last,
            past: pass.past,
            seen_end: pass.seen_end,
            announced: false,
            of: PhantomData,
        }
    }

    /// Takes over what another pass knows, which is no more.
    pub fn join(&self, pass: &mut Pass<L>, other: Pass<L>)
        requires pass { IsPassOf self.now pass.old }
        requires other { IsPassOf self.now other }
        requires hand { pass.old.view.seat.hand ≡ None }
        requires other_hand { other.view.seat.hand ≡ None }
        ensures view { pass.new.view ≡ joined_view pass.old.view other.view }
        ensures pass { (pass.new.table ≡ pass.old.table) × (pass.new.id ≡ pass.old.id) }
    {
        let Pass {
            seat,
            last,
            past,
            seen_end,
            ..
        } = other;
        self.table.shared.join_seat::<Joins>(&mut pass.seat, seat);
        pass.last = pass.last.max(last);
        pass.past = pass.past || past;
        pass.seen_end = pass.seen_end.or(seen_end);
    }
}
