//! The parts of the machine that events change, with a function for what each event does and, where
//! it needs one, for whether it is enabled.

ghost use Rattle.std.specs.Prelude.{◌≡◌, ◌≢◌, ◌+◌, ◌-◌, ◌^◌, ◌<◌, ◌≤◌, length, slice_get, slice_set, All, IfOk};
ghost use Rattle.confidence.specs.Answer.{IsValidAnswer};
ghost use Rattle.ordered_fold.specs.Front.{IsSound};
ghost use Rattle.ordered_fold.specs.Batch.{IsHeldAnswer, IsBatch};
ghost use Rattle.ordered_fold.specs.Invariant.{IsCore};
ghost use Rattle.ordered_fold.specs.declared.ending.Ending.{Ending as EndingValue};
ghost use Rattle.ordered_fold.specs.MachineView.{core_of};
ghost use Rattle.ordered_fold.specs.Cell.{answer_of as answer_of_code};
ghost use Rattle.ordered_fold.specs.Machine.{seat_at, cell_at, core_start, core_step, is_idle as is_idle_seat, can_claim as can_claim_seat, can_report as can_report_seat, can_look as can_look_seat, drawing as drawing_seat, code_or_zero as code_or_zero_of, can_glance as can_glance_seat, can_announce as can_announce_seat, can_split as can_split_seat, can_join as can_join_seat, after_claim, reported, after_try, after_glance, after_announce, after_release, after_look, after_split, after_join};

use crate::{Act, CoreEvent, Front, Seat, answer_of, code};
use confidence::Answer;
use smarts_base::NoMemory;
use std::alloc::Global;

const UNMADE: Seat = Seat {
    made: false,
    live: false,
    hand: None,
    last: None,
    past: false,
    seen_end: None,
    holder: false,
};

#[derive(Debug, Drop)]
pub(crate) struct Machine {
    pub(crate) claim: u64,
    pub(crate) lock: u64,
    pub(crate) stop: u64,
    pub(crate) cells: Vec<u64>,
    pub(crate) front: Front,
    pub(crate) seats: Vec<Seat>,
}

fn is_idle(seat: &Seat) -> bool
    ensures { result ≡ is_idle_seat seat.now }
{
    seat.live && seat.hand.is_none() && !seat.holder
}

fn can_claim(seat: &Seat) -> bool
    ensures { result ≡ can_claim_seat seat.now }
{
    is_idle(seat) && !seat.past && seat.seen_end.is_none()
}

fn can_report(seat: &Seat) -> bool
    ensures { result ≡ can_report_seat seat.now }
{
    seat.live && seat.hand.is_some() && !seat.holder
}

fn can_look(seat: &Seat) -> bool
    ensures { result ≡ can_look_seat seat.now }
{
    seat.live && !seat.holder
}

// The seat after it drew this number.
fn drawing(size: u32, number: u64, seat: Seat) -> Seat
    ensures { result ≡ drawing_seat size number seat }
{
    if number < u64::from(size) {
        Seat {
            hand: Some(number as u32),
            last: Some(number),
            ..seat
        }
    } else {
        Seat {
            last: Some(number),
            past: true,
            ..seat
        }
    }
}

fn code_or_zero(answers: &[Answer], k: u32) -> u64
    requires { All IsHeldAnswer answers.now }
    ensures { result ≡ code_or_zero_of (slice_get answers.now k) }
{
    match answers.get(k as usize) {
        Some(answer) => code(*answer),
        None => 0,
    }
}

impl Machine {
    #[tactic(auto, unfolding(crate::specs::Machine::core_start))]
    pub(crate) fn new(
        alloc: Global,
        start: Front,
        size: usize,
        seats: u32,
    ) -> Result<Machine, NoMemory>
        ensures { IfOk result (λ machine. core_of machine ≡ core_start start size seats) }
    {
        let mut machine = Machine {
            claim: 0,
            lock: 0,
            stop: 0,
            cells: vec![in alloc; 0; size]?,
            front: start,
            seats: vec![in alloc; UNMADE; seats as usize]?,
        };
        let first = Seat {
            made: true,
            live: true,
            ..UNMADE
        };
        machine.put(0, first);
        Ok(machine)
    }

    pub(crate) fn seat(&self, j: u32) -> Seat
        ensures { result ≡ seat_at (core_of self.now).seats j }
    {
        self.seats.get(j as usize).copied().unwrap_or(UNMADE)
    }

    pub(crate) fn cell(&self, k: u32) -> u64
        ensures { result ≡ cell_at (core_of self.now).cells k }
    {
        self.cells.get(k as usize).copied().unwrap_or(0)
    }

    fn put(&mut self, j: u32, seat: Seat)
        ensures { core_of self.new ≡ record (core_of self.old) { seats = slice_set (core_of self.old).seats j seat } }
    {
        if let Some(place) = self.seats.get_mut(j as usize) {
            *place = seat;
        }
    }

    fn claim(&mut self, size: u32, j: u32, seat: Seat)
        requires { self.old.claim + 1 < 2 ^ 64 }
        ensures { core_of self.new ≡ after_claim size j seat (core_of self.old) }
    {
        let number = self.claim;
        self.claim += 1;
        self.put(j, drawing(size, number, seat));
    }

    fn report(&mut self, answers: &[Answer], j: u32, seat: Seat)
        requires { All IsHeldAnswer answers.now }
        ensures { core_of self.new ≡ reported answers.now j seat (core_of self.old) seat.hand }
    {
        if let Some(k) = seat.hand {
            let word = code_or_zero(answers, k);
            if let Some(cell) = self.cells.get_mut(k as usize) {
                *cell = word;
            }
            self.put(j, Seat { hand: None, ..seat });
        }
    }

    fn try_lock(&mut self, j: u32, seat: Seat)
        requires { self.old.lock + 1 < 2 ^ 64 }
        ensures { core_of self.new ≡ after_try j seat (core_of self.old) }
    {
        if self.lock % 2 == 0 {
            self.lock += 1;
            self.put(
                j,
                Seat {
                    holder: true,
                    ..seat
                },
            );
        }
    }

    fn glance(&mut self, start: &Front)
        requires least { start.now.sums.n ≤ self.old.front.sums.n }
        requires going { self.old.front.ending ≡ EndingValue.Going }
        requires sound { IsSound self.old.front }
        requires valid { cell_at (core_of self.old).cells (self.old.front.sums.n - start.now.sums.n) ≢ 0
            → IsValidAnswer (answer_of_code (cell_at (core_of self.old).cells (self.old.front.sums.n - start.now.sums.n))) }
        ensures { core_of self.new ≡ after_glance start.now (core_of self.old) }
    {
        let word = self.cell(self.front.count() - start.count());
        if word != 0 {
            self.front.push(answer_of(word));
        }
    }

    fn can_glance(&self, start: &Front, size: u32, seat: &Seat) -> bool
        requires { start.now.sums.n + size < 2 ^ 32 }
        ensures { result ≡ can_glance_seat start.now size seat.now (core_of self.now) }
    {
        seat.holder && self.front.is_going() && self.front.count() < start.count() + size
    }

    fn can_announce(&self, seat: &Seat) -> bool
        ensures { result ≡ can_announce_seat seat.now (core_of self.now) }
    {
        seat.holder && !self.front.is_going()
    }

    fn can_split(&self, into: u32, seat: &Seat) -> bool
        ensures { result ≡ can_split_seat into seat.now (core_of self.now) }
    {
        is_idle(seat) && (into as usize) < self.seats.len() && !self.seat(into).made
    }

    fn can_join(&self, j: u32, from: u32, seat: &Seat) -> bool
        ensures { result ≡ can_join_seat j from seat.now (core_of self.now) }
    {
        j != from && is_idle(seat) && is_idle(&self.seat(from))
    }

    fn announce(&mut self)
        ensures { core_of self.new ≡ after_announce (core_of self.old) }
    {
        self.stop = u64::from(self.front.count()) + 1;
    }

    fn release(&mut self, start: &Front, j: u32, seat: Seat)
        requires least { start.now.sums.n ≤ self.old.front.sums.n }
        requires most { self.old.front.sums.n ≤ 65536 }
        ensures { core_of self.new ≡ after_release start.now j seat (core_of self.old) }
    {
        self.lock = 2 * (self.front.pushed() - u64::from(start.count()));
        self.put(
            j,
            Seat {
                holder: false,
                ..seat
            },
        );
    }

    fn look(&mut self, j: u32, seat: Seat)
        requires { self.old.stop < 2 ^ 32 + 1 }
        ensures { core_of self.new ≡ after_look j seat (core_of self.old) }
    {
        if self.stop != 0 {
            let end = (self.stop - 1) as u32;
            self.put(
                j,
                Seat {
                    seen_end: Some(end),
                    ..seat
                },
            );
        }
    }

    fn split(&mut self, into: u32, seat: Seat)
        ensures { core_of self.new ≡ after_split into seat (core_of self.old) }
    {
        self.put(
            into,
            Seat {
                made: true,
                live: true,
                last: seat.last,
                past: seat.past,
                seen_end: seat.seen_end,
                ..UNMADE
            },
        );
    }

    fn join(&mut self, j: u32, from: u32, seat: Seat)
        ensures { core_of self.new ≡ after_join j from seat (core_of self.old) }
    {
        let other = self.seat(from);
        let joined = Seat {
            last: seat.last.max(other.last),
            past: seat.past || other.past,
            seen_end: seat.seen_end.or(other.seen_end),
            ..seat
        };
        self.put(j, joined);
        self.put(
            from,
            Seat {
                live: false,
                ..other
            },
        );
    }

    /// What an event does; one that isn't enabled changes nothing.
    #[tactic(auto, unfolding(crate::specs::Machine::core_step))]
    pub(crate) fn step(&mut self, start: &Front, answers: &[Answer], event: CoreEvent)
        requires batch { IsBatch start.now answers.now }
        requires core { IsCore start.now answers.now (core_of self.old) }
        requires seats { length self.old.seats.items < 2 ^ 32 }
        ensures { core_of self.new ≡ core_step start.now answers.now (core_of self.old) event }
    {
        let j = event.seat;
        let seat = self.seat(j);
        let size = answers.len() as u32;
        match event.act {
            Act::Claim => {
                if can_claim(&seat) {
                    self.claim(size, j, seat);
                }
            }
            Act::Report => {
                if can_report(&seat) {
                    self.report(answers, j, seat);
                }
            }
            Act::Glance => {
                if self.can_glance(start, size, &seat) {
                    self.glance(start);
                }
            }
            Act::Try => {
                if is_idle(&seat) {
                    self.try_lock(j, seat);
                }
            }
            Act::Announce => {
                if self.can_announce(&seat) {
                    self.announce();
                }
            }
            Act::Release => {
                if seat.holder {
                    self.release(start, j, seat);
                }
            }
            Act::Look => {
                if can_look(&seat) {
                    self.look(j, seat);
                }
            }
            Act::Split { into } => {
                if self.can_split(into, &seat) {
                    self.split(into, seat);
                }
            }
            Act::Join { from } => {
                if self.can_join(j, from, &seat) {
                    self.join(j, from, seat);
                }
            }
        }
    }
}
