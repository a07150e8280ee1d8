ghost use Rattle.std.specs.Prelude.{◌≡◌, ◌↔◌, ◌<◌, ◌≤◌, ◌^◌, ℕ, false, length, fold, All, IfOk, IfSome, IsSome};
ghost use Rattle.confidence.specs.Confidence.{IsInRange};
ghost use Rattle.ordered_fold.specs.Front.{first_front, IsSound};
ghost use Rattle.ordered_fold.specs.Batch.{IsHeldAnswer, IsBatch};
ghost use Rattle.ordered_fold.specs.Machine.{seat_at, cell_at, core_start, core_step as step_of, core_after};
ghost use Rattle.ordered_fold.specs.Invariant.{IsCore};

use crate::machine::Machine;
use crate::{CoreEvent, Front, Seat};
use confidence::{Answer, Test};
use smarts_base::NoMemory;
use std::alloc::Global;
use std::marker::Model;

/// The machine with the answers that its seats report and the front that it goes on from. Any event
/// may be tried.
#[derive(Debug, Drop)]
pub struct CoreState {
    start: Front,
    answers: Vec<Answer>,
    machine: Machine,
}

impl Model for CoreState {
    ghost use Rattle.ordered_fold.specs.CoreRun.{CoreRun, IsRun};

    ghost Value = { CoreRun };

    ghost use Rattle.ordered_fold.specs.CoreView.{core_run_of};

    ghost view = { core_run_of };

    ghost invariant = { λ fields. IsRun (core_run_of fields) };
}

impl CoreState {
    /// The machine before any event, for a fold from the first answer on. There are 1 to 65,536
    /// answers and 1 to 2^32 - 1 seats.
    pub fn new(
        alloc: Global,
        answers: &[Answer],
        test: Test,
        seats: u32,
    ) -> Result<CoreState, NoMemory>
        requires some { 0 < length answers.now }
        requires most { length answers.now ≤ 65536 }
        requires held { All IsHeldAnswer answers.now }
        requires test { IsInRange test }
        requires seats { 0 < seats }
        ensures { IfOk result (λ state. state ≡ record {
          start = first_front (length answers.now) test;
          answers = answers.now;
          core = core_start (first_front (length answers.now) test) (length answers.now) seats;
        }) }
    {
        let front = Front::new(answers.len() as u32, test);
        CoreState::resume(alloc, front, answers, seats)
    }

    /// The machine before any event, for the fold of a batch of answers from a front on.
    pub fn resume(
        alloc: Global,
        front: Front,
        answers: &[Answer],
        seats: u32,
    ) -> Result<CoreState, NoMemory>
        requires batch { IsBatch front answers.now }
        requires seats { 0 < seats }
        ensures { IfOk result (λ state. state ≡ record {
          start = front;
          answers = answers.now;
          core = core_start front (length answers.now) seats;
        }) }
    {
        Ok(CoreState {
            start: front,
            answers: Vec::from_slice(alloc, answers)?,
            machine: Machine::new(alloc, front, answers.len(), seats)?,
        })
    }

    /// One event after the other; one that isn't enabled changes nothing.
    pub fn run(&mut self, events: &[CoreEvent])
        ensures { self.new ≡ record self.old {
          core = fold (step_of self.old.start self.old.answers) self.old.core events.now;
        } }
    {
        for event in events {
            core_step(self, *event);
        }
    }

    /// The next number to be drawn.
    pub fn claim(&self) -> u64
        ensures { result ≡ self.now.core.claim }
    {
        self.machine.claim
    }

    /// Odd while a seat holds; half of it, rounded down, is how many answers of the batch were folded
    /// when no seat held last.
    pub fn lock(&self) -> u64
        ensures { result ≡ self.now.core.lock }
    {
        self.machine.lock
    }

    /// 0, or one more than the count of answers before the ending, where it was announced.
    pub fn stop(&self) -> u64
        ensures { result ≡ self.now.core.stop }
    {
        self.machine.stop
    }

    /// The code of the answer numbered `k` in the batch, or 0 where it wasn't reported.
    pub fn cell(&self, k: u32) -> u64
        ensures { result ≡ cell_at self.now.core.cells k }
    {
        self.machine.cell(k)
    }

    /// The front, where no seat holds.
    pub fn home(&self) -> Option<&Front>
        ensures front { IfSome result (λ front. front.now ≡ self.now.core.front) }
        ensures sound { IfSome result (λ front. IsSound front.now) }
        ensures home { IsSome result ↔ ((j : ℕ) → (seat_at self.now.core.seats j).holder ≡ false) }
    {
        if self.machine.lock % 2 == 0 {
            Some(&self.machine.front)
        } else {
            None
        }
    }

    /// The front, wherever it is.
    pub fn front(&self) -> &Front
        ensures value { result.now ≡ self.now.core.front }
        ensures sound { IsSound result.now }
    {
        &self.machine.front
    }

    /// What is known of seat `i`; a seat beyond the last is as one that was never made.
    pub fn seat(&self, i: u32) -> Seat
        ensures { result ≡ seat_at self.now.core.seats i }
    {
        self.machine.seat(i)
    }
}

/// One event; one that isn't enabled changes nothing.
pub fn core_step(state: &mut CoreState, event: CoreEvent)
    ensures step { state.new ≡ record state.old {
      core = step_of state.old.start state.old.answers state.old.core event;
    } }
    ensures invariant { IsCore state.new.start state.new.answers state.new.core }
{
    let start = state.start;
    state.machine.step(&start, &state.answers, event);
}

/// The machine after a list of events, for a fold from the first answer on.
#[tactic(auto, unfolding(crate::specs::Machine::core_after))]
pub fn core_run(
    alloc: Global,
    answers: &[Answer],
    test: Test,
    seats: u32,
    events: &[CoreEvent],
) -> Result<CoreState, NoMemory>
    requires some { 0 < length answers.now }
    requires most { length answers.now ≤ 65536 }
    requires held { All IsHeldAnswer answers.now }
    requires test { IsInRange test }
    requires seats { 0 < seats }
    ensures run { IfOk result (λ state. state.core
        ≡ core_after (first_front (length answers.now) test) answers.now seats events.now) }
    ensures invariant { IfOk result (λ state.
        IsCore (first_front (length answers.now) test) answers.now state.core) }
{
    let mut state = CoreState::new(alloc, answers, test, seats)?;
    state.run(events);
    Ok(state)
}
