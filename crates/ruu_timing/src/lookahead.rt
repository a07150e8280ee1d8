//! The instructions of a trace are timed ahead of the cycle that a processor has come to: so many that the next
//! one is fetched later.
ghost use Rattle.std.specs.Prelude.{◌≡◌, ◌⊎◌, ◌+◌, ◌-◌, ◌^◌, ◌<◌, ◌≤◌, max, min, length, drop, All, IfOk};
ghost use Rattle.std.specs.List.{AllByRecursion, slice_get};
ghost use Rattle.hierarchy.specs.Widths.{AreWidths};
ghost use Rattle.hierarchy.specs.Marked.{IsMarked};
ghost use Rattle.ruu_timing.specs.Flight.{IsFlight};
ghost use Rattle.ruu_timing.specs.Lookahead.{IsAhead, IsFresh, timed_in, fetch_in, progress_in};
ghost use Rattle.ruu_timing.specs.Times.{back, time_of};

use crate::flight::{Cycles, Flight};
use crate::progress::{Progress, dispatched_later, fetched_later, issued_later, retired_later};
use crate::trace::Trace;
use circular_buffer::HeapCircularBuffer;
use hierarchy::Widths;
use smarts_base::NoMemory;
use std::alloc::Global;

/// So many instructions may be fetched and not yet retired: those of the largest fetch queue and register
/// update unit. One more has been timed.
const MOST: usize = 32 + 256 + 1;

/// The instructions that are timed so far.
#[derive(Debug, Drop)]
pub(crate) struct Lookahead {
    pub(crate) flight: Flight,
    /// The times of the latest of them, the latest first.
    pub(crate) latest: HeapCircularBuffer<Cycles>,
}

impl Lookahead {
    pub(crate) fn new(alloc: Global, w: &Widths) -> Result<Lookahead, NoMemory>
        requires { AreWidths w.now }
        ensures { IfOk result (IsFresh w.now) }
    {
        Ok(Lookahead {
            flight: Flight::new(alloc, w)?,
            latest: HeapCircularBuffer::with_capacity(alloc, MOST)?,
        })
    }

    /// Forgets the trace.
    pub(crate) fn restart(&mut self, w: &Widths)
        requires widths { AreWidths w.now }
        requires flight { IsFlight w.now self.old.flight }
        requires latest { self.old.latest.capacity ≡ 289 }
        ensures { IsFresh w.now self.new }
    {
        self.flight.restart(w);
        self.latest.clear();
    }

    /// When the latest instruction is fetched.
    fn latest_fetch(&self) -> u32
        ensures { result ≡ fetch_in (slice_get self.now.latest.items 0) }
    {
        match self.latest.front() {
            Some(cycles) => cycles.fetch,
            None => 0,
        }
    }

    /// Times the next instruction of the trace.
    fn push_next<T: Trace>(&mut self, w: &Widths, trace: &T)
        requires widths { AreWidths w.now }
        requires few { length (T.items trace.now) ≤ 110000 }
        requires marks { All IsMarked (T.items trace.now) }
        requires ahead { IsAhead w.now (T.items trace.now) self.old }
        requires some { self.old.flight.count < length (T.items trace.now) }
        ensures ahead { IsAhead w.now (T.items trace.now) self.new }
        ensures count { self.new.flight.count ≡ self.old.flight.count + 1 }
    {
        let mark = trace.at(self.flight.count as usize);
        let cycles = self.flight.push(w, &mark);
        self.latest.push_front(cycles);
    }

    /// Times the first instruction of the trace, if none is timed.
    pub(crate) fn start<T: Trace>(&mut self, w: &Widths, trace: &T)
        requires widths { AreWidths w.now }
        requires few { length (T.items trace.now) ≤ 110000 }
        requires marks { All IsMarked (T.items trace.now) }
        requires ahead { IsAhead w.now (T.items trace.now) self.old }
        ensures ahead { IsAhead w.now (T.items trace.now) self.new }
        ensures count { self.new.flight.count ≡ max self.old.flight.count (min 1 (length (T.items trace.now))) }
        ensures same { self.new.flight.count ≡ self.old.flight.count → self.new ≡ self.old }
    {
        if self.flight.count == 0 && trace.len() != 0 {
            self.push_next(w, trace);
        }
    }

    /// How many have been fetched, dispatched, issued and retired by a cycle.
    pub(crate) fn progress(&self, t: u32) -> Progress
        requires few { self.now.flight.count ≤ 110000 }
        requires latest { length self.now.latest.items ≤ self.now.flight.count }
        ensures { result ≡ progress_in self.now t }
    {
        let count = self.flight.count as usize;
        Progress {
            fetched: (count - fetched_later(&self.latest, t)) as u32,
            dispatched: (count - dispatched_later(&self.latest, t)) as u32,
            issued: (count - issued_later(&self.latest, t)) as u32,
            retired: (count - retired_later(&self.latest, t)) as u32,
        }
    }

    /// Times instructions of the trace until one is fetched after a cycle or none is left.
    pub(crate) fn look_beyond<T: Trace>(&mut self, w: &Widths, trace: &T, t: u32)
        requires widths { AreWidths w.now }
        requires few { length (T.items trace.now) ≤ 110000 }
        requires marks { All IsMarked (T.items trace.now) }
        requires ahead { IsAhead w.now (T.items trace.now) self.old }
        requires gone { AllByRecursion (λ x. x.retirement ≤ t) (drop 289 (timed_in w.now (T.items trace.now) self.old)) }
        ensures ahead { IsAhead w.now (T.items trace.now) self.new }
        ensures gone { AllByRecursion (λ x. x.retirement ≤ t) (drop 289 (timed_in w.now (T.items trace.now) self.new)) }
        ensures reach { (self.new.flight.count ≡ length (T.items trace.now))
            ⊎ (t < time_of (λ x. x.fetch) (back (timed_in w.now (T.items trace.now) self.new) 1)) }
    {
        'ahead: while (self.flight.count as usize) < trace.len() && self.latest_fetch() <= t {
            self.push_next(w, trace);
        }
    }
}
