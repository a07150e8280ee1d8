ghost use Rattle.std.specs.Prelude.{◌≡◌, ◌*◌, ◌+◌, ◌^◌, ◌<◌, ◌≤◌, length, All, IfOk, MatchBool, None};
ghost use Rattle.std.specs.Bool.{OnTrue};
ghost use Rattle.hierarchy.specs.Marked.{IsMarked};
ghost use Rattle.hierarchy.specs.Widths.{AreWidths};
ghost use Rattle.ruu_timing.specs.Laws.{IssueFirst};
ghost use Rattle.ruu_timing.specs.Progress.{behind, progress_before, sum_of};
ghost use Rattle.ruu_timing.specs.Ruu.{HasBegun, IsNextTurn, IsUnderWay};
ghost use Rattle.ruu_timing.specs.Trace.{IsTrace};
ghost use Rattle.ruu_timing.specs.Times.{cycles, times};

use crate::events::least_next;
use crate::lookahead::Lookahead;
use crate::progress::{Progress, behind};
use crate::trace::Trace;
use hierarchy::Widths;
use smarts_base::NoMemory;
use std::alloc::Global;
use std::marker::Model;

/// A processor whose instructions wait in a register update unit for their operands. Only `new`
/// takes memory.
#[derive(Debug, Drop)]
pub struct Ruu {
    widths: Widths,
    /// The cycle that the last turn went to.
    cycle: Option<u32>,
    progress: Progress,
    ahead: Lookahead,
}

impl Model for Ruu {
    ghost use Rattle.std.specs.Prelude.{◌≡◌};
    ghost use Rattle.hierarchy.specs.Widths.{AreWidths};
    ghost use Rattle.ruu_timing.specs.Flight.{IsFlight};
    ghost use Rattle.ruu_timing.specs.Ruu.{RuuShown};

    ghost Value = { RuuShown };

    ghost view = { λ ruu. record { widths = ruu.widths; cycle = ruu.cycle; progress = ruu.progress; ahead = ruu.ahead } };

    ghost invariant = { λ ruu. AreWidths ruu.widths × IsFlight ruu.widths ruu.ahead.flight × (ruu.ahead.latest.capacity ≡ 289) };
}

impl Ruu {
    pub fn new(alloc: Global, widths: &Widths) -> Result<Ruu, NoMemory>
        requires { AreWidths widths.now }
        ensures widths { IfOk result (λ ruu. ruu.widths ≡ widths.now) }
        ensures begun { IfOk result HasBegun }
    {
        Ok(Ruu {
            widths: *widths,
            cycle: None,
            progress: Progress::NONE,
            ahead: Lookahead::new(alloc, widths)?,
        })
    }

    /// Begins a new trace, which the turns go through.
    pub fn begin(&mut self)
        ensures widths { self.new.widths ≡ self.old.widths }
        ensures begun { HasBegun self.new }
    {
        self.ahead.restart(&self.widths);
        self.cycle = None;
        self.progress = Progress::NONE;
    }

    /// The cycles that a trace takes from instruction `skip` on, counted from the retirement of the
    /// instruction before. Each instruction issues in the first cycle in which it can. A trace that
    /// was under way is given up.
    pub fn time<T: Trace>(&mut self, trace: &T, skip: usize) -> u64
        requires { IsTrace (T.items trace.now) skip }
        ensures cycles { result ≡ cycles self.old.widths (T.items trace.now) skip }
        ensures first { IssueFirst self.old.widths (T.items trace.now) }
        ensures least { skip + 16 ≤ length (T.items trace.now) → 1 ≤ result }
        ensures most { length (T.items trace.now) ≤ skip + 10000 → result < 2 ^ 26 }
        ensures widths { self.new.widths ≡ self.old.widths }
        ensures begun { HasBegun self.new }
    {
        self.ahead.restart(&self.widths);
        let flight = &mut self.ahead.flight;
        flight.run(&self.widths, trace, 0, skip);
        let before = flight.retired;
        flight.run(&self.widths, trace, skip, trace.len());
        let cycles = u64::from(flight.retired - before);
        self.begin();
        cycles
    }

    /// Goes to the next cycle in which an instruction of the trace is fetched, dispatched, issued or
    /// retired, and answers whether there is one.
    pub fn turn<T: Trace>(&mut self, trace: &T) -> bool
        requires few { length (T.items trace.now) ≤ 110000 }
        requires marks { All IsMarked (T.items trace.now) }
        requires under_way { IsUnderWay (T.items trace.now) self.old }
        ensures widths { self.new.widths ≡ self.old.widths }
        ensures under_way { IsUnderWay (T.items trace.now) self.new }
        ensures over { MatchBool result (self.old.progress.retired < length (T.items trace.now))
            ((self.old.progress.retired ≡ length (T.items trace.now)) × (self.new ≡ self.old)) }
        ensures next { OnTrue result (IsNextTurn (times self.old.widths (T.items trace.now)) self.old.cycle self.new.cycle) }
        ensures progress { self.new.progress ≡ progress_before (times self.old.widths (T.items trace.now)) (behind self.new.cycle) }
        ensures rises { OnTrue result (sum_of self.old.progress < sum_of self.new.progress) }
        ensures most { sum_of self.new.progress ≤ 4 * length (T.items trace.now) }
    {
        let from = behind(self.cycle);
        self.ahead.start(&self.widths, trace);
        let t = least_next(from, &self.ahead.latest);
        if t == u32::MAX {
            return false;
        }
        self.ahead.look_beyond(&self.widths, trace, t);
        self.cycle = Some(t);
        self.progress = self.ahead.progress(t);
        true
    }

    /// The cycle that the last turn went to, or None before the first one.
    pub fn now(&self) -> Option<u64>
        ensures { result ≡ self.now.cycle }
    {
        self.cycle.map(u64::from)
    }

    /// How many instructions have been fetched, dispatched, issued and retired in cycles up to `now`.
    pub fn progress(&self) -> Progress
        ensures { result ≡ self.now.progress }
    {
        self.progress
    }
}
