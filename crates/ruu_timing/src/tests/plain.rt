ghost use Rattle.std.specs.Prelude.{◌≡◌, ◌+◌, ◌-◌, ◌^◌, ◌<◌, ◌≤◌, length, IfOk};
ghost use Rattle.hierarchy.specs.Widths.{AreWidths};
ghost use Rattle.ruu_timing.specs.Trace.{IsTrace};
ghost use Rattle.ruu_timing.specs.Times.{cycles};

use crate::tests::rows::Rows;
use crate::trace::Trace;
use hierarchy::Widths;
use smarts_base::NoMemory;
use std::alloc::Global;
use std::marker::Model;

/// The same processor as `Ruu`, timed over whole arrays formula by formula: slow, and plain enough to
/// compare with. Only `new` takes memory.
#[derive(Debug, Drop)]
pub struct PlainRuu {
    widths: Widths,
    rows: Rows,
}

impl Model for PlainRuu {
    ghost use Rattle.hierarchy.specs.declared.widths.Widths.{Widths as WidthsValue};
    ghost use Rattle.hierarchy.specs.Widths.{AreWidths};

    ghost Value = { WidthsValue };

    ghost view = { λ plain. plain.widths };

    ghost invariant = { λ plain. AreWidths plain.widths };
}

impl PlainRuu {
    pub fn new(alloc: Global, widths: &Widths) -> Result<PlainRuu, NoMemory>
        requires { AreWidths widths.now }
        ensures { IfOk result (λ plain. plain ≡ widths.now) }
    {
        Ok(PlainRuu {
            widths: *widths,
            rows: Rows::new(alloc)?,
        })
    }

    /// The cycles that a trace takes from instruction `skip` on, counted from the retirement of the
    /// instruction before.
    pub fn time<T: Trace>(&mut self, trace: &T, skip: usize) -> u64
        requires { IsTrace (T.items trace.now) skip }
        ensures cycles { result ≡ cycles self.old (T.items trace.now) skip }
        ensures least { skip + 16 ≤ length (T.items trace.now) → 1 ≤ result }
        ensures most { length (T.items trace.now) ≤ skip + 10000 → result < 2 ^ 26 }
        ensures widths { self.new ≡ self.old }
    {
        self.rows.time_all(&self.widths, trace);
        self.rows.retirement_back(1) - self.rows.retirement_back(trace.len() - skip + 1)
    }
}
