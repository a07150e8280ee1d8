ghost use Rattle.std.specs.Prelude.{◌≡◌, ◌≤◌, drop, true, [], IfOk};
ghost use Rattle.hierarchy.specs.Config.{IsConfig};
ghost use Rattle.turbosmarts.specs.OutOfOrder.{HasMarked};
ghost use Rattle.turbosmarts.specs.Processor.{IsShownMore};

use crate::processor::Processor;
use circular_buffer::HeapCircularBuffer;
use hierarchy::{Config, Marked, State};
use ruu_timing::{Ruu, Trace};
use rv_exec::{Event, Watch};
use sample_design::Window;
use smarts_base::NoMemory;
use std::alloc::Global;

/// The processor with a register update unit. It marks each instruction as it is shown, and keeps the
/// marks of the latest ones, as many as a window may have.
#[derive(Debug, Drop)]
pub struct OutOfOrder<'a> {
    config: &'a Config,
    state: State,
    latest: HeapCircularBuffer<Marked>,
    ruu: Ruu,
}

/// The marks from a place on.
#[derive(Clone, Copy, Debug)]
struct Rest<'a> {
    marks: &'a HeapCircularBuffer<Marked>,
    from: usize,
}

impl<'a> Trace for Rest<'a> {
    ghost items = { λ rest. drop rest.from rest.marks.now.items };

    fn len(&self) -> usize {
        self.marks.len().saturating_sub(self.from)
    }

    fn at(&self, i: usize) -> Marked {
        // Counted from the back: no difference passes what a usize holds.
        let behind = self.marks.len() - self.from - i - 1;
        *self.marks.nth_back(behind).unwrap()
    }
}

impl<'a> OutOfOrder<'a> {
    /// Takes memory for windows of up to so many instructions.
    pub fn new(alloc: Global, config: &'a Config, longest: u32) -> Result<OutOfOrder<'a>, NoMemory>
        requires config { IsConfig config.now }
        requires kind { config.now.ruu ≡ true }
        requires longest { longest ≤ 110000 }
        ensures config { IfOk result (λ p. p.config.now ≡ config.now) }
        ensures longest { IfOk result (λ p. p.latest.capacity ≡ longest) }
        ensures shown { IfOk result (λ p. HasMarked config.now p.ruu.widths p.state p.latest.capacity p.latest.items []) }
    {
        Ok(OutOfOrder {
            config,
            state: State::new(alloc, config)?,
            latest: HeapCircularBuffer::with_capacity(alloc, longest as usize)?,
            ruu: Ruu::new(alloc, &config.widths)?,
        })
    }
}

impl<'a> Watch for OutOfOrder<'a> {
    ghost sees = { λ before event after. (after.config.now ≡ before.config.now)
        × (after.latest.capacity ≡ before.latest.capacity)
        × IsShownMore
        (λ begun es. HasMarked before.config.now before.ruu.widths before.state before.latest.capacity before.latest.items es)
        event
        (λ begun es. HasMarked after.config.now after.ruu.widths after.state after.latest.capacity after.latest.items es) };

    ghost sound = { λ p. IsConfig p.config.now };

    // The step calls it once an instruction, and what isn't used of the event isn't made.
    #[inline(always)]
    fn see(&mut self, event: &Event) {
        let mark = self.state.annotate(self.config, event);
        self.latest.push_back(mark);
    }
}

impl<'a> Processor for OutOfOrder<'a> {
    ghost config = { λ p. p.config.now };

    ghost longest = { λ p. p.latest.capacity };

    ghost shown = { λ p begun es. HasMarked p.config.now p.ruu.widths p.state p.latest.capacity p.latest.items es };

    fn begin_unit(&mut self) {}

    fn cycles(&mut self, window: &Window) -> u32 {
        let from = self.latest.len() - window.len as usize;
        let trace = Rest {
            marks: &self.latest,
            from,
        };
        self.ruu.time(&trace, window.skip as usize) as u32
    }

    ghost can_watch = { λ p config. config };

    ghost is_shown = { λ before event after saw. saw };
}
