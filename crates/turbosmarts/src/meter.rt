ghost use Rattle.std.specs.Prelude.{◌≡◌, ◌≤◌, ◌<◌, ◌+◌, ◌*◌, ℕ, List, None, [], OnOk, vec_len};
ghost use Rattle.hierarchy.specs.Config.{IsConfig};
ghost use Rattle.rv_exec.specs.declared.event.Event.{Event as EventValue};
ghost use Rattle.rv_exec.specs.Machine.{State};
ghost use Rattle.sample_design.specs.Design.{IsUsable};
ghost use Rattle.sample_design.specs.Units.{window_of};
ghost use Rattle.turbosmarts.specs.Measuring.{HasShown, IsMeasuring, units_ended};
ghost use Rattle.turbosmarts.specs.Processor.{CanTell, events_to};

use crate::processor::Processor;
use sample_design::Design;
use smarts_base::NoMemory;
use std::alloc::Global;

/// The most units that are kept: a sample of more is refused.
const MOST_UNITS: usize = 65_536;

/// Keeps the cycles of the sampled units of a run, unit by unit.
#[derive(Debug, Drop)]
pub struct Meter {
    /// The number of the next unit that is sampled.
    pub next: u64,
    pub cycles: Vec<u32>,
}

impl Meter {
    /// Before the first unit.
    pub fn new(alloc: Global, design: &Design) -> Meter
        ensures next { result.next ≡ design.now.offset }
        ensures cycles { result.cycles.items ≡ [] }
    {
        Meter {
            next: u64::from(design.offset),
            cycles: Vec::new(alloc),
        }
    }

    /// Asks the processor for the cycles of a unit of which so many instructions ran, where it is a sampled unit
    /// and ran whole.
    #[tactic(auto, using(crate::proofs::IsMeasuringLemmas::measuring_cut, crate::proofs::IsMeasuringLemmas::measuring_kept))]
    pub fn take<P: Processor>(
        &mut self,
        design: &Design,
        unit: u64,
        ran: u32,
        processor: &mut P,
    ) -> Result<(), NoMemory>
        requires design { IsUsable design.now }
        requires config { IsConfig (P.config processor.old) }
        requires next { self.old.next ≤ 1000000 * (vec_len self.old.cycles + 1) }
        requires few { vec_len self.old.cycles ≤ 65536 }
        requires shown { ran ≡ design.now.unit
            → CanTell (P.shown processor.old) (P.longest processor.old) (window_of design.now unit) }
        ensures config { P.config processor.new ≡ P.config processor.old }
        ensures longest { P.longest processor.new ≡ P.longest processor.old }
        ensures shown { (begun : ℕ) (es : List EventValue) → P.shown processor.old begun es → P.shown processor.new begun es }
        ensures measured { (start : State)
            → IsMeasuring (P.config processor.old) start design.now unit self.old.next self.old.cycles.items
            → HasShown (λ n. P.shown processor.old (unit * design.now.unit) (events_to start n)) start (unit * design.now.unit + ran)
            → OnOk result (IsMeasuring (P.config processor.old) start design.now
            (units_ended design.now.unit unit ran) self.new.next self.new.cycles.items) }
    {
        if ran != design.unit || unit != self.next || self.cycles.len() >= MOST_UNITS {
            return Ok(());
        }
        let cycles = processor.cycles(&design.window(unit));
        self.cycles.push(cycles)?;
        self.next += u64::from(design.every);
        Ok(())
    }

    /// The cycles of the sampled units, in the order of the run.
    pub fn into_cycles(self) -> Vec<u32>
        ensures { result.items ≡ self.cycles.items }
    {
        self.cycles
    }
}
