ghost use Rattle.std.specs.Prelude.{◌≡◌, false, refl, []};
ghost use Rattle.hierarchy.specs.Config.{IsConfig};
ghost use Rattle.turbosmarts.specs.Processor.{IsShownMore};
ghost use Rattle.turbosmarts.specs.Scalar.{HasSummed};

use crate::processor::Processor;
use hierarchy::Config;
use ruu_timing::scalar_latency;
use rv_exec::{Event, Watch};
use sample_design::Window;

/// The processor that does one instruction after the other. Of a window it needs to see no more than
/// the unit at its end.
#[derive(Debug, Drop)]
pub struct Scalar<'a> {
    config: &'a Config,
    /// Cycles of the instructions since the unit began.
    cycles: u32,
}

impl<'a> Scalar<'a> {
    pub fn new(config: &'a Config) -> Scalar<'a>
        requires { config.now.ruu ≡ false }
        ensures config { result.config.now ≡ config.now }
        ensures shown { HasSummed config.now result.cycles 0 [] }
    {
        Scalar { config, cycles: 0 }
    }
}

impl<'a> Watch for Scalar<'a> {
    ghost sees = { λ before event after. (after.config.now ≡ before.config.now)
        × IsShownMore (HasSummed before.config.now before.cycles) event (HasSummed after.config.now after.cycles) };

    ghost sound = { λ p. IsConfig p.config.now };

    // The loop over a run calls it once an instruction, for one addition.
    #[inline(always)]
    fn see(&mut self, event: &Event) {
        let latency = scalar_latency(&self.config.latencies, event.class);
        self.cycles = self.cycles.wrapping_add(latency);
    }
}

impl<'a> Processor for Scalar<'a> {
    ghost config = { λ p. p.config.now };

    ghost longest = { λ p. 110000 };

    ghost shown = { λ p begun es. HasSummed p.config.now p.cycles begun es };

    fn begin_unit(&mut self) {
        self.cycles = 0;
    }

    fn cycles(&mut self, _window: &Window) -> u32 {
        self.cycles
    }

    ghost can_watch = { λ p config. config };

    ghost is_shown = { λ before event after saw. (saw.0, refl, saw.1) };
}
