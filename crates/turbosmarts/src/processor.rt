ghost use Rattle.std.specs.Prelude.{◌≡◌, ℕ, List, length};
ghost use Rattle.confidence.specs.Sums.{IsCycles};
ghost use Rattle.hierarchy.specs.declared.config.Config.{Config as ConfigValue};
ghost use Rattle.hierarchy.specs.Config.{IsConfig};
ghost use Rattle.rv_exec.specs.declared.event.Event.{Event as EventValue};
ghost use Rattle.turbosmarts.specs.Processor.{CanTell, IsAtEnd, IsShownMore, window_cycles};

use rv_exec::Watch;
use sample_design::Window;

/// A processor that watches a run, one instruction after the other, and can tell the cycles of a
/// unit at the unit's end.
pub trait Processor: Watch {
    /// What it is built from.
    ghost config: { Self → ConfigValue };

    /// The most instructions of a window that it can tell the cycles of.
    ghost longest: { Self → ℕ };

    /// It has been shown these instructions since the start of the run, and the latest unit began
    /// behind so many of them.
    ghost shown: { Self → ℕ → List EventValue → Type 0 };

    /// A unit begins.
    fn begin_unit(&mut self)
        ensures config { config self.new ≡ config self.old }
        ensures longest { longest self.new ≡ longest self.old }
        ensures shown { (begun : ℕ) (es : List EventValue) → shown self.old begun es → shown self.new (length es) es };

    /// The cycles of the unit that has just ended, by its window.
    fn cycles(&mut self, window: &Window) -> u32
        requires config { IsConfig (config self.old) }
        requires shown { CanTell (shown self.old) (longest self.old) window.now }
        ensures config { config self.new ≡ config self.old }
        ensures longest { longest self.new ≡ longest self.old }
        ensures shown { (begun : ℕ) (es : List EventValue) → shown self.old begun es → shown self.new begun es }
        ensures value { (begun : ℕ) (es : List EventValue) → shown self.old begun es → IsAtEnd window.now begun es → result ≡ window_cycles (config self.old) es window.now }
        ensures range { IsCycles result };

    /// It can watch wherever it is built from a good configuration.
    ghost can_watch: { (p : Self) → IsConfig (config p) → Self.sound p };

    /// What it sees is shown to it.
    ghost is_shown: { (before : Self) (event : EventValue) (after : Self) → Self.sees before event after
        → (config after ≡ config before) × (longest after ≡ longest before)
        × IsShownMore (shown before) event (shown after) };
}
