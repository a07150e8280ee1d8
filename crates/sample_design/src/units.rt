ghost use Rattle.std.specs.Prelude.{◌≡◌, ◌<◌, ◌≤◌, ◌^◌, ℕ, ◌↔◌};
ghost use Rattle.sample_design.specs.Design.{IsUsable};
ghost use Rattle.sample_design.specs.Units.{EndsWithin, sampled_unit, unit_count, units_of, window_of};

use crate::Design;
use thiserror::Error;

/// The most units that a sample may have.
const MOST_UNITS: u64 = 65_536;

/// Why a run of this length has no sample.
#[derive(Clone, Copy, Debug, PartialEq, Eq, Error)]
pub enum UnitsFault {
    #[error("no sampled unit ends within {length} instructions")]
    NoUnits { length: u64 },
    #[error("{count} sampled units are more than 65536")]
    TooMany { count: u64 },
}

/// The part of a run that measures one unit.
#[derive(Clone, Copy, Debug, PartialEq, Eq)]
pub struct Window {
    /// The instruction that it starts at.
    pub start: u64,
    /// How many instructions warm the pipeline before the unit.
    pub skip: u32,
    /// How many instructions it has, the unit's among them.
    pub len: u32,
}

impl Design {
    /// How many sampled units end within `length` instructions.
    #[tactic(auto, using(crate::proofs::Counts::count_is, crate::proofs::Counts::below_count))]
    fn count(&self, length: u64) -> u64
        requires { IsUsable self.now }
        ensures count { result ≡ unit_count self.now length }
        ensures below { (p : ℕ) → (p < unit_count self.now length) ↔ EndsWithin self.now length (sampled_unit self.now p) }
    {
        let whole = length / u64::from(self.unit);
        whole
            .saturating_sub(u64::from(self.offset))
            .div_ceil(u64::from(self.every))
    }

    /// How many units a run of `length` instructions has sampled.
    #[tactic(auto, unfolding(crate::specs::Units::units_of))]
    pub fn units(&self, length: u64) -> Result<u32, UnitsFault>
        requires { IsUsable self.now }
        ensures units { result ≡ units_of self.now length }
        ensures below { (p : ℕ) → (p < unit_count self.now length) ↔ EndsWithin self.now length (sampled_unit self.now p) }
    {
        match self.count(length) {
            0 => Err(UnitsFault::NoUnits { length }),
            count @ 1..=MOST_UNITS => Ok(count as u32),
            count => Err(UnitsFault::TooMany { count }),
        }
    }

    /// The window of the unit of this number, counted from 0.
    pub fn window(&self, unit: u64) -> Window
        requires design { IsUsable self.now }
        requires unit { unit ≤ 10 ^ 12 }
        ensures { result ≡ window_of self.now unit }
    {
        let first = unit * u64::from(self.unit);
        let start = first.saturating_sub(u64::from(self.warm));
        let skip = (first - start) as u32;
        Window {
            start,
            skip,
            len: skip + self.unit,
        }
    }
}
