ghost use Rattle.std.specs.Prelude.{MatchBool, MatchOption};

/// How a run is sampled: after SMARTS, every `every`-th unit of `unit` instructions from `offset`
/// on is measured, after `warm` instructions of detailed warming.
#[derive(Clone, Copy, Debug, PartialEq, Eq)]
pub struct Design {
    /// Instructions of a unit, from 16 to 10,000.
    pub unit: u32,
    /// Instructions of detailed warming before a unit, at most 100,000.
    pub warm: u32,
    /// From 1 to 1,000,000.
    pub every: u32,
    /// The number of the first unit measured, at most 999,999 and below `every`.
    pub offset: u32,
    /// Decides the order of the visits, at most 10^18.
    pub seed: u64,
    /// The most instructions that the program may take, from 1 to 2^36.
    pub budget: u64,
}

/// Why a design can't be used.
#[derive(Clone, Copy, Debug, PartialEq, Eq)]
pub enum DesignCheck {
    /// A number is outside its range.
    OutOfRange,
    /// Every number is in its range, and the offset isn't below `every`.
    OffsetNotBelowEvery,
}

impl Design {
    ghost use Rattle.sample_design.specs.Design.{IsInRange, IsUsable, IsFirstFault};

    fn is_in_range(&self) -> bool
        ensures { MatchBool result (IsInRange self.now) (¬ IsInRange self.now) }
    {
        (16..=10_000).contains(&self.unit)
            && self.warm <= 100_000
            && (1..=1_000_000).contains(&self.every)
            && self.offset <= 999_999
            && self.seed <= 1_000_000_000_000_000_000
            && (1..=1 << 36).contains(&self.budget)
    }

    /// The first thing that is wrong with the design.
    pub fn check(&self) -> Option<DesignCheck>
        ensures { MatchOption result (IsUsable self.now) (IsFirstFault self.now) }
    {
        if !self.is_in_range() {
            Some(DesignCheck::OutOfRange)
        } else if self.offset >= self.every {
            Some(DesignCheck::OffsetNotBelowEvery)
        } else {
            None
        }
    }
}
