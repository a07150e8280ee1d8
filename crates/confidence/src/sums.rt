ghost use Rattle.std.specs.Prelude.{◌≡◌, ◌^◌, ◌<◌, ℕ, List, [], ◌∷◌, ◌++◌};
ghost use Rattle.confidence.specs.Sums.{sums_of, with_cycles, IsBounded, IsCycles};

/// What is kept of the cycles of the units measured so far: enough for their mean and variance.
#[derive(Clone, Copy, Debug, PartialEq, Eq)]
pub struct Sums {
    /// How many units were measured, at most 65,536.
    pub n: u32,
    /// The sum of their cycles.
    pub s1: u64,
    /// The sum of the squares of their cycles.
    pub s2: u128,
}

impl Sums {
    /// The sums of no units.
    #[tactic(auto, unfolding(crate::specs::Sums::sums_of))]
    pub fn new() -> Sums
        ensures none { result.n ≡ 0 }
        ensures sums { result ≡ sums_of [] }
        ensures bounded { IsBounded result }
    {
        Sums { n: 0, s1: 0, s2: 0 }
    }

    /// Takes in one more unit.
    #[tactic(auto, unfolding(crate::specs::Sums::sums_of))]
    pub fn add(&mut self, cycles: u32)
        requires bounded { IsBounded self.old }
        requires room { self.old.n < 65536 }
        requires cycles { IsCycles cycles }
        ensures value { self.new ≡ with_cycles self.old cycles }
        ensures sums { (list : List ℕ) → self.old ≡ sums_of list → self.new ≡ sums_of (list ++ cycles ∷ []) }
        ensures bounded { IsBounded self.new }
    {
        self.n += 1;
        self.s1 += u64::from(cycles);
        self.s2 += u128::from(cycles) * u128::from(cycles);
    }
}
