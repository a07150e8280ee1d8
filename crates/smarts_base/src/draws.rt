ghost use Rattle.std.specs.Prelude.{◌≡◌, ◌<◌, ◌^◌};
ghost use Rattle.smarts_base.specs.Draws.{next_state, drawn};

/// Numbers drawn from a seed, the same at each run: Knuth's linear congruential generator of MMIX,
/// of which each draw gives the upper 31 bits.
#[derive(Clone, Copy, Debug, PartialEq, Eq)]
pub struct Draws {
    /// At first the seed.
    pub state: u64,
}

impl Draws {
    /// The next number, below 2^31.
    #[tactic(auto, unfolding(crate::specs::Draws::next_state, crate::specs::Draws::drawn))]
    pub fn draw(&mut self) -> u32
        ensures state { self.new.state ≡ next_state self.old.state }
        ensures value { result ≡ drawn self.old.state }
        ensures below { result < 2 ^ 31 }
    {
        self.state = self
            .state
            .wrapping_mul(6_364_136_223_846_793_005)
            .wrapping_add(1_442_695_040_888_963_407);
        (self.state >> 33) as u32
    }
}
