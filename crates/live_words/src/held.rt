ghost use Rattle.std.specs.Prelude.{◌≡◌};
ghost use Rattle.rv_exec.specs.Memory.{Every};
ghost use Rattle.live_words.specs.Packed.{ArePacked, held_words};

use crate::packed::{load, store};
use rv_exec::Memory;

/// A memory that holds the words of packed pairs alone. They are found by bisection.
#[derive(Drop)]
pub struct Held<'a> {
    /// Each the address times 2^32, and the value.
    pub packed: &'a mut [u64],
}

impl<'a> Held<'a> {
    /// The memory of these pairs, whose addresses are multiples of 4 and rise.
    pub fn over(packed: &'a mut [u64]) -> Held<'a>
        requires { ArePacked packed.old }
        ensures { result.packed.now ≡ packed.old }
    {
        Held { packed }
    }
}

impl Memory for Held<'_> {
    ghost words = { λ held. held_words held.packed.now };

    ghost buffers = { λ held. Every };

    ghost sound = { λ held. ArePacked held.packed.now };

    fn load_word(&self, addr: u32) -> Option<u32> {
        load(self.packed, addr)
    }

    fn store_word(&mut self, addr: u32, value: u32) -> bool {
        store(self.packed, addr, value)
    }

    fn covers(&self, _addr: u32, _len: u32) -> bool {
        true
    }
}
