ghost use Rattle.std.specs.Prelude.{◌≡◌, ◌<◌, ◌≤◌, ◌^◌, ℕ, length, slice_index};
ghost use Rattle.rv_exec.specs.Memory.{Every};
ghost use Rattle.live_words.specs.Slots.{slotted_words, AreSlots};
ghost use Rattle.live_words.specs.Words.{memory_of};

use crate::slots::{fill, load, store};
use crate::words::Words;
use rv_exec::Memory;

/// A memory that holds words alone, which are found by hashing: the same as `Held`, and faster.
#[derive(Drop)]
pub struct Hashed<'a> {
    /// Each free, or one more than the address times 2^32, and the value.
    pub slots: &'a mut [u64],
}

impl<'a> Hashed<'a> {
    /// The memory of these words, in slots that are all 0. Twice as many slots as words make few of them share
    /// a place.
    pub fn over(words: &Words, slots: &'a mut [u64]) -> Hashed<'a>
        requires free { (place : ℕ) → place < length slots.old → slice_index slots.old place ≡ 0 }
        requires room { length words.now ≤ length slots.old }
        requires few { length slots.old ≤ 2 ^ 32 }
        ensures sound { AreSlots result.slots.now }
        ensures words { slotted_words result.slots.now ≡ memory_of words.now }
    {
        fill(words.as_slice(), slots);
        Hashed { slots }
    }
}

impl Memory for Hashed<'_> {
    ghost words = { λ hashed. slotted_words hashed.slots.now };

    ghost buffers = { λ hashed. Every };

    ghost sound = { λ hashed. AreSlots hashed.slots.now };

    fn load_word(&self, addr: u32) -> Option<u32> {
        load(self.slots, addr)
    }

    fn store_word(&mut self, addr: u32, value: u32) -> bool {
        store(self.slots, addr, value)
    }

    fn covers(&self, _addr: u32, _len: u32) -> bool {
        true
    }
}
