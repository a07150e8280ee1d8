ghost use Rattle.std.specs.Prelude.{◌≡◌, ◌%◌, ℕ};
ghost use Rattle.rv_exec.specs.Memory.{Every, Mapped};
ghost use Rattle.rv_exec.specs.Tests.Memories.{flat_words, two_words};

use crate::Memory;

/// Two words alone, one of them to be executed and one to be read and written.
#[derive(Clone, Copy, Debug)]
pub struct Pair {
    pub code_at: u32,
    pub code: u32,
    pub data_at: u32,
    pub data: u32,
    pub ghost aligned: { (code_at % 4 ≡ 0) × (data_at % 4 ≡ 0) },
}

impl Memory for Pair {
    ghost words = { λ s. two_words s.code_at s.code s.data_at s.data };

    ghost buffers = { λ s. Every };

    ghost sound = { λ s. Unit {0} };

    #[tactic(auto, using(crate::proofs::TestsLemmas::word_at_two))]
    fn load_word(&self, addr: u32) -> Option<u32> {
        if addr == self.code_at {
            return Some(self.code);
        }
        if addr == self.data_at {
            return Some(self.data);
        }
        None
    }

    #[tactic(auto, using(crate::proofs::TestsLemmas::word_at_two, crate::proofs::TestsLemmas::store_first, crate::proofs::TestsLemmas::store_second))]
    fn store_word(&mut self, addr: u32, value: u32) -> bool {
        if addr == self.code_at {
            self.code = value;
            return true;
        }
        if addr == self.data_at {
            self.data = value;
            return true;
        }
        false
    }

    fn covers(&self, _addr: u32, _len: u32) -> bool {
        true
    }
}

/// A whole memory of words from address 0 on.
#[derive(Drop)]
pub struct Flat {
    pub words: Vec<u32>,
    pub heap_low: u32,
}

impl Memory for Flat {
    ghost words = { λ s. flat_words s.words.items };

    ghost buffers = { λ s. Mapped 0 s.heap_low };

    ghost sound = { λ s. Unit {0} };

    #[tactic(auto, using(crate::proofs::TestsLemmas::word_at_flat))]
    fn load_word(&self, addr: u32) -> Option<u32> {
        let place = (addr / 4) as usize;
        if addr % 4 == 0 && place < self.words.len() {
            Some(self.words[place])
        } else {
            None
        }
    }

    #[tactic(auto, using(crate::proofs::TestsLemmas::word_at_flat, crate::proofs::TestsLemmas::store_flat))]
    fn store_word(&mut self, addr: u32, value: u32) -> bool {
        let place = (addr / 4) as usize;
        if addr % 4 == 0 && place < self.words.len() {
            self.words[place] = value;
            true
        } else {
            false
        }
    }

    fn covers(&self, addr: u32, len: u32) -> bool {
        let end = u64::from(addr) + u64::from(len);
        len == 0
            || end <= u64::from(self.heap_low) + 0x0400_0000
            || (addr >= 0x7FF0_0000 && end <= 0x8000_0000)
    }
}
