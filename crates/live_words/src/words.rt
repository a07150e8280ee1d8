ghost use Rattle.std.specs.Prelude.{◌≡◌, ◌↔◌, ◌%◌, ◌^◌, ◌<◌, ◌≤◌, None, length, slice_index_or, IfOk, IsTrue};
ghost use Rattle.smarts_base.specs.Outcome.{Answers};
ghost use Rattle.live_words.specs.Words.{AreWords, first_misplaced, words_or_fault};

use smarts_base::{NoMemory, Refusal};
use std::alloc::Global;
use std::marker::Model;

/// A pair that can't stand in its place: its address isn't a multiple of 4, or isn't above that of the
/// pair before it.
#[derive(Clone, Copy, Debug, PartialEq, Eq)]
pub struct BadPair {
    /// How many pairs stand before it.
    pub index: u32,
}

/// Words of a memory, each as a pair of its address and its value, by rising address. Addresses are
/// multiples of 4.
#[derive(Debug, Drop)]
pub struct Words {
    pairs: Vec<(u32, u32)>,
}

impl Model for Words {
    ghost use Rattle.std.specs.Prelude.{ℕ, List};

    ghost Value = { List (ℕ × ℕ) };

    ghost use Rattle.live_words.specs.Words.{AreWords};

    ghost view = { λ fields. fields.pairs.items };

    ghost invariant = { λ fields. AreWords fields.pairs.items };
}

/// Whether the pair's address is a multiple of 4 and not below the least that may come next.
fn may_follow(least: u64, pair: (u32, u32)) -> bool
    ensures value { IsTrue result ↔ ((pair.0 % 4 ≡ 0) × (least ≤ pair.0)) }
    ensures fits { (pair.0 < 2 ^ 32) × (pair.1 < 2 ^ 32) }
{
    pair.0 % 4 == 0 && least <= u64::from(pair.0)
}

/// The first pair that can't stand in its place.
fn first_misplaced(pairs: &[(u32, u32)]) -> Option<u32>
    ensures value { result ≡ first_misplaced pairs.now }
    ensures words { (result ≡ None) ↔ AreWords pairs.now }
{
    // The least address that may come next.
    let mut least = 0;
    for index in 0..pairs.len() {
        let pair = pairs[index];
        if !may_follow(least, pair) {
            return Some(index as u32);
        }
        least = u64::from(pair.0) + 4;
    }
    None
}

impl Words {
    /// The words of these pairs, or the first of them that can't stand in its place.
    pub fn from_pairs(alloc: Global, pairs: &[(u32, u32)]) -> Result<Words, Refusal<BadPair>>
        ensures answer { Answers (λ words. words) result (words_or_fault pairs.now) }

        // There is no fault exactly where the addresses are multiples of 4 and rise.
        ensures words { (first_misplaced pairs.now ≡ None) ↔ AreWords pairs.now }
    {
        match first_misplaced(pairs) {
            Some(index) => Err(Refusal::Fault(BadPair { index })),
            None => Ok(Words::of_slice(alloc, pairs)?),
        }
    }

    fn of_slice(alloc: Global, pairs: &[(u32, u32)]) -> Result<Words, NoMemory>
        requires { AreWords pairs.now }
        ensures { IfOk result (λ words. words ≡ pairs.now) }
    {
        Ok(Words {
            pairs: Vec::from_slice(alloc, pairs)?,
        })
    }

    /// The words of these pairs, whose addresses rise.
    pub fn from_rising(pairs: Vec<(u32, u32)>) -> Words
        requires { AreWords pairs.items }
        ensures { result ≡ pairs.items }
    {
        Words { pairs }
    }

    /// How many words there are: at most one for each address.
    pub fn len(&self) -> usize
        ensures value { result ≡ length self.now }
        ensures few { result ≤ 2 ^ 30 }
        ensures words { AreWords self.now }
    {
        self.pairs.len()
    }

    /// The address and the value of a word.
    pub fn at(&self, index: usize) -> (u32, u32)
        requires { index < length self.now }
        ensures { result ≡ slice_index_or self.now index (0, 0) }
    {
        self.pairs[index]
    }

    /// All addresses and values.
    pub fn as_slice(&self) -> &[(u32, u32)]
        ensures value { result.now ≡ self.now }
        ensures words { AreWords self.now }
    {
        self.pairs.as_slice()
    }
}
