ghost use Rattle.std.specs.Prelude.{◌≡◌, ◌↔◌, ◌<◌, ◌≤◌, ◌^◌, [], length, slice_index_or, None};
ghost use Rattle.smarts_base.specs.Outcome.{Answers};
ghost use Rattle.live_words.specs.Follow.{last_of, Follow};
ghost use Rattle.live_words.specs.Words.{IsPair};
ghost use Rattle.live_points.specs.Sharing.{is_behind, ranks};
ghost use Rattle.livepoint_format.specs.Pairs.{first_unranked, table_or_fault};

use live_words::BadPair;
use smarts_base::Refusal;
use std::alloc::Global;
use std::marker::Model;

/// Pairs of an address and a value that several points have among their words: by address, and then by value.
/// Addresses are multiples of 4.
#[derive(Debug, Drop)]
pub struct Shared {
    pairs: Vec<(u32, u32)>,
}

impl Model for Shared {
    ghost use Rattle.std.specs.Prelude.{ℕ, List};

    ghost Value = { List (ℕ × ℕ) };

    ghost use Rattle.livepoint_format.specs.Views.{IsSharedTable};

    ghost view = { λ fields. fields.pairs.items };

    ghost invariant = { IsSharedTable };
}

/// Whether a pair stands behind another, if there is one.
fn is_behind(last: Option<(u32, u32)>, pair: (u32, u32)) -> bool
    ensures { result ≡ is_behind last pair }
{
    match last {
        None => true,
        Some(before) => before.0 < pair.0 || before.0 == pair.0 && before.1 < pair.1,
    }
}

/// Whether a pair may stand in a table behind those before it.
#[tactic(auto, using(crate::proofs::Follows::last_is))]
pub fn ranks(before: &[(u32, u32)], pair: (u32, u32)) -> bool
    ensures value { result ≡ ranks before.now pair }
    ensures fits { (pair.0 < 2 ^ 32) × (pair.1 < 2 ^ 32) }
{
    pair.0 % 4 == 0 && is_behind(before.last().copied(), pair)
}

/// The first pair that can't stand in its place.
fn first_unranked(pairs: &[(u32, u32)]) -> Option<u32>
    requires { length pairs.now < 2 ^ 32 }
    ensures value { result ≡ first_unranked pairs.now }
    ensures ranked { (result ≡ None) ↔ Follow (IsPair ranks) [] pairs.now }
{
    for index in 0..pairs.len() {
        if !ranks(&pairs[..index], pairs[index]) {
            return Some(index as u32);
        }
    }
    None
}

impl Shared {
    /// No pair.
    pub fn empty(alloc: Global) -> Shared
        ensures { result ≡ [] }
    {
        Shared {
            pairs: Vec::new(alloc),
        }
    }

    /// The table of these pairs, or the first of them whose address isn't a multiple of 4 or that isn't above the
    /// pair before it.
    pub fn from_pairs(alloc: Global, pairs: &[(u32, u32)]) -> Result<Shared, Refusal<BadPair>>
        requires { length pairs.now < 2 ^ 32 }
        ensures answer { Answers (λ shared. shared) result (table_or_fault pairs.now) }

        // There is no fault exactly where the pairs are in order.
        ensures ranked { (first_unranked pairs.now ≡ None) ↔ Follow (IsPair ranks) [] pairs.now }
    {
        match first_unranked(pairs) {
            Some(index) => Err(Refusal::Fault(BadPair { index })),
            None => Ok(Shared::from_ranked(Vec::from_slice(alloc, pairs)?)),
        }
    }

    /// The table of pairs that are in order.
    pub fn from_ranked(pairs: Vec<(u32, u32)>) -> Shared
        requires ranked { Follow (IsPair ranks) [] pairs.items }
        requires few { length pairs.items < 2 ^ 32 }
        ensures { result ≡ pairs.items }
    {
        Shared { pairs }
    }

    /// How many pairs there are.
    pub fn len(&self) -> u32
        ensures value { result ≡ length self.now }
        ensures ranked { Follow (IsPair ranks) [] self.now }
    {
        self.pairs.len() as u32
    }

    /// The address and the value of a pair.
    pub fn at(&self, index: u32) -> (u32, u32)
        requires { index < length self.now }
        ensures { result ≡ slice_index_or self.now index (0, 0) }
    {
        self.pairs[index as usize]
    }

    /// All addresses and values.
    pub fn as_slice(&self) -> &[(u32, u32)]
        ensures value { result.now ≡ self.now }
        ensures ranked { Follow (IsPair ranks) [] self.now }
        ensures few { length self.now < 2 ^ 32 }
    {
        self.pairs.as_slice()
    }
}
