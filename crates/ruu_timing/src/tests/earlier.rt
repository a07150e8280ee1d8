ghost use Rattle.std.specs.Prelude.{◌≡◌, ◌≤◌, ◌^◌, length, option_copied, reverse};
ghost use Rattle.std.specs.List.{find, filter, slice_get};
ghost use Rattle.hierarchy.specs.Widths.{AreWidths};
ghost use Rattle.ruu_timing.specs.Timed.{AreTimed};
ghost use Rattle.ruu_timing.specs.Times.{accesses, writes, stores_to, issues_at, issues_alike, memory_ones, back, has_slot, issue_of};

use crate::class::{accesses_memory, is_same, is_store, limit_of};
use crate::timed::Timed;
use hierarchy::Widths;
use rv_isa::Class;

fn accesses(x: &Timed) -> bool
    ensures { result ≡ accesses x.now }
{
    accesses_memory(x.mark.class)
}

fn writes(x: &Timed, register: u8) -> bool
    ensures { result ≡ writes register x.now }
{
    match x.mark.dest {
        Some(dest) => dest == register,
        None => false,
    }
}

pub(crate) fn stores_to(x: &Timed, word: u32) -> bool
    ensures { result ≡ stores_to word x.now }
{
    let is_there = match x.mark.word {
        Some(stored) => stored == word,
        None => false,
    };
    is_store(x.mark.class) && is_there
}

fn issues_alike(x: &Timed, class: Class, t: u64) -> bool
    ensures { result ≡ issues_alike class t x.now }
{
    x.issue == t && is_same(x.mark.class, class)
}

/// The last of these that writes a register.
pub(crate) fn last_writer(earlier: &[Timed], register: u8) -> Option<&Timed>
    ensures { option_copied result ≡ find (λ x. writes register x) (reverse earlier.now) }
{
    earlier.iter().rev().find(|x| writes(x, register))
}

/// The last of these that stores to a word.
pub(crate) fn last_store(earlier: &[Timed], word: u32) -> Option<&Timed>
    ensures { option_copied result ≡ find (λ x. stores_to word x) (reverse earlier.now) }
{
    earlier.iter().rev().find(|x| stores_to(x, word))
}

/// How many of these issue in a cycle.
pub(crate) fn issued_at(earlier: &[Timed], t: u64) -> usize
    ensures { result ≡ length (filter (λ x. issues_at t x) (reverse earlier.now)) }
{
    earlier.iter().rev().filter(|x| x.issue == t).count()
}

/// How many of these are of a class and issue in a cycle.
pub(crate) fn issued_alike(earlier: &[Timed], class: Class, t: u64) -> usize
    ensures { result ≡ length (filter (λ x. issues_alike class t x) (reverse earlier.now)) }
{
    earlier
        .iter()
        .rev()
        .filter(|x| issues_alike(x, class, t))
        .count()
}

/// The load or store behind which `n` further ones of these follow.
pub(crate) fn access_before(earlier: &[Timed], n: usize) -> Option<&Timed>
    ensures { option_copied result ≡ slice_get (memory_ones (reverse earlier.now)) n }
{
    earlier.iter().rev().filter(|x| accesses(x)).nth(n)
}

/// The `k`-th of these from the end.
pub(crate) fn back(earlier: &[Timed], k: usize) -> Option<&Timed>
    requires { 1 ≤ k }
    ensures { option_copied result ≡ back (reverse earlier.now) k }
{
    let place = earlier.len().checked_sub(k)?;
    earlier.get(place)
}

/// Whether one more instruction of a class can issue in a cycle.
#[tactic(auto, unfolding(crate::specs::Times::has_slot))]
pub(crate) fn has_slot(w: &Widths, earlier: &[Timed], class: Class, t: u64) -> bool
    ensures { result ≡ has_slot w.now (reverse earlier.now) class t }
{
    let issued = issued_at(earlier, t);
    let alike = issued_alike(earlier, class, t);
    issued < w.issue as usize && alike < limit_of(w, class) as usize
}

/// The first cycle from `ready` on in which an instruction of a class can issue.
#[tactic(auto, using(crate::proofs::TimedLemmas::last_small))]
pub(crate) fn first_slot(w: &Widths, earlier: &[Timed], class: Class, ready: u64) -> u64
    requires widths { AreWidths w.now }
    requires timed { AreTimed (reverse earlier.now) }
    requires ready { ready ≤ 2 ^ 36 }
    ensures value { result ≡ issue_of w.now (reverse earlier.now) class ready }
    ensures bound { result ≤ 2 ^ 37 }
{
    let mut t = ready;
    'wait: while !has_slot(w, earlier, class, t) {
        t += 1;
    }
    t
}
