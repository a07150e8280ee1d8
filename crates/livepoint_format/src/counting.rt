ghost use Rattle.std.specs.Prelude.{◌≡◌, ℕ, ◌+◌, cond, IfOk, OnOk, Some, None, is_some};
ghost use Rattle.std.specs.List.{All, IsDistinct};
ghost use Rattle.std.specs.Map.{keys_of, lookup};
ghost use Rattle.live_words.specs.Words.{AreWords};
ghost use Rattle.live_points.specs.Sharing.{same_pair, stands_in, holders, IsSharing};
ghost use Rattle.livepoint_format.specs.Told.{AreTold, told_from};

use crate::shared::Shared;
use indexmap::IndexMap;
use live_points::LivePoint;
use smarts_base::NoMemory;
use std::alloc::Global;

/// The pairs of points, each with the number of points that have it, where 2 stands for all greater numbers.
type Tally = IndexMap<(u32, u32), u8>;

/// Counts a pair of one more point.
fn count(tally: &mut Tally, pair: (u32, u32)) -> Result<(), NoMemory>
    ensures { OnOk result ((q : ℕ × ℕ) → lookup (same_pair q) tally.new.entries
        ≡ cond (same_pair pair q) (Some (cond (is_some (lookup (same_pair pair) tally.old.entries)) 2 1)) (lookup (same_pair q) tally.old.entries)) }
{
    if tally.insert(pair, 2)?.is_none() {
        tally.insert(pair, 1)?;
    }
    Ok(())
}

/// Counts the words of one more point.
fn count_words(tally: &mut Tally, words: &[(u32, u32)]) -> Result<(), NoMemory>
    requires { AreWords words.now }
    ensures { OnOk result ((held : ℕ × ℕ → ℕ) → AreTold held tally.old.entries
        → AreTold (λ pair. held pair + cond (stands_in pair words.now) 1 0) tally.new.entries) }
{
    for i in 0..words.len() {
        count(tally, words[i])?;
    }
    Ok(())
}

/// Counts the words of points.
fn counted(alloc: Global, points: &[LivePoint]) -> Result<Tally, NoMemory>
    ensures told { IfOk result (λ tally. AreTold (holders points.now) tally.entries) }
    ensures words { IfOk result (λ tally. All (λ point. AreWords point.words) points.now) }
{
    let mut tally = IndexMap::new(alloc);
    for i in 0..points.len() {
        count_words(&mut tally, points[i].words.as_slice())?;
    }
    Ok(tally)
}

/// The pairs that at least so many points have, one or two.
fn held_by(alloc: Global, tally: &Tally, least: u8) -> Result<Vec<(u32, u32)>, NoMemory>
    ensures pairs { IfOk result (λ pairs. pairs.items ≡ told_from least tally.now.entries) }
    ensures distinct { IfOk result (λ pairs. IsDistinct same_pair (keys_of tally.now.entries)) }
{
    let mut pairs = Vec::new(alloc);
    for (pair, count) in tally {
        if *count >= least {
            pairs.push(*pair)?;
        }
    }
    Ok(pairs)
}

/// The pairs of an address and a value that stand in the words of at least two points, by address and then by value.
/// 2^32 of them or more are want of memory. The words are gone through once, and what is kept grows with the number of
/// distinct pairs.
pub fn sharing(alloc: Global, points: &[LivePoint]) -> Result<Shared, NoMemory>
    ensures { IfOk result (λ shared. IsSharing points.now shared) }
{
    let tally = counted(alloc, points)?;
    let mut pairs = held_by(alloc, &tally, 2)?;
    if pairs.len() > u32::MAX as usize {
        return Err(NoMemory);
    }
    pairs.sort_unstable();
    Ok(Shared::from_ranked(pairs))
}
