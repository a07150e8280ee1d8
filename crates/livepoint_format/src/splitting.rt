ghost use Rattle.std.specs.Prelude.{◌≡◌, ◌+◌, ◌++◌, ◌<◌, ◌≤◌, ◌^◌, [], length, IfOk, OnOk};
ghost use Rattle.live_words.specs.Follow.{Follow};
ghost use Rattle.live_words.specs.Words.{IsPair};
ghost use Rattle.live_points.specs.Sharing.{ranks};
ghost use Rattle.livepoint_format.specs.Shared.{parts_of};
ghost use Rattle.livepoint_format.specs.Splitting.{open_run, extended};
ghost use Rattle.livepoint_format.specs.Views.{parts_view};

use crate::words::{WordParts, place_in};
use smarts_base::NoMemory;
use std::alloc::Global;

/// Puts a place behind runs and the run under way, and answers the run that is under way then.
#[tactic(auto, using(crate::proofs::SplittingLemmas::extended_behind, crate::proofs::SplittingLemmas::extended_apart))]
fn add_place(
    runs: &mut Vec<(u32, u32)>,
    last: (u32, u32),
    place: u32,
) -> Result<(u32, u32), NoMemory>
    requires few { last.1 < 2 ^ 31 }
    requires first { last.1 ≡ 0 → runs.old.items ≡ [] }
    ensures runs { IfOk result (λ next. runs.new.items ++ open_run next ≡ extended (runs.old.items ++ open_run last) place) }
    ensures few { IfOk result (λ next. next.1 ≤ last.1 + 1) }
    ensures some { IfOk result (λ next. 1 ≤ next.1) }
{
    let (first, count) = last;
    if count > 0 {
        if u64::from(first) + u64::from(count) == u64::from(place) {
            return Ok((first, count + 1));
        }
        runs.push(last)?;
    }
    Ok((place, 1))
}

/// Puts the run under way behind the others.
fn close_run(runs: &mut Vec<(u32, u32)>, last: (u32, u32)) -> Result<(), NoMemory>
    ensures { OnOk result (runs.new.items ≡ runs.old.items ++ open_run last) }
{
    if last.1 > 0 {
        runs.push(last)?;
    }
    Ok(())
}

/// The words of a point beside a table, which is in order: own pairs, and runs.
pub fn split(
    alloc: Global,
    shared: &[(u32, u32)],
    words: &[(u32, u32)],
) -> Result<WordParts, NoMemory>
    requires order { Follow (IsPair ranks) [] shared.now }
    requires short { length shared.now < 2 ^ 32 }
    requires few { length words.now ≤ 2 ^ 30 }
    ensures { IfOk result (λ p. parts_view p ≡ parts_of shared.now words.now) }
{
    let mut own = Vec::new(alloc);
    let mut runs = Vec::new(alloc);
    let mut last = (0, 0);
    for i in 0..words.len() {
        match place_in(shared, words[i]) {
            Some(place) => last = add_place(&mut runs, last, place as u32)?,
            None => own.push(words[i])?,
        }
    }
    close_run(&mut runs, last)?;
    Ok(WordParts { own, runs })
}
