ghost use Rattle.std.specs.Prelude.{◌≡◌, ℕ, ◌*◌, ◌<◌, ◌≤◌, ◌↔◌, List, [], IsTrue, IsOk, IfOk, OnErr, OnOk, MatchResult, length, slice_set, slice_index_or};
ghost use Rattle.lru_plain.specs.Shape.{Shape, sets_of};
ghost use Rattle.lru_plain.specs.Cache.{plain, empty_sets};
ghost use Rattle.recency_record.specs.Recency.{record_of, IsRecency};
ghost use Rattle.recency_record.specs.Slots.{ordered};
ghost use Rattle.rebuild.specs.Merge.{Fits, merged, RebuildsPlain};

use crate::merge::{fill, merge};
use crate::source::Source;
use lru_plain::{Geometry, PlainCache};
use recency_record::{Record, Snapshot};

/// The smaller cache has other lines, or more sets or ways than the record.
#[derive(Clone, Copy, Debug, PartialEq, Eq)]
pub struct Beyond;

/// Whether a record of the large geometry tells what a cache of the small one holds.
pub fn fits(large: Geometry, small: Geometry) -> bool
    ensures { IsTrue result ↔ Fits large small }
{
    large.line_log() == small.line_log()
        && small.sets_log() <= large.sets_log()
        && small.ways() <= large.ways()
}

/// How many words rebuilding needs: none, since the most recent entries of one set are few.
pub fn scratch_len(_large: Geometry, _small: Geometry) -> usize
    ensures { result ≤ 131136 }
{
    0
}

/// The record of a list is enough for every cache that fits in it.
pub fn rebuilds_plain()
    ensures { RebuildsPlain }
{}

/// Makes the cache what it would be after every reference of the record. The scratch stays as it was.
/// Where the cache has other lines, or more sets or ways than the record, it stays as it was too.
pub fn rebuild(
    snapshot: &Snapshot,
    _scratch: &mut [u64],
    cache: &mut PlainCache,
) -> Result<(), Beyond>
    ensures beyond { IsOk result ↔ Fits snapshot.now.shape cache.old.shape }
    ensures unchanged { OnErr result (cache.new ≡ cache.old) }
    ensures merged { OnOk result (cache.new ≡ record cache.old { sets = merged snapshot.now cache.old.shape }) }

    // Where the snapshot is that of a list of addresses, the cache is the one after that list.
    ensures plain { OnOk result ((addrs : List ℕ) → snapshot.now ≡ record_of addrs snapshot.now.shape
        → cache.new.sets ≡ plain addrs cache.old.shape) }
    ensures scratch { _scratch.new ≡ _scratch.old }
{
    rebuild_from(snapshot, cache)
}

/// As `rebuild` from the snapshot of the record.
pub fn rebuild_live(
    live: &Record,
    _scratch: &mut [u64],
    cache: &mut PlainCache,
) -> Result<(), Beyond>
    ensures beyond { IsOk result ↔ Fits live.now.shape cache.old.shape }
    ensures unchanged { OnErr result (cache.new ≡ cache.old) }
    ensures merged { OnOk result (cache.new
        ≡ record cache.old { sets = merged (ordered live.now) cache.old.shape }) }

    // Where the record is that of a list of addresses, the cache is the one after that list.
    ensures plain { OnOk result ((addrs : List ℕ) → ordered live.now ≡ record_of addrs live.now.shape
        → cache.new.sets ≡ plain addrs cache.old.shape) }
    ensures scratch { _scratch.new ≡ _scratch.old }
{
    rebuild_from(live, cache)
}

/// Makes the cache from what a source tells.
fn rebuild_from<S: Source>(source: &S, cache: &mut PlainCache) -> Result<(), Beyond>
    ensures beyond { IsOk result ↔ Fits (S.told source.now).shape cache.old.shape }
    ensures unchanged { OnErr result (cache.new ≡ cache.old) }
    ensures merged { OnOk result (cache.new ≡ record cache.old { sets = merged (S.told source.now) cache.old.shape }) }
    ensures plain { OnOk result ((addrs : List ℕ) → S.told source.now ≡ record_of addrs (S.told source.now).shape
        → cache.new.sets ≡ plain addrs cache.old.shape) }
{
    let large = source.geometry();
    let small = cache.geometry();
    if !fits(large, small) {
        return Err(Beyond);
    }
    cache.clear();
    fill_all(source, large, small, cache);
    Ok(())
}

/// How many large sets map to each small one.
fn turns_of(large: Geometry, small: Geometry) -> u32
    requires { Fits large small }
    ensures value { sets_of small * result ≡ sets_of large }
    ensures few { sets_of small * result ≤ 4096 }
{
    1 << (large.sets_log() - small.sets_log())
}

/// Fills the sets of an empty cache.
fn fill_all<S: Source>(source: &S, large: Geometry, small: Geometry, cache: &mut PlainCache)
    requires large { (S.told source.now).shape ≡ large }
    requires small { cache.old.shape ≡ small }
    requires fits { Fits large small }
    requires recency { IsRecency (S.told source.now) }
    requires empty { cache.old.sets ≡ empty_sets small }
    ensures { cache.new ≡ record cache.old { sets = merged (S.told source.now) small } }
{
    let count = small.sets();
    let turns = turns_of(large, small);
    let ways = usize::from(small.ways());
    for set in 0..count {
        let list = merge(source, count, turns, set, ways);
        fill(cache, set, list.as_slice());
    }
}
