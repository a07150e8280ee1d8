use super::*;
use lru_plain::{Geometry, PlainCache};
use recency_record::{Entry, Record, Snapshot};
use smarts_base::Draws;
use std::alloc::Global;
use std::test::Fail;

/// A geometry that there is.
fn shape(line_log: u8, sets_log: u8, ways: u8) -> Result<Geometry, Fail> {
    Ok(Geometry::new(line_log, sets_log, ways).ok_or("no such geometry")?)
}

/// A record of these addresses.
fn record_of(alloc: Global, geometry: Geometry, addrs: &[u32]) -> Result<Record, Fail> {
    let mut record = Record::new(alloc, geometry)?;
    for addr in addrs {
        if record.time() < 1 << 63 {
            record.refer(*addr);
        }
    }
    Ok(record)
}

/// What a record of these addresses tells.
fn snapshot_of(alloc: Global, geometry: Geometry, addrs: &[u32]) -> Result<Snapshot, Fail> {
    Ok(record_of(alloc, geometry, addrs)?.snapshot()?)
}

/// Whether there is such a set, and it has these blocks.
fn holds(cache: &PlainCache, set: u32, blocks: &[u32]) -> bool {
    set < cache.geometry().sets() && cache.set(set) == blocks
}

/// Whether two caches hold the same.
fn are_same(one: &PlainCache, other: &PlainCache) -> bool {
    let count = one.geometry().sets();
    count == other.geometry().sets() && (0..count).all(|set| holds(one, set, other.set(set)))
}

#[test]
fn rebuilds_small_caches(rt: HostRuntime) -> Result<(), Fail> {
    let told = snapshot_of(rt.alloc(), shape(6, 2, 2)?, &[0, 256, 64, 320, 0])?;
    // The sets and ways of a cache, and its sets after it was rebuilt.
    let cases: [(u8, u8, Option<&[&[u32]]>); 5] = [
        (0, 2, Some(&[&[0, 5]])),
        (1, 1, Some(&[&[0], &[5]])),
        (2, 2, Some(&[&[0, 4], &[5, 1], &[], &[]])),
        (1, 4, None),
        (3, 2, None),
    ];
    for (sets_log, ways, wanted) in cases {
        let mut cache = PlainCache::new(rt.alloc(), shape(6, sets_log, ways)?)?;
        cache.touch(0x40);
        let fate = rebuild(&told, &mut [], &mut cache);
        match wanted {
            Some(sets) => {
                assert_eq!(rt; fate, Ok(()));
                for (set, blocks) in sets.iter().enumerate() {
                    assert!(rt; holds(&cache, set as u32, blocks));
                }
            }
            None => {
                assert_eq!(rt; fate, Err(Beyond));
                let mut same = PlainCache::new(rt.alloc(), shape(6, sets_log, ways)?)?;
                same.touch(0x40);
                assert!(rt; are_same(&cache, &same));
            }
        }
    }
    Ok(())
}

/// Rebuilds a cache, and tells whether it then holds what it would after these addresses.
fn follows(alloc: Global, told: &Snapshot, small: Geometry, addrs: &[u32]) -> Result<bool, Fail> {
    let mut plain = PlainCache::new(alloc, small)?;
    for addr in addrs {
        plain.touch(*addr);
    }
    let mut rebuilt = PlainCache::new(alloc, small)?;
    rebuilt.touch(0xFFFF_FFFF);
    let fate = rebuild(told, &mut [7], &mut rebuilt);
    Ok(fate == Ok(()) && are_same(&rebuilt, &plain))
}

/// As `follows`, by the record itself.
fn follows_live(
    alloc: Global,
    live: &Record,
    small: Geometry,
    addrs: &[u32],
) -> Result<bool, Fail> {
    let mut plain = PlainCache::new(alloc, small)?;
    for addr in addrs {
        plain.touch(*addr);
    }
    let mut rebuilt = PlainCache::new(alloc, small)?;
    rebuilt.touch(0xFFFF_FFFF);
    let fate = rebuild_live(live, &mut [7], &mut rebuilt);
    Ok(fate == Ok(()) && are_same(&rebuilt, &plain))
}

/// Whether every smaller cache follows.
fn all_follow(
    alloc: Global,
    told: &Snapshot,
    large: Geometry,
    addrs: &[u32],
) -> Result<bool, Fail> {
    for sets_log in 0..=large.sets_log() {
        for ways in 1..=large.ways() {
            let small = shape(large.line_log(), sets_log, ways)?;
            if !follows(alloc, told, small, addrs)? {
                return Ok(false);
            }
        }
    }
    Ok(true)
}

#[test]
fn follows_every_smaller_cache(rt: HostRuntime) -> Result<(), Fail> {
    // One set, full sets, sets of one way, and the largest record.
    let larges = [
        (4, 0, 16, 0x3FF),
        (6, 2, 2, 0x3FFF),
        (5, 3, 1, 0xFFFF),
        (4, 12, 16, 0xF_FFFF),
    ];
    for (line_log, sets_log, ways, mask) in larges {
        let mut draws = Draws { state: 3 };
        let mut addrs = [0; 200];
        for addr in addrs.iter_mut() {
            *addr = draws.draw() & mask;
        }
        let large = shape(line_log, sets_log, ways)?;
        let told = snapshot_of(rt.alloc(), large, addrs.as_slice())?;
        assert!(rt; all_follow(rt.alloc(), &told, large, addrs.as_slice())?);
        let live = record_of(rt.alloc(), large, addrs.as_slice())?;
        let small = shape(line_log, 0, ways)?;
        assert!(rt; follows_live(rt.alloc(), &live, small, addrs.as_slice())?);
        let other = shape(12, 0, ways)?;
        let mut cache = PlainCache::new(rt.alloc(), other)?;
        assert_eq!(rt; rebuild_live(&live, &mut [], &mut cache), Err(Beyond));
    }
    Ok(())
}

#[test]
fn gives_ties_to_the_lower_set(rt: HostRuntime) -> Result<(), Fail> {
    let large = shape(4, 2, 2)?;
    if large.sets() != 4 {
        return Err("other sets".into());
    }
    // The blocks and times of each set, and the blocks in the order in which a cache has to see them: by rising
    // time, and of one time those of the higher sets first.
    let cases = [
        (
            [
                (0, 9),
                (4, 5),
                (1, 9),
                (5, 5),
                (2, 9),
                (6, 5),
                (3, 9),
                (7, 5),
            ],
            [7, 6, 5, 4, 3, 2, 1, 0],
        ),
        (
            [
                (0, 3),
                (4, 2),
                (5, 4),
                (1, 3),
                (6, 2),
                (2, 1),
                (3, 3),
                (7, 0),
            ],
            [7, 2, 6, 4, 3, 1, 0, 5],
        ),
    ];
    for (entries, order) in cases {
        let entries = entries.map(|(block, time)| Entry { block, time });
        let addrs = order.map(|block| block << 4);
        match Snapshot::from_sets(rt.alloc(), large, 10, &[2, 2, 2, 2], &entries) {
            Ok(told) => assert!(rt; all_follow(rt.alloc(), &told, large, addrs.as_slice())?),
            Err(_refusal) => return Err("refused".into()),
        }
    }
    Ok(())
}
