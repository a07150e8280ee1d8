use super::*;
use std::alloc::Global;
use std::test::Fail;

/// An empty cache of a geometry that there is.
fn cache(alloc: Global, line_log: u8, sets_log: u8, ways: u8) -> Result<PlainCache, Fail> {
    let geometry = Geometry::new(line_log, sets_log, ways).ok_or("no such geometry")?;
    Ok(PlainCache::new(alloc, geometry)?)
}

/// Whether there is such a set, and it has these blocks.
fn holds(cache: &PlainCache, set: u32, blocks: &[u32]) -> bool {
    set < cache.geometry().sets() && cache.set(set) == blocks
}

/// Appends where `append` may be called, and tells whether it was.
fn append(cache: &mut PlainCache, set: u32, block: u32) -> bool {
    let geometry = cache.geometry();
    let may = set < geometry.sets()
        && cache.set(set).len() < usize::from(geometry.ways())
        && geometry.home_of(block) == set
        && !cache.set(set).contains(&block)
        && block < u32::MAX;
    if may {
        cache.append(set, block);
    }
    may
}

#[test]
fn knows_the_geometries(rt: HostRuntime) {
    let cases = [
        (4, 0, 1, true),
        (8, 12, 16, true),
        (12, 12, 16, true),
        (5, 7, 3, true),
        (3, 0, 1, false),
        (9, 0, 1, false),
        (11, 0, 1, false),
        (13, 0, 1, false),
        (255, 0, 1, false),
        (4, 13, 1, false),
        (4, 0, 0, false),
        (4, 0, 17, false),
    ];
    for (line_log, sets_log, ways, is_one) in cases {
        let geometry = Geometry::new(line_log, sets_log, ways);
        let fields = geometry.map(|g| (g.line_log(), g.sets_log(), g.ways()));
        let wanted = if is_one {
            Some((line_log, sets_log, ways))
        } else {
            None
        };
        assert_eq!(rt; fields, wanted);
    }
}

/// The shape, the touched addresses with their hits, a set and its blocks after them.
const TOUCHES: [((u8, u8, u8), &[(u32, bool)], u32, &[u32]); 7] = [
    (
        (6, 0, 2),
        &[
            (0, false),
            (64, false),
            (0, true),
            (128, false),
            (64, false),
        ],
        0,
        &[1, 2],
    ),
    (
        (6, 0, 2),
        &[(0, false), (63, true), (64, false), (127, true), (1, true)],
        0,
        &[0, 1],
    ),
    (
        (4, 0, 1),
        &[(0, false), (15, true), (16, false), (0, false)],
        0,
        &[0],
    ),
    (
        (4, 0, 1),
        &[
            (0xFFFF_FFFF, false),
            (0xFFFF_FFF0, true),
            (0xFFFF_FFEF, false),
        ],
        0,
        &[0x0FFF_FFFE],
    ),
    (
        (4, 12, 16),
        &[
            (0xFFFF_FFF0, false),
            (0xFFFE_FFF0, false),
            (0xFFFF_FFFF, true),
        ],
        0xFFF,
        &[0x0FFF_FFFF, 0x0FFF_EFFF],
    ),
    (
        (12, 12, 16),
        &[
            (0xFFFF_F000, false),
            (0xFFFF_FFFF, true),
            (0xFFFF_EFFF, false),
        ],
        0xFFF,
        &[0xF_FFFF],
    ),
    (
        (8, 1, 3),
        &[
            (0, false),
            (512, false),
            (256, false),
            (1024, false),
            (0, true),
            (1536, false),
        ],
        0,
        &[6, 0, 4],
    ),
];

#[test]
fn keeps_the_latest_blocks(rt: HostRuntime) -> Result<(), Fail> {
    for ((line_log, sets_log, ways), touches, number, blocks) in TOUCHES {
        let mut cache = cache(rt.alloc(), line_log, sets_log, ways)?;
        for (addr, hit) in touches {
            assert_eq!(rt; cache.touch(*addr), *hit, "at {addr}");
        }
        assert!(rt; holds(&cache, number, blocks), "set {number}");
    }
    Ok(())
}

#[test]
fn fills_and_empties_sets(rt: HostRuntime) -> Result<(), Fail> {
    let mut cache = cache(rt.alloc(), 4, 12, 16)?;
    for i in 0..17u32 {
        assert!(rt; !cache.touch(0x10000 * i + 0x30));
    }
    let latest = [16, 15, 14, 13, 12, 11, 10, 9, 8, 7, 6, 5, 4, 3, 2, 1].map(|i: u32| 4096
        * (i % 17)
        + 3);
    assert!(rt; holds(&cache, 3, latest.as_slice()));
    assert!(rt; holds(&cache, 4095, [].as_slice()));
    cache.touch(0xFFFF_FFFF);
    cache.clear();
    for number in 0..4096 {
        assert!(rt; holds(&cache, number, [].as_slice()));
    }
    assert!(rt; append(&mut cache, 4095, 0x0FFF_FFFF));
    assert!(rt; append(&mut cache, 4095, 0xFFF));
    assert!(rt; cache.touch(0xFFF0));
    assert!(rt; holds(&cache, 4095, [0xFFF, 0x0FFF_FFFF].as_slice()));
    Ok(())
}
