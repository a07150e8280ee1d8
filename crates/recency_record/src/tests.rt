ghost use Rattle.std.specs.Prelude.{◌≡◌, ◌≤◌, length, sum};

use super::*;
use lru_plain::Geometry;
use smarts_base::{Draws, Refusal};
use std::alloc::Global;
use std::test::Fail;

/// A geometry that there is.
fn shape(line_log: u8, sets_log: u8, ways: u8) -> Result<Geometry, Fail> {
    Ok(Geometry::new(line_log, sets_log, ways).ok_or("no such geometry")?)
}

/// A record of these addresses.
fn record_of(alloc: Global, geometry: Geometry, addrs: &[u32]) -> Result<Record, Fail> {
    let mut record = Record::new(alloc, geometry)?;
    for addr in addrs {
        if record.time() < 1 << 63 {
            record.refer(*addr);
        }
    }
    Ok(record)
}

/// Whether there is such a set, and it has these entries.
fn holds(snapshot: &Snapshot, set: u32, entries: &[Entry]) -> bool {
    set < snapshot.geometry().sets() && snapshot.entries(set) == entries
}

fn entry(block: u32, time: u64) -> Entry {
    Entry { block, time }
}

/// Whether this is what a record of the blocks 0, 4, 1, 5 and 0 tells, with four sets of two ways.
fn is_example(snapshot: &Snapshot) -> bool {
    snapshot.time() == 5
        && holds(snapshot, 0, &[entry(0, 4), entry(4, 1)])
        && holds(snapshot, 1, &[entry(5, 3), entry(1, 2)])
        && holds(snapshot, 2, &[])
        && holds(snapshot, 3, &[])
}

#[test]
fn keeps_the_latest_uses(rt: HostRuntime) -> Result<(), Fail> {
    let geometry = shape(6, 2, 2)?;
    let record = record_of(rt.alloc(), geometry, &[0, 256, 64, 320, 0])?;
    assert_eq!(rt; record.time(), 5);
    assert!(rt; record.geometry() == geometry);
    assert!(rt; is_example(&record.snapshot()?));

    if geometry.sets() != 4 {
        return Err("other sets".into());
    }
    let entries = [(0, 4), (4, 1), (5, 3), (1, 2)].map(|(block, time)| Entry { block, time });
    match Snapshot::from_sets(rt.alloc(), geometry, 5, &[2, 2, 0, 0], &entries) {
        Ok(made) => assert!(rt; is_example(&made)),
        Err(_refusal) => return Err("refused".into()),
    }
    Ok(())
}

/// What is in a slot, where there is such a set and way.
fn slot(record: &Record, set: u32, way: u8) -> Option<Entry> {
    let geometry = record.geometry();
    if set < geometry.sets() && way < geometry.ways() {
        record.slot(set, way)
    } else {
        None
    }
}

#[test]
fn writes_one_slot(rt: HostRuntime) -> Result<(), Fail> {
    let mut record = record_of(rt.alloc(), shape(6, 2, 2)?, &[0, 256, 64, 320, 0])?;
    let before = [
        (0, 0, entry(0, 4)),
        (0, 1, entry(4, 1)),
        (1, 0, entry(1, 2)),
        (1, 1, entry(5, 3)),
    ];
    for (set, way, wanted) in before {
        assert_eq!(rt; slot(&record, set, way), Some(wanted));
    }
    assert_eq!(rt; slot(&record, 2, 0), None);
    if record.time() < 1 << 63 {
        record.refer(512);
    }
    let after = [
        (0, 0, entry(0, 4)),
        (0, 1, entry(8, 5)),
        (1, 0, entry(1, 2)),
        (1, 1, entry(5, 3)),
    ];
    for (set, way, wanted) in after {
        assert_eq!(rt; slot(&record, set, way), Some(wanted));
    }

    // In order they stand at the front, and the rest stays.
    let mut out = [entry(7, 7); 3];
    if 0 < record.geometry().sets() && record.geometry().ways() <= 3 {
        assert_eq!(rt; record.ordered(0, out.as_mut_slice()), 2);
    }
    assert_eq!(rt; out, [entry(8, 5), entry(0, 4), entry(7, 7)]);
    Ok(())
}

/// Whether two snapshots have the same entries.
fn are_same(one: &Snapshot, other: &Snapshot) -> bool {
    let count = one.geometry().sets();
    count == other.geometry().sets() && (0..count).all(|set| holds(one, set, other.entries(set)))
}

#[test]
fn lists_tell_the_same(rt: HostRuntime) -> Result<(), Fail> {
    for ways in 1..=5 {
        let geometry = shape(4, 1, ways)?;
        let mut lists = RecencyLists::new(rt.alloc(), geometry)?;
        let mut addrs = [0; 300];
        let mut draws = Draws { state: 5 };
        for addr in addrs.iter_mut() {
            *addr = draws.draw() & 0xFF;
            if lists.time() < 1 << 63 {
                lists.refer(*addr);
            }
        }
        let told = record_of(rt.alloc(), geometry, addrs.as_slice())?.snapshot()?;
        let same = lists.snapshot()?;
        assert_eq!(rt; same.time(), 300);
        assert!(rt; are_same(&told, &same));
    }
    Ok(())
}

/// The sum of these numbers.
fn total(counts: &[u8]) -> u64
    requires { length counts.now ≤ 4096 }
    ensures { result ≡ sum counts.now }
{
    let mut total = 0;
    for count in counts {
        total += u64::from(*count);
    }
    total
}

/// What `from_sets` answers, where it may be called.
fn judged(
    alloc: Global,
    geometry: Geometry,
    time: u64,
    counts: &[u8],
    entries: &[Entry],
) -> Result<Option<RecordFault>, Fail> {
    if counts.len() > 4096
        || counts.len() != geometry.sets() as usize
        || total(counts) != entries.len() as u64
    {
        return Err("the counts don't fit".into());
    }
    match Snapshot::from_sets(alloc, geometry, time, counts, entries) {
        Ok(_snapshot) => Ok(None),
        Err(Refusal::Fault(fault)) => Ok(Some(fault)),
        Err(Refusal::NoMemory) => Err("no memory".into()),
    }
}

/// The time, the count of entries in each of four sets of two ways, the entries, and the fault.
const SETS: [(u64, [u8; 4], &[Entry], Option<RecordFault>); 11] = [
    (5, [0, 0, 0, 0], &[], None),
    (
        5,
        [2, 2, 0, 0],
        &[
            Entry { block: 0, time: 4 },
            Entry { block: 4, time: 1 },
            Entry { block: 5, time: 3 },
            Entry { block: 1, time: 2 },
        ],
        None,
    ),
    (
        5,
        [3, 0, 0, 0],
        &[
            Entry { block: 0, time: 4 },
            Entry { block: 0, time: 4 },
            Entry { block: 8, time: 1 },
        ],
        Some(RecordFault::TooMany { set: 0, place: 0 }),
    ),
    (
        5,
        [0, 1, 0, 0],
        &[Entry { block: 4, time: 4 }],
        Some(RecordFault::WrongSet { set: 1, place: 0 }),
    ),
    (
        5,
        [1, 0, 0, 0],
        &[Entry {
            block: 1 << 26,
            time: 4,
        }],
        Some(RecordFault::WrongSet { set: 0, place: 0 }),
    ),
    (
        5,
        [0, 2, 0, 0],
        &[Entry { block: 4, time: 4 }, Entry { block: 4, time: 4 }],
        Some(RecordFault::WrongSet { set: 1, place: 0 }),
    ),
    (
        5,
        [2, 0, 0, 0],
        &[Entry { block: 4, time: 4 }, Entry { block: 4, time: 5 }],
        Some(RecordFault::Repeated { set: 0, place: 1 }),
    ),
    (
        4,
        [0, 0, 0, 1],
        &[Entry { block: 7, time: 4 }],
        Some(RecordFault::TimeRange { set: 3, place: 0 }),
    ),
    (
        5,
        [2, 0, 0, 0],
        &[Entry { block: 4, time: 3 }, Entry { block: 0, time: 3 }],
        Some(RecordFault::NotDescending { set: 0, place: 1 }),
    ),
    (
        5,
        [2, 0, 0, 0],
        &[Entry { block: 4, time: 3 }, Entry { block: 0, time: 5 }],
        Some(RecordFault::TimeRange { set: 0, place: 1 }),
    ),
    (
        5,
        [0, 1, 2, 0],
        &[
            Entry { block: 1, time: 4 },
            Entry { block: 2, time: 1 },
            Entry { block: 6, time: 2 },
        ],
        Some(RecordFault::NotDescending { set: 2, place: 1 }),
    ),
];

#[test]
fn judges_sets(rt: HostRuntime) -> Result<(), Fail> {
    let geometry = shape(6, 2, 2)?;
    let mut numbers = [false; 6];
    for (time, counts, entries, fault) in SETS {
        let number = fault.map_or(0, |fault| fault.number());
        if number < 6 {
            numbers[usize::from(number)] = true;
        }
        let answer = judged(rt.alloc(), geometry, time, counts.as_slice(), entries)?;
        assert_eq!(rt; answer, fault);
    }
    assert_eq!(rt; numbers, [true; 6]);
    Ok(())
}
