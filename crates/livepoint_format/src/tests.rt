use super::*;
use recency_record::RecordFault;
use smarts_base::Refusal;
use std::alloc::{AllocError, Global};
use std::test::Fail;

/// The instruction that does nothing, thirteen times, and an exit with code 0.
const PROGRAM: [u32; 16] = [
    0x13,
    0x13,
    0x13,
    0x13,
    0x13,
    0x13,
    0x13,
    0x13,
    0x13,
    0x13,
    0x13,
    0x13,
    0x13,
    0x0000_0513,
    0x05D0_0893,
    0x0000_0073,
];

/// The header of a run of that program whose one point is its first unit of 16 instructions.
const HEADER: [u8; 76] = [
    0x54, 0x53, 0x4C, 0x50, 1, 0, 0, 0, 16, 0, 0, 0, 0, 0, 0, 0, 1, 0, 0, 0, 16, 0, 0, 0, //
    0, 0, 0, 0, 100, 0, 0, 0, 0, 0, 0, 0, 0, 0x10, 1, 0, 1, 0, 0, 0, 0, 0, 0, 0, //
    6, 6, 4, 0, 6, 6, 4, 0, 6, 9, 8, 0, 12, 3, 4, 0, 12, 4, 4, 0, 1, 0, 0, 0, 1, 12, 9, 8,
];

const END_WORD: [u8; 4] = [0x54, 0x45, 0x4E, 0x44];

/// The bytes of a number, the lowest first.
fn put(bytes: &mut Vec<u8>, n: u32) -> Result<(), AllocError> {
    bytes.extend_from_slice(&n.to_le_bytes())
}

fn put_times(bytes: &mut Vec<u8>, times: usize, byte: u8) -> Result<(), AllocError> {
    for _ in 0..times {
        bytes.push(byte)?;
    }
    Ok(())
}

/// What stands in front of a point's words.
fn put_state(bytes: &mut Vec<u8>) -> Result<(), AllocError> {
    put(bytes, 0)?;
    put(bytes, 0x0001_0054)?;
    put(bytes, 0)?;
    put(bytes, 0x7FFF_F000)?;
    put_times(bytes, 116, 0)?;
    put(bytes, 0x0001_1000)
}

fn put_words(bytes: &mut Vec<u8>) -> Result<(), AllocError> {
    let mut addr = 0x0001_0054u32;
    for word in PROGRAM {
        put(bytes, addr)?;
        put(bytes, word)?;
        addr = addr.wrapping_add(4);
    }
    Ok(())
}

/// Five records of no reference, an image that has learnt nothing, and the end.
fn put_rest(bytes: &mut Vec<u8>) -> Result<(), AllocError> {
    for sets in [64usize, 64, 512, 8, 16] {
        put_times(bytes, 8, 0)?;
        put_times(bytes, sets, 0)?;
    }
    put_times(bytes, 4096, 1)?;
    put(bytes, 0)?;
    for _ in 0..512 {
        put(bytes, 1)?;
        put(bytes, 0)?;
    }
    bytes.push(0)?;
    bytes.extend_from_slice(&END_WORD)
}

/// A library of version 1, of 9249 bytes.
fn first_library(alloc: Global) -> Result<Vec<u8>, AllocError> {
    let mut bytes = HEADER.to_vec(alloc)?;
    put_state(&mut bytes)?;
    put(&mut bytes, 16)?;
    put_words(&mut bytes)?;
    put_rest(&mut bytes)?;
    Ok(bytes)
}

/// The same library in version 2, with this table, and with these own pairs and runs in place of its words.
fn second_library(
    alloc: Global,
    shared: &[(u32, u32)],
    own: &[(u32, u32)],
    runs: &[(u32, u32)],
) -> Result<Vec<u8>, AllocError> {
    let mut bytes = HEADER.to_vec(alloc)?;
    if let Some(version) = bytes.get_mut(4) {
        *version = 2;
    }
    put(&mut bytes, (shared.len() % 65536) as u32)?;
    for (addr, value) in shared {
        put(&mut bytes, *addr)?;
        put(&mut bytes, *value)?;
    }
    put_state(&mut bytes)?;
    put(&mut bytes, (own.len() % 65536) as u32)?;
    put(&mut bytes, (runs.len() % 65536) as u32)?;
    for (addr, value) in own {
        put(&mut bytes, *addr)?;
        put(&mut bytes, *value)?;
    }
    for (first, count) in runs {
        put(&mut bytes, *first)?;
        put(&mut bytes, *count)?;
    }
    put_rest(&mut bytes)?;
    Ok(bytes)
}

fn fault_of(alloc: Global, bytes: &[u8]) -> Option<Refusal<LibraryFault>> {
    decode_library(alloc, bytes).err()
}

/// A place, how many of the bytes behind it are put there, and the fault that is told then.
const CHANGES: [(usize, usize, [u8; 4], LibraryFault); 19] = [
    (0, 1, [88, 0, 0, 0], LibraryFault::BadMagic),
    (4, 1, [9, 0, 0, 0], LibraryFault::BadVersion),
    (8, 1, [0, 0, 0, 0], LibraryFault::BadField { at: 8 }),
    (16, 1, [2, 0, 0, 0], LibraryFault::BadField { at: 16 }),
    (51, 1, [1, 0, 0, 0], LibraryFault::BadField { at: 51 }),
    (68, 1, [2, 0, 0, 0], LibraryFault::BadField { at: 77 }),
    (69, 1, [1, 0, 0, 0], LibraryFault::BadField { at: 69 }),
    (76, 1, [1, 0, 0, 0], LibraryFault::BadOrder { point: 0 }),
    (80, 1, [86, 0, 0, 0], LibraryFault::BadField { at: 80 }),
    (209, 1, [15, 0, 0, 0], LibraryFault::BadField { at: 208 }),
    (212, 1, [33, 0, 0, 0], LibraryFault::BadField { at: 212 }),
    (224, 4, [84, 0, 1, 0], LibraryFault::BadWords { point: 0 }),
    (351, 1, [128, 0, 0, 0], LibraryFault::BadField { at: 344 }),
    (
        352,
        1,
        [5, 0, 0, 0],
        LibraryFault::BadRecord {
            point: 0,
            place: 0,
            fault: RecordFault::TooMany { set: 0, place: 0 },
        },
    ),
    (
        352,
        1,
        [1, 0, 0, 0],
        LibraryFault::BadRecord {
            point: 0,
            place: 0,
            fault: RecordFault::TimeRange { set: 0, place: 0 },
        },
    ),
    (1048, 1, [4, 0, 0, 0], LibraryFault::BadField { at: 1048 }),
    (5145, 1, [16, 0, 0, 0], LibraryFault::BadField { at: 5144 }),
    (5148, 1, [4, 0, 0, 0], LibraryFault::BadField { at: 5148 }),
    (9245, 1, [0, 0, 0, 0], LibraryFault::BadField { at: 9245 }),
];

fn changed(
    bytes: &Vec<u8>,
    place: usize,
    count: usize,
    new: [u8; 4],
) -> Result<Vec<u8>, AllocError> {
    let mut changed = bytes.clone()?;
    for i in 0..count {
        if let (Some(old), Some(byte)) = (changed.get_mut(place.wrapping_add(i)), new.get(i)) {
            *old = *byte;
        }
    }
    Ok(changed)
}

#[test]
fn names_the_first_fault(rt: HostRuntime) -> Result<(), Fail> {
    let bytes = first_library(rt.alloc())?;
    assert_eq!(rt; bytes.len(), 9249);
    assert!(rt; fault_of(rt.alloc(), &bytes).is_none());
    for (place, count, new, fault) in CHANGES {
        let told = fault_of(rt.alloc(), &changed(&bytes, place, count, new)?);
        assert_eq!(rt; told, Some(Refusal::Fault(fault)), "at {place}");
    }
    Ok(())
}

/// A front of a library ends too early, and a byte more is too much.
#[test]
fn refuses_fronts_and_more(rt: HostRuntime) -> Result<(), Fail> {
    let mut bytes = first_library(rt.alloc())?;
    for len in 0..9249 {
        if let Some(front) = bytes.get(..len) {
            let fault = LibraryFault::Truncated { at: len as u64 };
            assert_eq!(rt; fault_of(rt.alloc(), front), Some(Refusal::Fault(fault)));
        }
    }
    bytes.push(0)?;
    let fault = LibraryFault::TrailingBytes { at: 9249 };
    assert_eq!(rt; fault_of(rt.alloc(), &bytes), Some(Refusal::Fault(fault)));
    Ok(())
}

/// The values that the bytes tell, by both versions.
#[test]
fn tells_what_stands_there(rt: HostRuntime) -> Result<(), Fail> {
    let pairs = [(0x0001_0054, 0x13), (0x0001_0058, 0x13)];
    let own = [(0x0001_005C, 0x13)];
    let first = decode_library(rt.alloc(), &first_library(rt.alloc())?);
    let second = decode_library(
        rt.alloc(),
        &second_library(rt.alloc(), &pairs, &own, &[(0, 2)])?,
    );
    for (read, version, words, shared) in [(first, 1, 16, 0), (second, 2, 3, 2)] {
        let library = read.ok().ok_or("a library was refused")?;
        let header = library.header();
        assert_eq!(rt; header.version, version);
        assert_eq!(rt; header.length, 16);
        assert_eq!(rt; header.heap_low, 0x0001_1000);
        assert_eq!(rt; header.design.every, 100);
        assert_eq!(rt; header.design.budget, 1);
        assert_eq!(rt; header.records.places.l2.ways(), 8);
        assert_eq!(rt; header.records.kinds.len(), 1);
        assert_eq!(rt; library.shared().len(), shared);
        assert_eq!(rt; library.len(), 1);
        let points = library.into_points();
        let point = points.first().ok_or("no point")?;
        assert_eq!(rt; point.pc, 0x0001_0054);
        assert_eq!(rt; point.brk, 0x0001_1000);
        assert_eq!(rt; point.words.len(), words);
        let at = point.words.as_slice().get(1).copied();
        assert_eq!(rt; at, Some((0x0001_0058, 0x13)));
        assert_eq!(rt; point.places.l2.time(), 0);
        assert_eq!(rt; point.images.len(), 1);
    }
    Ok(())
}

/// What version 2 has of its own.
#[test]
fn judges_tables_and_runs(rt: HostRuntime) -> Result<(), Fail> {
    let bad_words = LibraryFault::BadWords { point: 0 };
    let bad_runs = LibraryFault::BadRuns { point: 0 };
    let shared = LibraryFault::BadShared { index: 0 };
    let next = LibraryFault::BadShared { index: 1 };
    let none: &[(u32, u32)] = &[];
    let two: &[(u32, u32)] = &[(4, 1), (8, 2)];
    let twice: &[(u32, u32)] = &[(4, 1), (4, 2)];
    let cases: [(
        &[(u32, u32)],
        &[(u32, u32)],
        &[(u32, u32)],
        Option<LibraryFault>,
    ); 15] = [
        (none, none, none, None),
        (&[(1, 0)], none, none, Some(shared)),
        (&[(8, 1), (4, 2)], none, none, Some(next)),
        (&[(4, 1), (4, 1)], none, none, Some(next)),
        (twice, none, &[(0, 1)], None),
        (twice, none, &[(0, 2)], Some(bad_words)),
        (two, &[(4, 1)], none, Some(bad_words)),
        (two, &[(4, 7)], &[(1, 1)], None),
        (two, &[(4, 7)], &[(0, 1)], Some(bad_words)),
        (two, &[(6, 7)], none, Some(bad_words)),
        (two, none, &[(0, 0)], Some(bad_runs)),
        (two, none, &[(1, 2)], Some(bad_runs)),
        (two, none, &[(0, 1), (1, 1)], Some(bad_runs)),
        (two, none, &[(1, 1), (0, 1)], Some(bad_runs)),
        (&[(4, 1), (8, 2), (12, 3)], none, &[(0, 1), (2, 1)], None),
    ];
    for (table, own, runs, fault) in cases {
        let bytes = second_library(rt.alloc(), table, own, runs)?;
        assert_eq!(rt; fault_of(rt.alloc(), &bytes), fault.map(Refusal::Fault));
    }
    Ok(())
}

/// A header and a point by themselves, with the bytes that they take.
#[test]
fn takes_parts(rt: HostRuntime) -> Result<(), Fail> {
    let bytes = second_library(rt.alloc(), &[(4, 1)], &[], &[(0, 1)])?;
    if let Ok((header, shared, taken)) = decode_header(rt.alloc(), &bytes) {
        assert_eq!(rt; taken, 88);
        assert_eq!(rt; header.version, 2);
        assert_eq!(rt; shared.as_slice().first().copied(), Some((4, 1)));
        let rest = bytes.get(88..).ok_or("no point")?;
        let read = decode_point(rt.alloc(), &header, &shared, 0, 0, 88, rest);
        if let Ok((point, taken)) = read {
            assert_eq!(rt; point.words.as_slice().first().copied(), Some((4, 1)));
            assert_eq!(rt; taken, 9053);
        } else {
            return Err("a point was refused".into());
        }
        return Ok(());
    }
    Err("a header was refused".into())
}

/// The end by itself, good, bad and too short.
#[test]
fn takes_the_end(rt: HostRuntime) -> Result<(), Fail> {
    assert_eq!(rt; decode_end(8, &END_WORD).ok(), Some((0x444E_4554, 4)));
    let bad = decode_end(8, &[0x54, 0x45, 0x4E, 0x45]).err();
    let fault = LibraryFault::BadField { at: 8 };
    assert_eq!(rt; bad, Some(Refusal::Fault(fault)));
    let short = decode_end(8, &[0x54, 0x45]).err();
    let fault = LibraryFault::Truncated { at: 10 };
    assert_eq!(rt; short, Some(Refusal::Fault(fault)));
    Ok(())
}
