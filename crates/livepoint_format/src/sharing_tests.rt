use super::*;
use crate::round_trips::{END_WORD, put, put_learnt};
use live_words::BadPair;
use smarts_base::Refusal;
use std::alloc::{AllocError, Global};
use std::test::Fail;

/// The header of version 1 up to the shapes, of a run whose four units of 16 instructions are all points.
const RUN: [u32; 12] = [0x504C_5354, 1, 64, 0, 4, 16, 0, 1, 0, 0x0001_1000, 1, 0];

/// Records of one set of one way, and one kind of tables.
const SHAPES: [u8; 28] = [
    4, 0, 1, 0, 4, 0, 1, 0, 4, 0, 1, 0, 12, 0, 1, 0, 12, 0, 1, 0, 1, 0, 0, 0, 0, 4, 2, 0,
];

/// The units in the order of their visits, and the words of their points. The pairs (4, 3), (4, 9) and (8, 1) are
/// shared.
const POINTS: [(u32, [(u32, u32); 2]); 4] = [
    (1, [(4, 9), (8, 1)]),
    (3, [(4, 9), (12, 1)]),
    (0, [(4, 3), (8, 1)]),
    (2, [(4, 3), (8, 2)]),
];

/// A library of version 1 with these four points.
fn four_points(alloc: Global) -> Result<Vec<u8>, AllocError> {
    let mut bytes = Vec::new(alloc);
    put(&mut bytes, &RUN)?;
    bytes.extend_from_slice(&SHAPES)?;
    for (unit, words) in POINTS {
        put(&mut bytes, &[unit, 0x0001_0054])?;
        put(&mut bytes, &[7; 31])?;
        put(&mut bytes, &[0x0001_1000, 2])?;
        put(
            &mut bytes,
            &[words[0].0, words[0].1, words[1].0, words[1].1],
        )?;
        put_learnt(&mut bytes)?;
    }
    bytes.extend_from_slice(&END_WORD)?;
    Ok(bytes)
}

/// A pair is shared from the second point on that has it.
#[test]
fn shares_what_two_points_have(rt: HostRuntime) -> Result<(), Fail> {
    let read = decode_library(rt.alloc(), &four_points(rt.alloc())?);
    let library = read.ok().ok_or("a library was refused")?;
    let none: &[(u32, u32)] = &[];
    let cases: [(usize, &[(u32, u32)]); 4] = [
        (1, none),
        (2, &[(4, 9)]),
        (3, &[(4, 9), (8, 1)]),
        (4, &[(4, 3), (4, 9), (8, 1)]),
    ];
    for (count, pairs) in cases {
        let points = library.points().get(..count).ok_or("too few points")?;
        let shared = sharing(rt.alloc(), points)?;
        assert_eq!(rt; shared.as_slice(), pairs);
    }
    Ok(())
}

/// Version 1 becomes version 2 with the same words, which is read as it was written and becomes itself.
#[test]
fn migrates(rt: HostRuntime) -> Result<(), Fail> {
    let read = decode_library(rt.alloc(), &four_points(rt.alloc())?);
    let library = read.ok().ok_or("a library was refused")?;
    let bytes = encode_library(rt.alloc(), &migrate(rt.alloc(), library)?)?;
    let again = decode_library(rt.alloc(), &bytes);
    let second = again.ok().ok_or("a migrated library was refused")?;
    assert_eq!(rt; second.header().version, 2);
    assert_eq!(rt; second.shared().len(), 3);
    assert_eq!(rt; second.len(), 4);
    for (point, told) in second.points().iter().zip(POINTS) {
        assert_eq!(rt; point.words.as_slice(), told.1.as_slice());
    }
    let same = encode_library(rt.alloc(), &migrate(rt.alloc(), second)?)?;
    assert_eq!(rt; same.as_slice(), bytes.as_slice());
    Ok(())
}

/// A table of pairs, and the first pair that can't stand in it.
#[test]
fn judges_pairs(rt: HostRuntime) -> Result<(), Fail> {
    let table = Shared::from_pairs(rt.alloc(), &[(4, 1), (4, 2), (8, 0)]).ok();
    let table = table.ok_or("a table was refused")?;
    assert_eq!(rt; table.len(), 3);
    assert_eq!(rt; table.at(1), (4, 2));
    let odd = Shared::from_pairs(rt.alloc(), &[(6, 1)]).err();
    assert_eq!(rt; odd, Some(Refusal::Fault(BadPair { index: 0 })));
    let twice = Shared::from_pairs(rt.alloc(), &[(4, 1), (4, 1)]).err();
    assert_eq!(rt; twice, Some(Refusal::Fault(BadPair { index: 1 })));
    let falls = Shared::from_pairs(rt.alloc(), &[(4, 1), (8, 1), (8, 0)]).err();
    assert_eq!(rt; falls, Some(Refusal::Fault(BadPair { index: 2 })));
    Ok(())
}
