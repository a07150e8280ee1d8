// A library with one point, whole, in pieces, cut, and with more behind it, fed and from a source.

use super::*;
use livepoint_format::LibraryFault;
use smarts_base::NoMemory;
use smarts_io::{MemorySource, ReadError};
use std::alloc::Global;
use std::test::Fail;

/// The header of version 2, of a run whose one point is its first unit of 16 instructions. Each record has one set of
/// one way. Behind it a table of one pair.
const HEADER: [u8; 88] = [
    0x54, 0x53, 0x4C, 0x50, 2, 0, 0, 0, //
    16, 0, 0, 0, 0, 0, 0, 0, 1, 0, 0, 0, 16, 0, 0, 0, //
    0, 0, 0, 0, 100, 0, 0, 0, 0, 0, 0, 0, 0, 0x10, 1, 0, 1, 0, 0, 0, 0, 0, 0, 0, //
    4, 0, 1, 0, 4, 0, 1, 0, 4, 0, 1, 0, 12, 0, 1, 0, 12, 0, 1, 0, 1, 0, 0, 0, 0, 4, 2, 0, //
    1, 0, 0, 0, 0x54, 0, 1, 0, 0x13, 0, 0, 0,
];

const END_WORD: [u8; 4] = [0x54, 0x45, 0x4E, 0x44];

/// The point: of unit 0, at 0x00010054, with one shared word, empty records and an image that has learnt nothing.
const STATE: [u8; 8] = [0, 0, 0, 0, 0x54, 0, 1, 0];

const WORDS: [u8; 20] = [
    0, 0x10, 1, 0, 0, 0, 0, 0, 1, 0, 0, 0, 0, 0, 0, 0, 1, 0, 0, 0,
];

const TARGETS: [u8; 33] = [
    1, 0, 0, 0, 0, 0, 0, 0, 1, 0, 0, 0, 0, 0, 0, 0, //
    1, 0, 0, 0, 0, 0, 0, 0, 1, 0, 0, 0, 0, 0, 0, 0, 0,
];

/// The number of a part, with the fault's place.
fn number(part: &Part) -> (u8, u64) {
    match part {
        Part::Header => (0, 0),
        Part::Point(point) => (1, u64::from(point.pc)),
        Part::More => (2, 0),
        Part::End => (3, 0),
        Part::Fault(LibraryFault::TrailingBytes { at }) => (4, *at),
        Part::Fault(_) => (5, 0),
    }
}

#[test]
fn feeds_a_reader(rt: HostRuntime) -> Result<(), Fail> {
    let alloc = rt.alloc();
    let mut reader = Reader::new(alloc);
    assert_eq!(rt; number(&reader.next(alloc)?), (2, 0));
    reader.feed(&HEADER)?;
    assert_eq!(rt; number(&reader.next(alloc)?), (0, 0));
    assert_eq!(rt; reader.shared().map(|shared| shared.len()), Some(1));
    assert_eq!(rt; number(&reader.next(alloc)?), (2, 0));
    assert_eq!(rt; reader.finish(), Some(LibraryFault::Truncated { at: 88 }));
    Ok(())
}

#[test]
fn keeps_a_fault(rt: HostRuntime) -> Result<(), Fail> {
    let alloc = rt.alloc();
    let mut reader = Reader::new(alloc);
    reader.feed(&[0; 4])?;
    assert_eq!(rt; number(&reader.next(alloc)?), (5, 0));
    assert_eq!(rt; number(&reader.next(alloc)?), (5, 0));
    assert_eq!(rt; reader.finish(), Some(LibraryFault::BadMagic));
    Ok(())
}

/// The whole library with a byte behind it.
fn library(alloc: Global) -> Result<Vec<u8>, NoMemory> {
    let mut bytes = Vec::new(alloc);
    bytes.extend_from_slice(&HEADER)?;
    bytes.extend_from_slice(&STATE)?;
    bytes.extend_from_slice(&[0; 124])?;
    bytes.extend_from_slice(&WORDS)?;
    bytes.extend_from_slice(&[0; 65])?;
    bytes.extend_from_slice(&TARGETS)?;
    bytes.extend_from_slice(&END_WORD)?;
    bytes.push(7)?;
    Ok(bytes)
}

fn next_number(alloc: Global, intake: &mut Intake, source: &mut MemorySource) -> (u8, u64) {
    match intake.next(alloc, source) {
        Ok(part) => number(&part),
        Err(ReadError::Failed) => (6, 0),
        Err(ReadError::NoMemory) => (7, 0),
    }
}

#[test]
fn reads_a_source(rt: HostRuntime) -> Result<(), Fail> {
    let alloc = rt.alloc();
    for (length, most, third) in [
        (342usize, 1usize, (3, 0)),
        (342, 7, (3, 0)),
        (342, 342, (3, 0)),
        (341, 7, (5, 0)),
        (343, 7, (4, 342)),
    ] {
        let mut bytes = library(alloc)?;
        bytes.truncate(length);
        let mut source = MemorySource::new(bytes, most.max(1), Vec::new(alloc));
        let mut intake = Intake::new(alloc)?;
        assert_eq!(rt; next_number(alloc, &mut intake, &mut source), (0, 0));
        assert_eq!(rt; intake.header().map(|header| header.points), Some(1));
        assert_eq!(rt;
            next_number(alloc, &mut intake, &mut source),
            (1, 0x0001_0054)
        );
        assert_eq!(rt; next_number(alloc, &mut intake, &mut source), third);
    }
    let mut source = MemorySource::new(library(alloc)?, 100, Vec::from_slice(alloc, &[2])?);
    let mut intake = Intake::new(alloc)?;
    assert_eq!(rt; next_number(alloc, &mut intake, &mut source), (0, 0));
    assert_eq!(rt; next_number(alloc, &mut intake, &mut source), (6, 0));
    Ok(())
}
