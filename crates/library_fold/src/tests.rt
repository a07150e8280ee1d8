// A library with one point, from a source: whole, cut, with a byte behind it, and from a source that fails.

use super::*;
use library_reader::Intake;
use livepoint_format::LibraryFault;
use smarts_base::NoMemory;
use smarts_io::{MemorySource, ReadError};
use std::alloc::Global;
use std::test::Fail;

/// The header of version 2, of a run whose one point is its first unit of 16 instructions. Each record has one set of
/// one way. Behind it a table of one pair.
const HEADER: [u8; 88] = [
    0x54, 0x53, 0x4C, 0x50, 2, 0, 0, 0, //
    16, 0, 0, 0, 0, 0, 0, 0, 1, 0, 0, 0, 16, 0, 0, 0, //
    0, 0, 0, 0, 100, 0, 0, 0, 0, 0, 0, 0, 0, 0x10, 1, 0, 1, 0, 0, 0, 0, 0, 0, 0, //
    4, 0, 1, 0, 4, 0, 1, 0, 4, 0, 1, 0, 12, 0, 1, 0, 12, 0, 1, 0, 1, 0, 0, 0, 0, 4, 2, 0, //
    1, 0, 0, 0, 0x54, 0, 1, 0, 0x13, 0, 0, 0,
];

/// The point: of unit 0, at 0x00010054, with one shared word, empty records and an image that has learnt nothing.
const STATE: [u8; 8] = [0, 0, 0, 0, 0x54, 0, 1, 0];

const WORDS: [u8; 20] = [
    0, 0x10, 1, 0, 0, 0, 0, 0, 1, 0, 0, 0, 0, 0, 0, 0, 1, 0, 0, 0,
];

const TARGETS: [u8; 33] = [
    1, 0, 0, 0, 0, 0, 0, 0, 1, 0, 0, 0, 0, 0, 0, 0, //
    1, 0, 0, 0, 0, 0, 0, 0, 1, 0, 0, 0, 0, 0, 0, 0, 0,
];

const END_WORD: [u8; 4] = [0x54, 0x45, 0x4E, 0x44];

/// The library, of 342 bytes, with a byte behind it.
fn library(alloc: Global) -> Result<Vec<u8>, NoMemory> {
    let mut bytes = Vec::new(alloc);
    bytes.extend_from_slice(&HEADER)?;
    bytes.extend_from_slice(&STATE)?;
    bytes.extend_from_slice(&[0; 124])?;
    bytes.extend_from_slice(&WORDS)?;
    bytes.extend_from_slice(&[0; 65])?;
    bytes.extend_from_slice(&TARGETS)?;
    bytes.extend_from_slice(&END_WORD)?;
    bytes.push(7)?;
    Ok(bytes)
}

/// How many points the header tells of, once all points were passed.
fn points_passed(alloc: Global, source: &mut MemorySource) -> Result<u32, Stop> {
    let mut intake = Intake::new(alloc)?;
    let header = read_header(alloc, &mut intake, source)?;
    pass_points(alloc, &mut intake, source)?;
    Ok(header.points)
}

#[test]
fn passes_the_points_of_a_library(rt: HostRuntime) -> Result<(), Fail> {
    let alloc = rt.alloc();
    let cut = Stop::Library(LibraryFault::Truncated { at: 341 });
    let longer = Stop::Library(LibraryFault::TrailingBytes { at: 342 });
    let short = Stop::Library(LibraryFault::Truncated { at: 60 });
    for (length, failing, fault) in [
        (342usize, 99, None),
        (341, 99, Some(cut)),
        (343, 99, Some(longer)),
        (60, 99, Some(short)),
        (342, 1, Some(Stop::Read(ReadError::Failed))),
    ] {
        let mut bytes = library(alloc)?;
        bytes.truncate(length);
        let mut source = MemorySource::new(bytes, 100, Vec::from_slice(alloc, &[failing])?);
        let passed = points_passed(alloc, &mut source);
        assert_eq!(rt; passed.err(), fault, "{length}");
    }
    let mut source = MemorySource::new(library(alloc)?, 100, Vec::new(alloc));
    let mut intake = Intake::new(alloc)?;
    let header = read_header(alloc, &mut intake, &mut source).ok();
    assert_eq!(rt;
        header.map(|header| (header.points, header.design.unit)),
        Some((1, 16))
    );
    Ok(())
}
