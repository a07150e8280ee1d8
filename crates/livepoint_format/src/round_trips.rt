use super::*;
use std::alloc::{AllocError, Global};
use std::test::Fail;

/// The header behind its version, of a run whose one point is its first unit of 16 instructions. Each record has one
/// set of one way.
const HEADER: [u8; 68] = [
    16, 0, 0, 0, 0, 0, 0, 0, 1, 0, 0, 0, 16, 0, 0, 0, //
    0, 0, 0, 0, 100, 0, 0, 0, 0, 0, 0, 0, 0, 0x10, 1, 0, 1, 0, 0, 0, 0, 0, 0, 0, //
    4, 0, 1, 0, 4, 0, 1, 0, 4, 0, 1, 0, 12, 0, 1, 0, 12, 0, 1, 0, 1, 0, 0, 0, 0, 4, 2, 0,
];

pub(crate) const END_WORD: [u8; 4] = [0x54, 0x45, 0x4E, 0x44];

/// In version 1, three words.
const LISTED: [u32; 7] = [3, 0x0001_0050, 1, 0x0001_0054, 0x13, 0x0001_0058, 0x13];

/// In version 2, the same words: one of the point's own, and a run of two.
const PARTS: [u32; 6] = [1, 1, 0x0001_0050, 1, 1, 2];

/// The table of version 2.
const TABLE: [u32; 7] = [3, 0x0001_0000, 9, 0x0001_0054, 0x13, 0x0001_0058, 0x13];

/// Numbers of four bytes, the lowest byte first.
pub(crate) fn put(bytes: &mut Vec<u8>, numbers: &[u32]) -> Result<(), AllocError> {
    for n in numbers {
        bytes.extend_from_slice(&n.to_le_bytes())?;
    }
    Ok(())
}

/// Five records, the first with an entry, and an image that has learnt nothing.
pub(crate) fn put_learnt(bytes: &mut Vec<u8>) -> Result<(), AllocError> {
    put(bytes, &[1, 0])?;
    bytes.push(1)?;
    put(bytes, &[5, 0, 0])?;
    bytes.extend_from_slice(&[0; 36])?;
    bytes.extend_from_slice(&[1; 16])?;
    put(bytes, &[0, 1, 0, 1, 0, 1, 0, 1, 0])?;
    bytes.push(0)?;
    Ok(())
}

fn library(
    alloc: Global,
    version: u32,
    table: &[u32],
    words: &[u32],
) -> Result<Vec<u8>, AllocError> {
    let mut bytes = Vec::new(alloc);
    put(&mut bytes, &[0x504C_5354, version])?;
    bytes.extend_from_slice(&HEADER)?;
    put(&mut bytes, table)?;
    put(&mut bytes, &[0, 0x0001_0054])?;
    put(&mut bytes, &[7; 31])?;
    put(&mut bytes, &[0x0001_1000])?;
    put(&mut bytes, words)?;
    put_learnt(&mut bytes)?;
    bytes.extend_from_slice(&END_WORD)?;
    Ok(bytes)
}

/// A library that was read is written as it was, whole and part by part.
#[test]
fn writes_what_was_read(rt: HostRuntime) -> Result<(), Fail> {
    let none: &[u32] = &[];
    let cases: [(u32, &[u32], &[u32]); 2] = [(1, none, &LISTED), (2, &TABLE, &PARTS)];
    for (version, table, words) in cases {
        let bytes = library(rt.alloc(), version, table, words)?;
        let read = decode_library(rt.alloc(), &bytes);
        let library = read.ok().ok_or("a library was refused")?;
        assert_eq!(rt; encoded_len(&library), bytes.len() as u64);
        let written = encode_library(rt.alloc(), &library)?;
        assert_eq!(rt; written.as_slice(), bytes.as_slice());
        let mut parts = Vec::new(rt.alloc());
        encode_header(rt.alloc(), library.header(), library.shared(), &mut parts)?;
        for point in library.points() {
            encode_point(
                rt.alloc(),
                library.header(),
                library.shared(),
                point,
                &mut parts,
            )?;
        }
        parts.extend_from_slice(&END_WORD)?;
        assert_eq!(rt; parts.as_slice(), bytes.as_slice());
    }
    Ok(())
}
