use super::*;
use smarts_base::Refusal;
use std::alloc::{AllocError, Global};
use std::test::Fail;

/// A file of six instructions, with one program header.
const COUNTDOWN: [u8; 108] = [
    0x7F, 0x45, 0x4C, 0x46, 1, 1, 1, 0, 0, 0, 0, 0, 0, 0, 0, 0, //
    2, 0, 0xF3, 0, 1, 0, 0, 0, 0x54, 0, 1, 0, 0x34, 0, 0, 0, //
    0, 0, 0, 0, 0, 0, 0, 0, 0x34, 0, 0x20, 0, 1, 0, 0, 0, 0, 0, 0, 0, //
    1, 0, 0, 0, 0x54, 0, 0, 0, 0x54, 0, 1, 0, 0x54, 0, 1, 0, //
    24, 0, 0, 0, 24, 0, 0, 0, 5, 0, 0, 0, 4, 0, 0, 0, //
    0x93, 0x02, 0x40, 0x1F, 0x93, 0x82, 0xF2, 0xFF, 0xE3, 0x9E, 0x02, 0xFE, //
    0x13, 0x05, 0, 0, 0x93, 0x08, 0xD0, 0x05, 0x73, 0, 0, 0,
];

/// The front of the file above, of so many bytes, with bytes at some places changed.
fn changed(alloc: Global, len: usize, edits: &[(usize, u8)]) -> Result<Vec<u8>, AllocError> {
    let mut bytes = COUNTDOWN.to_vec(alloc)?;
    bytes.truncate(len);
    for (place, byte) in edits {
        if let Some(old) = bytes.get_mut(*place) {
            *old = *byte;
        }
    }
    Ok(bytes)
}

/// A file with these bytes behind its file header, and then its program headers up to the last byte.
/// A program header is its kind, offset, address, size in the file and size in memory.
fn file_with(
    alloc: Global,
    entry: u32,
    body: &[u8],
    headers: &[[u32; 5]],
) -> Result<Vec<u8>, AllocError> {
    let mut bytes = changed(alloc, 24, &[])?;
    bytes.extend_from_slice(&entry.to_le_bytes())?;
    bytes.extend_from_slice(&(52u32.wrapping_add((body.len() % 65536) as u32)).to_le_bytes())?;
    bytes.extend_from_slice(&[0, 0, 0, 0, 0, 0, 0, 0, 0x34, 0, 0x20, 0])?;
    bytes.extend_from_slice(&((headers.len() % 65536) as u16).to_le_bytes())?;
    bytes.extend_from_slice(&[0, 0, 0, 0, 0, 0])?;
    bytes.extend_from_slice(body)?;
    for [kind, offset, address, file_size, memory_size] in headers {
        for field in [kind, offset, address, &0, file_size, memory_size, &5, &4] {
            bytes.extend_from_slice(&field.to_le_bytes())?;
        }
    }
    Ok(bytes)
}

fn fault_of(alloc: Global, bytes: &[u8]) -> Option<Refusal<ImageFault>> {
    read_image(alloc, bytes).err()
}

/// Fronts of the file of six instructions: what each is, its length, the bytes that are changed, and
/// its fault.
const FRONTS: [(&str, usize, &[(usize, u8)], ImageFault); 24] = [
    ("nothing", 0, &[], ImageFault::NotElf),
    (
        "one byte less than a file header",
        51,
        &[],
        ImageFault::NotElf,
    ),
    ("the file header alone", 52, &[], ImageFault::HeaderOutside),
    (
        "one byte less than the table",
        83,
        &[],
        ImageFault::HeaderOutside,
    ),
    (
        "the table ends the file",
        84,
        &[],
        ImageFault::SegmentOutside,
    ),
    (
        "one byte less than the segment",
        107,
        &[],
        ImageFault::SegmentOutside,
    ),
    ("another magic", 108, &[(3, 0x47)], ImageFault::NotElf),
    ("64 bits", 108, &[(4, 2)], ImageFault::NotRiscv32),
    ("big-endian", 108, &[(5, 2)], ImageFault::NotRiscv32),
    ("x86-64", 108, &[(18, 0x3E)], ImageFault::NotRiscv32),
    (
        "a shared object",
        108,
        &[(16, 3)],
        ImageFault::NotExecutable,
    ),
    (
        "a shared object of another machine",
        108,
        &[(16, 3), (18, 0x3E)],
        ImageFault::NotRiscv32,
    ),
    ("compressed", 108, &[(36, 1)], ImageFault::Compressed),
    (
        "compressed, and no table",
        52,
        &[(36, 5)],
        ImageFault::Compressed,
    ),
    (
        "rows of 40 bytes",
        108,
        &[(42, 0x28)],
        ImageFault::HeaderOutside,
    ),
    (
        "a table far away",
        108,
        &[(31, 0xFF)],
        ImageFault::HeaderOutside,
    ),
    ("an interpreter", 108, &[(52, 3)], ImageFault::NotExecutable),
    ("nothing loaded", 108, &[(52, 4)], ImageFault::BadEntry),
    (
        "no headers, wherever and whatever",
        108,
        &[(31, 0xFF), (42, 7), (44, 0)],
        ImageFault::BadEntry,
    ),
    (
        "high addresses",
        108,
        &[(63, 0x70)],
        ImageFault::SegmentRange,
    ),
    (
        "more in the file than in memory",
        108,
        &[(72, 0x14)],
        ImageFault::SegmentRange,
    ),
    ("a wide segment", 108, &[(75, 4)], ImageFault::SpanTooLarge),
    (
        "an entry between instructions",
        108,
        &[(24, 0x56)],
        ImageFault::BadEntry,
    ),
    (
        "an entry past the segment",
        108,
        &[(24, 0x6C)],
        ImageFault::BadEntry,
    ),
];

// Program headers: kind, offset, address, size in the file, size in memory.
const CODE: [u32; 5] = [1, 52, 0x10054, 16, 16];

const UNFIT: [u32; 5] = [1, 52, 0x10054, 16, 12];

const OUTSIDE: [u32; 5] = [1, 0xFFFF_FFF0, 0x20000, 0x20, 0x20];

const HIGH: [u32; 5] = [1, 52, 0xFFFF_FFF0, 16, 0x20];

const INTERPRETER: [u32; 5] = [3, 0, 0, 0, 0];

/// Files of sixteen bytes: what each is, its entry and program headers, and its fault.
const HEADERS: [(&str, u32, &[[u32; 5]], ImageFault); 16] = [
    (
        "an interpreter behind a bad segment",
        0x10054,
        &[UNFIT, INTERPRETER],
        ImageFault::NotExecutable,
    ),
    (
        "a bad range before bytes that aren't there",
        0x10054,
        &[UNFIT, OUTSIDE],
        ImageFault::SegmentOutside,
    ),
    (
        "an offset that wraps",
        0x10054,
        &[CODE, OUTSIDE],
        ImageFault::SegmentOutside,
    ),
    (
        "addresses that wrap",
        0x10054,
        &[CODE, HIGH],
        ImageFault::SegmentRange,
    ),
    (
        "a bad range behind an overlap",
        0x10054,
        &[CODE, CODE, HIGH],
        ImageFault::SegmentRange,
    ),
    (
        "one byte past the top",
        0x10054,
        &[CODE, [1, 0, 0x6FFF_FFFF, 0, 2]],
        ImageFault::SegmentRange,
    ),
    (
        "equal segments",
        0x10054,
        &[CODE, CODE],
        ImageFault::Overlap,
    ),
    (
        "the last byte",
        0x10054,
        &[CODE, [1, 52, 0x10063, 1, 1]],
        ImageFault::Overlap,
    ),
    (
        "the first byte",
        0x10054,
        &[CODE, [1, 52, 0x10053, 1, 2]],
        ImageFault::Overlap,
    ),
    (
        "one inside another",
        0x10054,
        &[[1, 0, 0x10000, 0, 0x1000], CODE],
        ImageFault::Overlap,
    ),
    (
        "the first and the third",
        0x10054,
        &[CODE, [1, 52, 0x20000, 4, 4], CODE],
        ImageFault::Overlap,
    ),
    (
        "an overlap and a wide span",
        0x10054,
        &[CODE, CODE, [1, 0, 0x6000_0000, 0, 1]],
        ImageFault::Overlap,
    ),
    (
        "a page too many",
        0x10054,
        &[CODE, [1, 0, 0x401_0000, 0, 1]],
        ImageFault::SpanTooLarge,
    ),
    (
        "an entry in no segment, of one page",
        0x10050,
        &[CODE],
        ImageFault::BadEntry,
    ),
    (
        "an entry past the last",
        0x10064,
        &[CODE],
        ImageFault::BadEntry,
    ),
    (
        "no segment with memory",
        0x10054,
        &[[1, 52, 0x10054, 0, 0]],
        ImageFault::BadEntry,
    ),
];

#[test]
fn names_the_first_fault(rt: HostRuntime) -> Result<(), Fail> {
    let alloc = rt.alloc();
    for (name, len, edits, fault) in FRONTS {
        let found = fault_of(alloc, &changed(alloc, len, edits)?);
        assert_eq!(rt; found, Some(Refusal::Fault(fault)), "{name}");
    }
    for (name, entry, headers, fault) in HEADERS {
        let found = fault_of(alloc, &file_with(alloc, entry, &[0x13; 16], headers)?);
        assert_eq!(rt; found, Some(Refusal::Fault(fault)), "{name}");
    }
    Ok(())
}

#[test]
fn refuses_a_program_header_given_twice(rt: HostRuntime) -> Result<(), Fail> {
    let mut bytes = changed(rt.alloc(), 84, &[(44, 2)])?;
    bytes.extend_from_slice(&COUNTDOWN[52..])?;
    assert_eq!(rt;
        fault_of(rt.alloc(), &bytes),
        Some(Refusal::Fault(ImageFault::Overlap))
    );
    Ok(())
}

/// The words at the addresses.
fn words(alloc: Global, image: &Image, addrs: &[u32]) -> Result<Vec<Option<u32>>, AllocError> {
    let mut words = Vec::new(alloc);
    for addr in addrs {
        words.push(image.word(*addr))?;
    }
    Ok(words)
}

#[test]
fn loads_segments(rt: HostRuntime) -> Result<(), Fail> {
    let alloc = rt.alloc();
    let image = read_image(alloc, &COUNTDOWN)?;
    assert_eq!(rt;
        (image.entry(), image.low(), image.heap_low()),
        (0x10054, 0x10000, 0x11000)
    );
    let addrs = [
        0x10054,
        0x10068,
        0x10050,
        0x1006C,
        0x10FFC,
        0x10000,
        0x10055,
        0x10056,
        0xFFFC,
        0x11000,
        0xFFFF_FFFC,
    ];
    let wanted = [
        Some(0x1F40_0293),
        Some(0x73),
        Some(0),
        Some(0),
        Some(0),
        Some(0),
        None,
        None,
        None,
        None,
        None,
    ];
    assert_eq!(rt; words(alloc, &image, &addrs)?.as_slice(), wanted.as_slice());

    // Two segments that touch, in falling order and at odd addresses; one that has no bytes, wherever
    // it says that they are; one with no memory, whose other fields are wild; the entry among zeros.
    let headers = [
        [1, 55, 0x2_0FFF, 5, 8],
        [1, 52, 0x2_0FFC, 3, 3],
        [1, 0xFFFF_FFFF, 0x2_3000, 0, 0x1004],
        [1, 0xFFFF_FFFF, 0xFFFF_FFFF, 0xFFFF_FFFF, 0],
    ];
    let bytes = file_with(alloc, 0x2_1004, &[1, 2, 3, 4, 5, 6, 7, 8], &headers)?;
    let image = read_image(alloc, &bytes)?;
    assert_eq!(rt;
        (image.entry(), image.low(), image.heap_low()),
        (0x2_1004, 0x2_0000, 0x2_5000)
    );
    let addrs = [0x2_0FFC, 0x2_1000, 0x2_1004, 0x2_0FF8, 0x2_4FFC, 0x2_5000];
    let wanted = [
        Some(0x0403_0201),
        Some(0x0807_0605),
        Some(0),
        Some(0),
        Some(0),
        None,
    ];
    assert_eq!(rt; words(alloc, &image, &addrs)?.as_slice(), wanted.as_slice());
    Ok(())
}

#[test]
fn takes_all_that_the_limits_allow(rt: HostRuntime) -> Result<(), Fail> {
    let alloc = rt.alloc();
    let widest = [[1, 52, 0x10054, 16, 0x3FF_FFAC]];
    let image = read_image(alloc, &file_with(alloc, 0x10054, &[0x13; 16], &widest)?)?;
    assert_eq!(rt; image.heap_low(), 0x401_0000);
    let highest = [[1, 52, 0x6FFF_FFF0, 16, 16]];
    let image = read_image(
        alloc,
        &file_with(alloc, 0x6FFF_FFF0, &[0x13; 16], &highest)?,
    )?;
    assert_eq!(rt; (image.low(), image.heap_low()), (0x6FFF_F000, 0x7000_0000));

    let mut bytes = vec![in alloc; 0u8; 67_108_864]?;
    assert_eq!(rt;
        fault_of(alloc, &bytes),
        Some(Refusal::Fault(ImageFault::NotElf))
    );
    bytes.push(0)?;
    assert_eq!(rt;
        fault_of(alloc, &bytes),
        Some(Refusal::Fault(ImageFault::TooLarge))
    );

    // As many program headers as a file can have, in an order that is neither rising nor falling.
    let mut headers = Vec::new(alloc);
    for i in 0..65_535u32 {
        headers.push([1, 0, 0x10000 + 8 * (i * 7919 % 65_535), 0, 8])?;
    }
    let image = read_image(alloc, &file_with(alloc, 0x10000, &[], &headers)?)?;
    assert_eq!(rt; (image.low(), image.heap_low()), (0x10000, 0x9_0000));
    headers.pop();
    headers.push([1, 0, 0x50001, 0, 1])?;
    let bytes = file_with(alloc, 0x10000, &[], &headers)?;
    assert_eq!(rt;
        fault_of(alloc, &bytes),
        Some(Refusal::Fault(ImageFault::Overlap))
    );
    Ok(())
}
