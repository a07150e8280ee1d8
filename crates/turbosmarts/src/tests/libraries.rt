// Libraries: what `warm` writes of small programs, and what `migrate` makes of libraries, whole and damaged.

use super::{
    BAD_LOAD, LONGER, LOOP, NOP, NOTHING, Wanted, bad_words, expect, file, refused, words,
};
use crate::top::turbosmarts;
use elf_image::ImageFault;
use livepoint_format::{Shared, decode_header, decode_library, encode_header, encode_point};
use rv_exec::{Trap, TrapKind};
use smarts_base::{NoMemory, OpenGate};
use smarts_io::{MemorySink, MemorySource};
use smarts_text::{DesignFault, Status, WordKind};
use std::alloc::Global;
use std::process::Abort;
use std::test::Fail;
use std::thread::Threads;

/// The first unit of 16 instructions, with no instructions before it in its window.
pub const FIRST: &str = "warm unit=16 warm=0";

/// Each unit of 16 instructions.
pub const EACH: &str = "warm unit=16 warm=0 every=1";

// Stores 7 below the end of the stack, and loads it again.
const STORE: [u32; 13] = [
    0x0070_0293,
    0xFE51_2E23,
    0xFFC1_2303,
    NOP,
    NOP,
    NOP,
    NOP,
    NOP,
    NOP,
    NOP,
    NOP,
    NOP,
    NOP,
];

// The letters TEND.
pub const END: [u8; 4] = [0x54, 0x45, 0x4E, 0x44];

#[derive(Debug, Drop)]
pub struct Ended {
    pub status: Status,
    pub output: Vec<u8>,
    pub lines: Vec<u8>,
}

// What the program answers to these words and this input.
pub fn answered<R: AllocGlobal + Threads + Sync>(
    rt: &R,
    line: &str,
    input: &[u8],
) -> Result<Ended, NoMemory> {
    let alloc = rt.alloc();
    let words = words(alloc, line)?;
    let mut source = MemorySource::new(Vec::from_slice(alloc, input)?, 65_536, Vec::new(alloc));
    let mut sink = MemorySink::new(alloc, 65_536, 1_000_000, Vec::new(alloc))?;
    let mut lines = MemorySink::new(alloc, 64, 64, Vec::new(alloc))?;
    let status = turbosmarts(
        rt,
        alloc,
        &words,
        &mut source,
        &mut sink,
        &mut lines,
        &OpenGate,
    );
    Ok(Ended {
        status,
        output: Vec::from_slice(alloc, sink.bytes())?,
        lines: Vec::from_slice(alloc, lines.bytes())?,
    })
}

// The library that the program writes for these words and this input.
pub fn library<R: Abort + AllocGlobal + Threads + Sync>(
    rt: &R,
    line: &str,
    input: &[u8],
) -> Result<Vec<u8>, Fail> {
    let answer = answered(rt, line, input)?;
    assert_eq!(rt; answer.status, Status::Done, "{line}");
    assert_eq!(rt; answer.lines.len(), 0, "{line}");
    Ok(answer.output)
}

// These bytes with others in the place of so many.
fn changed(
    alloc: Global,
    bytes: &[u8],
    place: usize,
    count: usize,
    new: &[u8],
) -> Result<Vec<u8>, NoMemory> {
    let mut changed = Vec::new(alloc);
    if let Some(front) = bytes.get(..place) {
        changed.extend_from_slice(front)?;
    }
    changed.extend_from_slice(new)?;
    if let Some(rest) = bytes.get(place.wrapping_add(count)..) {
        changed.extend_from_slice(rest)?;
    }
    Ok(changed)
}

// A library of version 2 as one of version 1.
fn in_version_1(alloc: Global, bytes: &[u8]) -> Result<Vec<u8>, Fail> {
    let header = decode_header(alloc, bytes).ok();
    let (mut header, _, _) = header.ok_or("a header was refused")?;
    header.version = 1;
    let library = decode_library(alloc, bytes).ok();
    let library = library.ok_or("a library was refused")?;
    let none = Shared::empty(alloc);
    let mut first = Vec::new(alloc);
    encode_header(alloc, &header, &none, &mut first)?;
    for point in library.points() {
        encode_point(alloc, &header, &none, point, &mut first)?;
    }
    first.extend_from_slice(&END)?;
    Ok(first)
}

// The value of a word is that at the window's start, although the window stores 7 there.
#[test]
fn keeps_what_a_window_finds(rt: HostRuntime) -> Result<(), Fail> {
    let alloc = rt.alloc();
    let bytes = library(&rt, EACH, &file(alloc, 0, &STORE)?)?;
    let library = decode_library(alloc, &bytes).ok();
    let library = library.ok_or("a library was refused")?;
    assert_eq!(rt; library.len(), 1);
    let point = library.points().first().ok_or("there is no point")?;
    assert_eq!(rt; point.pc, 0x0001_0054);
    let words = point.words.as_slice();
    assert_eq!(rt; words.len(), 17);
    assert_eq!(rt; words.last().copied(), Some((0x7FFF_EFFC, 0)));
    let places = &point.places;
    for time in [
        places.l1i.time(),
        places.l1d.time(),
        places.l2.time(),
        places.itlb.time(),
        places.dtlb.time(),
    ] {
        assert_eq!(rt; time, 0);
    }
    Ok(())
}

// Two words of the loop's body are touched in more than one unit.
#[test]
fn migrates_a_library(rt: HostRuntime) -> Result<(), Fail> {
    let alloc = rt.alloc();
    let second = library(&rt, EACH, &file(alloc, 0, &LOOP)?)?;
    assert_eq!(rt; second.len(), 563_590);
    let table = [
        2, 0, 0, 0, 0x58, 0, 1, 0, 0x93, 0x82, 0xF2, 0xFF, 0x5C, 0, 1, 0,
    ];
    assert_eq!(rt; second.get(76..92), Some(table.as_slice()));
    let first = in_version_1(alloc, &second)?;
    assert_eq!(rt; first.len(), 563_818);
    for old in [&first, &second] {
        let new = library(&rt, "migrate", old)?;
        assert_eq!(rt; new.as_slice() == second.as_slice(), true);
    }
    Ok(())
}

// A place in a library of 9257 bytes, how many bytes are taken out there and which are put in, and the fault.
const DAMAGES: [(usize, usize, &[u8], &str); 16] = [
    (0, 9257, &[], "library: fault 4 at 0\n"),
    (9256, 1, &[], "library: fault 4 at 9256\n"),
    (9257, 0, &[0], "library: fault 8 at 9257\n"),
    (0, 1, &[0x58], "library: fault 1 at 0\n"),
    (4, 1, &[3], "library: fault 2 at 0\n"),
    (4, 1, &[1], "library: fault 3 at 208\n"),
    (20, 1, &[15], "library: fault 3 at 20\n"),
    (80, 1, &[1], "library: fault 7 at 0\n"),
    (84, 1, &[0x56], "library: fault 3 at 84\n"),
    (220, 1, &[33], "library: fault 3 at 220\n"),
    (232, 1, &[0x54], "library: fault 6 at 0\n"),
    (360, 1, &[5], "library: fault 5 at 0\n"),
    (5149, 1, &[4], "library: fault 3 at 5149\n"),
    (9253, 1, &[0x74], "library: fault 3 at 9253\n"),
    // a shared pair whose address isn't a multiple of 4
    (
        76,
        4,
        &[1, 0, 0, 0, 1, 0, 0, 0, 0, 0, 0, 0],
        "library: fault 11 at 0\n",
    ),
    // no own words, and a run of none
    (
        216,
        136,
        &[0, 0, 0, 0, 1, 0, 0, 0, 0, 0, 0, 0, 0, 0, 0, 0],
        "library: fault 12 at 0\n",
    ),
];

#[test]
fn refuses_damaged_libraries(rt: HostRuntime) -> Result<(), Fail> {
    let alloc = rt.alloc();
    let bytes = library(&rt, FIRST, &file(alloc, 13, &[])?)?;
    assert_eq!(rt; bytes.len(), 9257);
    for (place, count, new, line) in DAMAGES {
        let damaged = changed(alloc, &bytes, place, count, new)?;
        let answer = answered(&rt, "migrate", &damaged)?;
        assert_eq!(rt; answer.status.number(), 5, "{line}");
        assert_eq!(rt; answer.lines.as_slice(), line.as_bytes());
        assert_eq!(rt; answer.output.len(), 0, "{line}");
    }
    Ok(())
}

// A sink with room for 1000 bytes has the front of the library.
#[test]
fn tells_how_much_was_written(rt: HostRuntime) -> Result<(), Fail> {
    let alloc = rt.alloc();
    let bytes = library(&rt, FIRST, &file(alloc, 13, &[])?)?;
    let wanted = Wanted {
        status: Status::WriteFault { taken: 1000 },
        output: bytes.get(..1000).ok_or("the library is short")?,
        lines: "write fault after 1000\n",
    };
    expect(&rt, FIRST, file(alloc, 13, &[])?, NOTHING, wanted)
}

#[test]
fn refuses_words_of_libraries(rt: HostRuntime) -> Result<(), Fail> {
    let alloc = rt.alloc();
    let cases = [
        (
            "warm min=2",
            WordKind::UnknownKey,
            1,
            "words: fault 3 at 1\n",
        ),
        (
            "warm unit=16 unit=16",
            WordKind::Repeated,
            2,
            "words: fault 4 at 2\n",
        ),
        (
            "warm predictor=gshare:12:9:8,",
            WordKind::BadValue,
            1,
            "words: fault 5 at 1\n",
        ),
        (
            "warm every=2 predictor=gshare:9:9:8,gshare:9:9:8",
            WordKind::OutOfRange,
            2,
            "words: fault 6 at 2\n",
        ),
        (
            "warm every=7 offset=7",
            WordKind::OffsetNotBelowEvery,
            3,
            "words: fault 9 at 3\n",
        ),
        (
            "migrate unit=16",
            WordKind::UnknownKey,
            1,
            "words: fault 3 at 1\n",
        ),
    ];
    for (line, kind, place, text) in cases {
        let wanted = refused(bad_words(kind, place), text);
        expect(&rt, line, file(alloc, 0, &LOOP)?, NOTHING, wanted)?;
    }
    Ok(())
}

// What keeps a run from having a library.
#[test]
fn refuses_runs(rt: HostRuntime) -> Result<(), Fail> {
    let alloc = rt.alloc();
    let not_elf = refused(Status::BadImage(ImageFault::NotElf), "image: fault 1\n");
    expect(&rt, EACH, Vec::new(alloc), NOTHING, not_elf)?;
    let trap = Trap {
        kind: TrapKind::MisalignedLoad,
        pc: 0x0001_0070,
    };
    let trapped = refused(
        Status::Trapped { at: 7, trap },
        "trapped at 7: kind 3, pc 00010070\n",
    );
    expect(&rt, EACH, file(alloc, 7, &BAD_LOAD)?, NOTHING, trapped)?;
    let spent = refused(
        Status::BudgetSpent { budget: 1003 },
        "budget spent after 1003\n",
    );
    let line = format!(in alloc; "{EACH} budget=1003")?;
    expect(&rt, &line, file(alloc, 0, &LOOP)?, NOTHING, spent)?;
    let none = refused(
        Status::BadDesign(DesignFault::NoUnits { length: 15 }),
        "design: fault 1 value 15\n",
    );
    expect(&rt, EACH, file(alloc, 12, &[])?, NOTHING, none)?;
    let many = refused(
        Status::BadDesign(DesignFault::TooMany { count: 66048 }),
        "design: fault 2 value 66048\n",
    );
    expect(&rt, EACH, file(alloc, 0, &LONGER)?, NOTHING, many)
}
