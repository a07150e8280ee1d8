// What `estimate` makes of libraries: at any number of workers, damaged, and for other processors.

use super::libraries::{EACH, END, FIRST, answered, library};
use super::{Failing, LOOP, NOTHING, bad_words, expect, file, refused};
use live_words::Words;
use livepoint_format::{Shared, decode_header, decode_library, encode_header, encode_point};
use smarts_text::{Status, WordKind};
use std::alloc::Global;
use std::test::Fail;

const THIRTY: &str =
    "instructions 1004\npoints 62\nsampled 30\nconfident yes\ncycles 480\ncpi 1.0000\nerror 0.00%\n";

const ONE: &str =
    "instructions 16\npoints 1\nsampled 1\nconfident no\ncycles 239\ncpi 14.9375\nerror none\n";

// The library with no table of shared pairs, where the point at this place lacks the word at its own pc.
fn lacking(alloc: Global, bytes: &[u8], place: usize) -> Result<Vec<u8>, Fail> {
    let library = decode_library(alloc, bytes).ok();
    let library = library.ok_or("a library was refused")?;
    let header = decode_header(alloc, bytes).ok();
    let (header, _, _) = header.ok_or("a header was refused")?;
    let mut lacking = Vec::new(alloc);
    let none = Shared::empty(alloc);
    encode_header(alloc, &header, &none, &mut lacking)?;
    let mut k = 0usize;
    for mut point in library.into_points() {
        if k == place {
            let mut pairs = Vec::new(alloc);
            for pair in point.words.as_slice() {
                if pair.0 != point.pc {
                    pairs.push(*pair)?;
                }
            }
            let words = Words::from_pairs(alloc, &pairs).ok();
            point.words = words.ok_or("words were refused")?;
        }
        encode_point(alloc, &header, &none, &point, &mut lacking)?;
        k = k.wrapping_add(1);
    }
    lacking.extend_from_slice(&END)?;
    Ok(lacking)
}

#[test]
fn estimates_as_sample_does(rt: HostRuntime) -> Result<(), Fail> {
    let alloc = rt.alloc();
    let image = file(alloc, 0, &LOOP)?;
    let sample = answered(&rt, "sample unit=16 warm=32 every=1", &image)?;
    assert_eq!(rt; sample.status, Status::Done);
    let library = library(&rt, "warm unit=16 warm=32 every=1", &image)?;
    for workers in ["1", "2", "64"] {
        let line = format!(in alloc; "estimate workers={workers}")?;
        let estimate = answered(&rt, &line, &library)?;
        assert_eq!(rt; estimate.status, Status::Done);
        assert_eq!(rt; estimate.output.as_slice(), sample.output.as_slice());
        assert_eq!(rt; estimate.lines.len(), 0);
    }
    Ok(())
}

// So many bytes of a library of 9257 and one behind it, the words, and what is told or written.
#[test]
fn refuses_libraries_and_processors(rt: HostRuntime) -> Result<(), Fail> {
    let alloc = rt.alloc();
    let mut longer = library(&rt, FIRST, &file(alloc, 13, &[])?)?;
    longer.push(0)?;
    let cases = [
        (9257usize, "estimate", 0, ONE),
        (9257, "estimate workers=3", 0, ONE),
        (9256, "estimate", 5, "library: fault 4 at 9256\n"),
        (9258, "estimate", 5, "library: fault 8 at 9257\n"),
        (9257, "estimate l1i=64:64:5", 6, "design: fault 4 value 0\n"),
        (
            9257,
            "estimate l2=64:1024:8",
            6,
            "design: fault 4 value 2\n",
        ),
        (9257, "estimate dtlb=32:4", 6, "design: fault 4 value 4\n"),
        (
            9257,
            "estimate predictor=bimodal:4:2:0",
            6,
            "design: fault 4 value 5\n",
        ),
        (
            9258,
            "estimate l2=64:1024:8",
            5,
            "library: fault 8 at 9257\n",
        ),
    ];
    for (length, line, status, text) in cases {
        let estimate = answered(&rt, line, longer.get(..length).ok_or("no library")?)?;
        assert_eq!(rt; estimate.status.number(), status, "{line}");
        if status == 0 {
            assert_eq!(rt; estimate.output.as_slice(), text.as_bytes(), "{line}");
        } else {
            assert_eq!(rt; estimate.output.len(), 0, "{line}");
            assert_eq!(rt; estimate.lines.as_slice(), text.as_bytes(), "{line}");
        }
    }
    Ok(())
}

// A point that isn't one of the run ends the estimate, where the fold comes to it.
#[test]
fn names_a_point_that_lacks_a_word(rt: HostRuntime) -> Result<(), Fail> {
    let alloc = rt.alloc();
    let whole = library(&rt, EACH, &file(alloc, 0, &LOOP)?)?;
    for (place, line, status, text) in [
        (1usize, "estimate", 5, "library: fault 10 at 1\n"),
        (
            29,
            "estimate machine=scalar",
            5,
            "library: fault 10 at 29\n",
        ),
        (40, "estimate machine=scalar", 0, THIRTY),
    ] {
        let bytes = lacking(alloc, &whole, place)?;
        for workers in ["1", "2", "64"] {
            let line = format!(in alloc; "{line} workers={workers}")?;
            let estimate = answered(&rt, &line, &bytes)?;
            assert_eq!(rt; estimate.status.number(), status, "{line}");
            if status == 0 {
                assert_eq!(rt; estimate.output.as_slice(), text.as_bytes(), "{line}");
            } else {
                assert_eq!(rt; estimate.lines.as_slice(), text.as_bytes(), "{line}");
            }
        }
    }
    Ok(())
}

#[test]
fn refuses_words_and_sources(rt: HostRuntime) -> Result<(), Fail> {
    let alloc = rt.alloc();
    for (line, kind, text) in [
        (
            "estimate unit=16",
            WordKind::UnknownKey,
            "words: fault 3 at 1\n",
        ),
        (
            "estimate workers=0",
            WordKind::OutOfRange,
            "words: fault 6 at 1\n",
        ),
        (
            "estimate workers=65",
            WordKind::OutOfRange,
            "words: fault 6 at 1\n",
        ),
    ] {
        expect(
            &rt,
            line,
            Vec::new(alloc),
            NOTHING,
            refused(bad_words(kind, 1), text),
        )?;
    }
    let failing = Failing {
        reads: &[2],
        ..NOTHING
    };
    let bytes = library(&rt, FIRST, &file(alloc, 13, &[])?)?;
    expect(
        &rt,
        "estimate",
        bytes,
        failing,
        refused(Status::ReadFault, "read fault\n"),
    )
}
