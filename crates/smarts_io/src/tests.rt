use super::*;
use std::cell::Cell;
use std::collections::VecDeque;
use std::io;
use std::test::Fail;

const TEXT: &[u8] = b"twenty-one bytes long";

#[test]
fn reads_up_to_one_byte_past_a_limit(rt: HostRuntime) -> Result<(), Fail> {
    let alloc = rt.alloc();
    let cases = [(0, 1), (5, 6), (19, 20), (20, 21), (21, 21), (1000, 21)];
    for (limit, taken) in cases {
        let mut source = MemorySource::new(Vec::from_slice(alloc, TEXT)?, 4, Vec::new(alloc));
        let bytes = read_all(alloc, &mut source, limit)?;
        assert_eq!(rt; Some(bytes.as_slice()), TEXT.get(..taken), "limit {limit}");
        let mut sure = SureSource::new(Vec::from_slice(alloc, TEXT)?);
        let bytes = read_all(alloc, &mut sure, limit)?;
        assert_eq!(rt;
            Some(bytes.as_slice()),
            TEXT.get(..taken),
            "limit {limit}, at once"
        );
    }
    Ok(())
}

#[test]
fn tells_where_a_call_failed(rt: HostRuntime) -> Result<(), Fail> {
    let alloc = rt.alloc();
    let mut source = MemorySource::new(
        Vec::from_slice(alloc, TEXT)?,
        4,
        Vec::from_slice(alloc, &[2])?,
    );
    assert_eq!(rt;
        read_all(alloc, &mut source, 100).err(),
        Some(ReadError::Failed)
    );
    let bytes = read_all(alloc, &mut source, 100)?;
    assert_eq!(rt;
        bytes.as_slice(),
        b"ne bytes long".as_slice(),
        "the first two reads are lost"
    );

    let mut sink = MemorySink::new(alloc, 4, 10, Vec::from_slice(alloc, &[1])?)?;
    assert_eq!(rt;
        write_all(&mut sink, TEXT),
        Err(WriteFailed { taken: 4 }),
        "call 1 fails"
    );
    assert_eq!(rt;
        write_all(&mut sink, TEXT),
        Err(WriteFailed { taken: 6 }),
        "no room is left"
    );
    assert_eq!(rt; sink.bytes(), b"twentwenty".as_slice());
    assert_eq!(rt; write_all(&mut SureSink::new(), TEXT), Ok(()));
    Ok(())
}

/// No call of this number is made.
const NEVER: u32 = 100;

/// A reader that gives 4 bytes a call, and whose call numbered `failing` fails.
#[derive(Drop)]
struct Faltering<'a> {
    left: &'a [u8],
    calls: u32,
    failing: u32,
}

impl<'a> io::Read for Faltering<'a> {
    fn read(&mut self, buf: &mut [u8]) -> io::Result<usize> {
        let call = self.calls;
        self.calls = call.wrapping_add(1);
        if call == self.failing {
            return Err(io::ErrorKind::BrokenPipe.into());
        }
        let mut given = self.left.get(..4).unwrap_or(self.left);
        let count = given.read(buf)?;
        self.left = self.left.get(count..).unwrap_or(&[]);
        Ok(count)
    }
}

/// A writer that takes 4 bytes a call and counts its flushes, and of which one write or one flush fails.
#[derive(Drop)]
struct Kept<'a> {
    bytes: &'a Cell<usize>,
    flushes: &'a Cell<u32>,
    writes: u32,
    failing_write: u32,
    failing_flush: u32,
}

impl<'a> io::Write for Kept<'a> {
    fn write(&mut self, piece: &[u8]) -> io::Result<usize> {
        let call = self.writes;
        self.writes = call.wrapping_add(1);
        if call == self.failing_write {
            return Err(io::ErrorKind::BrokenPipe.into());
        }
        let count = piece.len().min(4);
        self.bytes.set(self.bytes.get().wrapping_add(count));
        Ok(count)
    }

    fn flush(&mut self) -> io::Result<()> {
        let call = self.flushes.get();
        self.flushes.set(call.wrapping_add(1));
        if call == self.failing_flush {
            return Err(io::ErrorKind::BrokenPipe.into());
        }
        Ok(())
    }
}

#[test]
fn adapts_readers_that_fail(rt: HostRuntime) -> Result<(), Fail> {
    let alloc = rt.alloc();
    for failing in 0..8u32 {
        let input = Faltering {
            left: TEXT,
            calls: 0,
            failing,
        };
        let read = read_all(alloc, &mut InputSource::new(input), 100);
        if failing < 7 {
            assert_eq!(rt; read.err(), Some(ReadError::Failed), "call {failing} fails");
        } else {
            assert_eq!(rt; read?.as_slice(), TEXT, "six pieces and the end");
        }
    }
    Ok(())
}

#[test]
fn adapts_writers_that_fail(rt: HostRuntime) {
    // the write that fails, the flush that fails, the bytes told, those that the writer has, its flushes
    let cases = [
        (NEVER, NEVER, 21, 21, 6),
        (0, NEVER, 0, 0, 0),
        (3, NEVER, 12, 12, 3),
        (NEVER, 0, 0, 4, 1),
        (NEVER, 5, 20, 21, 6),
    ];
    for (failing_write, failing_flush, told, taken, flushed) in cases {
        let (bytes, flushes) = (Cell::new(0), Cell::new(0));
        let output = Kept {
            bytes: &bytes,
            flushes: &flushes,
            writes: 0,
            failing_write,
            failing_flush,
        };
        let written = match write_all(&mut OutputSink::new(output), TEXT) {
            Ok(()) => 21,
            Err(failed) => failed.taken,
        };
        assert_eq!(rt;
            (written, bytes.get(), flushes.get()),
            (told, taken, flushed),
            "write {failing_write} or flush {failing_flush} fails"
        );
    }
}

#[test]
fn adapts_a_pipe(rt: HostRuntime) -> Result<(), Fail> {
    let alloc = rt.alloc();
    let mut pipe = VecDeque::new(alloc);
    write_all(&mut OutputSink::new(&mut pipe), TEXT).map_err(|_| "write")?;
    let bytes = read_all(alloc, &mut InputSource::new(&mut pipe), 100)?;
    assert_eq!(rt; bytes.as_slice(), TEXT);
    Ok(())
}
