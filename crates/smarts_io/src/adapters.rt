ghost use Rattle.std.specs.Prelude.{◌≡◌, ℕ, min, ◌+◌, ◌-◌, ◌^◌, Option, None};

use crate::{Failed, Sink, Source};
use std::io::{Read, Write};

/// A source over a reader, such as standard input. It doesn't tell its bytes.
#[derive(Drop)]
pub struct InputSource<R: Read> {
    input: R,
    faults: u64,
}

impl<R: Read> InputSource<R> {
    /// A source that reads from there.
    pub fn new(input: R) -> InputSource<R>
        ensures none { result.faults ≡ 0 }
    {
        InputSource { input, faults: 0 }
    }
}

impl<R: Read> Source for InputSource<R> {
    ghost rest = { λ _. None };

    ghost faults = { λ s. s.faults };

    fn read(&mut self, buf: &mut [u8]) -> Result<usize, Failed> {
        match self.input.read(buf) {
            Ok(count) => Ok(count),
            Err(_) => {
                self.faults = self.faults.saturating_add(1);
                Err(Failed)
            }
        }
    }
}

/// A sink over a writer, such as standard output. It flushes after each write, and doesn't tell what it took.
#[derive(Drop)]
pub struct OutputSink<W: Write> {
    output: W,
    faults: u64,
}

impl<W: Write> OutputSink<W> {
    /// A sink that writes there.
    pub fn new(output: W) -> OutputSink<W>
        ensures none { result.faults ≡ 0 }
    {
        OutputSink { output, faults: 0 }
    }
}

impl<W: Write> Sink for OutputSink<W> {
    ghost taken = { λ _. None };

    ghost faults = { λ s. s.faults };

    // A writer that takes no byte of a piece has failed: another call would take none either.
    fn write(&mut self, piece: &[u8]) -> Result<usize, Failed> {
        match self.output.write(piece) {
            Ok(count) if count > 0 && self.output.flush().is_ok() => Ok(count),
            _ => {
                self.faults = self.faults.saturating_add(1);
                Err(Failed)
            }
        }
    }
}

/// A sink over standard error, for what a person is told beside the output.
pub type ErrorSink<W> = OutputSink<W>;
