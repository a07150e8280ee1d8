ghost use Rattle.std.specs.Prelude.{◌≡◌, ◌<◌, ◌≤◌, List, ℕ, length, drop, min, Option, Some, None, Ok, vec_len};
ghost use Rattle.smarts_io.specs.Bytes.{Reads, Writes};
ghost use Rattle.smarts_io.specs.Causes.{HasCause};

use crate::remaining::Remaining;
use crate::{Failed, Sink, Source};
use std::marker::Model;

/// A source over bytes in memory that never fails. Contracts see the bytes that are left.
#[derive(Drop)]
pub struct SureSource {
    left: Remaining,
}

impl Model for SureSource {
    ghost Value = { List ℕ };

    ghost view = { λ s. s.left };
}

impl SureSource {
    /// A source of these bytes.
    pub fn new(bytes: Vec<u8>) -> SureSource
        ensures { result ≡ bytes.items }
    {
        SureSource {
            left: Remaining::new(bytes),
        }
    }
}

impl Source for SureSource {
    ghost rest = { λ s. Some s };

    ghost faults = { λ _. 0 };

    fn read(&mut self, buf: &mut [u8]) -> Result<usize, Failed>
        requires { 0 < length buf.old }
        ensures bytes { Reads (Some self.old) (Some self.new) result buf.new }
        ensures cause { HasCause 0 0 result }
        ensures count { result ≡ Ok (min (length buf.old) (length self.old)) }
    {
        let room = buf.len();
        Ok(self.left.give(buf, room))
    }
}

/// A sink that takes every piece whole, keeps none of it and tells none of it. It never fails.
#[derive(Clone, Copy, Debug, Default, PartialEq, Eq)]
pub struct SureSink;

impl SureSink {
    /// A sink that has taken nothing.
    pub fn new() -> SureSink {
        SureSink
    }
}

impl Sink for SureSink {
    ghost taken = { λ _. None };

    ghost faults = { λ _. 0 };

    fn write(&mut self, piece: &[u8]) -> Result<usize, Failed>
        requires { 0 < length piece.now }
        ensures bytes { Writes {E = Failed} None None result piece.now }
        ensures cause { HasCause 0 0 result }
        ensures whole { result ≡ Ok (length piece.now) }
    {
        Ok(piece.len())
    }
}
