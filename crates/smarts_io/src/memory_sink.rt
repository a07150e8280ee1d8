ghost use Rattle.std.specs.Prelude.{◌≡◌, ◌<◌, ◌≤◌, [], length, Option, Some, IfOk, is_err, vec_len, vec_capacity};
ghost use Rattle.smarts_io.specs.Bytes.{Writes};
ghost use Rattle.smarts_io.specs.Causes.{HasCause};
ghost use Rattle.smarts_io.specs.Memory.{Writing, after_write, calls_of, is_refused, write_count};

use crate::calls::FailingCalls;
use crate::{Failed, Sink};
use smarts_base::NoMemory;
use std::alloc::Global;
use std::marker::Model;

/// A sink into memory, which takes few bytes at a time, has room for so many, and fails at chosen calls.
#[derive(Drop)]
pub struct MemorySink {
    bytes: Vec<u8>,
    most: usize,
    room: usize,
    calls: FailingCalls,
}

impl Model for MemorySink {
    ghost Value = { Writing };

    ghost view = { λ s. record { taken = s.bytes.items; most = s.most; room = s.room; calls = s.calls } };

    ghost invariant = { λ s. (vec_len s.bytes ≤ s.room) × (s.room ≤ vec_capacity s.bytes) × (1 ≤ s.most) };
}

impl MemorySink {
    /// A sink with room for `room` bytes. A write takes at most `most` of them, and the calls in `failing`,
    /// counted from 0, fail. So does a write for which no room is left.
    pub fn new(
        alloc: Global,
        most: usize,
        room: usize,
        failing: Vec<u32>,
    ) -> Result<MemorySink, NoMemory>
        requires { 1 ≤ most }
        ensures { IfOk result (λ sink. sink ≡
            record { taken = []; most = most; room = room; calls = calls_of failing.items }) }
    {
        Ok(MemorySink {
            bytes: Vec::with_capacity(alloc, room)?,
            most,
            room,
            calls: FailingCalls::new(failing),
        })
    }

    /// What the sink took so far.
    pub fn bytes(&self) -> &[u8]
        ensures { result.now ≡ self.now.taken }
    {
        &self.bytes
    }
}

impl Sink for MemorySink {
    ghost taken = { λ s. Some s.taken };

    ghost faults = { λ s. s.calls.faults };

    fn write(&mut self, piece: &[u8]) -> Result<usize, Failed>
        requires { 0 < length piece.now }
        ensures bytes { Writes (Some self.old.taken) (Some self.new.taken) result piece.now }
        ensures cause { HasCause self.old.calls.faults self.new.calls.faults result }
        ensures fails { is_err result ≡ is_refused self.old }
        ensures count { IfOk result (λ n. n ≡ write_count self.old (length piece.now)) }
        ensures after { self.new ≡ after_write self.old piece.now }
    {
        let left = self.room - self.bytes.len();
        let fails = self.calls.is_named() || left == 0;
        self.calls.count(fails);
        if fails {
            return Err(Failed);
        }
        let count = self.most.min(piece.len()).min(left);
        let fits = self.bytes.extend_from_slice(&piece[..count]).is_ok();
        prove!(fits);
        Ok(count)
    }
}
