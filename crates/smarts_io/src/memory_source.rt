ghost use Rattle.std.specs.Prelude.{◌≡◌, ◌<◌, ◌≤◌, length, Option, Some, IfOk, is_err};
ghost use Rattle.smarts_io.specs.Bytes.{Reads};
ghost use Rattle.smarts_io.specs.Causes.{HasCause};
ghost use Rattle.smarts_io.specs.Memory.{Reading, after_read, calls_of, is_named, read_count};

use crate::calls::FailingCalls;
use crate::remaining::Remaining;
use crate::{Failed, Source};
use std::marker::Model;

/// A source over bytes in memory, which gives few bytes at a time and fails at chosen calls.
#[derive(Drop)]
pub struct MemorySource {
    left: Remaining,
    most: usize,
    calls: FailingCalls,
}

impl Model for MemorySource {
    ghost Value = { Reading };

    ghost view = { λ s. record { left = s.left; most = s.most; calls = s.calls } };

    ghost invariant = { λ s. 1 ≤ s.most };
}

impl MemorySource {
    /// A source of these bytes. A read gives at most `most` of them, and the calls in `failing`, counted
    /// from 0, fail.
    pub fn new(bytes: Vec<u8>, most: usize, failing: Vec<u32>) -> MemorySource
        requires { 1 ≤ most }
        ensures { result ≡ record { left = bytes.items; most = most; calls = calls_of failing.items } }
    {
        MemorySource {
            left: Remaining::new(bytes),
            most,
            calls: FailingCalls::new(failing),
        }
    }
}

impl Source for MemorySource {
    ghost rest = { λ s. Some s.left };

    ghost faults = { λ s. s.calls.faults };

    fn read(&mut self, buf: &mut [u8]) -> Result<usize, Failed>
        requires { 0 < length buf.old }
        ensures bytes { Reads (Some self.old.left) (Some self.new.left) result buf.new }
        ensures cause { HasCause self.old.calls.faults self.new.calls.faults result }
        ensures fails { is_err result ≡ is_named self.old.calls }
        ensures count { IfOk result (λ n. n ≡ read_count self.old (length buf.old)) }
        ensures after { self.new ≡ after_read self.old (length buf.old) }
    {
        let fails = self.calls.is_named();
        self.calls.count(fails);
        if fails {
            return Err(Failed);
        }
        Ok(self.left.give(buf, self.most))
    }
}
