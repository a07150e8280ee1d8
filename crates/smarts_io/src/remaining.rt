ghost use Rattle.std.specs.Prelude.{◌≡◌, ◌≤◌, ◌++◌, ℕ, List, drop, length, min, take, vec_len};

use std::marker::Model;

/// Bytes in memory that are given out from the front. Contracts see the bytes that are left.
#[derive(Drop)]
pub(crate) struct Remaining {
    bytes: Vec<u8>,
    at: usize,
}

impl Model for Remaining {
    ghost Value = { List ℕ };

    ghost view = { λ r. drop r.at r.bytes.items };

    ghost invariant = { λ r. r.at ≤ vec_len r.bytes };
}

impl Remaining {
    /// All of the bytes are left.
    pub(crate) fn new(bytes: Vec<u8>) -> Remaining
        ensures { result ≡ bytes.items }
    {
        Remaining { bytes, at: 0 }
    }

    /// Copies at most so many bytes to the front of the buffer, and answers how many.
    pub(crate) fn give(&mut self, buf: &mut [u8], most: usize) -> usize
        ensures count { result ≡ min (min most (length buf.old)) (length self.old) }
        ensures given { self.old ≡ take result buf.new ++ self.new }
        ensures after { self.new ≡ drop result self.old }
    {
        let left = &self.bytes[self.at..];
        let count = most.min(buf.len()).min(left.len());
        buf[..count].copy_from_slice(&left[..count]);
        self.at += count;
        count
    }
}
