ghost use Rattle.std.specs.Prelude.{◌≡◌, ◌+◌, ◌≤◌, ◌<◌, ◌^◌, length, take, drop, IfOk, IfErr};
ghost use Rattle.std.specs.Int.{w8, w32, w64, from_le_bytes};
ghost use Rattle.livepoint_format.specs.Reading.{Spot, number, judged, starts_at};
ghost use Rattle.livepoint_format.specs.Format.{within};
ghost use Rattle.livepoint_format.specs.Decoding.{field, pair_at};
ghost use Rattle.smarts_base.specs.declared.refusal.Refusal.TheVariants.{Fault};
ghost use Rattle.livepoint_format.specs.declared.fault.LibraryFault.TheVariants as faults;
ghost use Rattle.livepoint_format.specs.Reads.{Reads, IsBytes};

use crate::fault::LibraryFault;
use smarts_base::Refusal;
use std::marker::Model;

/// What reading answers: a value, a fault of the bytes, or want of memory.
pub type Answer<T> = Result<T, Refusal<LibraryFault>>;

/// Where a reader stands in the bytes of a library.
#[derive(Drop)]
pub struct Cursor<'a> {
    /// How many bytes of the library are behind it.
    place: u64,
    rest: &'a [u8],
}

impl<'a> Model for Cursor<'a> {
    ghost use Rattle.livepoint_format.specs.Reading.{Spot};
    ghost use Rattle.livepoint_format.specs.Reads.{spot_of, IsCursor};

    ghost Value = { Spot };

    ghost view = { spot_of };

    ghost invariant = { IsCursor };
}

/// The field that begins here has a value that it may not have.
pub fn bad_field(at: u64) -> Refusal<LibraryFault>
    ensures { result ≡ Fault (faults.BadField at) }
{
    Refusal::Fault(LibraryFault::BadField { at })
}

/// The numbers of four and of eight bytes at a place.
#[inline]
pub fn word_in(bytes: &[u8], at: usize) -> u32
    requires { at + 4 ≤ length bytes.now }
    ensures { result ≡ from_le_bytes w32 (take 4 (drop at bytes.now)) }
{
    u32::from_le_bytes([bytes[at], bytes[at + 1], bytes[at + 2], bytes[at + 3]])
}

#[inline]
pub fn long_in(bytes: &[u8], at: usize) -> u64
    requires { at + 8 ≤ length bytes.now }
    ensures { result ≡ from_le_bytes w64 (take 8 (drop at bytes.now)) }
{
    u64::from_le_bytes([
        bytes[at],
        bytes[at + 1],
        bytes[at + 2],
        bytes[at + 3],
        bytes[at + 4],
        bytes[at + 5],
        bytes[at + 6],
        bytes[at + 7],
    ])
}

impl<'a> Cursor<'a> {
    /// In front of these bytes, which stand at this place of the library.
    pub fn new(base: u64, bytes: &'a [u8]) -> Cursor<'a>
        requires { base + length bytes.now < 2 ^ 64 }
        ensures { result ≡ starts_at base bytes.now }
    {
        Cursor {
            place: base,
            rest: bytes,
        }
    }

    /// How many bytes are behind it.
    pub fn place(&self) -> u64
        ensures value { result ≡ self.now.place }
        ensures within { self.now.place + length self.now.rest < 2 ^ 64 }
    {
        let _rest = self.rest;
        self.place
    }

    /// The bytes that are left.
    pub fn rest(&self) -> &'a [u8]
        ensures value { result.now ≡ self.now.rest }
        ensures bytes { IsBytes self.now.rest }
    {
        self.rest
    }

    /// Goes on behind so many bytes.
    pub fn advance(&mut self, count: usize)
        requires { count ≤ length self.old.rest }
        ensures place { self.new.place ≡ self.old.place + count }
        ensures rest { self.new.rest ≡ drop count self.old.rest }
    {
        let rest = self.rest;
        self.place += count as u64;
        self.rest = &rest[count..];
    }

    /// The bytes end in front of the cursor's next field.
    fn end(&self) -> Refusal<LibraryFault>
        ensures { result ≡ Fault (faults.Truncated (self.now.place + length self.now.rest)) }
    {
        Refusal::Fault(LibraryFault::Truncated {
            at: self.place + self.rest.len() as u64,
        })
    }

    /// A number of one byte.
    pub fn u8(&mut self) -> Answer<u8>
        ensures { Reads (λ n. n) result self.new (number w8 self.old) }
    {
        if self.rest.is_empty() {
            return Err(self.end());
        }
        let n = self.rest[0];
        self.advance(1);
        Ok(n)
    }

    /// A number of four bytes.
    pub fn u32(&mut self) -> Answer<u32>
        ensures { Reads (λ n. n) result self.new (number w32 self.old) }
    {
        if self.rest.len() < 4 {
            return Err(self.end());
        }
        let n = word_in(self.rest, 0);
        self.advance(4);
        Ok(n)
    }

    /// A number of eight bytes.
    pub fn u64(&mut self) -> Answer<u64>
        ensures { Reads (λ n. n) result self.new (number w64 self.old) }
    {
        if self.rest.len() < 8 {
            return Err(self.end());
        }
        let n = long_in(self.rest, 0);
        self.advance(8);
        Ok(n)
    }

    /// A number of one byte in a range.
    pub fn u8_within(&mut self, least: u8, most: u8) -> Answer<u8>
        ensures read { Reads (λ n. n) result self.new (field w8 (within least most) self.old) }
        ensures range { IfOk result (λ n. (least ≤ n) × (n ≤ most)) }
    {
        let at = self.place;
        let n = self.u8()?;
        if least <= n && n <= most {
            Ok(n)
        } else {
            Err(bad_field(at))
        }
    }

    /// A number of four bytes in a range.
    pub fn u32_within(&mut self, least: u32, most: u32) -> Answer<u32>
        ensures read { Reads (λ n. n) result self.new (field w32 (within least most) self.old) }
        ensures range { IfOk result (λ n. (least ≤ n) × (n ≤ most)) }
    {
        let at = self.place;
        let n = self.u32()?;
        if least <= n && n <= most {
            Ok(n)
        } else {
            Err(bad_field(at))
        }
    }

    /// A number of eight bytes in a range.
    pub fn u64_within(&mut self, least: u64, most: u64) -> Answer<u64>
        ensures read { Reads (λ n. n) result self.new (field w64 (within least most) self.old) }
        ensures range { IfOk result (λ n. (least ≤ n) × (n ≤ most)) }
    {
        let at = self.place;
        let n = self.u64()?;
        if least <= n && n <= most {
            Ok(n)
        } else {
            Err(bad_field(at))
        }
    }

    /// Two numbers of four bytes.
    #[tactic(auto, unfolding(crate::specs::Decoding::pair_at))]
    pub fn pair(&mut self) -> Answer<(u32, u32)>
        ensures { Reads (λ p. p) result self.new (pair_at self.old) }
    {
        let first = self.u32()?;
        let second = self.u32()?;
        Ok((first, second))
    }
}
