ghost use Rattle.std.specs.Prelude.{◌≡◌, ◌+◌, ◌≤◌, length, IfOk, true};
ghost use Rattle.elf_image.specs.Fields.{program_header_at, program_headers, has_headers};
ghost use Rattle.elf_image.specs.Segments.{is_loaded, file_end, memory_end, holds, passes_file, is_misplaced};
ghost use Rattle.elf_image.specs.Rules.{names_interpreter};

use crate::fields::{header_count, headers_place, word_at};
use smarts_base::NoMemory;
use std::alloc::Global;

/// The length of a program header.
pub const PROGRAM_HEADER: usize = 32;

/// PT_LOAD: the header describes a part of memory.
const LOADED: u32 = 1;

/// PT_INTERP: the header names a program that is to load the file.
const INTERPRETER: u32 = 3;

/// No segment passes this address.
const TOP: u64 = 0x7000_0000;

/// The fields of a program header that a loader reads, by their places 0, 4, 8, 16 and 20.
#[derive(Clone, Copy, Debug, PartialEq, Eq)]
pub struct ProgramHeader {
    pub kind: u32,
    pub offset: u32,
    pub address: u32,
    pub file_size: u32,
    pub memory_size: u32,
}

impl ProgramHeader {
    pub fn is_loaded(&self) -> bool
        ensures { result ≡ is_loaded self.now }
    {
        self.kind == LOADED && self.memory_size != 0
    }

    pub fn names_interpreter(&self) -> bool
        ensures { result ≡ names_interpreter self.now }
    {
        self.kind == INTERPRETER
    }

    pub fn file_end(&self) -> u64
        ensures { result ≡ file_end self.now }
    {
        u64::from(self.offset) + u64::from(self.file_size)
    }

    pub fn memory_end(&self) -> u64
        ensures { result ≡ memory_end self.now }
    {
        u64::from(self.address) + u64::from(self.memory_size)
    }

    pub fn holds(&self, addr: u32) -> bool
        ensures { result ≡ holds self.now addr }
    {
        self.address <= addr && u64::from(addr) < self.memory_end()
    }

    /// Whether a file of this length lacks some of the segment's bytes.
    pub fn passes_file(&self, len: u64) -> bool
        ensures { result ≡ passes_file len self.now }
    {
        self.file_size > 0 && self.file_end() > len
    }

    pub fn is_misplaced(&self) -> bool
        ensures { result ≡ is_misplaced self.now }
    {
        self.file_size > self.memory_size || self.memory_end() > TOP
    }
}

fn program_header_at(bytes: &[u8], place: usize) -> ProgramHeader
    requires { place + 24 ≤ length bytes.now }
    ensures { result ≡ program_header_at bytes.now place }
{
    ProgramHeader {
        kind: word_at(bytes, place),
        offset: word_at(bytes, place + 4),
        address: word_at(bytes, place + 8),
        file_size: word_at(bytes, place + 16),
        memory_size: word_at(bytes, place + 20),
    }
}

/// The program headers in the order of the file.
#[tactic(auto, using(crate::proofs::Ranges::made_more))]
pub fn program_headers(alloc: Global, bytes: &[u8]) -> Result<Vec<ProgramHeader>, NoMemory>
    requires header { 52 ≤ length bytes.now }
    requires table { has_headers bytes.now ≡ true }
    ensures { IfOk result (λ headers. headers.items ≡ program_headers bytes.now) }
{
    let place = headers_place(bytes) as usize;
    let count = usize::from(header_count(bytes));
    let mut headers = Vec::with_capacity(alloc, count)?;
    for i in 0..count {
        headers.push_reserved(program_header_at(bytes, place + PROGRAM_HEADER * i));
    }
    Ok(headers)
}
