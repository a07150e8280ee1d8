ghost use Rattle.std.specs.Prelude.{◌≡◌, ℕ, ◌+◌, ◌-◌, ◌*◌, ◌/◌, ◌<◌, ◌≤◌, length, IfOk, Ok};

use crate::fields::{entry_of, word_at};
use crate::filling::memory_of;
use crate::program_header::ProgramHeader;
use crate::span::{heap_low_of, low_of};
use smarts_base::NoMemory;
use std::alloc::Global;
use std::marker::Model;

/// What a program starts from: the words of its segments, and zeros round them up to whole pages.
#[derive(Debug, Drop)]
pub struct Image {
    entry: u32,
    low: u32,
    heap_low: u32,
    /// The bytes from `low` to `heap_low`.
    memory: Vec<u8>,
}

impl Model for Image {
    ghost use Rattle.elf_image.specs.Image.{ImageValue, IsImage};
    ghost use Rattle.elf_image.specs.View.{view_of};

    ghost Value = { ImageValue };

    ghost view = { view_of };

    ghost invariant = { λ image. IsImage (view_of image) };
}

impl Image {
    ghost use Rattle.elf_image.specs.Image.{IsImage, word_in, loaded};
    ghost use Rattle.elf_image.specs.Segments.{segments_of};
    ghost use Rattle.elf_image.specs.Rules.{verdict, segment_rules};

    /// The image of a file that keeps all rules, from its loaded segments.
    pub(crate) fn load(
        alloc: Global,
        bytes: &[u8],
        segments: &[ProgramHeader],
    ) -> Result<Image, NoMemory>
        requires header { 52 ≤ length bytes.now }
        requires segments { segments.now ≡ segments_of bytes.now }
        requires kept { verdict bytes.now segment_rules ≡ Ok tt }
        ensures { IfOk result (λ image. image ≡ loaded bytes.now) }
    {
        let low = low_of(segments);
        let heap_low = heap_low_of(segments);
        let memory = memory_of(alloc, low, (heap_low - low) as usize, bytes, segments)?;
        let entry = entry_of(bytes);
        Ok(Image {
            entry,
            low,
            heap_low,
            memory,
        })
    }

    /// The address of the first instruction.
    pub fn entry(&self) -> u32
        ensures value { result ≡ self.now.entry }
        ensures image { IsImage self.now }
    {
        self.entry
    }

    /// The lowest address that has a word, a multiple of 4096.
    pub fn low(&self) -> u32
        ensures value { result ≡ self.now.low }
        ensures image { IsImage self.now }
    {
        self.low
    }

    /// The first address past the words, a multiple of 4096. The heap begins here.
    pub fn heap_low(&self) -> u32
        ensures value { result ≡ self.now.heap_low }
        ensures image { IsImage self.now }
    {
        self.heap_low
    }

    /// The word at an address. There is none where the address isn't a multiple of 4 or isn't from
    /// `low` to `heap_low` (exclusive).
    pub fn word(&self, addr: u32) -> Option<u32>
        ensures { result ≡ word_in self.now addr }
    {
        if addr % 4 != 0 || addr < self.low || addr >= self.heap_low {
            return None;
        }
        Some(word_at(&self.memory, (addr - self.low) as usize))
    }
}
