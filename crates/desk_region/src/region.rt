ghost use Rattle.std.specs.Prelude.{◌≡◌, ℕ, ◌+◌, ◌-◌, ◌<◌, ◌≤◌, List, [], ◌++◌, length, take, replicate, if◌then◌else◌, is_some, IfOk, IfSome};
ghost use Rattle.std.specs.Option.{SomeIff};
ghost use Rattle.std.specs.Borrow.{sem};
ghost use Rattle.desk_region.specs.Span.{Stretch, IsWithin, words_at, with_words_at, with_words_from};
ghost use Rattle.desk_region.specs.Region.{with_zeros};
ghost use Rattle.desk_region.specs.Lending.{LendsWords};

use crate::span::Span;
use smarts_base::NoMemory;
use std::alloc::Global;
use std::marker::Model;

/// Words of which a front is in use, span after span. Only `new` takes memory.
// The words in use are those of the vector, and its room is had at the start.
#[derive(Debug, Drop)]
pub struct Region {
    words: Vec<u64>,
    size: usize,
}

impl Model for Region {
    ghost use Rattle.desk_region.specs.Region.{RegionValue};

    ghost Value = { RegionValue };

    ghost use Rattle.desk_region.specs.RegionView.{region_of, HasRoom};

    ghost view = { region_of };

    ghost invariant = { HasRoom };
}

/// How far a region was in use when the mark was made.
#[derive(Clone, Copy, Debug, PartialEq, Eq)]
pub struct Mark {
    fill: usize,
}

impl Model for Mark {
    ghost use Rattle.std.specs.Prelude.{ℕ};

    ghost Value = { ℕ };

    ghost view = { λ fields. fields.fill };

    ghost inverse = { λ fill. record { fill = fill } };
}

impl Region {
    /// A region of so many words, none of them in use.
    pub fn new(alloc: Global, words: usize) -> Result<Region, NoMemory>
        ensures { IfOk result (λ region. region ≡ record { words = []; size = words }) }
    {
        Ok(Region {
            words: Vec::with_capacity(alloc, words)?,
            size: words,
        })
    }

    /// How many words aren't in use.
    pub fn free(&self) -> usize
        ensures { length self.now.words + result ≡ self.now.size }
    {
        self.size - self.words.len()
    }

    /// Takes so many of the free words into use, as zeros. None where there are fewer.
    pub fn carve(&mut self, len: usize) -> Option<Span>
        ensures span { SomeIff result (length self.old.words + len ≤ self.old.size)
            (record { start = length self.old.words; len = len }) }
        ensures region { self.new ≡ (if is_some result then with_zeros self.old len else self.old) }

        // What is asked of a span to be read or written: it is so of this one, and still of all others.
        ensures within { IfSome result (λ span. IsWithin span self.new.words) }
        ensures still { (other : Stretch) → IsWithin other self.old.words → IsWithin other self.new.words }
    {
        if len > self.free() {
            return None;
        }
        let start = self.words.len();
        let filled = self.words.resize(start + len, 0).is_ok();
        prove!(filled);
        Some(Span::new(start, len))
    }

    /// The words of a span.
    pub fn view(&self, span: &Span) -> &[u64]
        requires { IsWithin span.now self.now.words }
        ensures value { result.now ≡ words_at span.now self.now.words }
        ensures len { length result.now ≡ span.now.len }
    {
        let start = span.start();
        &self.words[start..start + span.len()]
    }

    /// The words of a span, to be written.
    pub fn view_mut(&mut self, span: &Span) -> &mut [u64]
        requires { IsWithin span.now self.old.words }
        ensures* writes_back { sem 𝓛 (LendsWords self.entry span.now.start result) }
        ensures value { result.now ≡ words_at span.now self.old.words }
        ensures len { length result.now ≡ span.now.len }
        ensures outside { (ws : List ℕ) → length ws ≡ span.now.len
            → with_words_from span.now.start ws self.old.words ≡ with_words_at span.now ws self.old.words }
    {
        self.words
            .slice_mut(span.start()..span.start() + span.len())
    }

    /// How far the region is in use.
    pub fn mark(&self) -> Mark
        ensures { result ≡ length self.now.words }
    {
        Mark {
            fill: self.words.len(),
        }
    }

    /// Frees all words that were taken into use after the mark was made.
    pub fn release(&mut self, mark: Mark)
        requires { mark ≤ length self.old.words }
        ensures { self.new ≡ record self.old { words = take mark self.old.words } }
    {
        self.words.truncate(mark.fill);
    }
}
