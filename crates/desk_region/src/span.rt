ghost use Rattle.std.specs.Prelude.{◌≡◌, ◌+◌, ◌^◌, ◌<◌};
ghost use Rattle.desk_region.specs.Span.{Stretch};

use std::marker::Model;

/// A stretch of a region's words.
#[derive(Clone, Copy, Debug, PartialEq, Eq)]
pub struct Span {
    start: usize,
    len: usize,
}

impl Model for Span {
    ghost use Rattle.desk_region.specs.Span.{Stretch, IsStretch};

    ghost Value = { Stretch };

    ghost use Rattle.desk_region.specs.SpanView.{stretch_of, fields_of};

    ghost view = { stretch_of };

    ghost invariant = { λ fields. IsStretch (stretch_of fields) };

    ghost inverse = { fields_of };
}

impl Span {
    pub(crate) fn new(start: usize, len: usize) -> Span
        requires { start + len < 2 ^ 64 }
        ensures { result ≡ record { start = start; len = len } }
    {
        Span { start, len }
    }

    /// Where it begins, as a number of words before it.
    pub fn start(&self) -> usize
        ensures { result ≡ self.now.start }
    {
        self.start
    }

    /// How many words it has.
    pub fn len(&self) -> usize
        ensures { result ≡ self.now.len }
    {
        self.len
    }

    /// This span and one that begins where it ends, as one.
    pub fn joined(&self, next: &Span) -> Span
        requires { self.now.start + self.now.len ≡ next.now.start }
        ensures { result ≡ record { start = self.now.start; len = self.now.len + next.now.len } }
    {
        Span {
            start: self.start,
            len: self.len + next.len,
        }
    }
}
