ghost use Rattle.std.specs.Prelude.{◌≡◌, ◌+◌, ◌≤◌, length, map, is_some, if◌then◌else◌, IfSome};
ghost use Rattle.std.specs.Option.{SomeIff};
ghost use Rattle.desk_region.specs.Span.{Stretch, IsWithin, words_at};
ghost use Rattle.live_words.specs.Packed.{packed_pair, ArePacked};
ghost use Rattle.live_words.specs.Partial.{with_more};

use crate::packed::pack;
use crate::words::Words;
use desk_region::{Region, Span};
use std::marker::Model;

/// Words in a region, each with its address in one number.
#[derive(Debug, Drop)]
pub struct Partial {
    span: Span,
}

impl Model for Partial {
    ghost use Rattle.desk_region.specs.Span.{Stretch};

    ghost Value = { Stretch };

    ghost view = { λ fields. fields.span };
}

impl Partial {
    /// Takes room for these words from the region, and puts them there by rising address: each is the address times
    /// 2^32, and the value. None where there is less room.
    pub fn new(region: &mut Region, words: &Words) -> Option<Partial>
        ensures span { SomeIff result (length region.old.words + length words.now ≤ region.old.size)
            (record { start = length region.old.words; len = length words.now }) }
        ensures region { region.new
            ≡ (if is_some result then with_more region.old (map packed_pair words.now) else region.old) }

        // It may be read and written, as all spans could that could before.
        ensures within { IfSome result (λ partial. IsWithin partial region.new.words) }
        ensures held { IfSome result (λ partial. words_at partial region.new.words ≡ map packed_pair words.now) }
        ensures packed { IfSome result (λ partial. ArePacked (words_at partial region.new.words)) }
        ensures still { (other : Stretch) → IsWithin other region.old.words → IsWithin other region.new.words }
    {
        let span = region.carve(words.len())?;
        pack(words.as_slice(), region.view_mut(&span));
        Some(Partial { span })
    }

    /// Where the words are.
    pub fn span(&self) -> &Span
        ensures { result.now ≡ self.now }
    {
        &self.span
    }
}
