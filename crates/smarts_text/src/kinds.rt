ghost use Rattle.std.specs.Prelude.{◌≡◌, [], All, IfOk, IfSome};
ghost use Rattle.std.specs.Option.{is_some};
ghost use Rattle.predictor.specs.Kind.{IsKind};
ghost use Rattle.smarts_text.specs.Kinds.{are_spelled, between_commas, joined, kinds_read};

use crate::parts::cut;
use crate::read::WordKind;
use crate::shapes::{is_kind, read_kind};
use live_points::Kinds;

// Whether every part between commas is a scheme and its numbers.
fn are_spelled(text: &str) -> bool
    ensures { result ≡ are_spelled (between_commas text.now) }
{
    let (part, mut rest) = cut(text, ',');
    if !is_kind(part) {
        return false;
    }
    while let Some(behind) = rest {
        let (part, further) = cut(behind, ',');
        if !is_kind(part) {
            return false;
        }
        rest = further;
    }
    true
}

// The kinds of the parts, where each of them is in range and none stands twice.
#[tactic(auto, unfolding(crate::specs::Kinds::joined))]
fn joined(text: &str) -> Option<Kinds>
    ensures value { result ≡ joined [] (between_commas text.now) }
    ensures kinds { IfSome result (λ kinds. All IsKind kinds) }
{
    let (part, mut rest) = cut(text, ',');
    let mut kinds = Kinds::one(read_kind(part).ok()?);
    while let Some(behind) = rest {
        let (part, further) = cut(behind, ',');
        if !kinds.add(read_kind(part).ok()?) {
            return None;
        }
        rest = further;
    }
    Some(kinds)
}

/// One to four different predictors with commas between, each written `scheme:bits:target_log:depth`.
pub fn read_kinds(text: &str) -> Result<Kinds, WordKind>
    ensures value { result ≡ kinds_read text.now }
    ensures kinds { IfOk result (λ kinds. All IsKind kinds) }
{
    if !are_spelled(text) {
        return Err(WordKind::BadValue);
    }
    joined(text).ok_or(WordKind::OutOfRange)
}
