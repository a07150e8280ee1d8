ghost use Rattle.std.specs.Prelude.{◌≡◌, [], map, string_bytes, All};
ghost use Rattle.hierarchy.specs.Config.{ArePlaces};
ghost use Rattle.predictor.specs.Kind.{IsKind};
ghost use Rattle.smarts_text.specs.Recorded.{kinds_in, records_in};

use crate::configured::{places, usual_kind};
use crate::keys;
use crate::kinds::read_kinds;
use crate::words::value_under;
use live_points::{Kinds, Records};

#[tactic(auto, unfolding(crate::specs::Recorded::kinds_in))]
fn kinds(words: &[String]) -> Kinds
    ensures value { result ≡ kinds_in (map string_bytes words.now) }
    ensures kinds { All IsKind result }
{
    let usual = Kinds::one(usual_kind(keys::PREDICTORS.form));
    let Some(text) = value_under("", keys::PREDICTORS.name, words) else {
        return usual;
    };
    read_kinds(text).unwrap_or(usual)
}

/// What the words ask a library to keep: records of these shapes, and predictors of these kinds.
#[tactic(auto, unfolding(crate::specs::Recorded::records_in))]
pub fn records(words: &[String]) -> Records
    ensures value { result ≡ records_in (map string_bytes words.now) }
    ensures places { ArePlaces result.places }
    ensures kinds { All IsKind result.kinds }
{
    Records {
        places: places(words, ""),
        kinds: kinds(words),
    }
}
