ghost use Rattle.std.specs.Prelude.{◌≡◌, ◌==◌, ◌<◌, ◌∷◌, [], length, IfSome};
ghost use Rattle.std.specs.List.{slice_split};
ghost use Rattle.std.specs.Option.{option_map_or};
ghost use Rattle.smarts_text.specs.Parts.{parts_copied, parts_left, parts_round};

/// What stands left and right of the first `separator`, where the text has one.
#[tactic(auto, using(crate::proofs::PartsLemmas::parts_found))]
pub fn parts(text: &str, separator: char) -> Option<(&str, &str)>
    requires { separator < 128 }
    ensures { parts_copied result ≡ parts_round separator text.now }
{
    text.split_once(separator)
}

/// What stands before the first `separator`, and what stands behind it where the text has one.
pub fn cut(text: &str, separator: char) -> (&str, Option<&str>)
    requires { separator < 128 }
    ensures split { slice_split (λ b. b == separator) text.now ≡ result.0.now ∷ parts_left separator result.1 }
    ensures shorter { IfSome result.1 (λ rest. length rest.now < length text.now) }
{
    match text.split_once(separator) {
        Some((before, behind)) => (before, Some(behind)),
        None => (text, None),
    }
}
