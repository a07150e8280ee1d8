ghost use Rattle.std.specs.Prelude.{◌≡◌, ◌++◌, ◌<◌, ℕ, map, length, string_bytes, IfSome, option_copied};
ghost use Rattle.std.specs.Str.{bytes_eq};
ghost use Rattle.smarts_text.specs.Words.{fault_after, first_fault, value_in, value_of, value_under};

use crate::keys::{Group, form_of};
use crate::parts::parts;
use crate::read::WordKind;
use crate::values::misread;

// Whether the key is this name with this prefix before it.
fn is_named(key: &str, prefix: &str, name: &str) -> bool
    ensures { result ≡ bytes_eq key.now (prefix.now ++ name.now) }
{
    match key.as_bytes().strip_prefix(prefix.as_bytes()) {
        Some(rest) => rest == name.as_bytes(),
        None => false,
    }
}

#[tactic(auto, unfolding(crate::specs::Words::value_in))]
fn value_in<'a>(prefix: &str, name: &str, word: &'a str) -> Option<&'a str>
    ensures { option_copied result ≡ value_in (prefix.now ++ name.now) word.now }
{
    let (key, value) = parts(word, '=')?;
    if is_named(key, prefix, name) {
        Some(value)
    } else {
        None
    }
}

/// The value that the words give to the key of this name with this prefix before it.
pub fn value_of<'a>(prefix: &str, name: &str, words: &'a [String]) -> Option<&'a str>
    ensures { option_copied result ≡ value_of (prefix.now ++ name.now) (map string_bytes words.now) }
{
    for word in words {
        if let Some(value) = value_in(prefix, name, word.as_str()) {
            return Some(value);
        }
    }
    None
}

/// The value that they give to the key with the prefix, and else to the key alone.
#[tactic(auto, unfolding(crate::specs::Words::value_under))]
pub fn value_under<'a>(prefix: &str, name: &str, words: &'a [String]) -> Option<&'a str>
    ensures { option_copied result ≡ value_under prefix.now name.now (map string_bytes words.now) }
{
    match value_of(prefix, name, words) {
        Some(value) => Some(value),
        None => value_of("", name, words),
    }
}

// What is wrong with a word of a command with keys of these groups, after these words.
#[tactic(auto, unfolding(crate::specs::Words::fault_after))]
fn fault_of(groups: &[Group], earlier: &[String], word: &str) -> Option<WordKind>
    ensures { result ≡ fault_after groups.now (map string_bytes earlier.now) word.now }
{
    let Some((name, value)) = parts(word, '=') else {
        return Some(WordKind::UnknownKey);
    };
    let Some(form) = form_of(groups, name) else {
        return Some(WordKind::UnknownKey);
    };
    if value_of("", name, earlier).is_some() {
        return Some(WordKind::Repeated);
    }
    misread(form, value)
}

/// The first of the words that has a fault, and the fault, for a command with keys of these groups.
pub fn fault_among(groups: &[Group], words: &[String]) -> Option<(usize, WordKind)>
    ensures first { result ≡ first_fault groups.now (map string_bytes words.now) }
    ensures within { IfSome result (λ found. found.0 < length words.now) }
{
    for (k, word) in words.iter().enumerate() {
        if let Some(kind) = fault_of(groups, &words[..k], word.as_str()) {
            return Some((k, kind));
        }
    }
    None
}
