ghost use Rattle.std.specs.Prelude.{◌≡◌, ◌≤◌, IfOk, IfSome};
ghost use Rattle.std.specs.Char.{is_ascii_digit};
ghost use Rattle.std.specs.List.{list_all};
ghost use Rattle.smarts_text.specs.Number.{is_number, number_of, number_read, within};

use crate::read::WordKind;

// One to nineteen decimal digits.
fn is_number(text: &str) -> bool
    ensures { result ≡ is_number text.now }
{
    !text.is_empty() && text.len() <= 19 && are_digits(text)
}

fn are_digits(text: &str) -> bool
    ensures { result ≡ list_all is_ascii_digit text.now }
{
    text.bytes().all(|b| b.is_ascii_digit())
}

#[tactic(auto, using(crate::proofs::NumberLemmas::parses_number), unfolding(crate::specs::Number::number_of))]
pub fn number(text: &str) -> Option<u64>
    ensures { result ≡ number_of text.now }
{
    if !is_number(text) {
        return None;
    }
    text.parse::<u64>().ok()
}

/// The number, where it is in the range.
pub fn within(low: u64, high: u64, n: u64) -> Option<u64>
    ensures value { result ≡ within low high n }
    ensures least { IfSome result (λ n. low ≤ n) }
    ensures most { IfSome result (λ n. n ≤ high) }
{
    if low <= n && n <= high { Some(n) } else { None }
}

/// The number that is written, where it is in the range.
pub fn read_number(low: u64, high: u64, text: &str) -> Result<u64, WordKind>
    ensures value { result ≡ number_read low high text.now }
    ensures least { IfOk result (λ n. low ≤ n) }
    ensures most { IfOk result (λ n. n ≤ high) }
{
    let number = number(text).ok_or(WordKind::BadValue)?;
    within(low, high, number).ok_or(WordKind::OutOfRange)
}
