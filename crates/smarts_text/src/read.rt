ghost use Rattle.std.specs.Prelude.{◌≡◌, ◌<◌, ◌≤◌, ◌^◌, None, Err, map, length, string_bytes, IfOk, []};
ghost use Rattle.smarts_base.specs.Outcome.{Answers};
ghost use Rattle.smarts_text.specs.Asked.{number_in};
ghost use Rattle.smarts_text.specs.Command.{IsSound, required_key};
ghost use Rattle.smarts_text.specs.Keys as key_specs;
ghost use Rattle.smarts_text.specs.Read.{is_missing, late_fault, meaning, refused};

use crate::asked::number;
use crate::command::Command;
use crate::keys;
use crate::words::{fault_among, value_of};
use smarts_base::Refusal;

/// What is wrong with a command line.
#[derive(Clone, Copy, Debug, PartialEq, Eq)]
pub struct WordFault {
    pub kind: WordKind,
    /// The place of the word, counted from 0, or the number of words where all of them together are
    /// at fault.
    pub place: u32,
}

#[derive(Clone, Copy, Debug, PartialEq, Eq)]
pub enum WordKind {
    /// There is no word.
    NoCommand = 1,
    /// The first word is no command.
    UnknownCommand = 2,
    /// The word has no `=`, or what stands left of the first one is no key of the command.
    UnknownKey = 3,
    /// The key stood before.
    Repeated = 4,
    /// The value isn't in the key's form.
    BadValue = 5,
    /// The value is in the key's form and outside its range.
    OutOfRange = 6,
    /// `demo` has no size.
    Missing = 7,
    /// The load and store queue has more places than the register update unit.
    LsqOverRuu = 8,
    /// The offset isn't below `every`.
    OffsetNotBelowEvery = 9,
}

// Whether the words lack a key that has to be given.
fn is_missing(command: &Command, words: &[String]) -> bool
    ensures { result ≡ is_missing (required_key command.now) (map string_bytes words.now) }
{
    match command.required_key() {
        Some(key) => value_of("", key.name, words).is_none(),
        None => false,
    }
}

#[tactic(auto, unfolding(crate::specs::Read::late_fault))]
fn late_fault(command: &Command, words: &[String]) -> Option<WordKind>
    ensures value { result ≡ late_fault command.now (map string_bytes words.now) }
    ensures lsq { result ≡ None → number_in [] (map string_bytes words.now) key_specs.lsq_key ≤ number_in [] (map string_bytes words.now) key_specs.ruu_key }
    ensures offset { result ≡ None → number_in [] (map string_bytes words.now) key_specs.offset_key < number_in [] (map string_bytes words.now) key_specs.every_key }
{
    if is_missing(command, words) {
        return Some(WordKind::Missing);
    }
    if number(words, "", &keys::RUU) < number(words, "", &keys::LSQ) {
        return Some(WordKind::LsqOverRuu);
    }
    if number(words, "", &keys::EVERY) <= number(words, "", &keys::OFFSET) {
        return Some(WordKind::OffsetNotBelowEvery);
    }
    None
}

fn refuse(kind: WordKind, place: usize) -> Result<Command, Refusal<WordFault>>
    ensures answer { Answers (λ command. command) result (refused place kind) }
    ensures memory { result ≡ Err Refusal.NoMemory → 2 ^ 32 ≤ place }
{
    let Ok(place) = u32::try_from(place) else {
        return Err(Refusal::NoMemory);
    };
    Err(Refusal::Fault(WordFault { kind, place }))
}

/// What the words ask for, the program's name not among them. No memory is taken: `NoMemory` stands
/// for a place that no `u32` can hold.
#[tactic(auto, unfolding(crate::specs::Read::meaning))]
pub fn read_words(words: &[String]) -> Result<Command, Refusal<WordFault>>
    ensures answer { Answers (λ command. command) result (meaning (map string_bytes words.now)) }
    ensures memory { result ≡ Err Refusal.NoMemory → 2 ^ 32 ≤ length words.now }
    ensures sound { IfOk result IsSound }
{
    let Some((first, words)) = words.split_first() else {
        return refuse(WordKind::NoCommand, 0);
    };
    let Some(command) = Command::asked_by(first.as_str(), words) else {
        return refuse(WordKind::UnknownCommand, 0);
    };
    if let Some((place, kind)) = fault_among(command.groups(), words) {
        return refuse(kind, place + 1);
    }
    if let Some(kind) = late_fault(&command, words) {
        return refuse(kind, words.len() + 1);
    }
    Ok(command)
}
