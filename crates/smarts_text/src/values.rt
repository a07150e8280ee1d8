ghost use Rattle.std.specs.Prelude.{◌≡◌};
ghost use Rattle.smarts_text.specs.Values.{machine_of, machine_read, misread};

use crate::keys::Form;
use crate::kinds::read_kinds;
use crate::number::read_number;
use crate::read::WordKind;
use crate::shapes::{read_cache, read_kind, read_tlb};

/// Whether the machine of this name is the one with a register update unit.
#[tactic(auto, unfolding(crate::specs::Values::machine_of))]
pub fn is_ruu(text: &str) -> Option<bool>
    ensures { result ≡ machine_of text.now }
{
    match text {
        "ruu" => Some(true),
        "scalar" => Some(false),
        _ => None,
    }
}

/// What is wrong with a value of this form.
#[tactic(auto, unfolding(crate::specs::Values::misread))]
pub fn misread(form: Form, text: &str) -> Option<WordKind>
    ensures { result ≡ misread form text.now }
{
    match form {
        Form::Number(low, high, _) => read_number(low, high, text).err(),
        Form::Machine(_) => is_ruu(text).ok_or(WordKind::BadValue).err(),
        Form::Cache(..) => read_cache(text).err(),
        Form::Tlb(..) => read_tlb(text).err(),
        Form::Kind(_) => read_kind(text).err(),
        Form::Kinds(_) => read_kinds(text).err(),
    }
}
