ghost use Rattle.std.specs.Prelude.{◌≡◌, map, string_bytes};
ghost use Rattle.confidence.specs.Confidence as confidence_specs;
ghost use Rattle.sample_design.specs.Design as design_specs;
ghost use Rattle.smarts_text.specs.Asked.{design_in, is_ruu_in, number_in, test_in};
ghost use Rattle.smarts_text.specs.Keys.{IsUsual, IsWithin, key_of};

use crate::keys::{self, Form, Key};
use crate::number::read_number;
use crate::values::is_ruu;
use crate::words::value_under;
use confidence::Test;
use sample_design::Design;

/// The number of a key that has numbers, of the key with the prefix or else without.
#[tactic(auto, unfolding(crate::specs::Asked::number_in))]
pub fn number(words: &[String], prefix: &str, key: &Key) -> u64
    requires { IsUsual key.now.form }
    ensures value { result ≡ number_in prefix.now (map string_bytes words.now) (key_of key.now) }
    ensures within { IsWithin key.now.form result }
{
    let Form::Number(low, high, usual) = key.form else {
        return 0;
    };
    let Some(text) = value_under(prefix, key.name, words) else {
        return usual;
    };
    read_number(low, high, text).unwrap_or(usual)
}

/// Whether the machine is the one with a register update unit.
#[tactic(auto, unfolding(crate::specs::Asked::is_ruu_in))]
pub fn wants_ruu(words: &[String], prefix: &str) -> bool
    ensures { result ≡ is_ruu_in prefix.now (map string_bytes words.now) }
{
    let usual = match keys::MACHINE.form {
        Form::Machine(usual) => usual,
        _ => true,
    };
    let Some(text) = value_under(prefix, keys::MACHINE.name, words) else {
        return usual;
    };
    is_ruu(text).unwrap_or(usual)
}

#[tactic(auto, unfolding(crate::specs::Asked::design_in))]
pub fn design(words: &[String]) -> Design
    ensures value { result ≡ design_in (map string_bytes words.now) }
    ensures ranges { design_specs.IsInRange result }
{
    Design {
        unit: number(words, "", &keys::UNIT) as u32,
        warm: number(words, "", &keys::WARM) as u32,
        every: number(words, "", &keys::EVERY) as u32,
        offset: number(words, "", &keys::OFFSET) as u32,
        seed: number(words, "", &keys::SEED),
        budget: number(words, "", &keys::BUDGET),
    }
}

#[tactic(auto, unfolding(crate::specs::Asked::test_in))]
pub fn test(words: &[String]) -> Test
    ensures value { result ≡ test_in (map string_bytes words.now) }
    ensures ranges { confidence_specs.IsInRange result }
{
    Test {
        min: number(words, "", &keys::MIN) as u32,
        z: number(words, "", &keys::Z) as u32,
        error: number(words, "", &keys::ERROR) as u32,
    }
}
