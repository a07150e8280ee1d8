ghost use Rattle.std.specs.Prelude.{◌≡◌, ◌%◌, ◌^◌, ◌<◌, ◌≤◌};
ghost use Rattle.predictor.specs.Rules.{mixed, counted, lengthened};

use crate::kind::Scheme;

fn power_of_two(exponent: u8) -> u32
    requires { exponent ≤ 14 }
    ensures { result ≡ 2 ^ exponent }
{
    1 << exponent
}

/// The lowest bits of a number: its remainder by a power of two.
pub fn low_bits(number: u32, count: u8) -> u32
    requires { count ≤ 14 }
    ensures value { result ≡ number % 2 ^ count }
    ensures below { result < 2 ^ count }
{
    number & (power_of_two(count) - 1)
}

/// The number that chooses a branch's counter.
pub fn mixed(scheme: Scheme, word: u32, history: u32) -> u32
    ensures { result ≡ mixed scheme word history }
{
    match scheme {
        Scheme::Bimodal => word,
        Scheme::Gshare => word ^ history,
    }
}

/// A counter after a branch.
pub fn counted(counter: u8, taken: bool) -> u8
    ensures { result ≡ counted counter taken }
{
    if taken {
        counter.saturating_add(1).min(3)
    } else {
        counter.saturating_sub(1)
    }
}

/// The history after a branch.
pub fn lengthened(scheme: Scheme, bits: u8, history: u32, taken: bool) -> u32
    requires bits { bits ≤ 14 }
    requires history { history < 2 ^ bits }
    ensures value { result ≡ lengthened scheme bits history taken }
    ensures below { result < 2 ^ bits }
{
    match scheme {
        Scheme::Bimodal => history,
        Scheme::Gshare => low_bits(2 * history + u32::from(taken), bits),
    }
}
