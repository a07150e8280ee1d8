ghost use Rattle.std.specs.Prelude.{◌≡◌, ◌<◌, ◌≤◌};
ghost use Rattle.smarts_base.specs.Least.{IsLeastIfAny};
ghost use Rattle.confidence.specs.Sums.{IsBounded};
ghost use Rattle.confidence.specs.Confidence.{is_confident, is_within, least_error_of, cpi4_of, IsInRange};

use crate::Sums;

/// The largest error that is looked for, in ten-thousandths.
const LARGEST_ERROR: u32 = 9999;

/// What a sample has to meet, so that a run may stop: after the sample size of SMARTS, the
/// half width of the confidence interval of the mean, relative to the mean, is at most `error`.
#[derive(Clone, Copy, Debug, PartialEq, Eq)]
pub struct Test {
    /// The fewest units, from 2 to 65,536.
    pub min: u32,
    /// How many standard deviations of the mean the interval reaches to each side, in thousandths,
    /// from 1 to 4000.
    pub z: u32,
    /// The largest half width relative to the mean, in ten-thousandths, from 1 to 5000.
    pub error: u32,
}

/// Whether the interval that reaches `z` thousandths of a standard deviation of the mean to each
/// side is within `error` ten-thousandths of the mean.
fn within(sums: &Sums, z: u32, error: u32) -> bool
    requires bounded { IsBounded sums.now }
    requires measured { 0 < sums.now.n }
    requires z { z ≤ 4000 }
    requires error { error ≤ 9999 }
    ensures { result ≡ is_within sums.now z error }
{
    let n = u128::from(sums.n);
    let s1 = u128::from(sums.s1);
    let z = u128::from(z);
    let error = u128::from(error);
    let square = s1 * s1;
    z * z * 100 * (n * sums.s2 - square) <= error * error * (n - 1) * square
}

/// Whether the sample meets the test. A tie passes.
#[tactic(auto, unfolding(crate::specs::Confidence::is_confident))]
pub fn confident(sums: &Sums, test: &Test) -> bool
    requires bounded { IsBounded sums.now }
    requires test { IsInRange test.now }
    ensures { result ≡ is_confident sums.now test.now }
{
    sums.n >= test.min && within(sums, test.z, test.error)
}

/// The least error, in ten-thousandths of the mean, that the sample's interval is within, up to
/// 9999. It asks for no fewest units: two are enough.
#[tactic(auto, unfolding(crate::specs::Confidence::least_error_of))]
pub fn least_error(sums: &Sums, z: u32) -> Option<u32>
    requires bounded { IsBounded sums.now }
    requires z_least { 1 ≤ z }
    requires z_most { z ≤ 4000 }
    ensures value { result ≡ least_error_of sums.now z }
    ensures least { 2 ≤ sums.now.n → IsLeastIfAny 10000 (is_within sums.now z) result }
{
    if sums.n < 2 || !within(sums, z, LARGEST_ERROR) {
        return None;
    }
    let mut low = 0;
    let mut high = LARGEST_ERROR;
    while low < high {
        let middle = (low + high) / 2;
        if within(sums, z, middle) {
            high = middle;
        } else {
            low = middle + 1;
        }
    }
    Some(low)
}

/// Ten thousand times the cycles per instruction, rounded down, where each of the units measured
/// has `unit` instructions.
#[tactic(auto, unfolding(crate::specs::Confidence::cpi4_of))]
pub fn cpi4(sums: &Sums, unit: u32) -> u64
    requires bounded { IsBounded sums.now }
    requires measured { 0 < sums.now.n }
    requires unit { 0 < unit }
    requires unit_most { unit ≤ 10000 }
    ensures { result ≡ cpi4_of sums.now unit }
{
    sums.s1 * 10_000 / (u64::from(sums.n) * u64::from(unit))
}
