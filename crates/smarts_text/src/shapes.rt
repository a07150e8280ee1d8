ghost use Rattle.std.specs.Prelude.{◌≡◌, ◌≤◌, IfOk, IfSome};
ghost use Rattle.std.specs.Option.{is_some};
ghost use Rattle.hierarchy.specs.Config.{IsCacheShape, IsTlbShape};
ghost use Rattle.predictor.specs.Kind.{IsKind};
ghost use Rattle.smarts_text.specs.Shapes.{cache_read, cache_shape, kind_read, kind_within, line_log_of, scheme_and_three, scheme_of, sets_log_of, three_of, tlb_read, tlb_shape, two_of};

use crate::number::{number, within};
use crate::parts::parts;
use crate::read::WordKind;
use lru_plain::Geometry;
use predictor::{PredictorKind, Scheme};

/// Three numbers with colons between.
#[derive(Clone, Copy, Debug, PartialEq, Eq)]
pub struct Three {
    pub first: u64,
    pub second: u64,
    pub third: u64,
}

#[tactic(auto, unfolding(crate::specs::Shapes::two_of))]
fn two_in(text: &str) -> Option<(u64, u64)>
    ensures { result ≡ two_of text.now }
{
    let (first, second) = parts(text, ':')?;
    Some((number(first)?, number(second)?))
}

#[tactic(auto, unfolding(crate::specs::Shapes::three_of))]
fn three_in(text: &str) -> Option<Three>
    ensures { result ≡ three_of text.now }
{
    let (first, others) = parts(text, ':')?;
    let first = number(first)?;
    let (second, third) = two_in(others)?;
    Some(Three {
        first,
        second,
        third,
    })
}

#[tactic(auto, unfolding(crate::specs::Shapes::line_log_of))]
fn line_log(line: u64) -> Option<u8>
    ensures value { result ≡ line_log_of line }
    ensures least { IfSome result (λ log. 4 ≤ log) }
    ensures most { IfSome result (λ log. log ≤ 8) }
{
    match line {
        16 => Some(4),
        32 => Some(5),
        64 => Some(6),
        128 => Some(7),
        256 => Some(8),
        _ => None,
    }
}

#[tactic(auto, unfolding(crate::specs::Shapes::sets_log_of))]
fn sets_log(sets: u64) -> Option<u8>
    ensures value { result ≡ sets_log_of sets }
    ensures most { IfSome result (λ log. log ≤ 12) }
{
    match sets {
        1 => Some(0),
        2 => Some(1),
        4 => Some(2),
        8 => Some(3),
        16 => Some(4),
        32 => Some(5),
        64 => Some(6),
        128 => Some(7),
        256 => Some(8),
        512 => Some(9),
        1024 => Some(10),
        2048 => Some(11),
        4096 => Some(12),
        _ => None,
    }
}

#[tactic(auto, unfolding(crate::specs::Shapes::cache_shape))]
fn cache(numbers: Three) -> Option<Geometry>
    ensures value { result ≡ cache_shape numbers }
    ensures shape { IfSome result IsCacheShape }
{
    let line_log = line_log(numbers.first)?;
    let sets_log = sets_log(numbers.second)?;
    let ways = within(1, 16, numbers.third)?;
    Geometry::new(line_log, sets_log, ways as u8)
}

#[tactic(auto, unfolding(crate::specs::Shapes::tlb_shape))]
fn tlb(sets: u64, ways: u64) -> Option<Geometry>
    ensures value { result ≡ tlb_shape (sets, ways) }
    ensures shape { IfSome result IsTlbShape }
{
    let sets_log = sets_log(sets)?;
    let ways = within(1, 16, ways)?;
    Geometry::new(12, sets_log, ways as u8)
}

/// The shape of a cache that is written `line:sets:ways`.
pub fn read_cache(text: &str) -> Result<Geometry, WordKind>
    ensures value { result ≡ cache_read text.now }
    ensures shape { IfOk result IsCacheShape }
{
    let numbers = three_in(text).ok_or(WordKind::BadValue)?;
    cache(numbers).ok_or(WordKind::OutOfRange)
}

/// The shape of a TLB that is written `sets:ways`.
pub fn read_tlb(text: &str) -> Result<Geometry, WordKind>
    ensures value { result ≡ tlb_read text.now }
    ensures shape { IfOk result IsTlbShape }
{
    let (sets, ways) = two_in(text).ok_or(WordKind::BadValue)?;
    tlb(sets, ways).ok_or(WordKind::OutOfRange)
}

#[tactic(auto, unfolding(crate::specs::Shapes::scheme_of))]
fn scheme(name: &str) -> Option<Scheme>
    ensures { result ≡ scheme_of name.now }
{
    match name {
        "bimodal" => Some(Scheme::Bimodal),
        "gshare" => Some(Scheme::Gshare),
        _ => None,
    }
}

#[tactic(auto, unfolding(crate::specs::Shapes::scheme_and_three))]
fn scheme_and_three(text: &str) -> Option<(Scheme, Three)>
    ensures { result ≡ scheme_and_three text.now }
{
    let (name, numbers) = parts(text, ':')?;
    let scheme = scheme(name)?;
    Some((scheme, three_in(numbers)?))
}

/// Whether the text is a scheme and three numbers, in range or not.
pub fn is_kind(text: &str) -> bool
    ensures { result ≡ is_some (scheme_and_three text.now) }
{
    scheme_and_three(text).is_some()
}

#[tactic(auto, unfolding(crate::specs::Shapes::kind_within))]
fn kind(scheme: Scheme, numbers: Three) -> Option<PredictorKind>
    ensures value { result ≡ kind_within (scheme, numbers) }
    ensures kind { IfSome result IsKind }
{
    let bits = within(4, 14, numbers.first)?;
    let target_log = within(2, 10, numbers.second)?;
    let depth = within(0, 16, numbers.third)?;
    Some(PredictorKind {
        scheme,
        bits: bits as u8,
        target_log: target_log as u8,
        depth: depth as u8,
    })
}

/// The predictor that is written `scheme:bits:target_log:depth`.
pub fn read_kind(text: &str) -> Result<PredictorKind, WordKind>
    ensures value { result ≡ kind_read text.now }
    ensures kind { IfOk result IsKind }
{
    let (scheme, numbers) = scheme_and_three(text).ok_or(WordKind::BadValue)?;
    kind(scheme, numbers).ok_or(WordKind::OutOfRange)
}
