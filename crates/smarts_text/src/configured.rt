ghost use Rattle.std.specs.Prelude.{◌≡◌, ◌≤◌, map, string_bytes, IfSome};
ghost use Rattle.hierarchy.specs.Config.{ArePlaces, IsCacheShape, IsConfig, IsTlbShape};
ghost use Rattle.hierarchy.specs.Widths.{AreLatencies, AreWidths};
ghost use Rattle.predictor.specs.Kind.{IsKind};
ghost use Rattle.smarts_text.specs.Asked.{number_in};
ghost use Rattle.smarts_text.specs.Keys.{IsUsual, key_of};
ghost use Rattle.smarts_text.specs.Configured.{cache_asked, cache_in, config_in, kind_asked, kind_in, latencies_in, places_in, tlb_asked, tlb_in, usual_cache, usual_kind, usual_tlb, widths_in};
ghost use Rattle.smarts_text.specs.Keys as key_specs;

use crate::asked::{number, wants_ruu};
use crate::keys::{self, Form, Key};
use crate::shapes::{read_cache, read_kind, read_tlb};
use crate::words::value_under;
use hierarchy::{Config, Latencies, Places, Widths};
use lru_plain::Geometry;
use predictor::{PredictorKind, Scheme};

// The defaults of keys. One of another form has the smallest.
fn usual_cache(form: Form) -> Geometry
    requires { IsUsual form }
    ensures value { result ≡ usual_cache form }
    ensures shape { IsCacheShape result }
{
    match form {
        Form::Cache(line_log, sets_log, ways) => Geometry::new(line_log, sets_log, ways).unwrap(),
        _ => Geometry::new(4, 0, 1).unwrap(),
    }
}

fn usual_tlb(form: Form) -> Geometry
    requires { IsUsual form }
    ensures value { result ≡ usual_tlb form }
    ensures shape { IsTlbShape result }
{
    match form {
        Form::Tlb(sets_log, ways) => Geometry::new(12, sets_log, ways).unwrap(),
        _ => Geometry::new(12, 0, 1).unwrap(),
    }
}

pub fn usual_kind(form: Form) -> PredictorKind
    requires { IsUsual form }
    ensures value { result ≡ usual_kind form }
    ensures kind { IsKind result }
{
    match form {
        Form::Kind(usual) | Form::Kinds(usual) => usual,
        _ => PredictorKind {
            scheme: Scheme::Bimodal,
            bits: 4,
            target_log: 2,
            depth: 0,
        },
    }
}

/// What is said of a key that has caches.
#[tactic(auto, unfolding(crate::specs::Configured::cache_asked))]
pub fn asked_cache(words: &[String], prefix: &str, key: &Key) -> Option<Geometry>
    ensures value { result ≡ cache_asked prefix.now (map string_bytes words.now) (key_of key.now) }
    ensures shape { IfSome result IsCacheShape }
{
    read_cache(value_under(prefix, key.name, words)?).ok()
}

/// What is said of a key that has TLBs.
#[tactic(auto, unfolding(crate::specs::Configured::tlb_asked))]
pub fn asked_tlb(words: &[String], prefix: &str, key: &Key) -> Option<Geometry>
    ensures value { result ≡ tlb_asked prefix.now (map string_bytes words.now) (key_of key.now) }
    ensures shape { IfSome result IsTlbShape }
{
    read_tlb(value_under(prefix, key.name, words)?).ok()
}

/// What is said of a key that has predictors.
#[tactic(auto, unfolding(crate::specs::Configured::kind_asked))]
pub fn asked_kind(words: &[String], prefix: &str, key: &Key) -> Option<PredictorKind>
    ensures value { result ≡ kind_asked prefix.now (map string_bytes words.now) (key_of key.now) }
    ensures kind { IfSome result IsKind }
{
    read_kind(value_under(prefix, key.name, words)?).ok()
}

// The cache of a key that has caches.
fn cache(words: &[String], prefix: &str, key: &Key) -> Geometry
    requires { IsUsual key.now.form }
    ensures value { result ≡ cache_in prefix.now (map string_bytes words.now) (key_of key.now) }
    ensures shape { IsCacheShape result }
{
    asked_cache(words, prefix, key).unwrap_or(usual_cache(key.form))
}

fn tlb(words: &[String], prefix: &str, key: &Key) -> Geometry
    requires { IsUsual key.now.form }
    ensures value { result ≡ tlb_in prefix.now (map string_bytes words.now) (key_of key.now) }
    ensures shape { IsTlbShape result }
{
    asked_tlb(words, prefix, key).unwrap_or(usual_tlb(key.form))
}

fn kind(words: &[String], prefix: &str, key: &Key) -> PredictorKind
    requires { IsUsual key.now.form }
    ensures value { result ≡ kind_in prefix.now (map string_bytes words.now) (key_of key.now) }
    ensures kind { IsKind result }
{
    asked_kind(words, prefix, key).unwrap_or(usual_kind(key.form))
}

#[tactic(auto, unfolding(crate::specs::Configured::places_in))]
pub fn places(words: &[String], prefix: &str) -> Places<Geometry>
    ensures value { result ≡ places_in prefix.now (map string_bytes words.now) }
    ensures shapes { ArePlaces result }
{
    Places {
        l1i: cache(words, prefix, &keys::L1I),
        l1d: cache(words, prefix, &keys::L1D),
        l2: cache(words, prefix, &keys::L2),
        itlb: tlb(words, prefix, &keys::ITLB),
        dtlb: tlb(words, prefix, &keys::DTLB),
    }
}

#[tactic(auto, unfolding(crate::specs::Configured::widths_in))]
pub fn widths(words: &[String], prefix: &str) -> Widths
    ensures value { result ≡ widths_in prefix.now (map string_bytes words.now) }
    ensures ranges { number_in prefix.now (map string_bytes words.now) key_specs.lsq_key ≤ number_in prefix.now (map string_bytes words.now) key_specs.ruu_key
        → AreWidths result }
{
    Widths {
        fetch: number(words, prefix, &keys::FETCH) as u32,
        dispatch: number(words, prefix, &keys::DISPATCH) as u32,
        issue: number(words, prefix, &keys::ISSUE) as u32,
        retire: number(words, prefix, &keys::RETIRE) as u32,
        queue: number(words, prefix, &keys::QUEUE) as u32,
        ruu: number(words, prefix, &keys::RUU) as u32,
        lsq: number(words, prefix, &keys::LSQ) as u32,
        penalty: number(words, prefix, &keys::PENALTY) as u32,
        forward: number(words, prefix, &keys::FWDLAT) as u32,
        alus: number(words, prefix, &keys::ALUS) as u32,
        muls: number(words, prefix, &keys::MULS) as u32,
        divs: number(words, prefix, &keys::DIVS) as u32,
        loads: number(words, prefix, &keys::LOADS) as u32,
        stores: number(words, prefix, &keys::STORES) as u32,
        branches: number(words, prefix, &keys::BRANCHES) as u32,
    }
}

#[tactic(auto, unfolding(crate::specs::Configured::latencies_in))]
pub fn latencies(words: &[String], prefix: &str) -> Latencies
    ensures value { result ≡ latencies_in prefix.now (map string_bytes words.now) }
    ensures ranges { AreLatencies result }
{
    Latencies {
        mul: number(words, prefix, &keys::MULLAT) as u32,
        div: number(words, prefix, &keys::DIVLAT) as u32,
        l1: number(words, prefix, &keys::L1LAT) as u32,
        l2: number(words, prefix, &keys::L2LAT) as u32,
        mem: number(words, prefix, &keys::MEMLAT) as u32,
        tlb: number(words, prefix, &keys::TLBLAT) as u32,
    }
}

/// The processor that the words ask for by the keys with the prefix and else without, which can be built where the load and store queue has no more places
/// than the register update unit.
#[tactic(auto, unfolding(crate::specs::Configured::config_in))]
pub fn config(words: &[String], prefix: &str) -> Config
    ensures value { result ≡ config_in prefix.now (map string_bytes words.now) }
    ensures ranges { number_in prefix.now (map string_bytes words.now) key_specs.lsq_key ≤ number_in prefix.now (map string_bytes words.now) key_specs.ruu_key
        → IsConfig result }
{
    Config {
        ruu: wants_ruu(words, prefix),
        places: places(words, prefix),
        kind: kind(words, prefix, &keys::PREDICTOR),
        widths: widths(words, prefix),
        latencies: latencies(words, prefix),
    }
}
