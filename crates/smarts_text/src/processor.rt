ghost use Rattle.std.specs.Prelude.{◌≡◌, ◌≤◌, [], map, string_bytes, All};
ghost use Rattle.hierarchy.specs.Config.{ArePlaces, IsConfig};
ghost use Rattle.predictor.specs.Kind.{IsKind};
ghost use Rattle.smarts_text.specs.Asked.{number_in};
ghost use Rattle.smarts_text.specs.Keys as key_specs;
ghost use Rattle.smarts_text.specs.Processor.{IsAsked, asked_in, config_for};

use crate::asked::wants_ruu;
use crate::configured::{asked_cache, asked_kind, asked_tlb, latencies, widths};
use crate::keys;
use hierarchy::{Config, Latencies, Places, Widths};
use live_points::Records;
use lru_plain::Geometry;
use predictor::PredictorKind;

/// The processor that words ask for where a library has what they leave out.
#[derive(Debug, Drop, PartialEq, Eq)]
pub struct Asked {
    /// With a register update unit, or scalar.
    pub ruu: bool,
    pub places: Places<Option<Geometry>>,
    pub kind: Option<PredictorKind>,
    pub widths: Widths,
    pub latencies: Latencies,
}

impl Asked {
    /// The processor for a library with these records. A cache or TLB that isn't asked for is the records', a
    /// predictor the first of their kinds.
    #[tactic(auto, unfolding(crate::specs::Processor::config_for))]
    pub fn config(&self, records: &Records) -> Config
        requires asked { IsAsked self.now }
        requires places { ArePlaces records.now.places }
        requires kinds { All IsKind records.now.kinds }
        ensures value { result ≡ config_for self.now records.now }
        ensures config { IsConfig result }
    {
        Config {
            ruu: self.ruu,
            places: Places {
                l1i: self.places.l1i.unwrap_or(records.places.l1i),
                l1d: self.places.l1d.unwrap_or(records.places.l1d),
                l2: self.places.l2.unwrap_or(records.places.l2),
                itlb: self.places.itlb.unwrap_or(records.places.itlb),
                dtlb: self.places.dtlb.unwrap_or(records.places.dtlb),
            },
            kind: self.kind.unwrap_or(records.kinds.as_slice()[0]),
            widths: self.widths,
            latencies: self.latencies,
        }
    }
}

/// What the words say of a processor, by the keys with the prefix and else without.
#[tactic(auto, unfolding(crate::specs::Processor::asked_in))]
pub fn asked_processor(words: &[String], prefix: &str) -> Asked
    ensures value { result ≡ asked_in prefix.now (map string_bytes words.now) }
    ensures ranges { number_in prefix.now (map string_bytes words.now) key_specs.lsq_key ≤ number_in prefix.now (map string_bytes words.now) key_specs.ruu_key
        → IsAsked result }
{
    Asked {
        ruu: wants_ruu(words, prefix),
        places: Places {
            l1i: asked_cache(words, prefix, &keys::L1I),
            l1d: asked_cache(words, prefix, &keys::L1D),
            l2: asked_cache(words, prefix, &keys::L2),
            itlb: asked_tlb(words, prefix, &keys::ITLB),
            dtlb: asked_tlb(words, prefix, &keys::DTLB),
        },
        kind: asked_kind(words, prefix, &keys::PREDICTOR),
        widths: widths(words, prefix),
        latencies: latencies(words, prefix),
    }
}
