ghost use Rattle.std.specs.Prelude.{◌≡◌, ◌≤◌, ◌↔◌, IsTrue, MatchBool, MatchOption};
ghost use Rattle.lru_plain.specs.Shape.{Shape};
ghost use Rattle.predictor.specs.Kind.{IsKind};
ghost use Rattle.hierarchy.specs.Widths.{AreLatencies};
ghost use Rattle.hierarchy.specs.Config.{AreInRange, ArePlaces, IsInRange, IsConfig, IsFirstFault};

use crate::places::Places;
use crate::widths::{Latencies, Widths};
use lru_plain::Geometry;
use predictor::PredictorKind;

/// A processor.
#[derive(Debug, Drop, PartialEq, Eq)]
pub struct Config {
    /// With a register update unit, and else one instruction after the other.
    pub ruu: bool,
    /// Caches with lines of 16 to 256 bytes, and TLBs with pages of 4096.
    pub places: Places<Geometry>,
    pub kind: PredictorKind,
    pub widths: Widths,
    pub latencies: Latencies,
}

/// Why a configuration can't be used.
#[derive(Clone, Copy, Debug, PartialEq, Eq)]
pub enum ConfigFault {
    /// A field is outside its range.
    OutOfRange,
    /// Every field is in its range, and the load and store queue has more places than the register
    /// update unit.
    LsqOverRuu,
}

fn within(number: u32, least: u32, most: u32) -> bool
    ensures { IsTrue result ↔ ((least ≤ number) × (number ≤ most)) }
{
    (least..=most).contains(&number)
}

fn are_places(places: &Places<Geometry>) -> bool
    ensures { MatchBool result (ArePlaces places.now) (¬ ArePlaces places.now) }
{
    places.l1i.line_log() <= 8
        && places.l1d.line_log() <= 8
        && places.l2.line_log() <= 8
        && places.itlb.line_log() == 12
        && places.dtlb.line_log() == 12
}

fn is_kind(kind: PredictorKind) -> bool
    ensures { MatchBool result (IsKind kind) (¬ IsKind kind) }
{
    (4..=14).contains(&kind.bits) && (2..=10).contains(&kind.target_log) && kind.depth <= 16
}

fn are_in_range(widths: &Widths) -> bool
    ensures { MatchBool result (AreInRange widths.now) (¬ AreInRange widths.now) }
{
    within(widths.fetch, 1, 8)
        && within(widths.dispatch, 1, 8)
        && within(widths.issue, 1, 8)
        && within(widths.retire, 1, 8)
        && within(widths.queue, 1, 32)
        && within(widths.ruu, 4, 256)
        && within(widths.lsq, 2, 128)
        && within(widths.penalty, 1, 64)
        && within(widths.forward, 1, 16)
        && within(widths.alus, 1, 8)
        && within(widths.muls, 1, 8)
        && within(widths.divs, 1, 8)
        && within(widths.loads, 1, 8)
        && within(widths.stores, 1, 8)
        && within(widths.branches, 1, 8)
}

fn are_latencies(latencies: &Latencies) -> bool
    ensures { MatchBool result (AreLatencies latencies.now) (¬ AreLatencies latencies.now) }
{
    within(latencies.mul, 1, 16)
        && within(latencies.div, 1, 64)
        && within(latencies.l1, 1, 16)
        && within(latencies.l2, 1, 100)
        && within(latencies.mem, 1, 1000)
        && latencies.tlb <= 200
}

impl Config {
    fn is_in_range(&self) -> bool
        ensures { MatchBool result (IsInRange self.now) (¬ IsInRange self.now) }
    {
        are_places(&self.places)
            && is_kind(self.kind)
            && are_in_range(&self.widths)
            && are_latencies(&self.latencies)
    }

    /// The same once more.
    pub fn copied(&self) -> Config
        ensures { result ≡ self.now }
    {
        Config {
            ruu: self.ruu,
            places: self.places.copied(),
            kind: self.kind,
            widths: self.widths,
            latencies: self.latencies,
        }
    }

    /// The first thing that is wrong with the configuration.
    pub fn check(&self) -> Option<ConfigFault>
        ensures { MatchOption result (IsConfig self.now) (IsFirstFault self.now) }
    {
        if !self.is_in_range() {
            Some(ConfigFault::OutOfRange)
        } else if self.widths.lsq > self.widths.ruu {
            Some(ConfigFault::LsqOverRuu)
        } else {
            None
        }
    }
}
