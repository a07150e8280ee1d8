ghost use Rattle.std.specs.Prelude.{◌≡◌, ◌≤◌, true, Some, IfSome};
ghost use Rattle.std.specs.Borrow.{sem};
ghost use Rattle.std.specs.Option.{option_map};
ghost use Rattle.hierarchy.specs.Widths.{AreLatencies};
ghost use Rattle.hierarchy.specs.Front.{Holds, IsLineAt};
ghost use Rattle.hierarchy.specs.CachesLending.{LendsPlaces};
ghost use Rattle.hierarchy.specs.Lookup.{fetch_hits, after_fetch, data_hits, after_reference, delay};

use crate::line::Line;
use crate::lookup::{Hits, fetch, refer};
use crate::places::Places;
use crate::widths::Latencies;
use lru_plain::PlainCache;
use rv_exec::DataRef;
use std::marker::Model;

/// The caches and the TLBs. The line that was fetched last is known while it is in front of its set wherever a
/// fetch looks: another fetch of it hits everywhere and changes nothing, so that there is nothing to do.
#[derive(Debug, Drop)]
pub(crate) struct Caches {
    places: Places<PlainCache>,
    latest: Option<Line>,
}

impl Model for Caches {
    ghost use Rattle.std.specs.Prelude.{IfSome};
    ghost use Rattle.lru_plain.specs.Cache.{Cache};
    ghost use Rattle.hierarchy.specs.declared.places.Places.{Places};
    ghost use Rattle.hierarchy.specs.Front.{IsLatest};

    ghost Value = { Places Cache };

    ghost view = { λ fields. fields.places };

    ghost invariant = { λ fields. IfSome fields.latest (IsLatest fields.places) };
}

/// Whether an address lies in the line.
#[inline]
fn holds(latest: &Option<Line>, addr: u32) -> bool
    requires { IfSome latest.now (λ line. line.log ≤ 12) }
    ensures { result ≡ true → Holds latest.now addr }
{
    match latest {
        Some(line) => addr >> line.log == line.number,
        None => false,
    }
}

/// Forgets the line where it belongs to this set of the second cache.
#[inline]
fn forget_in(latest: &mut Option<Line>, set: u32)
    ensures { IfSome latest.new (λ line. (latest.old ≡ Some line) × ¬ (line.set ≡ set)) }
{
    if let Some(line) = *latest {
        if line.set == set {
            *latest = None;
        }
    }
}

/// The line that an address lies in, no longer than the lines of the caches that a fetch looks into.
fn line_of(places: &Places<PlainCache>, addr: u32) -> Line
    ensures { IsLineAt places.now addr result }
{
    let itlb = places.itlb.geometry().line_log();
    let l1i = places.l1i.geometry().line_log();
    let l2 = places.l2.geometry();
    let log = itlb.min(l1i).min(l2.line_log());
    Line {
        number: addr >> log,
        log,
        set: l2.home_of(l2.block_of(addr)),
    }
}

impl Caches {
    pub(crate) fn new(places: Places<PlainCache>) -> Caches
        ensures { result ≡ places }
    {
        Caches {
            places,
            latest: None,
        }
    }

    /// The caches, for writing: no line is known of what is written there.
    pub(crate) fn lend(&mut self) -> &mut Places<PlainCache>
        ensures* writes_back { sem 𝓛 (LendsPlaces self.entry result) }
        ensures value { result.now ≡ self.old }
    {
        self.latest = None;
        &mut self.places
    }

    /// Fetches the instruction at an address. Tells the cycles that the fetch waits.
    #[inline(always)]
    pub(crate) fn fetch(&mut self, latencies: &Latencies, pc: u32) -> u32
        requires { AreLatencies latencies.now }
        ensures stall { result ≡ delay latencies.now (fetch_hits self.old pc) }
        ensures most { result ≤ 1200 }
        ensures caches { self.new ≡ after_fetch self.old pc }
    {
        if holds(&self.latest, pc) {
            return 0;
        }
        self.enter(latencies, pc)
    }

    // Not inlined, as few fetches leave the line of the one before.
    #[inline(never)]
    fn enter(&mut self, latencies: &Latencies, pc: u32) -> u32
        requires { AreLatencies latencies.now }
        ensures stall { result ≡ delay latencies.now (fetch_hits self.old pc) }
        ensures most { result ≤ 1200 }
        ensures caches { self.new ≡ after_fetch self.old pc }
    {
        let line = line_of(&self.places, pc);
        let hits = fetch(&mut self.places, pc);
        self.latest = Some(line);
        hits.delay(latencies)
    }

    /// Makes a load's or store's reference to data, if there is one.
    #[inline(always)]
    pub(crate) fn refer(&mut self, access: Option<DataRef>) -> Option<Hits>
        ensures hits { result ≡ option_map (data_hits self.old) access }
        ensures caches { self.new ≡ after_reference self.old access }
    {
        let data = access?;
        let l2 = self.places.l2.geometry();
        forget_in(&mut self.latest, l2.home_of(l2.block_of(data.addr)));
        refer(&mut self.places, Some(data))
    }
}
