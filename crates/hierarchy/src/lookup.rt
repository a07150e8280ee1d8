ghost use Rattle.std.specs.Prelude.{◌≡◌, ◌≤◌};
ghost use Rattle.std.specs.Option.{option_map};
ghost use Rattle.hierarchy.specs.Widths.{AreLatencies};
ghost use Rattle.hierarchy.specs.Lookup.{is_hit, touched_at, fetch_hits, after_fetch, data_hits, after_reference, delay, latency_of};

use crate::places::Places;
use crate::widths::Latencies;
use lru_plain::PlainCache;
use rv_exec::DataRef;
use rv_isa::Class;

/// Which of the three that a reference looks into had it: the TLB, the first cache, the second.
#[derive(Clone, Copy, Debug, PartialEq, Eq)]
pub(crate) struct Hits {
    pub tlb: bool,
    pub first: bool,
    pub second: bool,
}

impl Hits {
    /// The cycles that the reference waits.
    pub(crate) fn delay(&self, latencies: &Latencies) -> u32
        requires { AreLatencies latencies.now }
        ensures value { result ≡ delay latencies.now self.now }
        ensures most { result ≤ 1200 }
    {
        let page = if self.tlb { 0 } else { latencies.tlb };
        let line = match (self.first, self.second) {
            (true, _) => 0,
            (false, true) => latencies.l2,
            (false, false) => latencies.mem,
        };
        page + line
    }
}

/// Touches the block of an address, and tells whether it was there.
fn touch(cache: &mut PlainCache, addr: u32) -> bool
    ensures hit { result ≡ is_hit cache.old addr }
    ensures cache { cache.new ≡ touched_at cache.old addr }
{
    cache.touch(addr)
}

/// Fetches the instruction at an address.
pub(crate) fn fetch(caches: &mut Places<PlainCache>, pc: u32) -> Hits
    ensures hits { result ≡ fetch_hits caches.old pc }
    ensures caches { caches.new ≡ after_fetch caches.old pc }
{
    let tlb = touch(&mut caches.itlb, pc);
    let first = touch(&mut caches.l1i, pc);
    let second = touch(&mut caches.l2, pc);
    Hits { tlb, first, second }
}

/// Makes a load's or store's reference to data, if there is one.
pub(crate) fn refer(caches: &mut Places<PlainCache>, access: Option<DataRef>) -> Option<Hits>
    ensures hits { result ≡ option_map (data_hits caches.old) access }
    ensures caches { caches.new ≡ after_reference caches.old access }
{
    let addr = access?.addr;
    let tlb = touch(&mut caches.dtlb, addr);
    let first = touch(&mut caches.l1d, addr);
    let second = touch(&mut caches.l2, addr);
    Some(Hits { tlb, first, second })
}

/// The cycles from issue to completion of an instruction with this reference to data.
pub(crate) fn latency_of(latencies: &Latencies, class: Class, hits: Option<Hits>) -> u32
    requires { AreLatencies latencies.now }
    ensures value { result ≡ latency_of latencies.now class hits }
    ensures least { 1 ≤ result }
    ensures most { result ≤ 1216 }
{
    match class {
        Class::Mul => latencies.mul,
        Class::Div => latencies.div,
        Class::Load => match hits {
            Some(hits) => latencies.l1 + hits.delay(latencies),
            None => latencies.l1,
        },
        _ => 1,
    }
}
