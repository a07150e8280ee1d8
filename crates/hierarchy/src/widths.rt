/// How many instructions a processor handles in a cycle, and how many it holds.
#[derive(Clone, Copy, Debug, PartialEq, Eq)]
pub struct Widths {
    /// Instructions fetched, dispatched, issued and retired in a cycle, each from 1 to 8.
    pub fetch: u32,
    pub dispatch: u32,
    pub issue: u32,
    pub retire: u32,
    /// Places of the fetch queue, from 1 to 32.
    pub queue: u32,
    /// Places of the register update unit, from 4 to 256.
    pub ruu: u32,
    /// Places of the load and store queue, from 2 to 128 and at most `ruu`.
    pub lsq: u32,
    /// Cycles from the completion of a mispredicted instruction to the next fetch, from 1 to 64.
    pub penalty: u32,
    /// Cycles from issue to completion of a load that takes its value from a store under way, from 1 to 16.
    pub forward: u32,
    /// Instructions of each class that issue in a cycle, each from 1 to 8.
    pub alus: u32,
    pub muls: u32,
    pub divs: u32,
    pub loads: u32,
    pub stores: u32,
    pub branches: u32,
}

/// Cycles that parts of a processor take.
#[derive(Clone, Copy, Debug, PartialEq, Eq)]
pub struct Latencies {
    /// Of a multiplication, from 1 to 16.
    pub mul: u32,
    /// Of a division, from 1 to 64.
    pub div: u32,
    /// Of a load that hits in the first cache, from 1 to 16.
    pub l1: u32,
    /// More where only the second cache hits, from 1 to 100.
    pub l2: u32,
    /// More where no cache hits, from 1 to 1000.
    pub mem: u32,
    /// More where the TLB misses, at most 200.
    pub tlb: u32,
}
