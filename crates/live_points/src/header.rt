use crate::kinds::Kinds;
use hierarchy::Places;
use lru_plain::Geometry;
use sample_design::Design;

/// What live-points keep: records of these shapes, and tables of these kinds.
#[derive(Debug, Drop)]
pub struct Records {
    pub places: Places<Geometry>,
    pub kinds: Kinds,
}

/// What all live-points of a run have in common.
#[derive(Debug, Drop)]
pub struct Header {
    /// Of the form in which they are written: 1 or 2.
    pub version: u32,
    /// How many instructions the run has.
    pub length: u64,
    /// How many live-points there are, from 1 to 65,536.
    pub points: u32,
    pub design: Design,
    /// Where the heap of the program begins.
    pub heap_low: u32,
    pub records: Records,
}
