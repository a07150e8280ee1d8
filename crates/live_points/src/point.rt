use crate::images::Images;
use hierarchy::Places;
use live_words::Words;
use recency_record::Snapshot;

/// What is kept of a run at the start of a unit's window.
#[derive(Debug, Drop)]
pub struct LivePoint {
    /// The number of the unit.
    pub unit: u32,
    /// The address of the instruction that comes next.
    pub pc: u32,
    pub regs: [u32; 32],
    /// The end of the heap.
    pub brk: u32,
    /// The words that the window touches, as they are at its start.
    pub words: Words,
    /// The last uses of blocks by all instructions before the window.
    pub places: Places<Snapshot>,
    /// What a predictor of each kind has learnt of them.
    pub images: Images,
}
