use rv_isa::Class;

/// An instruction as timing sees it: what it waits for, and what the caches and the predictor made
/// of it.
#[derive(Clone, Copy, Debug, PartialEq, Eq)]
pub struct Marked {
    pub class: Class,
    /// The registers that it reads, other than register 0.
    pub first: Option<u8>,
    pub second: Option<u8>,
    /// The register that it writes, other than register 0.
    pub dest: Option<u8>,
    /// A load's or store's data address divided by 4.
    pub word: Option<u32>,
    /// Cycles that its fetch waits, at most 1200.
    pub stall: u32,
    /// Cycles from its issue to its completion, from 1 to 1216.
    pub latency: u32,
    /// The predictor was wrong about where it goes on.
    pub mispredicted: bool,
    /// It is a taken branch or a jump.
    pub transferred: bool,
}
