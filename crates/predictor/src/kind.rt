/// What chooses the counter of a conditional branch.
#[derive(Clone, Copy, Debug, PartialEq, Eq)]
pub enum Scheme {
    /// The branch's address.
    Bimodal,
    /// The branch's address, by exclusive or with the outcomes of the branches before it.
    Gshare,
}

/// The shape of a predictor.
#[derive(Clone, Copy, Debug, PartialEq, Eq)]
pub struct PredictorKind {
    pub scheme: Scheme,
    /// There are `2^bits` counters, and the history has so many outcomes: 4 to 14.
    pub bits: u8,
    /// The target table has `2^target_log` entries: 2 to 10.
    pub target_log: u8,
    /// The most addresses on the return stack: 0 to 16.
    pub depth: u8,
}
