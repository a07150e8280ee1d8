/// What a draw gives.
#[derive(Clone, Copy, Debug, PartialEq, Eq)]
pub enum Claim {
    /// The number of an answer, which is now in the pass's hand.
    Point(u32),
    /// A number beyond the last answer's: the pass draws no more.
    Past { drawn: u64 },
}
