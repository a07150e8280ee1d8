use hierarchy::Marked;

/// An instruction and its times, in cycles from the trace's start.
#[derive(Clone, Copy, Debug, PartialEq, Eq)]
pub struct Timed {
    pub mark: Marked,
    /// It leaves the memory of instructions for the fetch queue.
    pub fetch: u64,
    /// It leaves the fetch queue for the register update unit.
    pub dispatch: u64,
    /// Its operands and a unit of its class are there.
    pub issue: u64,
    /// Its result is there.
    pub completion: u64,
    /// It leaves the register update unit, in program order.
    pub retirement: u64,
}
