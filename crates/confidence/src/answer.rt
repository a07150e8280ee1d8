/// Why a point gave no cycles.
#[derive(Clone, Copy, Debug, PartialEq, Eq)]
pub enum PointKind {
    /// The word at the pc is no instruction.
    Illegal = 1,
    /// A jump or a taken branch went to an address that isn't a multiple of 4.
    BadTarget = 2,
    /// A load from an address that isn't a multiple of its size.
    MisalignedLoad = 3,
    /// A store to an address that isn't a multiple of its size.
    MisalignedStore = 4,
    /// A word that isn't held was fetched, loaded or stored.
    Missing = 5,
    /// An EBREAK was executed.
    Break = 6,
    /// A write named a buffer that isn't wholly mapped.
    BadBuffer = 7,
    /// The program exited before the end of the window.
    AfterExit = 8,
}

/// The fault of a point.
#[derive(Clone, Copy, Debug, PartialEq, Eq)]
pub struct PointFault {
    pub kind: PointKind,
    /// The pc of the instruction that trapped; for `AfterExit` the pc that would come next.
    pub pc: u32,
}

/// What the simulation of a point answers.
#[derive(Clone, Copy, Debug, PartialEq, Eq)]
pub enum Answer {
    /// The cycles of the point's unit, from 1 to 2^26 - 1.
    Cycles(u32),
    Fault(PointFault),
}
