use rv_isa::Class;

/// What one instruction did.
#[derive(Clone, Copy, Debug, PartialEq, Eq)]
pub struct Event {
    /// Where the instruction stands.
    pub pc: u32,
    /// The word that the fetch read.
    pub fetched: u32,
    pub class: Class,
    /// The register read at the place of rs1, unless it is register 0.
    pub first: Option<u8>,
    /// The register read at the place of rs2, unless it is register 0.
    pub second: Option<u8>,
    /// The register written, unless it is register 0.
    pub dest: Option<u8>,
    /// The data that a load or a store touched.
    pub access: Option<DataRef>,
    pub control: Flow,
    /// Where the instruction stands that comes next.
    pub next: u32,
    /// The bytes that a write call gave to the output.
    pub wrote: Option<Buffer>,
}

/// A reference of a load or a store to memory.
#[derive(Clone, Copy, Debug, PartialEq, Eq)]
pub struct DataRef {
    /// The address of the first byte.
    pub addr: u32,
    pub store: bool,
    /// The word that held the address before the step.
    pub before: u32,
}

/// Bytes of memory that a call names.
#[derive(Clone, Copy, Debug, PartialEq, Eq)]
pub struct Buffer {
    pub addr: u32,
    /// How many bytes, at least 1.
    pub len: u32,
}

/// How control went on, with what the manual hints to a return-address stack: link registers are
/// x1 and x5.
#[derive(Clone, Copy, Debug, PartialEq, Eq)]
pub enum Flow {
    Straight,
    Branch { taken: bool },
    Jal { push: bool },
    /// Where both are set, the pop comes first.
    Jalr { pop: bool, push: bool },
}

/// Why an instruction could not be done.
#[derive(Clone, Copy, Debug, PartialEq, Eq)]
pub enum TrapKind {
    /// The fetched word stands for no instruction.
    Illegal = 1,
    /// A jump or a taken branch goes to an address that is not a multiple of 4.
    BadTarget = 2,
    MisalignedLoad = 3,
    MisalignedStore = 4,
    /// The fetched, loaded or stored word is not held.
    Missing = 5,
    /// EBREAK.
    Break = 6,
    /// A write call names a buffer that the memory does not cover.
    BadBuffer = 7,
}

/// An instruction that could not be done.
#[derive(Clone, Copy, Debug, PartialEq, Eq)]
pub struct Trap {
    pub kind: TrapKind,
    /// Where the instruction stands.
    pub pc: u32,
}
