use rv_exec::Trap;

/// Why a machine did not execute an instruction.
#[derive(Clone, Copy, Debug, PartialEq, Eq)]
pub enum MachineFault {
    /// The instruction could not be done.
    Trap(Trap),
    /// Memory for the output could not be had.
    NoMemory,
}

/// How a run ended.
#[derive(Clone, Copy, Debug, PartialEq, Eq)]
pub enum Outcome {
    /// The program exited. The exit counts in the length.
    Exited { code: u32, length: u64 },
    /// The instruction of that number trapped, counted from 0.
    Trapped { at: u64, trap: Trap },
    /// As many instructions as were allowed ran, with neither exit nor trap.
    Spent,
}
