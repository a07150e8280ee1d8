use rv_exec::Trap;
use sample_design::UnitsFault;
use thiserror::Error;

/// Why a run has no library.
#[derive(Clone, Copy, Debug, PartialEq, Eq, Error)]
pub enum WarmFault {
    /// The instruction of that number trapped, counted from 0.
    #[error("instruction {at} trapped")]
    Trapped { at: u64, trap: Trap },
    /// The program had not exited after as many instructions as were allowed.
    #[error("the budget was spent")]
    Spent,
    /// The run has no sample of this design.
    #[error("{0}")]
    Units(UnitsFault),
}
