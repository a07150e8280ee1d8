//! One step of a machine that runs RV32IM programs, over any memory.
//!
//! The instructions are those of the RISC-V Instruction Set Manual, Volume I (Unprivileged), in
//! its chapters on RV32I, "Zifencei" and "M". The environment calls are a profile of this
//! project's own, with the numbers of Linux: write (64), exit (93 and 94) and brk (214).
#![tactic(auto)]

mod action;
mod arithmetic;
mod bytes;
mod calls;
mod data;
mod event;
mod finish;
mod laws;
mod memory;
mod state;
mod stepping;
#[cfg(test)]
mod tests;
mod watch;

pub use event::{Buffer, DataRef, Event, Flow, Trap, TrapKind};
pub use laws::{every_step, mapped_buffers, run_laws};
pub use memory::Memory;
pub use state::Core;
pub use stepping::{step, step_watched, step_with};
pub use watch::{Latest, Nobody, Watch};
