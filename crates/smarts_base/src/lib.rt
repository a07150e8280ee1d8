//! Words that every crate of the simulator shares: want of memory, a refusal that is either a
//! named fault or want of memory, the numbers drawn from a seed, and who is told what workers do.
#![tactic(auto)]

mod draws;
mod gate;
mod refusal;

pub use draws::Draws;
pub use gate::{Gate, OpenGate};
pub use refusal::{NoMemory, Refusal};
