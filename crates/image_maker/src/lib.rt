//! Makes the image of a program from two numbers: how often its loop turns, and a seed. So a long run
//! of mixed instructions can be had without an input.
//!
//! The loop has 64 groups of four instructions. What each does, on which registers and with which
//! amount, is drawn from the seed: arithmetic, a load or a store in 64 KiB of data, or a branch that
//! hangs on data and leads to the same place either way. So each turn has as many instructions.
#![tactic(auto)]

mod assembly;
mod choice;
mod image;
mod laws;
mod program;
#[cfg(test)]
mod tests;

pub use image::make_image;
pub use laws::runs_to_its_end;
