//! A whole machine: the memory of a program with its heap and stack, the start from an image, and
//! the run up to its end.
#![tactic(auto)]

mod block;
mod laws;
mod outcome;
mod output;
mod program_memory;
#[cfg(test)]
mod tests;
mod whole;

pub use laws::{endings, start_words};
pub use outcome::{MachineFault, Outcome};
pub use whole::Whole;
