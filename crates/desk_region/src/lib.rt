//! One block of words, handed out in spans from its front and given back from the last span on. What
//! needs room for a while takes it here without asking for memory.
#![tactic(auto)]

mod region;
mod span;
#[cfg(test)]
mod tests;

pub use region::{Mark, Region};
pub use span::Span;
