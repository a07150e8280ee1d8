//! Windows of live-points, simulated at desks: the answer of a point is that of its unit by the whole machine.
#![tactic(auto)]

mod crews;
mod desk;
mod engine;
mod marks;
mod running;
mod start;
#[cfg(test)]
mod tests;

pub use crews::{crew, desks};
pub use desk::Desk;
