//! Workers: each goes to the board for a number, answers the point of that number, reports and folds,
//! until the fold has ended or no number is left. A crew of them makes one fold of a list of points,
//! the same at any number of workers.
#![tactic(auto)]

mod crew;
mod member;
mod simulator;
mod tally;
mod worker;

pub use crew::Crew;
pub use simulator::Simulator;
pub use tally::{Tally, run_points};
pub use worker::work;

#[cfg(test)]
mod tests;
