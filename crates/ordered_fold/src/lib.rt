//! The ordered fold: answers are taken in one by one, in the order of the points, up to the first
//! that is a fault or at which the sample meets its test.
#![tactic(auto)]

mod cell;
mod core_state;
mod ending;
mod event;
mod front;
mod laws;
mod machine;
mod seat;

pub use cell::{answer_of, code};
pub use core_state::{CoreState, core_run, core_step};
pub use ending::Ending;
pub use event::{Act, CoreEvent};
pub use front::Front;
pub use laws::{fold_laws, machine_laws};
pub use seat::Seat;

#[cfg(test)]
mod machine_tests;
#[cfg(test)]
mod tests;
