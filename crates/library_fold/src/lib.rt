//! The answers of a library that a source gives, folded in order by a crew at desks.
#![tactic(auto)]

mod batch;
mod copying;
mod folding;
mod front;
mod stop;
#[cfg(test)]
mod tests;

pub use folding::{fold_points, pass_points};
pub use front::read_header;
pub use stop::Stop;
