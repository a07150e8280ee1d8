//! What a simulated processor is made of, and what its caches and its predictor make of each
//! instruction in program order: the marks that its timing needs.
#![tactic(auto)]

mod caches;
mod config;
mod laws;
mod line;
mod lookup;
mod marked;
mod places;
mod state;
#[cfg(test)]
mod tests;
mod widths;

pub use config::{Config, ConfigFault};
pub use laws::trace_laws;
pub use marked::Marked;
pub use places::Places;
pub use state::State;
pub use widths::{Latencies, Widths};
