//! When each instruction of a trace is fetched, dispatched, issued, completed and retired in a
//! processor with a register update unit, and the cycles that a stretch of the trace takes.
#![tactic(auto)]

mod class;
mod events;
mod flight;
mod issues;
mod laws;
mod lookahead;
mod progress;
mod ruu;
mod scalar;
mod timed;
mod trace;

pub use laws::issue_law;
pub use progress::Progress;
pub use ruu::Ruu;
pub use scalar::{scalar_latency, scalar_time};
pub use timed::Timed;
pub use trace::{SliceTrace, Trace};

#[cfg(test)]
mod tests;
