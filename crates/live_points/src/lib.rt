//! Live-points: what is kept of a run at the start of a unit's window, so that the unit can be timed from it alone.
#![tactic(auto)]

mod beyond;
mod header;
mod images;
mod kinds;
mod laws;
mod point;
#[cfg(test)]
mod tests;

pub use beyond::within;
pub use header::{Header, Records};
pub use images::Images;
pub use kinds::Kinds;
pub use laws::point_laws;
pub use point::LivePoint;
