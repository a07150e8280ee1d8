//! The design of a sample: which units of a run are measured, the window that each of them needs,
//! and the order in which they are visited.
#![tactic(auto)]

mod design;
mod order;
mod units;

pub use design::{Design, DesignCheck};
pub use order::{Order, visit_order};
pub use units::{UnitsFault, Window};

#[cfg(test)]
mod tests;
