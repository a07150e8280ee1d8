//! The board: numbers that workers draw, cells that they report into, and one front that one of them
//! at a time folds, over atomic words and without a lock that anyone waits for.
#![tactic(auto)]

mod advance;
mod board;
mod claim;
mod closing;
mod folding;
mod pass;
mod plays;
mod rule;

pub use advance::Advance;
pub use board::Board;
pub use claim::Claim;
pub use pass::Pass;
pub use rule::{Key, Listed, Note, Rule, View};

#[cfg(test)]
mod tests;
