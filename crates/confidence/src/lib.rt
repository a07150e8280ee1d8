//! Whether a sample of measured cycles is confident: the sums that a sample is judged by, and the
//! test of its confidence interval as an inequality of whole numbers.
#![tactic(auto)]

mod answer;
mod sums;
mod verdict;

pub use answer::{Answer, PointFault, PointKind};
pub use sums::Sums;
pub use verdict::{Test, confident, cpi4, least_error};

#[cfg(test)]
mod tests;
