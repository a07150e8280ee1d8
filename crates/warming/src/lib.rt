//! The library of a run: the live-points of its sampled units.
#![tactic(auto)]

mod collecting;
mod copying;
mod fault;
mod header;
mod learning;
mod pass;
mod ranges;
#[cfg(test)]
mod tests;
mod visiting;
mod warming;

pub use collecting::collect;
pub use fault::WarmFault;
pub use header::header_of;
pub use learning::Learner;
pub use pass::Pass;
pub use visiting::put_in_visit_order;
pub use warming::warm;
