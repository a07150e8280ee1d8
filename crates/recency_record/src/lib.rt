//! Records of when blocks were last used. A record is fed every reference and keeps, for each set, its most
//! recent blocks with the times of their last use: enough to know what any smaller cache of the same lines
//! would hold.
#![tactic(auto)]

mod entry;
mod fault;
mod judging;
mod laws;
mod lists;
mod record;
mod snapshot;
mod sorting;
#[cfg(test)]
mod tests;

pub use entry::Entry;
pub use fault::RecordFault;
pub use judging::{belongs, block_fault, is_no_later, repeats, time_fault};
pub use laws::holds_last_uses;
pub use lists::RecencyLists;
pub use record::Record;
pub use snapshot::Snapshot;
pub use sorting::put_by_time;
