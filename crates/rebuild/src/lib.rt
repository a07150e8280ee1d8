//! Smaller caches from the record of a larger one: each set gets the most recent blocks of the large sets
//! that map to it, as if the cache itself had been fed every reference.
#![tactic(auto)]

mod merge;
mod rebuilding;
mod source;
#[cfg(test)]
mod tests;

pub use rebuilding::{Beyond, fits, rebuild, rebuild_live, rebuilds_plain, scratch_len};
