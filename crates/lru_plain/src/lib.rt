//! Caches with the textbook's replacement of the least recently used block. A set is a list of blocks
//! with the most recent first: a touch moves its block to the front, or puts it there, and a set that
//! is longer than its ways loses its last block.
#![tactic(auto)]

mod cache;
mod geometry;
mod listed;
mod lists;
#[cfg(test)]
mod tests;

pub use cache::PlainCache;
pub use geometry::Geometry;
pub use listed::Listed;
pub use lists::Lists;
