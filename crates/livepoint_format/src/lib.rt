//! The bytes of a library of live-points.
#![tactic(auto)]

mod counting;
mod cursor;
mod decoding;
mod encoding;
mod entries;
mod fault;
mod header;
mod image;
mod laws;
mod lengths;
mod library;
mod migrating;
mod point;
mod point_writing;
#[cfg(test)]
mod round_trips;
mod shared;
#[cfg(test)]
mod sharing_tests;
mod snapshot;
mod splitting;
#[cfg(test)]
mod tests;
mod words;
mod writing;

pub use counting::sharing;
pub use decoding::{decode_end, decode_header, decode_library, decode_point, unit_at};
pub use encoding::{encode_header, encode_library, encode_point};
pub use fault::LibraryFault;
pub use laws::{growth_laws, spelling_laws, word_laws, writing_laws};
pub use lengths::encoded_len;
pub use library::Library;
pub use migrating::{migrate, migration_laws};
pub use shared::Shared;
