//! A library of live-points, read as its bytes come in.
#![tactic(auto)]

mod front;
mod intake;
mod laws;
mod part;
mod reader;
#[cfg(test)]
mod tests;

pub use intake::Intake;
pub use laws::reading_laws;
pub use part::Part;
pub use reader::Reader;
