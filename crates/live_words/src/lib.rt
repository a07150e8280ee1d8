//! The words of a memory that a window of instructions touches, with the values that it finds first.
#![tactic(auto)]

mod collector;
mod hashed;
mod held;
mod laws;
mod packed;
mod partial;
mod slots;
#[cfg(test)]
mod tests;
mod windows;
mod words;

pub use collector::Collector;
pub use hashed::Hashed;
pub use held::Held;
pub use laws::word_laws;
pub use partial::Partial;
pub use windows::Windows;
pub use words::{BadPair, Words};
