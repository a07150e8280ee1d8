//! A predictor of control flow: two-bit counters of branch directions (Smith's bimodal table, or
//! McFarling's gshare, which mixes the address with the history of outcomes), a table of the targets
//! of indirect jumps, and a stack of return addresses under the hints of the RISC-V manual.
#![tactic(auto)]

mod direction;
mod image;
mod kind;
mod parts;
mod predictor;
mod stack;
#[cfg(test)]
mod tests;

pub use image::PredictorImage;
pub use kind::{PredictorKind, Scheme};
pub use parts::{BadPart, is_counter, is_entry, is_history, is_instruction, is_source, is_target};
pub use predictor::Predictor;
