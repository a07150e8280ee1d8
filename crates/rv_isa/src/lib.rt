//! The instructions of RV32I with the M extension and FENCE.I: their table, the words that stand
//! for them, and what each does in a pipeline.
//!
//! The table is that of the RISC-V Instruction Set Manual, Volume I (Unprivileged), in its
//! chapters on RV32I, "Zifencei" and "M", and in its chapter of instruction set listings.
#![tactic(auto)]

mod decoded;
mod decoder;
mod decoding;
mod encoding;
mod field;
mod inst;
mod roles;
#[cfg(test)]
mod tests;

pub use decoded::Decoded;
pub use decoder::Decoder;
pub use decoding::decode;
pub use encoding::encode;
pub use inst::Inst;
pub use roles::{Class, class_of, dest, sources};
