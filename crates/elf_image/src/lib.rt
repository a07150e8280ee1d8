//! The loader: an ELF32 file for RISC-V becomes the words that a program starts from, or the first
//! rule that it breaks is named.
//!
//! The layout of the file is that of the System V ABI ("Object Files"), and the numbers of the machine
//! and of its flags are those of the RISC-V ELF psABI. Sections and symbols are never looked at. The
//! limits on sizes and addresses, and the order in which the rules are judged, are this loader's own.
#![tactic(auto)]

mod fault;
mod fields;
mod file_rules;
mod filling;
mod image;
mod overlap;
mod program_header;
mod reading;
mod segment;
mod segment_rules;
mod span;
#[cfg(test)]
mod tests;

pub use fault::ImageFault;
pub use image::Image;
pub use reading::read_image;
