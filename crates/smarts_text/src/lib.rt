//! The words of the command line, and every text that the program writes: the report of a sample,
//! the line on a fault and the line on an exit.
#![tactic(auto)]

mod asked;
mod command;
mod configured;
mod help;
mod keys;
mod kinds;
mod line;
mod number;
mod parts;
mod processor;
mod read;
mod recorded;
mod report;
mod shapes;
mod status;
mod texts;
mod values;
mod words;

pub use command::Command;
pub use help::HELP;
pub use processor::Asked;
pub use read::{WordFault, WordKind, read_words};
pub use report::report_text;
pub use status::{DesignFault, Status};
pub use texts::{exit_text, fault_text};

#[cfg(test)]
mod tests;
