//! Where bytes come from and where they go: sources and sinks that count their faults, forms of them over
//! memory, adapters over the standard streams, and calls that read and write everything.
#![tactic(auto)]

mod adapters;
mod calls;
mod memory_sink;
mod memory_source;
mod reading;
mod remaining;
mod sink;
mod source;
mod sure;
#[cfg(test)]
mod tests;
mod writing;

pub use adapters::{ErrorSink, InputSource, OutputSink};
pub use memory_sink::MemorySink;
pub use memory_source::MemorySource;
pub use reading::{ReadError, read_all};
pub use sink::Sink;
pub use source::{Failed, Source};
pub use sure::{SureSink, SureSource};
pub use writing::{WriteFailed, write_all};
