//! Where a program's bytes come from and where they go: a `Source` and a `Sink`, over memory and
//! over the standard streams, read to the end and written whole. Each counts its faults, and a
//! call fails only where that count rose. A `Gate` is passed inside each statement of a port.
#![tactic(auto)]

mod calls;
mod gate;
mod memory_sink;
mod memory_source;
mod sink;
mod source;
mod std_sink;
mod std_source;

pub use gate::{Gate, OpenGate};
pub use memory_sink::MemorySink;
pub use memory_source::MemorySource;
pub use sink::{Sink, write_all};
pub use source::{Failed, ReadError, Source, read_source};
pub use std_sink::StdSink;
pub use std_source::StdSource;

#[cfg(test)]
mod tests;
