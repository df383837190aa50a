//! Bytes in and bytes out: a source and a sink as their callers see them, with the causes of their faults.
#![tactic(auto)]

mod copying;
mod input_source;
mod memory_sink;
mod memory_source;
mod output_sink;
mod sink;
mod source;
mod steady_sink;
mod steady_source;
mod write;

pub use input_source::InputSource;
pub use memory_sink::MemorySink;
pub use memory_source::MemorySource;
pub use output_sink::OutputSink;
pub use sink::Sink;
pub use source::Source;
pub use steady_sink::SteadySink;
pub use steady_source::SteadySource;
pub use write::write_all;

/// A read or a write that failed. The stream's count of faults rose.
#[derive(Clone, Copy, Debug, PartialEq, Eq)]
pub struct Failed;
