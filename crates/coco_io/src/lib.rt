//! Where bytes come from and where they go: sources and sinks that count their faults, in memory and over streams.
#![tactic(auto)]

pub mod calls;
pub mod plan;
pub mod sink;
pub mod source;
pub mod standard;
pub mod stream;
pub mod told;

pub use plan::FaultPlan;
pub use sink::{MemorySink, Sink, write_all};
pub use source::{MemorySource, Source};
pub use standard::{ReaderSource, StdSink, StdSource, WriterSink};
