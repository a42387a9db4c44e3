//! The outside of the program: bytes come from a source and go to a sink. Both may fail at any call, and
//! count their failures. They stand over the standard streams for the program, and over memory for tests.
#![tactic(auto)]

// What a source and a sink are.
mod traits;

// Reading a source to its end, and writing all to a sink.
mod all;

// A source and a sink over the standard streams, or over any reader and writer.
mod standard;

// A source over memory, whose calls fail where they are told to.
mod mem_source;

// A sink over memory, whose calls fail where they are told to.
mod mem_sink;

// How calls and failures are counted.
mod counts;

pub use all::{LIMIT, ReadFault, read_all, write_all};
pub use mem_sink::MemSink;
pub use mem_source::MemSource;
pub use standard::{StdSink, StdSource};
pub use traits::{Sink, SinkFail, Source, SourceFail};
