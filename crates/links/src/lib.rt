//! What the programs are handed from outside: sources and sinks of bytes, each with counts of its faults.
//!
//! A contract knows of such an object only its counts and, where it tells, its bytes. The forms in memory
//! tell everything; the real forms, over std's readers and writers, tell their counts alone.
#![tactic(auto)]

mod counts;
mod memory_sink;
mod memory_source;
mod real;
mod traits;
mod whole;

pub use counts::raise;
pub use memory_sink::MemorySink;
pub use memory_source::MemorySource;
pub use real::{StdSink, StdSource};
pub use traits::{Failed, Sink, Source};
pub use whole::{ReadEnd, read_to_end, write_all};
