//! Byte streams that may fail: sources and sinks. Each counts its faults, so that a contract can say that a failure was the
//! stream's.
#![tactic(auto)]

mod failed;
mod memory;
mod reading;
mod sink;
mod source;
mod standard;
mod writing;

pub use failed::{Failed, NoMemory};
pub use memory::{MemSink, MemSource};
pub use reading::{ReadRefusal, read_limited};
pub use sink::Sink;
pub use source::Source;
pub use standard::{StdSink, StdSource};
pub use writing::{Partial, write_all};
