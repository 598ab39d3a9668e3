//! The outside of the product: files by name, sinks of bytes, and a gate that a thread loop is to call; nothing but a test calls
//! it yet.
//!
//! `Files` and `Sink` promise that each failure shows in a count, in the call that had it, and, where an
//! implementation tells contents, what stands in each file and what was written. `MemoryFiles` and `MemorySink`
//! tell everything and fail where they are asked to. `RealFiles` and `RealSink` are the trusted
//! edge: they loop over the system's reads and writes, count failures and tell nothing of contents; of short writes
//! [`write_all`] says that all was taken.
//! The crate stands on std alone.
#![tactic(auto)]

mod answer;
mod counts;
mod files;
mod gate;
mod memory_files;
mod memory_sink;
mod numbers;
mod place;
mod real_files;
mod real_sink;
mod sink;
mod writing;

pub use answer::{Failed, NoMemory, ReadAnswer};
pub use counts::Counts;
pub use files::Files;
pub use gate::{Gate, OpenGate};
pub use memory_files::MemoryFiles;
pub use memory_sink::MemorySink;
pub use real_files::RealFiles;
pub use real_sink::RealSink;
pub use sink::Sink;
pub use writing::write_all;
