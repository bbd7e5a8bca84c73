//! What stands outside: where a schedule comes from, where a report goes, and the disk, each as a
//! trait with one ghost record of what it exposes, and sources and sinks in memory. The adapters over
//! real streams are the trusted edge: they expose no content.
#![tactic(auto)]

mod disk;
mod failed;
mod failing;
mod memory;
mod sink;
mod source;
mod standard;

pub use disk::{AttachStop, SectorDisk};
pub use failed::Failed;
pub use failing::FailsAt;
pub use memory::{MemorySink, MemorySource};
pub use sink::Sink;
pub use source::Source;
pub use standard::{BufferedSink, ReaderSource, WriterSink};
