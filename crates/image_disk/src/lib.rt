//! Disk images of 512-byte sectors: one in memory, which exposes its content, one that fails at
//! listed calls, and one over a real file or block device, the trusted edge, which exposes no content.
//! A tail of a file that is shorter than a sector is never touched.
#![tactic(auto)]

mod attachment;
mod failing;
mod file;
mod memory;
mod zeros;

pub use failing::{CallCounts, FailsAtCalls, ListedCalls};
pub use file::FileDisk;
pub use memory::MemoryDisk;
