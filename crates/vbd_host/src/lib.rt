//! The loop of a host that drives a Xen block device's back and its jobs: what they ask is done by the host, one
//! ask at a time, and they are told what became of it. A host gives its calls of memory, grants, event
//! channels, keys and the disk as a `BackHost`; the answers are put together here.
#![tactic(auto)]

mod answer;
mod host;
mod laws;
mod moves;
mod woken;

pub use answer::AnswerRoom;
pub use host::{BackHost, BindRefused, DiskFailed};
pub use laws::a_hosts_moves_are_a_run;
pub use moves::{move_back, move_job, round};
pub use woken::Woken;
