//! The front end of a block device: its end of the ring and its end of the negotiation as one end
//! (`io/xenbus.h`, `io/ring.h`, `io/blkif.h`), a machine whose asks are completed one by
//! one. The machine of both domains stands on it.
#![tactic(auto)]

mod ends;
mod frontend;
mod keeping;
mod key;
mod news;
mod turn;

pub use frontend::Frontend;
pub use keeping::KeepingFrontend;
