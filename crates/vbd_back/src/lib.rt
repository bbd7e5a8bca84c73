//! The back end of a virtual block device, as the host's driver is: its end of the ring
//! (`io/ring.h`, `io/blkif.h`) and its end of the negotiation over the keys of xenstore
//! (`io/xenbus.h`), one machine whose asks are completed one by one. The negotiation says
//! when the ring is mapped and its port bound. The machine of both domains stands on it.
#![tactic(auto)]

mod backend;
mod keeping;
mod key;
mod moves;
mod turn;

pub use backend::Backend;
pub use keeping::KeepingBackend;
