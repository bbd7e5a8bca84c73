//! The back end of a block ring: what the host's disk driver does, one shared word at a time
//! (`io/ring.h`, `io/blkif.h`), as a machine whose asks are completed one by one. It
//! copies each entry's words once, hands each request to a job, replies to what is done, and halts
//! where the front's producer overran the ring. The machine of both domains stands on it.
#![tactic(auto)]

mod back;
mod stage;
mod told;

pub use back::Back;
pub use stage::{BackStage, Reply};
pub use told::BackTold;
