//! The front end of a block ring: what the guest's disk driver does, one shared word at a time
//! (`io/ring.h`, `io/blkif.h`, `grant_table.h`), as a machine whose asks are
//! completed one by one. The machine of both domains stands on it.
#![tactic(auto)]

mod entry_part;
mod frames;
mod front;
mod place;
mod pool;
mod request;
mod sector_part;
mod stage;
mod state;
mod told;

pub use entry_part::EntryPart;
pub use frames::FrameList;
pub use front::Front;
pub use pool::PoolFrame;
pub use request::{Request, Transfer};
pub use sector_part::SectorPart;
pub use stage::{Ending, FrontStage};
pub use state::{FrontState, Offers};
pub use told::Told;
