//! What a request asks for (`io/blkif.h`): the back's verdict on an entry, the sectors that its segments name, in
//! order, and the segments that a front cuts a request into. Both ends, the jobs of the back and the rules of a report
//! stand on it.
#![tactic(auto)]

mod packing;
mod place;
mod sectors;
mod verdict;

pub use packing::Cut;
pub use place::{Extent, Place};
pub use sectors::{cut, extent};
pub use verdict::{DiskInfo, Kind, Plan, Verdict, Why, check, finish_indirect};
