//! The mappings that a back keeps under persistent grants (`feature-persistent` of `io/blkif.h`), so that the next
//! request for the same frame needs no map: at most a given number, of which the least recently used goes first.
//! The back's jobs stand on it.
#![tactic(auto)]

mod kept;

pub use kept::{Kept, PutBack};
