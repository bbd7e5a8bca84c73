//! The directory of keys that both ends read and write (`io/xenbus.h` over xenstore): a text at each
//! path, and each end's watches. A write fires every watch at or above its path, and an end takes
//! its fired watches oldest first. The machine carries out each end's key calls here.
#![tactic(auto)]

mod keys;
mod paths;
mod watches;

pub use keys::{KeyStop, Keys};
pub use paths::directory_of;
