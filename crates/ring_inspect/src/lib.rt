//! A block ring's bytes as text (`io/ring.h`, `io/blkif.h`): its indices, and each request that waits
//! for its response, written line by line as it is read. Anyone with a dump of a ring, from this
//! program or from a real guest, can read it; the program's command `inspect` stands on it.
#![tactic(auto)]

mod line;
mod print;
mod read;
mod stop;

pub use print::inspect;
pub use stop::InspectStop;
