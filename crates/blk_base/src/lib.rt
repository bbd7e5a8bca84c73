//! The words that both ends of a Xen block ring speak: free-running ring indices (`io/ring.h`),
//! operations, statuses and layouts (`io/blkif.h`), grants' modes and mappings (`grant_table.h`),
//! what an end may ask of the machine and what it is answered, and the moves that a report shows.
//! Every other crate stands on this one.
#![tactic(auto)]

mod ask;
mod config;
mod endpoint;
mod halt;
mod index;
mod lent;
mod moves;
mod operation;
mod parts;
mod refusal;
mod short_text;

pub use ask::{BackAnswer, BackAsk, FrontAnswer, FrontAsk, KeyName, Path, Text};
pub use config::{Config, SectorCount, Submission};
pub use endpoint::{Endpoint, OutOfMemory};
pub use halt::Halt;
pub use index::Idx;
pub use lent::Lent;
pub use moves::{Access, BackMover, Move, Mover};
pub use operation::{Abi, Op, Status};
pub use parts::{End, Mapping, Mode, SectorWords};
pub use refusal::Refusal;
pub use short_text::ShortText;
