//! What the back does for each request that it fetched (`io/blkif.h`): a job that maps the request's
//! frames one after another, moves its sectors word by word between them and the disk, unmaps each, and
//! ends with the status of the response; that of a flush or a discard makes one call of the disk. The
//! job of an indirect request first maps its pages one after another and copies the segments that they
//! name, each word read once, and tests them when all are copied. Jobs move apart from the back and
//! from each other. The back end stands on it.
#![tactic(auto)]

mod effect;
mod held_job;
mod jobs;
mod part;
mod segments;
mod stage;

pub use effect::Effect;
pub use held_job::HeldJob;
pub use jobs::Jobs;
pub use part::SectorPart;
pub use stage::JobStage;
