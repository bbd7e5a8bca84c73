//! What the lines of a report tell of the jobs of the back, kept as a state that takes one step a
//! line: it tells whether the next line is a step of its job's work, the outcome of its move of the
//! disk, a word that the disk gave, or a reply that is due (`io/blkif.h`, `io/ring.h`). What it keeps
//! is what the rules of `report_rules` say of all lines before, and so it decides them. The checker of
//! reports stands on it.
#![tactic(auto)]

mod kept;
mod laws;
mod open;
mod published;
mod replies;
mod sight;
mod taking;
mod verdict;

pub use laws::{
    data_are_decided_line_by_line, effects_are_decided_line_by_line,
    replies_are_decided_line_by_line, steps_are_decided_line_by_line,
    what_is_kept_is_taken_on_by_one_line,
};
pub use sight::JobSight;
