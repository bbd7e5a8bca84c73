//! A reader of a report who keeps a little of the ring, and no lines (`io/ring.h`): line by line it
//! tells whether the back fetches entries in stretches, and whether a producer that overran halts
//! it. What it keeps is what the rules of `report_rules` say of all lines before, and so it decides
//! them. The reader of jobs stands on it.
#![tactic(auto)]

mod laws;
mod pages;
mod sight;
mod verdict;

pub use laws::{
    overruns_are_decided_line_by_line, stretches_are_decided_line_by_line,
    what_is_kept_is_what_the_lines_say,
};
pub use sight::RingSight;
