//! What the lines of a report tell of requests, kept as a state that takes one step a line: it tells
//! whether the next line keeps the rules on the front's state, on submissions and refusals, and on
//! each operation of the disk, its reply, its answer and its data (`io/blkif.h`, `io/xenbus.h`). The
//! checker of reports stands on it.
#![tactic(auto)]

mod effect;
mod laws;
mod open;
mod order;
mod progress;
mod refusing;
mod state;
mod verdict;
mod words;

pub use laws::{
    a_report_keeps_the_rules_where_each_line_is_allowed,
    a_report_that_keeps_the_rules_is_a_run_of_the_plain_disk,
    a_run_of_the_plain_disk_keeps_the_rules, the_verdict_on_states_decides_all_but_closed,
    the_verdicts_are_the_rules,
};
pub use state::RequestCheck;
