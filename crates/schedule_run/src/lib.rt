//! The runner: both ends of the ring in their machine, moved by the lines of a schedule, one shared
//! word, hypercall, event or disk call at a time (`io/ring.h`, `io/blkif.h`, `grant_table.h`). The
//! program stands on it.
#![tactic(auto)]

mod laws;
mod machine;
mod schedule;
mod showing;
mod split;

pub use laws::{a_lawful_report_keeps_the_headline, a_run_begins};
pub use machine::{Machine, can_serve};
pub use schedule::{RunStop, run};
