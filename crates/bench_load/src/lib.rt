//! The load of the command `bench`, and its summary: the schedule that a seed generates, event by
//! event and as a source of its text, and the text of the tally of a run. The schedule asks for
//! requests of `io/blkif.h` among rounds and moves of jobs. Nobody keeps it: a line is made when its
//! bytes are asked for. The commands stand on it.
#![tactic(auto)]

mod laws;
mod load;
mod schedule;
mod summary;
mod words;

pub use laws::{the_schedule_is_brief, the_schedule_is_in_the_grammar};
pub use load::BenchLoad;
pub use schedule::BenchSchedule;
pub use summary::write_summary;
