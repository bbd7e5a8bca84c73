//! The text of a schedule and of a report, a line at a time: what each line says, its one
//! spelling, and who keeps a report's lines. The lines speak of the requests and statuses of
//! `io/blkif.h`, the states of `io/xenbus.h` and the grants of `grant_table.h`. Every crate that
//! reads a schedule or a report, or makes one, stands on this one.
#![tactic(auto)]

mod access_line;
mod accesses;
mod event;
mod exact;
mod line;
mod moves;
mod ranges;
mod reading;
mod reading_access;
mod reading_moves;
mod recorder;
mod recorders;
mod schedule;
mod writing;

pub use event::{BadLine, Event};
pub use exact::{read_event, read_line, read_line_into};
pub use line::{Detail, Line};
pub use recorder::{RecordStop, Recorder, RoundsEnd, Shown, Tally};
pub use recorders::{LineList, LineSink, LineTally};
pub use schedule::write_event;
pub use writing::write_line;
