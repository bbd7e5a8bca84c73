//! The lines of a report's text, one by one, as its bytes come from a source: each with its line
//! feed, and none with more than 1152 bytes. A reader keeps what it took of the source and hasn't
//! read yet, so reports of any length are read in the same memory. Whoever checks or shows a report
//! stands on it.
#![tactic(auto)]

mod lines;
mod reader;

pub use lines::ReportLines;
pub use reader::ReadStop;
