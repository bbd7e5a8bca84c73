//! The checker of reports: it reads the lines of a report from a source, one by one, and finds the
//! first line that breaks a rule of the protocol (`io/ring.h`, `io/blkif.h`, `io/xenbus.h`,
//! `grant_table.h`), and the first rule that it breaks. It keeps what is open, and no line. Whoever
//! wants to hold an implementation against the rules stands on it.
#![tactic(auto)]

mod finding;
mod outline;
mod text;
mod trace;

pub use finding::{CheckStop, Finding, check};
pub use text::write_finding;
