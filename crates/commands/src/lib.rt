//! The program as one call over its outside: the words of its command line, its input, its disk,
//! its output and its error output, answered by its exit status. The program itself only makes
//! those over the real streams and files.
#![tactic(auto)]

mod bench;
mod checking;
mod status;
mod top;
mod words;

pub use status::{ErrorLine, Stop};
pub use top::{blkring, stop_with};
pub use words::{Command, RunOptions, read_command};
