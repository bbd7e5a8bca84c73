//! The words of a line of text, with single spaces between them, and the numbers, words of memory
//! and sectors that they say: each has one spelling. Reading takes any word for some number, and
//! leaves it to the reader of the whole line to compare its text. The lines of schedules and
//! reports stand on it.
#![tactic(auto)]

mod numbers;
mod prepending;
mod sectors;
mod strict;
mod texts;
mod words;
mod writing;

pub use prepending::{prepend, prepend_hex, prepend_number};
pub use sectors::{put_sector, sector};
pub use strict::{after, number_before, whole_hex};
pub use texts::{is_key_name, is_key_path, is_key_text, short_text};
pub use words::{Words, are_equal, is};
pub use writing::{LineText, begin, put, put_hex, put_number, put_signed};
