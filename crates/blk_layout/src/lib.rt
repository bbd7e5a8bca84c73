//! How requests and responses lie in the words of a ring's entries (`io/blkif.h`): the same fields
//! under the layout of 64-bit and of 32-bit guests, written and read by one table of word places.
//! Both ends of the ring, the verdicts on requests and the inspector of rings stand on it.
#![tactic(auto)]

mod laws;
mod places;
mod reader;
mod request;
mod response;
mod segment;
mod writer;

pub use laws::reading_gives_back_what_was_written;
pub use reader::read_request;
pub use request::{DirectOp, IndirectOp, RawRequest, WrittenRequest};
pub use response::{Response, read_response, response_words};
pub use segment::{Segment, read_segment, segment_words};
pub use writer::{MOST_ENTRY_WORDS, request_words};
