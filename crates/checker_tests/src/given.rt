// What tests are given as text.
use schedule_text::{Line, read_line};
use std::alloc::Global;
use std::process::Abort;

/// The line of a report that has this text; where none has it, the test stops.
pub fn line_of(rt: &impl Abort, text: &str) -> Line {
    read_line(text.as_bytes()).expect(rt, text)
}

/// The bytes of a text that stands there so often.
pub fn bytes_of(rt: &impl Abort, alloc: Global, text: &[u8], times: usize) -> Vec<u8> {
    let mut bytes = Vec::new(alloc);
    for _ in 0..times {
        bytes.extend_from_slice(text).expect(rt, "memory");
    }
    bytes
}
