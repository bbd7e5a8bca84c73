// Whole rings that the headers' macros filled, and the text that each must give.

use blk_base::Abi;
use blk_io::{MemorySink, MemorySource};
use ring_inspect::inspect;
use std::alloc::Global;

/// The rings' names; each comes under both layouts.
pub const RINGS: [&str; 12] = [
    "00-v5",
    "01-fresh",
    "02-full",
    "03-start-last",
    "04-full-wrapped",
    "05-laps",
    "06-laps-wrapped",
    "07-over-by-one",
    "08-over-behind",
    "10-unknown",
    "12-indirects",
    "17-full-o1",
];

/// Whether a ring's bytes give this text.
pub fn is_shown(alloc: Global, bytes: Vec<u8>, abi: Abi, text: &[u8]) -> Option<bool> {
    let order = match bytes.len() {
        4096 => 0,
        8192 => 1,
        _ => return None,
    };
    let mut source = MemorySource::new(bytes);
    let mut sink = MemorySink::with_room(alloc, text.len()).ok()?;
    inspect(alloc, &mut source, abi, order, &mut sink).ok()?;
    Some(sink.bytes() == text)
}
