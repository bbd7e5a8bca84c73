// One live mapping.
use blk_base::Mapping;

/// A live mapping and the frame that it was given when it was made.
#[derive(Clone, Copy)]
pub struct Held {
    pub mapping: Mapping,
    pub frame: u32,
}
