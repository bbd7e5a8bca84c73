// What a job's move does.

/// What a job's move did to its request, by the request's id.
#[derive(Clone, Copy, PartialEq, Eq)]
pub enum Effect {
    /// The sector at this place of it, from 0, was read from or written to the disk.
    Moved { id: u64, index: u32 },
    /// The disk made everything written and trimmed so far stable.
    Flushed { id: u64 },
    /// The disk discarded its sectors.
    Trimmed { id: u64 },
    /// The disk failed: at the sector at this place; at place 0 of a flush or a discard.
    Failed { id: u64, index: u32 },
}
