// What the back tells.
use blk_base::Status;

/// What happened at the back or one of its jobs in its last move.
#[derive(Clone, Copy, PartialEq, Eq)]
pub enum BackTold {
    /// A sector of a request was written to the disk or read from it.
    Effect { id: u64, index: u32 },
    /// Everything written and trimmed so far was made stable, for a flush.
    Flushed { id: u64 },
    /// The sectors of a discard were discarded.
    Trimmed { id: u64 },
    /// The disk failed at a sector of a request; at place 0 of a flush or a discard.
    Fault { id: u64, index: u32 },
    /// A reply was pushed.
    Reply { id: u64, status: Status },
}
