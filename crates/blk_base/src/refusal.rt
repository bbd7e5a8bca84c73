// Why a submission is refused.

/// Why the front refuses a submission: the first of these that applies. Nothing changes then.
#[derive(Clone, Copy, PartialEq, Eq)]
pub enum Refusal {
    /// Number 4294967295 was given.
    Spent,
    /// The front isn't connected, or is broken, and neither closes nor is closed.
    NotReady,
    /// The front closes, or is closed.
    Closing,
    /// The back doesn't offer this operation.
    Unsupported,
    /// A write, and the disk is read-only.
    ReadOnly,
    /// A sector is past the disk's end.
    Range,
    /// More sectors than its segments have: 11 segments, which have 88; of a read or a write as many
    /// as the back takes in indirect pages, where these are more, 960 at most, which have 7680.
    Long,
    /// As many requests are unfinished as the ring has entries.
    Full,
    /// Fewer frames of the pool are free than its sectors take.
    Buffers,
}
