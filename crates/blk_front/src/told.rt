// What the front tells.
use blk_base::Status;

/// What happened at the front in its last move.
#[derive(Clone, Copy, PartialEq, Eq)]
pub enum Told {
    /// It took the response to a request.
    Answer {
        id: u32,
        status: Status,
    },
    /// It read a sector of a read that was answered: its place in the request, and its words.
    Sector {
        id: u32,
        index: u32,
        words: [u32; 128],
    },
    /// It found this word, which no honest back leaves, and does nothing more.
    Broken(u32),
}
