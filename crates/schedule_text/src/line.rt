// What a line of a report says.
use blk_base::{Config, Halt, KeyName, Move, Refusal, SectorWords, Status, Submission, Text};

/// Whether a report has a line for each move.
#[derive(Clone, Copy, PartialEq, Eq)]
pub enum Detail {
    /// The word `lines`: it hasn't.
    Lines,
    /// The word `moves`: it has.
    Moves,
}

/// One line of a report. Requests have the number of their submission, sectors of a request count
/// from 0, frames and words are those of the guest's memory.
#[derive(Clone, Copy, PartialEq, Eq)]
pub enum Line {
    /// The options of the run, and whether moves are shown.
    Begin {
        config: Config,
        detail: Detail,
    },
    /// The front is connected.
    Ready,
    /// The front begins to close.
    Closing,
    /// The front is closed.
    Closed,
    /// The front found the word that breaks it.
    Broken(u32),
    /// A request was accepted.
    Submit {
        id: u64,
        submission: Submission,
    },
    /// A request was refused.
    Refuse(Refusal),
    /// A sector of a request was written to the disk.
    Effect {
        id: u64,
        index: u32,
    },
    /// A sector of a request was read from the disk, with what it held.
    EffectRead {
        id: u64,
        index: u32,
        words: SectorWords,
    },
    /// The disk's earlier effects were made stable.
    Flushed {
        id: u64,
    },
    /// A request's sectors were discarded.
    Trimmed {
        id: u64,
    },
    /// The disk failed at a sector of a request; at 0 for a flush and a discard.
    Fault {
        id: u64,
        index: u32,
    },
    /// The back replied to a request.
    Reply {
        id: u64,
        status: Status,
    },
    /// The front took the reply to a request.
    Answer {
        id: u64,
        status: Status,
    },
    /// A sector that a request read, as the front has it.
    Data {
        id: u64,
        index: u32,
        words: SectorWords,
    },
    /// The guest was suspended and resumed.
    Epoch,
    /// The back halted.
    Halt(Halt),
    /// A word of memory was overwritten from outside.
    Poke {
        frame: u32,
        word: u32,
        value: u32,
    },
    /// A key of the front's was overwritten from outside.
    Key {
        name: KeyName,
        text: Text,
    },
    /// Nothing is left to do.
    Quiet,
    /// Something is left to do.
    Busy,
    /// The rounds ran out before nothing was left to do.
    Unsettled,
    /// A word of the ring's frames.
    Word {
        frame: u32,
        word: u32,
        value: u32,
    },
    /// The schedule was read whole.
    End,
    /// One move, where the report shows moves.
    Move(Move),
}
