// What a line of a schedule says.
use blk_base::{End, KeyName, Submission, Text};

/// One line of a schedule.
#[derive(Clone, Copy, PartialEq, Eq)]
pub enum Event {
    /// A request is handed to the front.
    Submit(Submission),
    /// Up to that many moves of the front, 1 to 1000000.
    Front(u32),
    /// Up to that many moves of the back, 1 to 1000000.
    Back(u32),
    /// Up to `moves` moves of the job of the `number`-th request that the back fetched in this
    /// epoch. Both are 1 to 1000000.
    Job { number: u32, moves: u32 },
    /// That many rounds, 1 to 1000000.
    Turn(u32),
    /// Rounds until both ends are quiet.
    Settle,
    /// Whether both ends are quiet.
    Look,
    /// A spurious event at that end's port.
    Notify(End),
    /// The guest is suspended and resumed.
    Suspend,
    /// That end is asked to close.
    Close(End),
    /// A word of memory is overwritten: `frame` and `word` are below 1024.
    Poke { frame: u32, word: u32, value: u32 },
    /// A key below the front's directory is overwritten: a name of 1 to 32 bytes from `a` to `z`,
    /// `0` to `9` and `-`, a text of 1 to 64 bytes from `!` to `~`.
    Key { name: KeyName, text: Text },
    /// The words of the ring's frames that aren't 0 are shown.
    Dump,
}

/// The bytes are in no line of the grammar.
#[derive(Clone, Copy, Debug, PartialEq, Eq)]
pub struct BadLine;
