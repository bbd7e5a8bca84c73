// What each end asks of the machine, one thing at a time, and what it is answered. What has more than
// a few words is lent: an ask and an answer are made and handed over at each move.
use crate::lent::Lent;
use crate::parts::{Mapping, Mode, SectorWords};
use crate::short_text::ShortText;

/// A path in the directory of keys, at most 80 bytes.
pub type Path = ShortText<80>;

/// A key's text, at most 64 bytes.
pub type Text = ShortText<64>;

/// The name of a key, 1 to 32 bytes from `a` to `z`, `0` to `9` and `-`.
pub type KeyName = ShortText<32>;

/// What the front asks: one word of its own memory, one hypercall, one key or one event.
/// Frames and words are numbers below 1088 and 1024.
#[derive(Drop, PartialEq)]
pub enum FrontAsk<'a> {
    /// Answered by `Event` or `Watched`.
    Wait,
    /// A full memory barrier, answered by `Done`.
    Fence,
    /// Answered by `Word`.
    Read {
        frame: u32,
        word: u32,
    },
    /// Answered by `Done`.
    Write {
        frame: u32,
        word: u32,
        value: u32,
    },
    /// Compare and exchange, answered by `Word`, the word seen.
    Cas {
        frame: u32,
        word: u32,
        old: u32,
        new: u32,
    },
    /// A new event port for the back to bind, answered by `Port`.
    NewPort,
    /// An event to the back, answered by `Done`.
    Send,
    /// Answered by `Done`.
    ClosePort,
    /// Answered by `Key`.
    GetKey(Lent<'a, Path>),
    /// Answered by `Done`.
    SetKey(Lent<'a, Path>, Lent<'a, Text>),
    /// Answered by `Done`.
    Watch(Lent<'a, Path>),
}

/// What the front is answered.
#[derive(Drop)]
pub enum FrontAnswer<'a> {
    Event,
    Watched(Lent<'a, Path>),
    Done,
    Word(u32),
    Port(u32),
    Key(Option<Lent<'a, Text>>),
}

/// What the back or one of its jobs asks: one word through a mapping, one hypercall, one key, one
/// event or one call of the disk. Words are numbers below 1024.
#[derive(Drop, PartialEq)]
pub enum BackAsk<'a> {
    /// Answered by `Event` or `Watched`; a job's has no answer.
    Wait,
    /// A full memory barrier, answered by `Done`.
    Fence,
    /// Answered by `Word`.
    Read {
        mapping: Mapping,
        word: u32,
    },
    /// Answered by `Done`.
    Write {
        mapping: Mapping,
        word: u32,
        value: u32,
    },
    /// Answered by `Mapped` or `MapRefused`.
    Map {
        gref: u32,
        mode: Mode,
    },
    /// Answered by `Done`.
    Unmap(Mapping),
    /// Binds the front's port, answered by `Done` or `BindRefused`.
    Bind(u32),
    /// An event to the front, answered by `Done`.
    Send,
    /// Answered by `Done`.
    ClosePort,
    /// Answered by `Key`.
    GetKey(Lent<'a, Path>),
    /// Answered by `Done`.
    SetKey(Lent<'a, Path>, Lent<'a, Text>),
    /// Answered by `Done`.
    Watch(Lent<'a, Path>),
    /// Answered by `Sector` or `DiskFailed`.
    DiskRead(u64),
    /// Answered by `Done` or `DiskFailed`.
    DiskWrite(u64, Lent<'a, SectorWords>),
    /// Answered by `Done` or `DiskFailed`.
    Flush,
    /// The first sector and how many, answered by `Done` or `DiskFailed`.
    Trim(u64, u64),
}

/// What the back or one of its jobs is answered.
#[derive(Drop)]
pub enum BackAnswer<'a> {
    Event,
    Watched(Lent<'a, Path>),
    Done,
    Word(u32),
    Mapped(Mapping),
    /// The status of the refused map (`GNTST_*` of `grant_table.h`).
    MapRefused(i32),
    BindRefused,
    Key(Option<Lent<'a, Text>>),
    Sector(Lent<'a, SectorWords>),
    DiskFailed,
}
