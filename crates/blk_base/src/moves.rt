// What a report shows of a move.
use crate::ask::{Path, Text};
use crate::parts::Mode;

/// Who moves on the back's side: the back itself, or the job of the `k`-th request that it fetched
/// in this epoch, from 1.
#[derive(Clone, Copy, PartialEq, Eq)]
pub enum BackMover {
    Back,
    Job(u64),
}

/// Who moves.
#[derive(Clone, Copy, PartialEq, Eq)]
pub enum Mover {
    Front,
    Back,
    Job(u64),
}

/// A read or a write of one word, as a report's `m` line shows it: what most moves are. Frames and words
/// have 32 bits, mapping numbers 64.
#[derive(Clone, Copy)]
pub enum Access {
    FrontRead {
        frame: u32,
        word: u32,
        value: u32,
    },
    FrontWrite {
        frame: u32,
        word: u32,
        value: u32,
    },
    Read {
        who: BackMover,
        mapping: u64,
        frame: u32,
        word: u32,
        value: u32,
    },
    Write {
        who: BackMover,
        mapping: u64,
        frame: u32,
        word: u32,
        value: u32,
    },
}

/// One move with its answer, as a report's `m` line shows it. Frames, words, ports and grant
/// references have 32 bits, mapping numbers and disk sectors 64.
#[derive(Clone, Copy, PartialEq, Eq)]
pub enum Move {
    FrontRead {
        frame: u32,
        word: u32,
        value: u32,
    },
    FrontWrite {
        frame: u32,
        word: u32,
        value: u32,
    },
    FrontCas {
        frame: u32,
        word: u32,
        old: u32,
        new: u32,
        seen: u32,
    },
    FrontPort {
        port: u32,
    },
    Read {
        who: BackMover,
        mapping: u64,
        frame: u32,
        word: u32,
        value: u32,
    },
    Write {
        who: BackMover,
        mapping: u64,
        frame: u32,
        word: u32,
        value: u32,
    },
    Map {
        who: BackMover,
        gref: u32,
        mode: Mode,
        mapping: u64,
        frame: u32,
    },
    MapRefused {
        who: BackMover,
        gref: u32,
        mode: Mode,
        status: i32,
    },
    Unmap {
        who: BackMover,
        mapping: u64,
    },
    Bind {
        port: u32,
    },
    BindRefused {
        port: u32,
    },
    DiskRead {
        job: u64,
        sector: u64,
    },
    DiskWrite {
        job: u64,
        sector: u64,
    },
    DiskFlush {
        job: u64,
    },
    DiskTrim {
        job: u64,
        sector: u64,
        count: u64,
    },
    Fence(Mover),
    Send(Mover),
    ClosePort(Mover),
    Event(Mover),
    Watch(Mover, Path),
    Watched(Mover, Path),
    GetKey(Mover, Path, Option<Text>),
    SetKey(Mover, Path, Text),
}
