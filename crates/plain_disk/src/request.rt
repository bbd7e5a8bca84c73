// What the plain disk keeps of each request.
use blk_base::{SectorWords, Status, Submission};

/// How far a request is told of.
#[derive(Clone, Copy)]
pub enum RequestStage {
    /// Its answer wasn't told.
    Open,
    /// A read whose answer was `ok`: the sector that is told next.
    Telling(u32),
    /// All of it was told.
    Finished,
}

/// A request that was submitted. Whether it faulted and what was replied to it is kept for the
/// present epoch alone.
#[derive(Clone, Copy)]
pub struct DiskRequest {
    pub submission: Submission,
    pub faulted: bool,
    pub reply: Option<Status>,
    pub stage: RequestStage,
}

/// A place of a request that was done in this epoch: its number, and the sector in it from 0; 0 for
/// a flush and a discard.
#[derive(Clone, Copy)]
pub struct Place {
    pub id: u64,
    pub index: u32,
}

/// A sector that a request read, with the words that its effect showed.
#[derive(Clone, Copy)]
pub struct Noted {
    pub id: u64,
    pub index: u32,
    pub words: SectorWords,
}

/// Sectors: `count` of them, the first one `from` sectors after `sector`.
#[derive(Clone, Copy)]
pub struct Extent {
    pub sector: u64,
    pub from: u32,
    pub count: u32,
}

/// What happened to sectors, or to the whole disk.
#[derive(Clone, Copy)]
pub enum Change {
    /// They were filled with these words, or discarded.
    Filled { at: Extent, words: SectorWords },
    /// The disk failed: they may hold anything.
    Spoiled { at: Extent },
    /// One was read, and held these words.
    Showed { at: Extent, words: SectorWords },
    /// All that was written is on stable storage.
    Flushed,
}
