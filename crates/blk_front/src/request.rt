// A request that isn't finished.
ghost use Rattle.std.specs.Prelude.{◌≡◌, ◌/◌, ◌%◌, ◌<◌, ◌≤◌};
ghost use Rattle.blk_front.specs.Request.{tag_of, named_of, may_be_indirect, grant_flags, flags_at, filling_at, frames_for, is_indirect, pages_for, frame_at, page_at, naming_words, naming_at, segment_at, segments_of, page_reference, page_references};

use crate::frames::FrameList;
use crate::pool::PoolFrame;
use blk_layout::{Segment, segment_words};
use grant_table::{GTF_PERMIT_ACCESS, GTF_READONLY};
use resume_shadow::Numbered;

/// Words in a sector, and sectors in a frame.
pub const SECTOR_WORDS: u32 = 128;

pub const FRAME_SECTORS: u32 = 8;
/// Segments that an entry can name (`BLKIF_MAX_SEGMENTS_PER_REQUEST`).
pub const MAX_SEGMENTS: u32 = 11;
/// Segments that this front has of a read or a write at most, where the back takes so many.
pub const MAX_INDIRECT_SEGMENTS: u32 = 960;
/// Segments that an indirect page has room for.
const PAGE_SEGMENTS: u32 = 512;
/// Indirect pages that an entry can name (`BLKIF_MAX_INDIRECT_PAGES_PER_REQUEST`).
const MAX_PAGES: usize = 8;

/// What a request has done: which way its sectors go, or that none go between frames and the disk.
#[derive(Clone, Copy)]
pub enum Transfer {
    /// From the disk into the frames (`BLKIF_OP_READ`).
    Read,
    /// From the frames to the disk (`BLKIF_OP_WRITE`): each word of sector i is this one and i, modulo
    /// 2^32.
    Write(u32),
    /// The same, before all that is written or discarded after it and after all before it
    /// (`BLKIF_OP_WRITE_BARRIER`).
    Barrier(u32),
    /// The disk makes what was written so far stable (`BLKIF_OP_FLUSH_DISKCACHE`).
    Flush,
    /// The disk discards so many sectors (`BLKIF_OP_DISCARD`).
    Discard(u32),
}

impl Transfer {
    /// The word that fills the first sector of a write or a barrier; 0 for any other, which fills none.
    pub fn tag(&self) -> u32
        ensures { result ≡ tag_of self.now }
    {
        match *self {
            Transfer::Write(tag) | Transfer::Barrier(tag) => tag,
            _ => 0,
        }
    }

    /// How many sectors of the disk a request names that moves so many: a discard moves none.
    pub fn named(&self, count: u32) -> u32
        ensures { result ≡ named_of self.now count }
    {
        match *self {
            Transfer::Discard(sectors) => sectors,
            _ => count,
        }
    }

    /// Whether a request may have its segments in indirect pages (`BLKIF_OP_INDIRECT`): a read or a write.
    pub fn may_be_indirect(&self) -> bool
        ensures { result ≡ may_be_indirect self.now }
    {
        matches!(*self, Transfer::Read | Transfer::Write(_))
    }

    /// Word `n` of the data of a write or a barrier: the word of its sector.
    pub fn filling(&self, n: u32) -> u32
        ensures { result ≡ filling_at self.now n }
    {
        self.tag().wrapping_add(n / SECTOR_WORDS)
    }

    /// The flags of a frame's grant entry: the frames of a write or a barrier are for reading alone.
    pub fn grant_flags(&self) -> u32
        ensures { result ≡ grant_flags self.now }
    {
        match *self {
            Transfer::Write(_) | Transfer::Barrier(_) => GTF_PERMIT_ACCESS | GTF_READONLY,
            _ => GTF_PERMIT_ACCESS,
        }
    }
}

/// How many frames so many sectors take, eight to a frame.
pub fn frames_for(count: u32) -> u32
    ensures { result ≡ frames_for count }
{
    count.div_ceil(FRAME_SECTORS)
}

/// Whether so many sectors take more segments than an entry has room for.
pub fn is_indirect(count: u32) -> bool
    ensures { result ≡ is_indirect count }
{
    frames_for(count) > MAX_SEGMENTS
}

/// How many indirect pages the segments of so many sectors take, 512 to a page; none where an entry
/// has room for them.
pub fn pages_for(count: u32) -> u32
    ensures { result ≡ pages_for count }
{
    if is_indirect(count) {
        frames_for(count).div_ceil(PAGE_SEGMENTS)
    } else {
        0
    }
}

/// What is asked of the front: the first disk sector, how many sectors go between frames and the
/// disk, and what is done.
#[derive(Clone, Copy)]
pub struct Wish {
    pub sector: u64,
    pub count: u32,
    pub transfer: Transfer,
}

/// A request that was submitted and isn't finished: its number, which is the id that it has on the
/// ring, its first disk sector, how many sectors go between frames and the disk (1 to 7680 of a read or
/// a write, 1 to 88 of a barrier, none of a flush or a discard), what is done, and its frames: those of
/// its data, eight sectors in each, in order, and then its indirect pages.
#[derive(Drop)]
pub struct Request {
    pub number: u32,
    pub sector: u64,
    pub count: u32,
    pub transfer: Transfer,
    pub frames: FrameList,
}

impl Numbered for Request {
    ghost number_of = { λ r. r.number };

    fn number(&self) -> u32 {
        self.number
    }
}

impl Request {
    /// Its frame of this place; the pool's first where there is none.
    pub fn frame(&self, place: u32) -> PoolFrame
        ensures { result ≡ frame_at self.now place }
    {
        match self.frames.as_slice().get(place as usize) {
            Some(frame) => *frame,
            None => PoolFrame::default(),
        }
    }

    /// Its indirect page of this place, 0 or 1; the pool's first frame where there is none.
    pub fn page_at(&self, page: u32) -> PoolFrame
        requires { page < 2 }
        ensures { result ≡ page_at self.now page }
    {
        self.frame(frames_for(self.count) + page)
    }

    /// The flags of the grant entry of its frame of this place: an indirect page is for reading alone.
    pub fn flags_at(&self, place: u32) -> u32
        ensures { result ≡ flags_at self.now place }
    {
        if place < frames_for(self.count) {
            self.transfer.grant_flags()
        } else {
            GTF_PERMIT_ACCESS | GTF_READONLY
        }
    }

    /// How many words its segments take in indirect pages, two each.
    pub fn naming_words(&self) -> u32
        ensures { result ≡ naming_words self.now }
    {
        2 * frames_for(self.count)
    }

    /// The word of this number of its indirect pages: the first or the second one of a segment.
    pub fn naming_at(&self, n: u32) -> u32
        requires { n < 1920 }
        ensures { result ≡ naming_at self.now n }
    {
        let words = segment_words(&self.segment((n / 2) as usize));
        words[(n % 2) as usize]
    }

    /// The segment of its frame of this place: its sectors from the first on, all eight but in the
    /// last frame. None where there is no such frame: reference 0.
    fn segment(&self, place: usize) -> Segment
        requires { place < 960 }
        ensures { result ≡ segment_at self.now place }
    {
        match self.frames.get(place) {
            Some(frame) => {
                let before = FRAME_SECTORS * place as u32;
                let last = (self.count.saturating_sub(1)).saturating_sub(before);
                Segment {
                    gref: frame.reference(),
                    first: 0,
                    last: last.min(FRAME_SECTORS - 1) as u8,
                }
            }
            None => Segment::default(),
        }
    }

    /// The segments of its entry, of which the first are its own.
    pub fn segments(&self) -> [Segment; 11]
        ensures { result ≡ segments_of self.now }
    {
        let mut segments = [Segment::default(); 11];
        for place in 0..11 {
            segments[place] = self.segment(place);
        }
        segments
    }

    /// The reference of its indirect page of this place; 0 where there is none.
    fn page_reference(&self, page: usize) -> u32
        requires { page < 8 }
        ensures { result ≡ page_reference self.now page }
    {
        match self.frames.get(frames_for(self.count) as usize + page) {
            Some(frame) => frame.reference(),
            None => 0,
        }
    }

    /// The references of its indirect pages, as its entry has them.
    pub fn page_references(&self) -> [u32; MAX_PAGES]
        ensures { result ≡ page_references self.now }
    {
        let mut references = [0; MAX_PAGES];
        for page in 0..MAX_PAGES {
            references[page] = self.page_reference(page);
        }
        references
    }
}
