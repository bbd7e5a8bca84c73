// The words of a sector that a job asks for next.
use blk_base::Mapping;

/// The words of a sector that a job has read from its frame or written to it next, one after another
/// up to the sector's last one, through one mapping.
#[derive(Clone, Copy, PartialEq, Eq)]
pub struct SectorPart {
    /// What the frame is mapped by.
    pub mapping: Mapping,
    /// The first of them, a number below 1024.
    pub word: u32,
    /// How many, 1 to 128.
    pub count: u32,
    /// Whether they are written to the frame; else they are read from it.
    pub writes: bool,
}
