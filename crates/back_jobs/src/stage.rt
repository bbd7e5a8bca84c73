// What a job is doing.
use blk_base::{Mapping, Status};

/// What a job is doing. Each has exactly one thing to ask next.
#[derive(Clone, Copy)]
pub enum JobStage {
    /// Maps the indirect page that it comes to next.
    MapPage,
    /// Copies a segment of the page: reads its first word, the reference, and then its second one.
    PageReference(Mapping),
    PageSectors(Mapping, u32),
    /// Unmaps the page after the last segment that was to be copied from it.
    UnmapPage(Mapping),
    /// Maps the frame of its next segment.
    Map,
    /// Writes to the disk: reads a sector's words from the frame, the one of this number next, and
    /// then writes the sector.
    ReadWord(Mapping, u32),
    DiskWrite(Mapping),
    /// Reads from the disk: reads the sector, and then writes its words to the frame, the one of
    /// this number next.
    DiskRead(Mapping),
    WriteWord(Mapping, u32),
    /// Unmaps the frame after its segment's last sector.
    Unmap(Mapping),
    /// Unmaps the frame after the disk failed: the work is aborted.
    Abort(Mapping),
    /// Has the disk make stable what was written and trimmed so far.
    Flush,
    /// Has the disk discard so many sectors.
    Trim(u64),
    /// Is done, with the status of the response.
    Done(Status),
}
