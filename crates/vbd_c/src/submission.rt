// A submission as the numbers that C writes.
ghost use Rattle.std.specs.Prelude.{◌≡◌};
ghost use Rattle.vbd_c.specs.Submission.{submission_of};

use blk_base::{SectorCount, Submission};

/// What the front is asked to do with the disk: the operation (`BLKIF_OP_*` of `io/blkif.h`; an indirect one is the front's
/// to choose), how many sectors from which on, and the word that the first sector of a write or a barrier is filled with,
/// one more at each next sector. A flush has an operation alone.
#[repr(C)]
#[derive(Clone, Copy)]
pub struct SubmissionNumbers {
    pub op: u32,
    pub count: u32,
    pub tag: u32,
    pub sector: u64,
}

impl SubmissionNumbers {
    /// The submission; `None` where no operation has the number, or no sectors are counted.
    pub fn submission(&self) -> Option<Submission>
        ensures { result ≡ submission_of self.now }
    {
        if self.op == 3 {
            return Some(Submission::Flush);
        }
        let (sector, tag) = (self.sector, self.tag);
        let count = SectorCount::new(self.count)?;
        match self.op {
            0 => Some(Submission::Read { sector, count }),
            1 => Some(Submission::Write { sector, count, tag }),
            2 => Some(Submission::Barrier { sector, count, tag }),
            5 => Some(Submission::Discard { sector, count }),
            _ => None,
        }
    }
}
