// The disk that the back end serves.
ghost use Rattle.std.specs.Prelude.{◌≡◌, ◌≢◌};
ghost use Rattle.blk_io.specs.Disk.{IsIn, AreIn, attached_of, Attaches, ReadsSector, WritesSector, Flushes, Trims};

use crate::failed::Failed;
use blk_base::{OutOfMemory, SectorWords};
use std::error::Error;
use std::fmt;

/// Why a disk wasn't attached.
#[derive(Clone, Copy, Debug, PartialEq, Eq)]
pub enum AttachStop {
    /// Its count of faults rose.
    Failed,
    OutOfMemory,
}

impl fmt::Display for AttachStop {
    fn fmt<W: fmt::Write>(&self, f: &mut fmt::Formatter<W>) -> fmt::Result {
        match self {
            AttachStop::Failed => write!(f, "failed"),
            AttachStop::OutOfMemory => write!(f, "out of memory"),
        }
    }
}

impl Error for AttachStop {}

impl From<OutOfMemory> for AttachStop {
    ghost use Rattle.blk_io.specs.declared.disk.AttachStop.TheVariants.{OutOfMemory};

    ghost from_gives = { λ _ stop. stop ≡ OutOfMemory };

    fn from(_stop: OutOfMemory) -> AttachStop {
        AttachStop::OutOfMemory
    }
}

/// A disk of sectors of 512 bytes, each 128 little-endian words. Whatever a failing `write` or
/// `trim` leaves in the sectors in hand, all other sectors stay as they were. A call that fails
/// counts a fault, and nothing else does.
pub trait SectorDisk {
    ghost use Rattle.blk_io.specs.Disk.{DiskSeen};

    /// What it exposes: what is attached, its sectors, those in stable storage, and how often it
    /// failed.
    ghost seen: { Self → DiskSeen };

    /// Attaches the image of that name and answers its number of sectors; a tail of the image that
    /// is shorter than a sector is left out, and never touched. What the disk holds stays.
    fn attach(&mut self, name: &str, writable: bool) -> Result<u64, AttachStop>
        ensures { Attaches name.now writable result (seen self.old) (seen self.new) };

    /// Gives a sector's words.
    fn read(&mut self, sector: u64, words: &mut SectorWords) -> Result<(), Failed>
        requires { IsIn (attached_of (seen self.old)) sector }
        ensures { ReadsSector sector words.new result (seen self.old) (seen self.new) };

    /// Sets a sector's words.
    fn write(&mut self, sector: u64, words: &SectorWords) -> Result<(), Failed>
        requires { IsIn (attached_of (seen self.old)) sector }
        ensures { WritesSector sector words.now result (seen self.old) (seen self.new) };

    /// Makes everything written and trimmed so far stable.
    fn flush(&mut self) -> Result<(), Failed>
        requires { attached_of (seen self.old) ≢ None }
        ensures { Flushes result (seen self.old) (seen self.new) };

    /// Discards `count` sectors, which then read as zeros.
    fn trim(&mut self, sector: u64, count: u64) -> Result<(), Failed>
        requires { AreIn (attached_of (seen self.old)) sector count }
        ensures { Trims sector count result (seen self.old) (seen self.new) };
}
