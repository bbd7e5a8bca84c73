// A disk that fails at listed calls.
ghost use Rattle.std.specs.Prelude.{◌≡◌, ◌≢◌, ◌↔◌, ◌+◌, ◌%◌, ◌^◌, Contains, None, Err, IsErr, IsTrue};
ghost use Rattle.blk_io.specs.Outside.{Rose};
ghost use Rattle.blk_io.specs.Disk.{attached_of, IsIn, AreIn, Attaches, ReadsSector, WritesSector, Flushes, Trims};
ghost use Rattle.image_disk.specs.Failing.{CallsThrough, disk_around, no_calls};
ghost use Rattle.image_disk.specs.Failing.CallKind.{Attach, Read, Write, Flush, Trim};

use blk_base::SectorWords;
use blk_io::{AttachStop, Failed, SectorDisk};

/// Which calls fail: their numbers, from 1, among the calls of their
#[derive(Drop)]
pub struct ListedCalls {
    pub attaches: Vec<u64>,
    pub reads: Vec<u64>,
    pub writes: Vec<u64>,
    pub flushes: Vec<u64>,
    pub trims: Vec<u64>,
}

/// How many calls of each kind were made.
#[derive(Clone, Copy, PartialEq, Eq)]
pub struct CallCounts {
    pub attaches: u64,
    pub reads: u64,
    pub writes: u64,
    pub flushes: u64,
    pub trims: u64,
}

/// A disk whose listed calls fail, and don't reach the disk inside. Every other call answers what the
/// disk inside answers, and a fault there is a fault here too.
#[derive(Drop)]
pub struct FailsAtCalls<D> {
    pub inside: D,
    pub listed: ListedCalls,
    pub made: CallCounts,
    /// How many calls failed.
    pub faults: u64,
}

// Counts a call, and says whether it is listed.
fn is_listed(listed: &Vec<u64>, calls: &mut u64) -> bool
    ensures counted { calls.new ≡ (calls.old + 1) % 2 ^ 64 }
    ensures listed { IsTrue result ↔ Contains listed.now.items calls.new }
{
    *calls = calls.wrapping_add(1);
    listed.contains(calls)
}

impl<D> FailsAtCalls<D> {
    /// It fails at the listed calls.
    pub fn new(inside: D, listed: ListedCalls) -> FailsAtCalls<D>
        ensures { result ≡ record { inside = inside; listed = listed; made = no_calls; faults = 0 } }
    {
        FailsAtCalls {
            inside,
            listed,
            made: CallCounts {
                attaches: 0,
                reads: 0,
                writes: 0,
                flushes: 0,
                trims: 0,
            },
            faults: 0,
        }
    }
}

// Counts a fault, and answers it.
fn fault(faults: &mut u64) -> Result<(), Failed>
    ensures failed { IsErr result }
    ensures rose { Rose faults.old faults.new }
{
    *faults = faults.saturating_add(1);
    Err(Failed)
}

impl<D: SectorDisk> SectorDisk for FailsAtCalls<D> {
    ghost use Rattle.image_disk.specs.Failing.{disk_around};

    ghost seen = { disk_around D.seen };

    fn attach(&mut self, name: &str, writable: bool) -> Result<u64, AttachStop>
        ensures attached { Attaches name.now writable result (disk_around D.seen self.old) (disk_around D.seen self.new) }
        ensures exactly { CallsThrough D.seen Attach (result ≡ Err AttachStop.Failed) (Attaches name.now writable result) self.old self.new }
    {
        if is_listed(&self.listed.attaches, &mut self.made.attaches) {
            self.faults = self.faults.saturating_add(1);
            return Err(AttachStop::Failed);
        }
        match self.inside.attach(name, writable) {
            Ok(sectors) => Ok(sectors),
            Err(AttachStop::OutOfMemory) => Err(AttachStop::OutOfMemory),
            Err(AttachStop::Failed) => {
                self.faults = self.faults.saturating_add(1);
                Err(AttachStop::Failed)
            }
        }
    }

    fn read(&mut self, sector: u64, words: &mut SectorWords) -> Result<(), Failed>
        requires { IsIn (attached_of (disk_around D.seen self.old)) sector }
        ensures read { ReadsSector sector words.new result (disk_around D.seen self.old) (disk_around D.seen self.new) }
        ensures exactly { CallsThrough D.seen Read (IsErr result) (ReadsSector sector words.new result) self.old self.new }
    {
        if is_listed(&self.listed.reads, &mut self.made.reads) {
            return fault(&mut self.faults);
        }
        match self.inside.read(sector, words) {
            Ok(()) => Ok(()),
            Err(Failed) => fault(&mut self.faults),
        }
    }

    fn write(&mut self, sector: u64, words: &SectorWords) -> Result<(), Failed>
        requires { IsIn (attached_of (disk_around D.seen self.old)) sector }
        ensures written { WritesSector sector words.now result (disk_around D.seen self.old) (disk_around D.seen self.new) }
        ensures exactly { CallsThrough D.seen Write (IsErr result) (WritesSector sector words.now result) self.old self.new }
    {
        if is_listed(&self.listed.writes, &mut self.made.writes) {
            return fault(&mut self.faults);
        }
        match self.inside.write(sector, words) {
            Ok(()) => Ok(()),
            Err(Failed) => fault(&mut self.faults),
        }
    }

    fn flush(&mut self) -> Result<(), Failed>
        requires { attached_of (disk_around D.seen self.old) ≢ None }
        ensures flushed { Flushes result (disk_around D.seen self.old) (disk_around D.seen self.new) }
        ensures exactly { CallsThrough D.seen Flush (IsErr result) (Flushes result) self.old self.new }
    {
        if is_listed(&self.listed.flushes, &mut self.made.flushes) {
            return fault(&mut self.faults);
        }
        match self.inside.flush() {
            Ok(()) => Ok(()),
            Err(Failed) => fault(&mut self.faults),
        }
    }

    fn trim(&mut self, sector: u64, count: u64) -> Result<(), Failed>
        requires { AreIn (attached_of (disk_around D.seen self.old)) sector count }
        ensures trimmed { Trims sector count result (disk_around D.seen self.old) (disk_around D.seen self.new) }
        ensures exactly { CallsThrough D.seen Trim (IsErr result) (Trims sector count result) self.old self.new }
    {
        if is_listed(&self.listed.trims, &mut self.made.trims) {
            return fault(&mut self.faults);
        }
        match self.inside.trim(sector, count) {
            Ok(()) => Ok(()),
            Err(Failed) => fault(&mut self.faults),
        }
    }
}
