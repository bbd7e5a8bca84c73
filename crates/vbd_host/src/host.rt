// What a host does for a back and its jobs.
ghost use Rattle.std.specs.Prelude.{◌≡◌, ◌<◌};
ghost use Rattle.vbd_host.specs.Answer.{woken_answer, map_answer, bind_answer, disk_answer, sector_answer};

use crate::woken::Woken;
use blk_back::BackTold;
use blk_base::{BackAnswer, BackAsk, Mapping, Mode, Path, SectorWords, Text};

/// A port wasn't bound.
#[derive(Clone, Copy, PartialEq, Eq)]
pub struct BindRefused;

/// A call of the disk failed.
#[derive(Clone, Copy, PartialEq, Eq)]
pub struct DiskFailed;

/// What a host does for a back and its jobs, each method one thing that they ask. Words are numbers below 1024 of a
/// mapped page, sectors are of 512 bytes. A host may answer as it likes, and needs to say nothing of that.
pub trait BackHost {
    ghost use Rattle.std.specs.Prelude.{Option};
    ghost use Rattle.blk_base.specs.declared.ask.BackAsk.{BackAsk};
    ghost use Rattle.blk_base.specs.declared.ask.BackAnswer.{BackAnswer};
    ghost use Rattle.blk_back.specs.declared.told.BackTold.{BackTold};

    /// What it may answer at an ask, and what that makes of it; no answer where nothing came for a back that
    /// waits. A host of which nothing is said may do anything.
    ghost does: { Self → BackAsk → Option BackAnswer → Self → Type 0 } = { λ _ _ _ _. Unit {0} };

    /// What it may make of what it is told, likewise.
    ghost hears: { Self → BackTold → Self → Type 0 } = { λ _ _ _. Unit {0} };

    /// Takes the event or the watch that came for the back; `None` where nothing did. It doesn't block.
    fn woken(&mut self) -> Option<Woken>
        ensures { does self.old BackAsk.Wait (woken_answer result) self.new };

    /// A full memory barrier.
    fn fence(&mut self)
        ensures { does self.old BackAsk.Fence (Some BackAnswer.Done) self.new };

    /// Reads a word through a mapping, at once.
    fn read(&mut self, mapping: Mapping, word: u32) -> u32
        requires { word < 1024 }
        ensures { does self.old (BackAsk.Read mapping word) (Some (BackAnswer.Word result)) self.new };

    /// Writes a word through a mapping for writing, at once.
    fn write(&mut self, mapping: Mapping, word: u32, value: u32)
        requires writable { mapping.mode ≡ Mode.ReadWrite }
        requires word_in { word < 1024 }
        ensures { does self.old (BackAsk.Write mapping word value) (Some BackAnswer.Done) self.new };

    /// Maps the frame of a grant reference (`GNTTABOP_map_grant_ref`), and gives a number for the mapping, by
    /// which it is told from all others; or the status of the refusal, one of `GNTST_*`.
    fn map(&mut self, gref: u32, mode: Mode) -> Result<u64, i32>
        ensures { does self.old (BackAsk.Map gref mode) (Some (map_answer gref mode result)) self.new };

    /// Gives up a mapping (`GNTTABOP_unmap_grant_ref`).
    fn unmap(&mut self, mapping: Mapping)
        ensures { does self.old (BackAsk.Unmap mapping) (Some BackAnswer.Done) self.new };

    /// Binds the front's port (`EVTCHNOP_bind_interdomain`); `BindRefused` where that isn't granted.
    fn bind(&mut self, port: u32) -> Result<(), BindRefused>
        ensures { does self.old (BackAsk.Bind port) (Some (bind_answer result)) self.new };

    /// Sends the front an event through the port that is bound (`EVTCHNOP_send`).
    fn send(&mut self)
        ensures { does self.old BackAsk.Send (Some BackAnswer.Done) self.new };

    /// Closes the port that is bound (`EVTCHNOP_close`).
    fn close_port(&mut self)
        ensures { does self.old BackAsk.ClosePort (Some BackAnswer.Done) self.new };

    /// The text of a key; `None` where there is none.
    fn get_key(&mut self, path: &Path) -> Option<Text>
        ensures { does self.old (BackAsk.GetKey path.now) (Some (BackAnswer.Key result)) self.new };

    /// Sets a key of the back's own directory.
    fn set_key(&mut self, path: &Path, text: &Text)
        ensures { does self.old (BackAsk.SetKey path.now text.now) (Some BackAnswer.Done) self.new };

    /// Watches a path; the watch fires at once, and from then on whenever the key there is set.
    fn watch(&mut self, path: &Path)
        ensures { does self.old (BackAsk.Watch path.now) (Some BackAnswer.Done) self.new };

    /// Reads a sector's words; where that fails they aren't looked at.
    fn read_sector(&mut self, sector: u64, words: &mut SectorWords) -> Result<(), DiskFailed>
        ensures { does self.old (BackAsk.DiskRead sector) (Some (sector_answer words.new result)) self.new };

    /// Writes a sector's words.
    fn write_sector(&mut self, sector: u64, words: &SectorWords) -> Result<(), DiskFailed>
        ensures { does self.old (BackAsk.DiskWrite sector words.now) (Some (disk_answer result)) self.new };

    /// Makes everything written and trimmed so far stable.
    fn flush(&mut self) -> Result<(), DiskFailed>
        ensures { does self.old BackAsk.Flush (Some (disk_answer result)) self.new };

    /// Discards `count` sectors.
    fn trim(&mut self, sector: u64, count: u64) -> Result<(), DiskFailed>
        ensures { does self.old (BackAsk.Trim sector count) (Some (disk_answer result)) self.new };

    /// Hears what happened at the back or one of its jobs in its last move.
    fn told(&mut self, told: BackTold)
        ensures { hears self.old told self.new };
}
