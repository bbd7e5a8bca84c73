// What is done at an ask of the back or of one of its jobs.
ghost use Rattle.std.specs.Prelude.{◌≡◌, ◌≢◌, ◌<◌, IfSome, IfOk, OnOk, OnErr, Some, None};
ghost use Rattle.blk_base.specs.declared.parts.Mode.TheVariants.{ReadWrite};
ghost use Rattle.blk_io.specs.Disk.{IsIn, AreIn, attached_of};
ghost use Rattle.xen_pages.specs.Pages.{word_of, with_word};
ghost use Rattle.grant_table.specs.Table.{IsLive, frame_of};
ghost use Rattle.blk_base.specs.declared.moves.Move.{Move};
ghost use Rattle.hypervisor.specs.Hypervisor.{Hypervisor};
ghost use Rattle.hypervisor.specs.Act.{back_act, back_seen, back_under, back_with_move, outcome_of, outcome_told, with_pages, IsGiven, read_act, disk_act, wait_act, get_act, set_act, watch_act, back_watched, watch_next};
ghost use Rattle.hypervisor.specs.Act.Outcome.{Took};
ghost use Rattle.hypervisor.specs.May.{BackMay, BackTakesMemory, IsCall, MayShow, HasMappingLeft};
ghost use Rattle.hypervisor.specs.Does.{BackDoes};
ghost use Rattle.hypervisor.specs.Disk.{DiskDoes, DiskReads, DiskWrites, DiskFlushes, DiskTrims};

use super::{Hypervisor, Room};
use blk_base::{
    BackAnswer, BackAsk, BackMover, End, Lent, Mapping, Mode, OutOfMemory, Path, SectorWords, Text,
};
use blk_io::{Failed, SectorDisk};
use event_channel::Port;

impl Hypervisor {
    /// Does what the back or a job asks, with the disk that the back serves, and gives the answer; `None`,
    /// with nothing done, exactly where the back waits and neither an event is pending nor a watch,
    /// writes a key outside its own directory, or where a job waits or asks for a key. Only a key that
    /// is set and a watch take memory: after `OutOfMemory` nothing has changed.
    #[inline(always)]
    pub fn back<'a, D: SectorDisk>(
        &mut self,
        who: BackMover,
        ask: &BackAsk,
        disk: &mut D,
        room: &'a mut Room,
    ) -> Result<Option<BackAnswer<'a>>, OutOfMemory>
        requires may { BackMay self.old (attached_of (D.seen disk.old)) ask.now }
        ensures { BackDoes who ask.now result self.old self.new (D.seen disk.old) (D.seen disk.new) }
    {
        match ask {
            BackAsk::Wait => Ok(self.event(who, room)),
            BackAsk::Fence => Ok(Some(BackAnswer::Done)),
            BackAsk::Read { mapping, word } => {
                Ok(Some(BackAnswer::Word(self.read(*mapping, *word))))
            }
            BackAsk::Write {
                mapping,
                word,
                value,
            } => {
                self.write(*mapping, *word, *value);
                Ok(Some(BackAnswer::Done))
            }
            _ => self.call(who, ask, disk, room),
        }
    }

    // Does a call: what is asked that is neither a word, a fence nor a wait.
    #[inline(never)]
    fn call<'a, D: SectorDisk>(
        &mut self,
        who: BackMover,
        ask: &BackAsk,
        disk: &mut D,
        room: &'a mut Room,
    ) -> Result<Option<BackAnswer<'a>>, OutOfMemory>
        requires may { BackMay self.old (attached_of (D.seen disk.old)) ask.now }
        requires call { IsCall ask.now }
        ensures { BackDoes who ask.now result self.old self.new (D.seen disk.old) (D.seen disk.new) }
    {
        match ask {
            BackAsk::Map { gref, mode } => Ok(Some(self.map(*gref, *mode))),
            BackAsk::Unmap(mapping) => {
                self.unmap(*mapping);
                Ok(Some(BackAnswer::Done))
            }
            BackAsk::Bind(port) => Ok(Some(self.bind(*port))),
            BackAsk::Send => {
                self.channels.send(End::Back);
                Ok(Some(BackAnswer::Done))
            }
            BackAsk::ClosePort => {
                self.channels.close(End::Back);
                Ok(Some(BackAnswer::Done))
            }
            BackAsk::GetKey(path) => Ok(self.get_key(who, path.get(), room)),
            BackAsk::SetKey(path, text) => self.put_key(who, path.get(), text.get()),
            BackAsk::Watch(path) => self.set_watch(who, path.get()),
            BackAsk::DiskRead(sector) => Ok(Some(read_disk(*sector, disk, &mut room.sector))),
            BackAsk::DiskWrite(sector, words) => {
                Ok(Some(write_disk(*sector, words.get(), disk)))
            }
            BackAsk::Flush => Ok(Some(flush_disk(disk))),
            BackAsk::Trim(sector, count) => Ok(Some(trim_disk(*sector, *count, disk))),
            _ => Ok(None),
        }
    }

    /// Reads a word through a mapping that lives, as `back` does where that is asked; the answer is
    /// then that word.
    #[inline(always)]
    pub fn read(&self, mapping: Mapping, word: u32) -> u32
        requires live { IsLive self.now.grants mapping }
        requires word_in { word < 1024 }
        ensures { result ≡ word_of self.now.pages (frame_of self.now.grants mapping) word }
    {
        self.grants.read(&self.pages, mapping, word)
    }

    /// Writes a word through a mapping for writing that lives, as `back` does where that is asked; the
    /// answer is then `Done`.
    #[inline(always)]
    pub fn write(&mut self, mapping: Mapping, word: u32, value: u32)
        requires live { IsLive self.old.grants mapping }
        requires writable { mapping.mode ≡ ReadWrite }
        requires word_in { word < 1024 }
        ensures { self.new ≡ with_pages self.old (with_word self.old.pages (frame_of self.old.grants mapping) word value) }
    {
        self.grants.write(&mut self.pages, mapping, word, value);
    }

    // The back takes its event, or else its watch, if there is one.
    #[inline(always)]
    fn event<'a>(&mut self, who: BackMover, room: &'a mut Room) -> Option<BackAnswer<'a>>
        ensures acted { back_with_move self.new who BackAsk.Wait result ≡ back_seen (wait_act self.old who) }
        ensures under { self.new ≡ back_under self.old (wait_act self.old who) }
        ensures no_call { outcome_of result ≡ Took }
    {
        match who {
            BackMover::Job(_) => None,
            BackMover::Back => {
                if self.channels.pending(End::Back) {
                    self.channels.take(End::Back);
                    return Some(BackAnswer::Event);
                }
                self.back_watch(room)
            }
        }
    }

    #[inline(never)]
    fn back_watch<'a>(&mut self, room: &'a mut Room) -> Option<BackAnswer<'a>>
        ensures acted { back_with_move self.new BackMover.Back BackAsk.Wait result ≡ back_seen (back_watched self.old (watch_next self.old End.Back)) }
        ensures under { self.new ≡ back_under self.old (back_watched self.old (watch_next self.old End.Back)) }
        ensures no_call { outcome_of result ≡ Took }
    {
        match self.take_watch(End::Back, room) {
            None => None,
            Some(path) => Some(BackAnswer::Watched(path)),
        }
    }

    // The back gets the text at a path; a job gets none.
    fn get_key<'a>(&self, who: BackMover, path: &Path, room: &'a mut Room) -> Option<BackAnswer<'a>>
        ensures acted { back_with_move self.now who (BackAsk.GetKey path.now) result ≡ back_seen (get_act self.now who path.now) }
        ensures under { back_under self.now (get_act self.now who path.now) ≡ self.now }
        ensures no_call { outcome_of result ≡ Took }
    {
        let BackMover::Back = who else {
            return None;
        };
        Some(BackAnswer::Key(self.key(path, room)))
    }

    // The back writes a text at a path under its own directory; a job writes none.
    fn put_key(
        &mut self,
        who: BackMover,
        path: &Path,
        text: &Text,
    ) -> Result<Option<BackAnswer<'static>>, OutOfMemory>
        ensures acted { IfOk result (λ answer. back_with_move self.new who (BackAsk.SetKey path.now text.now) answer
            ≡ back_seen (set_act self.old who path.now text.now)) }
        ensures under { OnOk result (self.new ≡ back_under self.old (set_act self.old who path.now text.now)) }
        ensures no_call { IfOk result (λ answer. outcome_of answer ≡ Took) }
        ensures unchanged { OnErr result (self.new ≡ self.old) }
    {
        let BackMover::Back = who else {
            return Ok(None);
        };
        if self.set_key(End::Back, path, text)? {
            return Ok(Some(BackAnswer::Done));
        }
        Ok(None)
    }

    // The back watches a path; a job watches none.
    fn set_watch(
        &mut self,
        who: BackMover,
        path: &Path,
    ) -> Result<Option<BackAnswer<'static>>, OutOfMemory>
        ensures acted { IfOk result (λ answer. back_with_move self.new who (BackAsk.Watch path.now) answer
            ≡ back_seen (watch_act self.old who path.now)) }
        ensures under { OnOk result (self.new ≡ back_under self.old (watch_act self.old who path.now)) }
        ensures no_call { IfOk result (λ answer. outcome_of answer ≡ Took) }
        ensures unchanged { OnErr result (self.new ≡ self.old) }
    {
        let BackMover::Back = who else {
            return Ok(None);
        };
        self.watch(End::Back, path)?;
        Ok(Some(BackAnswer::Done))
    }

    fn map(&mut self, gref: u32, mode: Mode) -> BackAnswer<'static>
        requires left { HasMappingLeft self.old.grants }
        ensures acted { (who : BackMover) → back_with_move self.new who (BackAsk.Map gref mode) (Some result)
            ≡ back_seen (back_act self.old who (BackAsk.Map gref mode) Took) }
        ensures under { self.new ≡ back_under self.old (back_act self.old BackMover.Back (BackAsk.Map gref mode) Took) }
        ensures may_show { MayShow self.new (BackAsk.Map gref mode) result }
        ensures no_call { outcome_told result ≡ Took }
    {
        match self.grants.map(&mut self.pages, gref, mode) {
            Ok(mapping) => BackAnswer::Mapped(mapping),
            Err(refusal) => BackAnswer::MapRefused(refusal.status()),
        }
    }

    fn unmap(&mut self, mapping: Mapping)
        requires live { IsLive self.old.grants mapping }
        ensures { self.new ≡ back_under self.old (back_act self.old BackMover.Back (BackAsk.Unmap mapping) Took) }
    {
        self.grants.unmap(&mut self.pages, mapping);
    }

    fn bind(&mut self, port: u32) -> BackAnswer<'static>
        ensures acted { back_with_move self.new BackMover.Back (BackAsk.Bind port) (Some result)
            ≡ back_seen (back_act self.old BackMover.Back (BackAsk.Bind port) Took) }
        ensures under { self.new ≡ back_under self.old (back_act self.old BackMover.Back (BackAsk.Bind port) Took) }
        ensures no_call { outcome_told result ≡ Took }
    {
        match self.channels.bind(Port(port)) {
            Ok(_) => BackAnswer::Done,
            Err(_) => BackAnswer::BindRefused,
        }
    }
}

// A sector is read from the disk.
fn read_disk<'a, D: SectorDisk>(
    sector: u64,
    disk: &mut D,
    room: &'a mut SectorWords,
) -> BackAnswer<'a>
    requires { IsIn (attached_of (D.seen disk.old)) sector }
    ensures acted { (under : Hypervisor) (shown : Move) → Some (result, shown) ≡ back_seen (read_act under shown (outcome_told result)) }
    ensures under { (under : Hypervisor) (shown : Move) → back_under under (read_act under shown (outcome_told result)) ≡ under }
    ensures given { IsGiven (outcome_told result) }
    ensures read { DiskReads sector (outcome_told result) (D.seen disk.old) (D.seen disk.new) }
{
    match disk.read(sector, room) {
        Ok(()) => sector_read(room),
        Err(Failed) => BackAnswer::DiskFailed,
    }
}

// The words of a sector that was read, as an answer.
fn sector_read(words: &SectorWords) -> BackAnswer<'_>
    ensures value { result ≡ BackAnswer.Sector words.now }
    ensures given { IsGiven (outcome_told result) }
{
    BackAnswer::Sector(Lent::at(words))
}

// A sector is written to the disk.
fn write_disk<D: SectorDisk>(sector: u64, words: &SectorWords, disk: &mut D) -> BackAnswer<'static>
    requires { IsIn (attached_of (D.seen disk.old)) sector }
    ensures acted { (under : Hypervisor) (shown : Move) → Some (result, shown) ≡ back_seen (disk_act under shown (outcome_told result)) }
    ensures under { (under : Hypervisor) (shown : Move) → back_under under (disk_act under shown (outcome_told result)) ≡ under }
    ensures given { IsGiven (outcome_told result) }
    ensures written { DiskWrites sector words.now (outcome_told result) (D.seen disk.old) (D.seen disk.new) }
{
    match disk.write(sector, words) {
        Ok(()) => BackAnswer::Done,
        Err(Failed) => BackAnswer::DiskFailed,
    }
}

// What was written so far is made stable.
fn flush_disk<D: SectorDisk>(disk: &mut D) -> BackAnswer<'static>
    requires { attached_of (D.seen disk.old) ≢ None }
    ensures acted { (under : Hypervisor) (shown : Move) → Some (result, shown) ≡ back_seen (disk_act under shown (outcome_told result)) }
    ensures under { (under : Hypervisor) (shown : Move) → back_under under (disk_act under shown (outcome_told result)) ≡ under }
    ensures given { IsGiven (outcome_told result) }
    ensures flushed { DiskFlushes (outcome_told result) (D.seen disk.old) (D.seen disk.new) }
{
    match disk.flush() {
        Ok(()) => BackAnswer::Done,
        Err(Failed) => BackAnswer::DiskFailed,
    }
}

// Sectors are discarded.
fn trim_disk<D: SectorDisk>(sector: u64, count: u64, disk: &mut D) -> BackAnswer<'static>
    requires { AreIn (attached_of (D.seen disk.old)) sector count }
    ensures acted { (under : Hypervisor) (shown : Move) → Some (result, shown) ≡ back_seen (disk_act under shown (outcome_told result)) }
    ensures under { (under : Hypervisor) (shown : Move) → back_under under (disk_act under shown (outcome_told result)) ≡ under }
    ensures given { IsGiven (outcome_told result) }
    ensures trimmed { DiskTrims sector count (outcome_told result) (D.seen disk.old) (D.seen disk.new) }
{
    match disk.trim(sector, count) {
        Ok(()) => BackAnswer::Done,
        Err(Failed) => BackAnswer::DiskFailed,
    }
}
