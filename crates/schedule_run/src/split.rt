// Both ends in their machine, and the moves of each.
ghost use Rattle.std.specs.Prelude.{◌≡◌, ◌<◌, ◌∷◌, [], true, IfOk};
ghost use Rattle.blk_base.specs.declared.parts.Mode.TheVariants.{ReadWrite};
ghost use Rattle.blk_io.specs.Disk.{DiskSeen};
ghost use Rattle.schedule_text.specs.Range.{SubmissionHasWidths};
ghost use Rattle.grant_table.specs.Table.{IsLive};
ghost use Rattle.hypervisor.specs.May.{IsPlace};
ghost use Rattle.blk_back.specs.Step.{job_ask_of};
ghost use Rattle.vbd_front.specs.Ask.{ask_of as front_asks};
ghost use Rattle.vbd_model.specs.World.{start_of, is_quiet, frontend_of};
ghost use Rattle.vbd_model.specs.Happening.{Closes, Submits, Notifies, happens};
ghost use Rattle.vbd_model.specs.Kind.{IsJobMove, are_carried};
ghost use Rattle.vbd_model.specs.Leads.{Goes, Is, IsReadyFor, moment};
ghost use Rattle.schedule_run.specs.Going.{FrontGoes, BackGoes, JobGoes};

use crate::showing::{follow_back, follow_job, follow_told, show_back, show_front, submit_line};
use blk_base::{
    BackAnswer, BackAsk, BackMover, Config, End, Endpoint, FrontAnswer, FrontAsk, Mapping,
    OutOfMemory, Submission,
};
use blk_io::SectorDisk;
use hypervisor::{Hypervisor, Room};
use schedule_text::{Line, RecordStop, Recorder};
use std::alloc::Global;
use std::marker::Model;
use vbd_back::Backend;
use vbd_front::Frontend;

mod at_once;
mod looking;
mod marks;
mod memory;
mod rounds;
mod suspend;
mod words;

/// The frontend in its domain, the backend with its jobs in another, and what lies under both.
#[derive(Drop)]
pub struct Split {
    front: Frontend,
    back: Backend,
    under: Hypervisor,
    // where what an answer lends lies until it completes the ask
    room: Room,
    // where the memory of a new backend comes from
    alloc: Global,
}

impl Model for Split {
    ghost use Rattle.vbd_model.specs.World.{World};
    ghost use Rattle.schedule_run.specs.Inside.{world_of, HasHeard};
    ghost use Rattle.vbd_model.specs.Fit.{IsFit};

    ghost Value = { World };

    ghost view = { λ s. world_of s.front s.back s.under };

    ghost invariant = { λ s. HasHeard s.front × IsFit (world_of s.front s.back s.under) };
}

impl Split {
    /// Both ends before they negotiate. It fails only where there is not enough memory.
    pub fn new(alloc: Global, config: &Config) -> Result<Split, OutOfMemory>
        requires { are_carried config.now ≡ true }
        ensures { IfOk result (λ split. split ≡ start_of config.now) }
    {
        Ok(Split {
            front: Frontend::new(alloc, config)?,
            back: Backend::new(alloc, config)?,
            under: Hypervisor::new(alloc)?,
            room: Room::new(),
            alloc,
        })
    }

    /// A move of the front, if it has one.
    #[inline(always)]
    pub fn front_move<R: Recorder>(&mut self, recorder: &mut R) -> Result<(), RecordStop>
        ensures { FrontGoes result self.old self.new (R.seen recorder.old) (R.seen recorder.new) }
    {
        match self.front.data_asked() {
            Some(FrontAsk::Write { frame, word, value }) => {
                self.front_writes(frame, word, value, recorder)
            }
            Some(FrontAsk::Read { frame, word }) => self.front_reads(frame, word, recorder),
            _ => self.front_goes(recorder),
        }
    }

    // The front's move where it isn't of a request's data.
    #[inline(never)]
    fn front_goes<R: Recorder>(&mut self, recorder: &mut R) -> Result<(), RecordStop>
        ensures { FrontGoes result self.old self.new (R.seen recorder.old) (R.seen recorder.new) }
    {
        match self.front.ask() {
            FrontAsk::Write { frame, word, value } => {
                self.front_writes(frame, word, value, recorder)
            }
            FrontAsk::Read { frame, word } => self.front_reads(frame, word, recorder),
            _ => self.front_acts(recorder),
        }
    }

    // The front writes a word, as it asks: most of its moves of a write are of this kind.
    #[inline(always)]
    fn front_writes<R: Recorder>(
        &mut self,
        frame: u32,
        word: u32,
        value: u32,
        recorder: &mut R,
    ) -> Result<(), RecordStop>
        requires asked { FrontAsk.Write frame word value ≡ front_asks (frontend_of self.old) }
        requires place { IsPlace frame word }
        ensures { FrontGoes result self.old self.new (R.seen recorder.old) (R.seen recorder.new) }
    {
        let answer = FrontAnswer::Done;
        // A frontend takes no memory once it is made.
        let _ = self.front.tell(&answer);
        self.under.write_front(frame, word, value);
        let shown = show_front(recorder, &FrontAsk::Write { frame, word, value }, &answer);
        follow_told(&mut self.front, recorder, shown)
    }

    // The front reads a word, as it asks: most of its moves of a read are of this kind.
    #[inline(always)]
    fn front_reads<R: Recorder>(
        &mut self,
        frame: u32,
        word: u32,
        recorder: &mut R,
    ) -> Result<(), RecordStop>
        requires asked { FrontAsk.Read frame word ≡ front_asks (frontend_of self.old) }
        requires place { IsPlace frame word }
        ensures { FrontGoes result self.old self.new (R.seen recorder.old) (R.seen recorder.new) }
    {
        let answer = FrontAnswer::Word(self.under.read_front(frame, word));
        // A frontend takes no memory once it is made.
        let _ = self.front.tell(&answer);
        let shown = show_front(recorder, &FrontAsk::Read { frame, word }, &answer);
        follow_told(&mut self.front, recorder, shown)
    }

    // The front's move, whatever it asks.
    #[inline(never)]
    fn front_acts<R: Recorder>(&mut self, recorder: &mut R) -> Result<(), RecordStop>
        ensures { FrontGoes result self.old self.new (R.seen recorder.old) (R.seen recorder.new) }
    {
        let ask = self.front.ask();
        let Ok(answer) = self.under.front(&ask, &mut self.room) else {
            return Err(RecordStop::OutOfMemory);
        };
        let Some(answer) = answer else {
            return Ok(());
        };
        let shown = show_front(recorder, &ask, &answer);
        // A frontend takes no memory once it is made.
        let _ = self.front.tell(&answer);
        follow_told(&mut self.front, recorder, shown)
    }

    /// A move of the back, if it has one.
    #[inline(always)]
    pub fn back_move<D: SectorDisk, R: Recorder>(
        &mut self,
        disk: &mut D,
        recorder: &mut R,
    ) -> Result<(), RecordStop>
        requires { IsReadyFor 41 self.old (D.seen disk.old) }
        ensures { BackGoes result
            (moment self.old (D.seen disk.old) (R.seen recorder.old))
            (moment self.new (D.seen disk.new) (R.seen recorder.new)) }
    {
        if self.back.waits() && !self.under.has_to_take(End::Back) {
            return Ok(());
        }
        self.back_acts(disk, recorder)
    }

    // The back's move, whatever it asks.
    #[inline(never)]
    fn back_acts<D: SectorDisk, R: Recorder>(
        &mut self,
        disk: &mut D,
        recorder: &mut R,
    ) -> Result<(), RecordStop>
        requires { IsReadyFor 41 self.old (D.seen disk.old) }
        ensures { BackGoes result
            (moment self.old (D.seen disk.old) (R.seen recorder.old))
            (moment self.new (D.seen disk.new) (R.seen recorder.new)) }
    {
        let ask = self.back.ask();
        let before = self.back.halted();
        let Ok(answer) = self.under.back(BackMover::Back, &ask, disk, &mut self.room) else {
            return Err(RecordStop::OutOfMemory);
        };
        let Some(answer) = answer else {
            return Ok(());
        };
        let shown = show_back(recorder, &self.under, BackMover::Back, &ask, &answer);
        let _ = self.back.tell(&answer);
        let told = self.back.take_told();
        follow_back(recorder, shown, told, &answer, before, self.back.halted())
    }

    /// A move of the job of a number, if it has one.
    #[inline(always)]
    pub fn job_move<D: SectorDisk, R: Recorder>(
        &mut self,
        number: u64,
        disk: &mut D,
        recorder: &mut R,
    ) -> Result<(), RecordStop>
        requires { IsReadyFor 1 self.old (D.seen disk.old) }
        ensures { JobGoes number result
            (moment self.old (D.seen disk.old) (R.seen recorder.old))
            (moment self.new (D.seen disk.new) (R.seen recorder.new)) }
    {
        match self.back.job_ask(number) {
            BackAsk::Read { mapping, word } => self.job_reads(number, mapping, word, recorder),
            BackAsk::Write {
                mapping,
                word,
                value,
            } => self.job_writes(number, mapping, word, value, recorder),
            _ => self.job_acts(number, disk, recorder),
        }
    }

    // The job of a number reads a word, as it asks: most of its moves of a write are of this kind.
    #[inline(always)]
    fn job_reads<R: Recorder>(
        &mut self,
        number: u64,
        mapping: Mapping,
        word: u32,
        recorder: &mut R,
    ) -> Result<(), RecordStop>
        requires asked { BackAsk.Read mapping word ≡ job_ask_of self.old.rings.back number }
        requires live { IsLive self.old.rings.under.grants mapping }
        requires word_in { word < 1024 }
        ensures { (disk : DiskSeen) → Goes (IsJobMove number) (IsJobMove number) 0 result
            (moment self.old disk (R.seen recorder.old))
            (moment self.new disk (R.seen recorder.new)) }
    {
        let who = BackMover::Job(number);
        let answer = BackAnswer::Word(self.under.read(mapping, word));
        self.back.job_tell(number, &answer);
        let told = self.back.take_told();
        let ask = BackAsk::Read { mapping, word };
        let shown = show_back(recorder, &self.under, who, &ask, &answer);
        follow_job(recorder, shown, told, &answer)
    }

    // The job of a number writes a word, as it asks: most of its moves of a read are of this kind.
    #[inline(always)]
    fn job_writes<R: Recorder>(
        &mut self,
        number: u64,
        mapping: Mapping,
        word: u32,
        value: u32,
        recorder: &mut R,
    ) -> Result<(), RecordStop>
        requires asked { BackAsk.Write mapping word value ≡ job_ask_of self.old.rings.back number }
        requires live { IsLive self.old.rings.under.grants mapping }
        requires writable { mapping.mode ≡ ReadWrite }
        requires word_in { word < 1024 }
        ensures { (disk : DiskSeen) → Goes (IsJobMove number) (IsJobMove number) 0 result
            (moment self.old disk (R.seen recorder.old))
            (moment self.new disk (R.seen recorder.new)) }
    {
        let who = BackMover::Job(number);
        let answer = BackAnswer::Done;
        self.under.write(mapping, word, value);
        self.back.job_tell(number, &answer);
        let told = self.back.take_told();
        let ask = BackAsk::Write {
            mapping,
            word,
            value,
        };
        let shown = show_back(recorder, &self.under, who, &ask, &answer);
        follow_job(recorder, shown, told, &answer)
    }

    // The move of the job of a number, whatever it asks.
    #[inline(never)]
    fn job_acts<D: SectorDisk, R: Recorder>(
        &mut self,
        number: u64,
        disk: &mut D,
        recorder: &mut R,
    ) -> Result<(), RecordStop>
        requires { IsReadyFor 1 self.old (D.seen disk.old) }
        ensures { JobGoes number result
            (moment self.old (D.seen disk.old) (R.seen recorder.old))
            (moment self.new (D.seen disk.new) (R.seen recorder.new)) }
    {
        let who = BackMover::Job(number);
        let ask = self.back.job_ask(number);
        let Ok(answer) = self.under.back(who, &ask, disk, &mut self.room) else {
            return Err(RecordStop::OutOfMemory);
        };
        let Some(answer) = answer else {
            return Ok(());
        };
        let shown = show_back(recorder, &self.under, who, &ask, &answer);
        self.back.job_tell(number, &answer);
        let told = self.back.take_told();
        follow_job(recorder, shown, told, &answer)
    }

    /// A request is handed to the front.
    pub fn submit<R: Recorder>(
        &mut self,
        job: Submission,
        recorder: &mut R,
    ) -> Result<(), RecordStop>
        ensures widths { SubmissionHasWidths job }
        ensures goes { (disk : DiskSeen) → Goes (Is (Submits job ∷ [])) (Is (Submits job ∷ [])) 0 result
            (moment self.old disk (R.seen recorder.old))
            (moment self.new disk (R.seen recorder.new)) }
    {
        // The job is handed over, and then shown: a reference lets it be read twice.
        let handed = &job;
        let answer = self.front.submit(*handed);
        recorder.add(&submit_line(*handed, answer))
    }

    /// A spurious event comes at an end's port, where it is bound.
    pub fn notify(&mut self, at: End)
        ensures { self.new ≡ happens self.old (Notifies at) }
    {
        match at {
            End::Front => self.under.send(End::Back),
            End::Back => self.under.send(End::Front),
        }
    }

    /// An end is asked to close. A front says that it begins to, where it does.
    pub fn close<R: Recorder>(&mut self, at: End, recorder: &mut R) -> Result<(), RecordStop>
        ensures { (disk : DiskSeen) → Goes (Is (Closes at ∷ [])) (Is (Closes at ∷ [])) 0 result
            (moment self.old disk (R.seen recorder.old))
            (moment self.new disk (R.seen recorder.new)) }
    {
        match at {
            End::Front => {
                self.front.close();
                follow_told(&mut self.front, recorder, Ok(()))
            }
            End::Back => {
                self.back.close();
                Ok(())
            }
        }
    }

    /// Whether both ends wait, no job is held, and neither an event nor a watch is pending.
    #[inline(always)]
    pub fn is_quiet(&self) -> bool
        ensures { result ≡ is_quiet self.now }
    {
        self.front.waits()
            && self.back.idle()
            && !self.under.has_to_take(End::Front)
            && !self.under.has_to_take(End::Back)
    }
}
