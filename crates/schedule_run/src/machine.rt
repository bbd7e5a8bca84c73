// The machine, an event at a time.
ghost use Rattle.std.specs.Prelude.{◌≡◌, ◌+◌, ◌++◌, ◌∷◌, [], ◌<◌, ◌^◌, true, List, length, Some, IfOk, OnOk};
ghost use Rattle.blk_base.specs.Options.{Options};
ghost use Rattle.blk_io.specs.Disk.{HasLength, attached_of};
ghost use Rattle.schedule_text.specs.Event.{is_event_allowed};
ghost use Rattle.schedule_text.specs.declared.event.Event.{Event};
ghost use Rattle.vbd_model.specs.World.{start_of};
ghost use Rattle.vbd_model.specs.Kind.{AreOf, AreOfSoFar, Makes, MakesSoFar, are_carried};
ghost use Rattle.vbd_model.specs.Leads.{Goes, moment};
ghost use Rattle.schedule_run.specs.Outcome.{Outside, HasCarried, IsServed, content_of};
ghost use Rattle.schedule_run.specs.Lawful.{EventLeaves};
ghost use Rattle.schedule_run.specs.Machine.{WaitsByCauses};

use crate::split::Split;
use blk_base::{Config, OutOfMemory};
use blk_io::SectorDisk;
use schedule_text::{Event, RecordStop, Recorder};
use std::alloc::Global;
use std::marker::Model;

/// Both ends in their machine, moved by the events of a schedule.
#[derive(Drop)]
pub struct Machine {
    split: Split,
    events: u64,
}

impl Model for Machine {
    ghost use Rattle.schedule_run.specs.Machine.{Run, IsRunning};

    ghost Value = { Run };

    ghost view = { λ m. record { world = m.split; events = m.events } };

    ghost invariant = { λ m. IsRunning m.split m.events };
}

impl Machine {
    /// A machine whose ends haven't negotiated yet, with options for which `can_serve` holds. It fails
    /// only where there is not enough memory.
    pub fn new(alloc: Global, config: &Config) -> Result<Machine, OutOfMemory>
        requires { are_carried config.now ≡ true }
        ensures machine { IfOk result (λ machine. machine ≡ record { world = start_of config.now; events = 0 }) }
        ensures served { OnOk result (IsServed config.now) }
    {
        // Its numbers have their widths.
        let _widths = *config;
        Ok(Machine {
            split: Split::new(alloc, config)?,
            events: 0,
        })
    }

    /// How many events it carried out.
    pub fn events(&self) -> u64
        ensures { result ≡ self.now.events }
    {
        self.events
    }

    /// Carries out an event, and gives the recorder the lines of all that happens. The event is one of
    /// the grammar, as each that `schedule_text::read_event` gives is. After a stop, what was done
    /// before it stands, and the lines before the one at which the recorder stopped. Each call of the
    /// disk is the one that a job asks for, and what it answered completes the job's ask.
    ///
    /// Whoever makes a machine, adds a `begin` line with its options (`a_run_begins`) and then carries
    /// out events has a lawful report after each of them, where disk and recorder expose what they
    /// hold: a run of the plain disk, and more. Whatever happened, each end asks to wait in three cases
    /// alone, and a job in three (`waits`). It speaks of real domains as far as their shared words
    /// are sequentially consistent and a hypercall is one step.
    pub fn event<D: SectorDisk, R: Recorder>(
        &mut self,
        event: Event,
        disk: &mut D,
        recorder: &mut R,
    ) -> Result<(), RecordStop>
        requires allowed { is_event_allowed event ≡ true }
        requires few { self.old.events < 10 ^ 9 }
        requires attached { attached_of (D.seen disk.old) ≡ Some self.old.world.rings.back.jobs.info.sectors }
        ensures goes { Goes (AreOf event self.old.world) (AreOfSoFar event self.old.world) (10 ^ 10) result
            (moment self.old.world (D.seen disk.old) (R.seen recorder.old))
            (moment self.new.world (D.seen disk.new) (R.seen recorder.new)) }
        ensures counted { self.new.events ≡ self.old.events + 1 }
        ensures lawful { (config : Options) (events : List Event) (begin : Outside) → length events < 10 ^ 9
            → HasLength (content_of begin) config.sectors
            → HasCarried config events begin (moment self.old.world (D.seen disk.old) (R.seen recorder.old))
            → EventLeaves config (events ++ event ∷ []) begin result (moment self.new.world (D.seen disk.new) (R.seen recorder.new)) }
        ensures waits { WaitsByCauses self.new.world }
    {
        self.do_event(event, disk, recorder)
    }

    // Moves both ends as an event says.
    fn do_event<D: SectorDisk, R: Recorder>(
        &mut self,
        event: Event,
        disk: &mut D,
        recorder: &mut R,
    ) -> Result<(), RecordStop>
        requires allowed { is_event_allowed event ≡ true }
        requires few { self.old.events < 10 ^ 9 }
        requires attached { attached_of (D.seen disk.old) ≡ Some self.old.world.rings.back.jobs.info.sectors }
        ensures goes { Goes (Makes event self.old.world) (MakesSoFar event self.old.world) (10 ^ 10) result
            (moment self.old.world (D.seen disk.old) (R.seen recorder.old))
            (moment self.new.world (D.seen disk.new) (R.seen recorder.new)) }
        ensures counted { self.new.events ≡ self.old.events + 1 }
    {
        self.events += 1;
        match event {
            Event::Submit(job) => self.split.submit(job, recorder),
            Event::Front(count) => self.split.front_moves(count, recorder),
            Event::Back(count) => self.split.back_moves(count, disk, recorder),
            Event::Job { number, moves } => self.split.job_moves(number, moves, disk, recorder),
            Event::Turn(count) => self.split.turn(count, disk, recorder),
            Event::Settle => self.split.settle(disk, recorder),
            Event::Look => self.split.look(recorder),
            Event::Notify(at) => {
                self.split.notify(at);
                Ok(())
            }
            Event::Close(at) => self.split.close(at, recorder),
            Event::Poke { frame, word, value } => self.split.poke(frame, word, value, recorder),
            Event::Dump => self.split.dump(recorder),
            Event::Key { name, text } => self.split.overwrite_key(&name, &text, recorder),
            Event::Suspend => self.split.suspend(recorder),
        }
    }
}

/// Whether options are ones that the machine serves yet: either layout, a ring of 1 to 16 pages from
/// any start, indirect requests of up to 960 segments, and a disk of any size, read-only or not, without
/// persistent grants.
pub fn can_serve(config: &Config) -> bool
    ensures { result ≡ are_carried config.now }
{
    config.persistent == 0 && config.indirect <= 960
}
