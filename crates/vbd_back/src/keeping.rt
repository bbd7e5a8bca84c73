// The backend that may keep mappings.
ghost use Rattle.std.specs.Prelude.{◌≡◌, ◌≤◌, IfOk, IsOk, None, true, length};
ghost use Rattle.blk_back.specs.Ask.{StaysInPage};
ghost use Rattle.blk_back.specs.Hands.{hands_of, all_hands_of, most_held, most_with_kept};
ghost use Rattle.back_jobs.specs.Hands.{Names, HandsKeep};
ghost use Rattle.vbd_back.specs.declared.turn.Turn.TheVariants as turn;
ghost use Rattle.vbd_back.specs.Ask.{ask_of, IsAnswer};
ghost use Rattle.vbd_back.specs.Step.{is_plain};
ghost use Rattle.vbd_back.specs.Keeping.{offer_keeping, start_with, start_keeping, step_keeping, closes_keeping, renewed_keeping};
ghost use Rattle.vbd_back.specs.Turn.{turn_of};

mod parts;
mod ring;

use crate::key::Key;
use crate::moves;
use crate::turn::{Turn, turn_of};
use blk_back::Back;
use blk_base::{BackAnswer, BackAsk, Config, Endpoint, Halt, OutOfMemory};
use std::alloc::Global;
use std::marker::Model;
use xenbus_state::{BackBus, DiskFacts, Features};

// What it offers beside reads and writes: barriers, flushes and discards where the disk may be written,
// indirect requests of up to so many segments (none where that is 0), and rings of up to 16 pages; and
// that it keeps mappings where it is to keep some.
fn offer(most: u32, read_only: bool, indirect: u32) -> Features
    ensures { result ≡ offer_keeping most read_only indirect }
{
    Features {
        barrier: !read_only,
        flush: !read_only,
        discard: !read_only,
        persistent: most != 0,
        indirect,
        order: 4,
    }
}

/// The back end of a block device of one ring, which it serves as its front connects, and leaves as
/// its front is gone (`io/blkif.h`). Its jobs move apart from it. Where both ends publish
/// `feature-persistent` 1 it keeps up to so many mappings for later requests. To contracts it is both
/// ends, and how many mappings it is to keep. After `new` it takes no memory.
#[derive(Drop)]
pub struct KeepingBackend {
    ring: Back,
    bus: BackBus,
    most: u32,
    turn: Turn,
    key: Key,
}

impl Model for KeepingBackend {
    ghost use Rattle.vbd_back.specs.Keeping.{KeepingView};
    ghost use Rattle.vbd_back.specs.Inside.{view_of, IsSound};

    ghost Value = { KeepingView };

    ghost view = { view_of };

    ghost invariant = { IsSound };
}

impl KeepingBackend {
    /// A backend that publishes what it offers first. It is to keep as many mappings as the options let it. It
    /// fails only where there is not enough memory.
    pub fn new(alloc: Global, config: &Config) -> Result<KeepingBackend, OutOfMemory>
        ensures { IfOk result (λ backend. backend ≡ start_keeping config.now) }
    {
        KeepingBackend::of(alloc, config, config.persistent)
    }

    /// The same, where it is said how many mappings it is to keep at most.
    pub(crate) fn of(
        alloc: Global,
        config: &Config,
        most: u32,
    ) -> Result<KeepingBackend, OutOfMemory>
        ensures { IfOk result (λ backend. backend ≡ start_with most config.now) }
    {
        let ring = Back::new(alloc, config)?;
        let bus = BackBus::new(
            offer(most, config.read_only, config.indirect),
            DiskFacts::of(config),
        );
        let turn = turn_of(&bus, &ring);
        let key = Key::of(&bus.ask());
        Ok(KeepingBackend {
            ring,
            bus,
            most,
            turn,
            key,
        })
    }

    /// After a suspend: a new backend of the same disk, of a ring of this first index, which publishes
    /// what it offers first; where the front isn't going on, closed or broken, one that has halted. It fails
    /// only where there is not enough memory.
    pub fn renewed(
        &self,
        alloc: Global,
        start: u32,
        going: bool,
    ) -> Result<KeepingBackend, OutOfMemory>
        ensures { IfOk result (λ backend. backend ≡ renewed_keeping start going self.now) }
    {
        let mut ring = self.ring.renewed(alloc, start)?;
        let (features, disk) = (self.bus.features(), self.bus.disk());
        let bus = if going {
            BackBus::new(features, disk)
        } else {
            ring.halt(Halt::Gone(6));
            BackBus::halted(features, disk)
        };
        let turn = turn_of(&bus, &ring);
        let key = Key::of(&bus.ask());
        Ok(KeepingBackend {
            ring,
            bus,
            most: self.most,
            turn,
            key,
        })
    }

    /// The back is to close: once it is connected it says so, between two steps of the ring's end, and
    /// serves on until the front is gone. On a halted back nothing happens.
    pub fn close(&mut self)
        ensures { self.new ≡ closes_keeping self.old }
    {
        self.bus.close();
        self.turn = turn_of(&self.bus, &self.ring);
        self.key = Key::of(&self.bus.ask());
    }
}

impl<'a> Endpoint<'a> for KeepingBackend {
    ghost use Rattle.std.specs.Prelude.{None};
    ghost use Rattle.vbd_back.specs.Ask.{ask_of, IsAnswer};

    type Ask = BackAsk<'a>;

    type Answer = BackAnswer<'a>;

    ghost asked = { λ backend. ask_of backend.ends };

    ghost MayTell = { λ backend answer. IsAnswer (ask_of backend.ends) answer × (backend.ends.ring.told ≡ None) };

    #[inline(always)]
    #[tactic(auto, using(crate::proofs::Turns::open_asks))]
    fn ask(&'a self) -> BackAsk<'a>
        ensures value { result ≡ ask_of self.now.ends }
        ensures within { StaysInPage result }
        ensures names { Names (hands_of self.now.ends.ring) result }
        ensures few { length (hands_of self.now.ends.ring) ≤ most_held }
        ensures few_kept { length (all_hands_of self.now.ends.ring) ≤ most_with_kept }
    {
        // Most moves are of the ring's end, once its port is bound.
        let ask = self.ring.ask();
        match self.turn {
            Turn::Ring => ask,
            _ => self.ask_by_turn(),
        }
    }

    fn tell(&mut self, answer: &BackAnswer<'a>) -> Result<(), OutOfMemory>
        requires { IsAnswer (ask_of self.old.ends) answer.now × (self.old.ends.ring.told ≡ None) }
        ensures completed { self.new ≡ step_keeping self.old answer.now }
        ensures hands { HandsKeep (ask_of self.old.ends) answer.now (all_hands_of self.old.ends.ring) (all_hands_of self.new.ends.ring) }
        ensures takes_no_memory { IsOk result }
    {
        self.step(answer);
        Ok(())
    }
}

impl KeepingBackend {
    // What is asked, whosever turn it is.
    #[inline(never)]
    #[tactic(auto, using(crate::proofs::Turns::ring_asks))]
    fn ask_by_turn(&self) -> BackAsk<'_>
        ensures value { result ≡ ask_of self.now.ends }
        ensures within { StaysInPage result }
        ensures names { Names (hands_of self.now.ends.ring) result }
    {
        match self.turn {
            Turn::Keys => self.key.lend(&self.bus.ask()),
            _ if moves::ring_moves(&self.ring, &self.bus) => self.ring.ask(),
            _ => BackAsk::Wait,
        }
    }

    // What an answer makes of it. The negotiation learns nothing of the moves of the ring's end but of
    // a watch and a halt.
    #[inline(always)]
    #[tactic(auto, using(crate::proofs::Kept::keep_done))]
    fn step(&mut self, answer: &BackAnswer)
        requires kind { IsAnswer (ask_of self.old.ends) answer.now }
        requires heard { self.old.ends.ring.told ≡ None }
        ensures completed { self.new ≡ step_keeping self.old answer.now }
        ensures hands { HandsKeep (ask_of self.old.ends) answer.now (all_hands_of self.old.ends.ring) (all_hands_of self.new.ends.ring) }
    {
        match (self.turn, answer) {
            (Turn::Ring, BackAnswer::Watched(_)) => self.tell_by_turn(answer),
            (Turn::Ring, _) => self.serve(answer),
            _ => self.tell_by_turn(answer),
        }
    }

    // Answers what is asked, whosever turn it is.
    #[inline(never)]
    fn tell_by_turn(&mut self, answer: &BackAnswer)
        requires kind { IsAnswer (ask_of self.old.ends) answer.now }
        requires heard { self.old.ends.ring.told ≡ None }
        ensures { self.new ≡ step_keeping self.old answer.now }
    {
        moves::tell(self.turn, &mut self.ring, &mut self.bus, self.most, answer);
        self.turn = turn_of(&self.bus, &self.ring);
        self.key = Key::of(&self.bus.ask());
    }

    // The ring's end was answered, and took no watch: where it halts, so does the negotiation.
    #[inline(always)]
    #[tactic(auto, using(crate::proofs::Turns::open_answers, crate::proofs::Turns::open_steps, crate::proofs::Turns::rests))]
    fn serve(&mut self, answer: &BackAnswer)
        requires turn { turn_of self.old.ends ≡ turn.Ring }
        requires plain { is_plain answer.now ≡ true }
        requires kind { IsAnswer (ask_of self.old.ends) answer.now }
        requires heard { self.old.ends.ring.told ≡ None }
        ensures { self.new ≡ step_keeping self.old answer.now }
    {
        let _ = self.ring.tell(answer);
        if self.ring.halted().is_some() {
            moves::catch_up(&self.ring, &mut self.bus);
            self.turn = turn_of(&self.bus, &self.ring);
            self.key = Key::of(&self.bus.ask());
        }
    }
}
