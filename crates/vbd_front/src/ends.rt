// Both of the front's ends.
ghost use Rattle.std.specs.Prelude.{◌≡◌, ◌||◌, ◌≤◌, ◌^◌, None, is_some, IfOk, IfSome, true, false, length};
ghost use Rattle.blk_front.specs.Ask.{data_asked, IsAnswer as IsRingAnswer};
ghost use Rattle.blk_front.specs.Keep.{ask_as as ring_asked, step_as as ring_stepped};
ghost use Rattle.blk_front.specs.Submit.{submit_of, unfinished, sectors_owed, is_wait};
ghost use Rattle.xenbus_state.specs.FrontAsk.{IsAnswer as IsBusAnswer};
ghost use Rattle.vbd_front.specs.View.{is_still, is_unoccupied};
ghost use Rattle.vbd_front.specs.Ask.{bus_ask_of, ring_moves, IsAnswer, StaysInMemory};
ghost use Rattle.blk_front.specs.State.{is_open};
ghost use Rattle.blk_front.specs.Suspend.{is_left};
ghost use Rattle.vbd_front.specs.Keep.{start_as, ask_as, spoken_as, ring_step_as, step_as, closes_as, suspended_as, heard_as, with_ring, steps_as, AreTellableAs};
ghost use Rattle.vbd_front.specs.Turn.{turn_of};
ghost use Rattle.blk_front.specs.Part.{HasWritten, HasRead, HasEntered, all_written, all_read, AsksEach, AsksEntry, IsWithin, IsEntryWithin};
ghost use Rattle.vbd_front.specs.Part.{sector_part, entry_part, entry_words};

use crate::news;
use crate::turn::{self, Turn};
use blk_base::{Config, Endpoint, FrontAnswer, FrontAsk, OutOfMemory, Refusal, Submission};
use blk_front::{EntryPart, Front, FrontStage, SectorPart, Told};
use std::alloc::Global;
use std::marker::Model;
use xenbus_state::{FrontBus, FrontBusAsk, FrontNews};

/// The front's end of the ring, which it makes, serves and leaves as its end of the negotiation
/// asks for it; what the negotiation made happen, which is to be told; and whether the front is to keep
/// its grants where both ends published that.
#[derive(Drop)]
pub struct Ends {
    ring: Front,
    bus: FrontBus,
    news: Option<FrontNews>,
    keeps: bool,
}

impl Model for Ends {
    ghost use Rattle.vbd_front.specs.Keep.{KeepingView};
    ghost use Rattle.vbd_front.specs.Inside.{view_of};

    ghost Value = { KeepingView };

    ghost view = { view_of };
}

impl Ends {
    /// Ends that set their watch first. It fails only where there is not enough memory.
    pub fn new(alloc: Global, config: &Config, keeps: bool) -> Result<Ends, OutOfMemory>
        ensures { IfOk result (λ ends. ends ≡ record (start_as config.now) { keeps = keeps }) }
    {
        Ok(Ends {
            ring: Front::new(alloc, config)?,
            bus: FrontBus::new(config),
            news: None,
            keeps,
        })
    }

    /// What the negotiation asks: nothing while data are in hand after a suspend.
    pub fn bus_ask(&self) -> FrontBusAsk
        ensures { result ≡ bus_ask_of self.now.ends }
    {
        match self.ring.stage() {
            FrontStage::LeftData(_) => FrontBusAsk::Wait,
            _ => self.bus.ask(self.is_unoccupied()),
        }
    }

    /// Whose turn it is.
    pub fn turn(&self) -> Turn
        ensures { result ≡ turn_of self.now.ends }
    {
        turn::turn_of(&self.bus_ask(), &self.bus, &self.ring)
    }

    // Whether nothing of a request is left, and no step is begun.
    fn is_unoccupied(&self) -> bool
        ensures { result ≡ is_unoccupied self.now.ends.ring }
    {
        self.ring.owed().0 == 0 && is_still(self.ring.stage())
    }

    /// Whether the ring's end has the move, where the negotiation leaves it.
    pub fn ring_moves(&self) -> bool
        ensures { result ≡ ring_moves (bus_ask_of self.now.ends) self.now.ends.ring.stage }
    {
        match (self.bus_ask(), self.ring.stage()) {
            (FrontBusAsk::WriteRingWord(_), stage) => matches!(stage, FrontStage::RingWord(_)),
            (FrontBusAsk::Grant(_), stage) => {
                matches!(
                    stage,
                    FrontStage::RingFrame(_) | FrontStage::RingFence(_) | FrontStage::RingFlags(_)
                )
            }
            (FrontBusAsk::NewPort, stage) => matches!(stage, FrontStage::NewPort),
            (FrontBusAsk::EndGrant(_), stage) => {
                matches!(
                    stage,
                    FrontStage::RingRead(_) | FrontStage::RingEnd(..) | FrontStage::Broken(_)
                )
            }
            (FrontBusAsk::ClosePort, stage) => matches!(stage, FrontStage::ClosePort),
            (FrontBusAsk::Wait, FrontStage::LeftData(_)) => true,
            _ => self.ring.is_connected(),
        }
    }

    /// What the ring's end asks.
    #[inline(always)]
    pub fn ring_ask(&self) -> FrontAsk<'_>
        ensures value { result ≡ ring_asked self.now.ends.ring }
        ensures within { StaysInMemory result }
    {
        self.ring.ask()
    }

    /// What the ring's end asks, where it says by itself that this is a word of a request's data.
    #[inline(always)]
    pub fn data_asked(&self) -> Option<FrontAsk<'_>>
        ensures value { result ≡ data_asked self.now.ends.ring }
        ensures asked { IfSome result (λ ask. ask ≡ ring_asked self.now.ends.ring) }
        ensures within { IfSome result (λ ask. StaysInMemory ask) }
    {
        self.ring.data_asked()
    }

    /// The ring's end was answered, of which the negotiation learns nothing.
    #[inline(always)]
    pub fn tell_ring<'a>(&mut self, answer: &FrontAnswer<'a>)
        requires kind { IsRingAnswer (ring_asked self.old.ends.ring) answer.now }
        requires told { self.old.ends.ring.told ≡ None }
        ensures { self.new ≡ with_ring self.old (ring_stepped self.old.ends.ring answer.now) }
    {
        let _ = self.ring.tell(answer);
    }

    /// Answers what is asked, whosever turn it is.
    #[tactic(auto, using(crate::proofs::Turns::ring_answers, crate::proofs::Turns::ring_steps, crate::proofs::Turns::left_steps, crate::proofs::Turns::left_speaks, crate::proofs::Turns::left_answers))]
    pub fn tell<'a>(&mut self, turn: Turn, answer: &FrontAnswer<'a>)
        requires turn { turn ≡ turn_of self.old.ends }
        requires kind { IsAnswer (ask_as self.old) answer.now }
        requires told { self.old.ends.ring.told ≡ None }
        ensures { self.new ≡ step_as self.old answer.now }
    {
        match turn {
            Turn::Keys => self.take_key(answer),
            _ if self.ring.has_left() => self.tell_ring(answer),
            _ if self.ring_moves() => self.move_ring(answer),
            _ => self.take_watch(answer),
        }
    }

    // The negotiation was answered.
    fn take_key(&mut self, answer: &FrontAnswer)
        requires left { is_left self.old.ends.ring.stage ≡ false }
        requires kind { IsBusAnswer (bus_ask_of self.old.ends) answer.now }
        ensures { self.new ≡ record self.old { ends = spoken_as self.old.keeps self.old.ends answer.now } }
    {
        let idle = self.is_unoccupied();
        let news = news::tell(&mut self.bus, idle, answer);
        let offers = news::offers(&self.bus, self.keeps);
        self.news = news::enter(&mut self.ring, news, &self.bus.ask(idle), &self.bus, offers);
    }

    // The ring's end has moved.
    #[tactic(auto, using(crate::proofs::Turns::heard))]
    fn move_ring<'a>(&mut self, answer: &FrontAnswer<'a>)
        requires left { is_left self.old.ends.ring.stage ≡ false }
        requires moves { ring_moves (bus_ask_of self.old.ends) self.old.ends.ring.stage ≡ true }
        requires kind { IsRingAnswer (ring_asked self.old.ends.ring) answer.now }
        requires told { self.old.ends.ring.told ≡ None }
        ensures { self.new ≡ record self.old { ends = ring_step_as true self.old.keeps (bus_ask_of self.old.ends) self.old.ends answer.now } }
    {
        let (idle, earlier) = (self.is_unoccupied(), self.ring.stage());
        let _ = self.ring.tell(answer);
        let stages = (earlier, self.ring.stage());
        news::follow(&mut self.bus, idle, self.keeps, stages, answer);
    }

    // The negotiation alone waited.
    fn take_watch(&mut self, answer: &FrontAnswer)
        requires { is_left self.old.ends.ring.stage ≡ false }
        ensures { self.new ≡ record self.old { ends = ring_step_as false self.old.keeps (bus_ask_of self.old.ends) self.old.ends answer.now } }
    {
        let idle = self.is_unoccupied();
        news::wake(&mut self.bus, idle, answer);
    }

    /// The words of a request's data that it asks for next, up to the last word of their sector.
    pub fn sector_part(&self, turn: Turn) -> Option<SectorPart>
        requires { turn ≡ turn_of self.now.ends }
        ensures value { result ≡ sector_part self.now.ends }
        ensures asked { IfSome result (AsksEach ask_as step_as self.now) }
        ensures within { IfSome result IsWithin }
    {
        match turn {
            Turn::Keys => None,
            _ if self.ring_moves() => self.ring.sector_part(),
            _ => None,
        }
    }

    /// So many of those words were written.
    pub fn tell_written(&mut self, count: u32)
        requires part { HasWritten (sector_part self.old.ends) count }
        requires told { self.old.ends.ring.told ≡ None }
        ensures ends { self.new ≡ steps_as self.old (all_written count) }
        ensures each { AreTellableAs self.old (all_written count) }
        ensures told { self.new.ends.ring.told ≡ None }
        ensures ring { self.new ≡ with_ring self.old self.new.ends.ring }
    {
        self.ring.tell_written(count);
    }

    /// These of them were read.
    pub fn tell_read(&mut self, words: &[u32])
        requires part { HasRead (sector_part self.old.ends) (length words.now) }
        requires told { self.old.ends.ring.told ≡ None }
        ensures ends { self.new ≡ steps_as self.old (all_read words.now) }
        ensures each { AreTellableAs self.old (all_read words.now) }
        ensures ring { self.new ≡ with_ring self.old self.new.ends.ring }
    {
        self.ring.tell_read(words);
    }

    /// The words of the entry in hand that it writes next, up to the entry's last one or to the last one of their frame.
    #[inline(always)]
    pub fn entry_part(&self, turn: Turn) -> Option<EntryPart>
        requires { turn ≡ turn_of self.now.ends }
        ensures value { result ≡ entry_part self.now.ends }
        ensures asked { IfSome result (AsksEntry ask_as step_as self.now (entry_words self.now.ends)) }
        ensures within { IfSome result (IsEntryWithin (entry_words self.now.ends)) }
    {
        match turn {
            Turn::Keys => None,
            _ if self.ring_moves() => self.ring.entry_part(),
            _ => None,
        }
    }

    /// What these are to be, and those after them up to the entry's last one.
    #[inline(always)]
    pub fn entry_words(&self) -> &[u32]
        ensures { result.now ≡ entry_words self.now.ends }
    {
        self.ring.entry_words()
    }

    /// So many of those words were written.
    #[inline(always)]
    pub fn tell_entered(&mut self, count: u32)
        requires part { HasEntered (entry_part self.old.ends) count }
        requires told { self.old.ends.ring.told ≡ None }
        ensures ends { self.new ≡ steps_as self.old (all_written count) }
        ensures each { AreTellableAs self.old (all_written count) }
        ensures told { self.new.ends.ring.told ≡ None }
        ensures ring { self.new ≡ with_ring self.old self.new.ends.ring }
    {
        self.ring.tell_entered(count);
    }

    /// The front is asked to close.
    pub fn close(&mut self)
        ensures { self.new ≡ closes_as self.old }
    {
        let _ = self.bus.close();
        let news = Some(FrontNews::Closing);
        let offers = news::offers(&self.bus, self.keeps);
        self.news = news::enter(&mut self.ring, news, &FrontBusAsk::Wait, &self.bus, offers);
    }

    /// Whether the front is neither closed nor broken.
    pub fn is_open(&self) -> bool
        ensures { result ≡ is_open self.now.ends.ring.stage }
    {
        !matches!(
            self.ring.stage(),
            FrontStage::Closed | FrontStage::Broken(_)
        )
    }

    /// The domain was suspended and resumes.
    pub fn suspend(&mut self)
        ensures { self.new ≡ suspended_as self.old }
    {
        if self.is_open() {
            self.ring.suspend();
            self.bus.suspend();
        }
    }

    /// Hands the ring's end a request.
    pub fn submit(&mut self, submission: Submission) -> Result<u32, Refusal>
        ensures answer { result ≡ (submit_of self.old.ends.ring submission).0 }
        ensures front { self.new ≡ with_ring self.old (submit_of self.old.ends.ring submission).1 }
    {
        self.ring.submit(submission)
    }

    /// Whether the ring's end asks for nothing but an event.
    #[inline(always)]
    #[tactic(auto, using(crate::proofs::Turns::idle_or_led))]
    pub fn ring_waits(&self) -> bool
        ensures { result ≡ is_wait (ring_asked self.now.ends.ring) }
    {
        self.ring.idle()
            || matches!(
                self.ring.stage(),
                FrontStage::Initialised | FrontStage::Left
            )
    }

    /// How many requests are unfinished, and how many sectors they move.
    pub fn owed(&self) -> (u32, u64)
        ensures requests { result.0 ≡ unfinished self.now.ends.ring }
        ensures sectors { result.1 ≡ sectors_owed self.now.ends.ring }
        ensures few { result.0 ≤ 512 }
        ensures short { result.1 ≤ 3939840 }
    {
        self.ring.owed()
    }

    /// The first index of its ring.
    pub fn start(&self) -> u32
        ensures { result ≡ self.now.ends.ring.start }
    {
        self.ring.start()
    }

    /// How many pages its ring has.
    pub fn ring_pages(&self) -> u32
        ensures value { result ≡ 2 ^ self.now.ends.ring.shape.order }
        ensures few { result ≤ 16 }
    {
        self.ring.pages()
    }

    /// Whether something is left to tell.
    #[inline(always)]
    pub fn has_told(&self) -> bool
        ensures { result ≡ (is_some self.now.ends.ring.told || is_some self.now.ends.news) }
    {
        self.ring.has_told() || self.news.is_some()
    }

    /// What happened at the ring, and what the negotiation made happen, once.
    pub fn take_told(&mut self) -> (Option<Told>, Option<FrontNews>)
        ensures told { result.0 ≡ self.old.ends.ring.told }
        ensures news { result.1 ≡ self.old.ends.news }
        ensures taken { self.new ≡ heard_as self.old }
    {
        (self.ring.take_told(), self.news.take())
    }
}

// Whether no step of a request or of the ring's loop is begun.
fn is_still(stage: FrontStage) -> bool
    ensures { result ≡ is_still stage }
{
    matches!(
        stage,
        FrontStage::RingWord(_)
            | FrontStage::Initialised
            | FrontStage::Loop
            | FrontStage::RingRead(_)
            | FrontStage::RingEnd(..)
            | FrontStage::KeptRead(_)
            | FrontStage::KeptEnd(..)
            | FrontStage::ClosePort
            | FrontStage::Left
            | FrontStage::Closed
    )
}
