// The frontend that may keep its grants.
ghost use Rattle.std.specs.Prelude.{◌≡◌, ◌||◌, ◌≤◌, ◌^◌, None, is_some, IfOk, IfSome, IsOk, length};
ghost use Rattle.blk_front.specs.Submit.{submit_of, unfinished, sectors_owed};
ghost use Rattle.vbd_front.specs.Ask.{IsAnswer, StaysInMemory};
ghost use Rattle.vbd_front.specs.Turn.{data_asked};
ghost use Rattle.blk_front.specs.State.{is_open};
ghost use Rattle.blk_front.specs.Part.{HasWritten, HasRead, HasEntered, all_written, all_read, AsksEach, AsksEntry, IsWithin, IsEntryWithin};
ghost use Rattle.vbd_front.specs.Part.{sector_part, entry_part, entry_words};
ghost use Rattle.vbd_front.specs.Keep.{start_as, ask_as, is_waiting_as, step_as, closes_as, suspended_as, heard_as, with_ring, steps_as, AreTellableAs};

use crate::ends::Ends;
use crate::key::Key;
use crate::turn::Turn;
use blk_base::{Config, Endpoint, FrontAnswer, FrontAsk, OutOfMemory, Refusal, Submission};
use blk_front::{EntryPart, SectorPart, Told};
use std::alloc::Global;
use std::marker::Model;
use xenbus_state::FrontNews;

/// The front end of a block device: its end of a ring, which it makes, serves and leaves
/// as the negotiation with the back asks for it. Where both publish `feature-persistent` 1 it keeps its
/// grants (`io/blkif.h`). To contracts it is both ends, and whether it is to keep grants; whose turn it
/// is, and the path and the text of a key that is asked for, are found where they may change. After
/// `new` it takes no memory.
#[derive(Drop)]
pub struct KeepingFrontend {
    ends: Ends,
    turn: Turn,
    key: Key,
}

impl Model for KeepingFrontend {
    ghost use Rattle.vbd_front.specs.Keep.{KeepingView};
    ghost use Rattle.vbd_front.specs.Sound.{IsSound};

    ghost Value = { KeepingView };

    ghost view = { λ f. f.ends };

    ghost invariant = { IsSound };
}

impl KeepingFrontend {
    /// A frontend that sets its watch first. It is to keep grants, and says so, where the options let
    /// mappings be kept. It fails only where there is not enough memory.
    pub fn new(alloc: Global, config: &Config) -> Result<KeepingFrontend, OutOfMemory>
        ensures { IfOk result (λ f. f ≡ start_as config.now) }
    {
        KeepingFrontend::of(alloc, config, config.persistent != 0)
    }

    /// The same, where it is said whether it is to keep grants.
    pub(crate) fn of(
        alloc: Global,
        config: &Config,
        keeps: bool,
    ) -> Result<KeepingFrontend, OutOfMemory>
        ensures { IfOk result (λ f. f ≡ record (start_as config.now) { keeps = keeps }) }
    {
        let ends = Ends::new(alloc, config, keeps)?;
        let turn = ends.turn();
        let key = Key::of(&ends.bus_ask());
        Ok(KeepingFrontend { ends, turn, key })
    }

    /// Hands the ring's end a request, and answers its number, one more than the last. A refusal is
    /// the first that applies, exactly where it does, and changes nothing. It takes no memory.
    pub fn submit(&mut self, submission: Submission) -> Result<u32, Refusal>
        ensures answer { result ≡ (submit_of self.old.ends.ring submission).0 }
        ensures front { self.new ≡ with_ring self.old (submit_of self.old.ends.ring submission).1 }
    {
        let answer = self.ends.submit(submission);
        self.turn = self.ends.turn();
        self.key = Key::of(&self.ends.bus_ask());
        answer
    }

    /// The front is to close: it takes no more requests, and closes once it has finished those that it
    /// has. Where it closes already, or is closed or broken, nothing happens. What the negotiation made
    /// happen before is to be told first, so that none of it is lost.
    pub fn close(&mut self)
        requires told { self.old.ends.news ≡ None }
        ensures { self.new ≡ closes_as self.old }
    {
        self.ends.close();
        self.turn = self.ends.turn();
        self.key = Key::of(&self.ends.bus_ask());
    }

    /// Whether it is neither closed nor broken.
    pub fn is_open(&self) -> bool
        ensures { result ≡ is_open self.now.ends.ring.stage }
    {
        self.ends.is_open()
    }

    /// The domain was suspended and resumes: the front negotiates anew, and then issues each request
    /// whose answer wasn't told again, in order of number. The data of a read whose answer was told
    /// are told before anything else. On a closed or broken front nothing happens. It takes no memory.
    pub fn suspend(&mut self)
        ensures { self.new ≡ suspended_as self.old }
    {
        self.ends.suspend();
        self.turn = self.ends.turn();
        self.key = Key::of(&self.ends.bus_ask());
    }

    /// Whether it asks for nothing but an event or a watch.
    #[inline(always)]
    #[tactic(auto, using(crate::proofs::Turns::made_asks))]
    pub fn waits(&self) -> bool
        ensures { result ≡ is_waiting_as self.now }
    {
        match self.turn {
            Turn::Ring => self.ends.ring_waits(),
            _ => self.waits_by_turn(),
        }
    }

    /// How many requests are unfinished, and how many sectors they move.
    pub fn owed(&self) -> (u32, u64)
        ensures requests { result.0 ≡ unfinished self.now.ends.ring }
        ensures sectors { result.1 ≡ sectors_owed self.now.ends.ring }
        ensures few { result.0 ≤ 512 }
        ensures short { result.1 ≤ 3939840 }
    {
        self.ends.owed()
    }

    /// The first index of its ring.
    pub fn start(&self) -> u32
        ensures { result ≡ self.now.ends.ring.start }
    {
        self.ends.start()
    }

    /// How many pages its ring has.
    pub fn ring_pages(&self) -> u32
        ensures value { result ≡ 2 ^ self.now.ends.ring.shape.order }
        ensures few { result ≤ 16 }
    {
        self.ends.ring_pages()
    }

    /// Whether something is left to tell.
    #[inline(always)]
    pub fn has_told(&self) -> bool
        ensures { result ≡ (is_some self.now.ends.ring.told || is_some self.now.ends.news) }
    {
        self.ends.has_told()
    }

    /// What happened at the ring in the last move, and what the negotiation made happen, once; `None`
    /// twice exactly where nothing is left to tell.
    pub fn take_told(&mut self) -> (Option<Told>, Option<FrontNews>)
        ensures told { result.0 ≡ self.old.ends.ring.told }
        ensures news { result.1 ≡ self.old.ends.news }
        ensures taken { self.new ≡ heard_as self.old }
    {
        self.ends.take_told()
    }
}

impl KeepingFrontend {
    /// What it asks where that is a word of a request's data, as most of its moves are. `None` elsewhere, and where
    /// `blk_front: Front::data_asked` leaves a word to `ask`.
    #[inline(always)]
    #[tactic(auto, using(crate::proofs::Turns::made_asks))]
    pub fn data_asked(&self) -> Option<FrontAsk<'_>>
        ensures value { result ≡ data_asked self.now.ends }
        ensures asked { IfSome result (λ ask. ask ≡ ask_as self.now) }
        ensures within { IfSome result (λ ask. StaysInMemory ask) }
    {
        match self.turn {
            Turn::Ring => self.ends.data_asked(),
            _ => None,
        }
    }

    /// The words of a request's data that it asks for next, one after another, up to the last word of their sector: of a
    /// write or a barrier as it is issued, and of a read that was answered. `None` where it asks for no such word.
    pub fn sector_part(&self) -> Option<SectorPart>
        ensures value { result ≡ sector_part self.now.ends }
        ensures asked { IfSome result (AsksEach ask_as step_as self.now) }
        ensures within { IfSome result IsWithin }
    {
        self.ends.sector_part(self.turn)
    }

    /// So many of the words that it asks for were written: as many single answers, one after another. Nothing is told.
    pub fn tell_written(&mut self, count: u32)
        requires part { HasWritten (sector_part self.old.ends) count }
        requires told { self.old.ends.ring.told ≡ None }
        ensures front { self.new ≡ steps_as self.old (all_written count) }
        ensures each { AreTellableAs self.old (all_written count) }
        ensures told { self.new.ends.ring.told ≡ None }
        ensures ring { self.new ≡ with_ring self.old self.new.ends.ring }
    {
        self.ends.tell_written(count);
        self.turn = self.ends.turn();
        self.key = Key::of(&self.ends.bus_ask());
    }

    /// These of the words that it asks for were read: as many single answers, one after another. A sector is told after
    /// its last word.
    pub fn tell_read(&mut self, words: &[u32])
        requires part { HasRead (sector_part self.old.ends) (length words.now) }
        requires told { self.old.ends.ring.told ≡ None }
        ensures front { self.new ≡ steps_as self.old (all_read words.now) }
        ensures each { AreTellableAs self.old (all_read words.now) }
        ensures ring { self.new ≡ with_ring self.old self.new.ends.ring }
    {
        self.ends.tell_read(words);
        self.turn = self.ends.turn();
        self.key = Key::of(&self.ends.bus_ask());
    }

    /// The words of the entry in hand that it writes next, as single asks would name them one after another: up to the
    /// entry's last word, or to the last one of their frame where the entry goes on in the next. `None` where it writes
    /// no entry, and at the first word of an entry with which a request is begun.
    #[inline(always)]
    pub fn entry_part(&self) -> Option<EntryPart>
        ensures value { result ≡ entry_part self.now.ends }
        ensures asked { IfSome result (AsksEntry ask_as step_as self.now (entry_words self.now.ends)) }
        ensures within { IfSome result (IsEntryWithin (entry_words self.now.ends)) }
    {
        self.ends.entry_part(self.turn)
    }

    /// What the words of the entry in hand are to be, from the one that it writes next on up to the entry's last one; none
    /// where it writes no entry.
    #[inline(always)]
    pub fn entry_words(&self) -> &[u32]
        ensures { result.now ≡ entry_words self.now.ends }
    {
        self.ends.entry_words()
    }

    /// So many of the words of the entry that it asks for were written: as many single answers, one after another. Nothing
    /// is told.
    pub fn tell_entered(&mut self, count: u32)
        requires part { HasEntered (entry_part self.old.ends) count }
        requires told { self.old.ends.ring.told ≡ None }
        ensures front { self.new ≡ steps_as self.old (all_written count) }
        ensures each { AreTellableAs self.old (all_written count) }
        ensures told { self.new.ends.ring.told ≡ None }
        ensures ring { self.new ≡ with_ring self.old self.new.ends.ring }
    {
        self.ends.tell_entered(count);
        self.turn = self.ends.turn();
        self.key = Key::of(&self.ends.bus_ask());
    }

    // Whether it asks for nothing but an event or a watch, whosever turn it is.
    #[inline(never)]
    fn waits_by_turn(&self) -> bool
        ensures { result ≡ is_waiting_as self.now }
    {
        matches!(self.ask_by_turn(), FrontAsk::Wait)
    }

    // What is asked, whosever turn it is.
    #[inline(never)]
    #[tactic(auto, using(crate::proofs::Turns::ring_asks))]
    fn ask_by_turn(&self) -> FrontAsk<'_>
        ensures value { result ≡ ask_as self.now }
        ensures within { StaysInMemory result }
    {
        match self.turn {
            Turn::Keys => self.key.lend(&self.ends.bus_ask()),
            _ if self.ends.ring_moves() => self.ends.ring_ask(),
            _ => FrontAsk::Wait,
        }
    }

    // Answers what is asked, whosever turn it is.
    #[inline(never)]
    fn tell_by_turn<'a>(&mut self, answer: &FrontAnswer<'a>)
        requires kind { IsAnswer (ask_as self.old) answer.now }
        requires told { self.old.ends.ring.told ≡ None }
        ensures { self.new ≡ step_as self.old answer.now }
    {
        self.ends.tell(self.turn, answer);
        self.turn = self.ends.turn();
        self.key = Key::of(&self.ends.bus_ask());
    }
}

impl<'a> Endpoint<'a> for KeepingFrontend {
    ghost use Rattle.std.specs.Prelude.{None};
    ghost use Rattle.vbd_front.specs.Ask.{IsAnswer};
    ghost use Rattle.vbd_front.specs.Keep.{ask_as};

    type Ask = FrontAsk<'a>;

    type Answer = FrontAnswer<'a>;

    ghost asked = { ask_as };

    ghost MayTell = { λ front answer. IsAnswer (ask_as front) answer × (front.ends.ring.told ≡ None) };

    #[inline(always)]
    #[tactic(auto, using(crate::proofs::Turns::made_asks))]
    fn ask(&'a self) -> FrontAsk<'a>
        ensures value { result ≡ ask_as self.now }
        ensures within { StaysInMemory result }
    {
        // Most moves are of the ring's end, once it is made.
        match self.turn {
            Turn::Ring => self.ends.ring_ask(),
            _ => self.ask_by_turn(),
        }
    }

    #[inline(always)]
    #[tactic(auto, using(crate::proofs::Turns::made_answers, crate::proofs::Turns::made_steps))]
    fn tell(&mut self, answer: &FrontAnswer<'a>) -> Result<(), OutOfMemory>
        requires { IsAnswer (ask_as self.old) answer.now × (self.old.ends.ring.told ≡ None) }
        ensures completed { self.new ≡ step_as self.old answer.now }
        ensures takes_no_memory { IsOk result }
    {
        // The negotiation learns nothing of the moves of a ring that is made, but of a watch.
        match (self.turn, answer) {
            (Turn::Ring, FrontAnswer::Event | FrontAnswer::Done | FrontAnswer::Word(_)) => {
                self.ends.tell_ring(answer);
            }
            _ => self.tell_by_turn(answer),
        }
        Ok(())
    }
}
