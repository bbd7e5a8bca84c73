// The frontend that keeps no grants.
ghost use Rattle.std.specs.Prelude.{◌≡◌, ◌||◌, ◌≤◌, ◌^◌, None, is_some, IfOk, IfSome, IsOk, length};
ghost use Rattle.blk_front.specs.Submit.{submit_of, unfinished, sectors_owed};
ghost use Rattle.vbd_front.specs.View.{IsUnkept, start_of, heard};
ghost use Rattle.vbd_front.specs.Ask.{ask_of, is_waiting, IsAnswer, StaysInMemory};
ghost use Rattle.vbd_front.specs.Turn.{data_asked};
ghost use Rattle.blk_front.specs.State.{is_open};
ghost use Rattle.blk_front.specs.Part.{HasWritten, HasRead, HasEntered, all_written, all_read, AsksEach, AsksEntry, IsWithin, IsEntryWithin};
ghost use Rattle.vbd_front.specs.Part.{sector_part, entry_part, entry_words, steps_of, AreTellable};
ghost use Rattle.vbd_front.specs.Step.{step_of, closes, suspended};

use crate::keeping::KeepingFrontend;
use blk_base::{Config, Endpoint, FrontAnswer, FrontAsk, OutOfMemory, Refusal, Submission};
use blk_front::{EntryPart, SectorPart, Told};
use std::alloc::Global;
use std::marker::Model;
use xenbus_state::FrontNews;

/// The front end of a block device, likewise, that never keeps a grant, whatever its back offers: that of
/// the machine of both domains. To contracts it is both ends.
#[derive(Drop)]
pub struct Frontend {
    front: KeepingFrontend,
}

impl Model for Frontend {
    ghost use Rattle.vbd_front.specs.View.{View};
    ghost use Rattle.vbd_front.specs.Keep.{IsPlain};

    ghost Value = { View };

    ghost view = { λ f. f.front.ends };

    ghost invariant = { λ f. IsPlain f.front };
}

impl Frontend {
    /// A frontend that sets its watch first. It fails only where there is not enough memory.
    pub fn new(alloc: Global, config: &Config) -> Result<Frontend, OutOfMemory>
        ensures { IfOk result (λ f. f ≡ start_of config.now) }
    {
        let front = KeepingFrontend::of(alloc, config, false)?;
        Ok(Frontend { front })
    }

    /// Hands the ring's end a request, and answers its number, one more than the last. A refusal is
    /// the first that applies, exactly where it does, and changes nothing. It takes no memory.
    #[tactic(auto, using(crate::proofs::Unkept::handed_none))]
    pub fn submit(&mut self, submission: Submission) -> Result<u32, Refusal>
        ensures answer { result ≡ (submit_of self.old.ring submission).0 }
        ensures front { self.new ≡ record self.old { ring = (submit_of self.old.ring submission).1 } }
    {
        self.front.submit(submission)
    }

    /// The front is to close: it takes no more requests, and closes once it has finished those that it
    /// has. Where it closes already, or is closed or broken, nothing happens. What the negotiation made
    /// happen before is to be told first, so that none of it is lost.
    #[tactic(auto, using(crate::proofs::Unkept::closed_none))]
    pub fn close(&mut self)
        requires told { self.old.news ≡ None }
        ensures { self.new ≡ closes self.old }
    {
        self.front.close();
    }

    /// Whether it is neither closed nor broken.
    pub fn is_open(&self) -> bool
        ensures { result ≡ is_open self.now.ring.stage }
    {
        self.front.is_open()
    }

    /// The domain was suspended and resumes: the front negotiates anew, and then issues each request
    /// whose answer wasn't told again, in order of number. The data of a read whose answer was told
    /// are told before anything else. On a closed or broken front nothing happens. It takes no memory.
    #[tactic(auto, using(crate::proofs::Unkept::suspended_none))]
    pub fn suspend(&mut self)
        ensures { self.new ≡ suspended self.old }
    {
        self.front.suspend();
    }

    /// Whether it asks for nothing but an event or a watch.
    #[inline(always)]
    #[tactic(auto, using(crate::proofs::Unkept::waits_plainly))]
    pub fn waits(&self) -> bool
        ensures { result ≡ is_waiting self.now }
    {
        self.front.waits()
    }

    /// How many requests are unfinished, and how many sectors they move.
    pub fn owed(&self) -> (u32, u64)
        ensures requests { result.0 ≡ unfinished self.now.ring }
        ensures sectors { result.1 ≡ sectors_owed self.now.ring }
        ensures few { result.0 ≤ 512 }
        ensures short { result.1 ≤ 3939840 }
    {
        self.front.owed()
    }

    /// The first index of its ring.
    pub fn start(&self) -> u32
        ensures { result ≡ self.now.ring.start }
    {
        self.front.start()
    }

    /// How many pages its ring has.
    pub fn ring_pages(&self) -> u32
        ensures value { result ≡ 2 ^ self.now.ring.shape.order }
        ensures few { result ≤ 16 }
    {
        self.front.ring_pages()
    }

    /// Whether something is left to tell.
    #[inline(always)]
    pub fn has_told(&self) -> bool
        ensures { result ≡ (is_some self.now.ring.told || is_some self.now.news) }
    {
        self.front.has_told()
    }

    /// What happened at the ring in the last move, and what the negotiation made happen, once; `None`
    /// twice exactly where nothing is left to tell.
    pub fn take_told(&mut self) -> (Option<Told>, Option<FrontNews>)
        ensures told { result.0 ≡ self.old.ring.told }
        ensures news { result.1 ≡ self.old.news }
        ensures taken { self.new ≡ heard self.old }
    {
        self.front.take_told()
    }

    /// What it asks where that is a word of a request's data, as most of its moves are. `None` elsewhere, and where
    /// `blk_front: Front::data_asked` leaves a word to `ask`.
    #[inline(always)]
    #[tactic(auto, using(crate::proofs::Unkept::asks_as_plain))]
    pub fn data_asked(&self) -> Option<FrontAsk<'_>>
        ensures value { result ≡ data_asked self.now }
        ensures asked { IfSome result (λ ask. ask ≡ ask_of self.now) }
        ensures within { IfSome result (λ ask. StaysInMemory ask) }
    {
        self.front.data_asked()
    }

    /// The words of a request's data that it asks for next, one after another, up to the last word of their sector: of a
    /// write or a barrier as it is issued, and of a read that was answered. `None` where it asks for no such word. Its
    /// end of the ring keeps no grant.
    pub fn sector_part(&self) -> Option<SectorPart>
        ensures value { result ≡ sector_part self.now }
        ensures asked { IfSome result (AsksEach ask_of step_of self.now) }
        ensures within { IfSome result IsWithin }
        ensures unkept { IfSome result (λ part. IsUnkept self.now.ring) }
    {
        self.front.sector_part()
    }

    /// So many of the words that it asks for were written: as many single answers, one after another. Nothing is told.
    pub fn tell_written(&mut self, count: u32)
        requires part { HasWritten (sector_part self.old) count }
        requires told { self.old.ring.told ≡ None }
        ensures front { self.new ≡ steps_of self.old (all_written count) }
        ensures each { AreTellable self.old (all_written count) }
        ensures told { self.new.ring.told ≡ None }
        ensures ring { self.new ≡ record self.old { ring = self.new.ring } }
    {
        self.front.tell_written(count);
    }

    /// These of the words that it asks for were read: as many single answers, one after another. A sector is told after
    /// its last word.
    pub fn tell_read(&mut self, words: &[u32])
        requires part { HasRead (sector_part self.old) (length words.now) }
        requires told { self.old.ring.told ≡ None }
        ensures front { self.new ≡ steps_of self.old (all_read words.now) }
        ensures each { AreTellable self.old (all_read words.now) }
        ensures ring { self.new ≡ record self.old { ring = self.new.ring } }
    {
        self.front.tell_read(words);
    }

    /// The words of the entry in hand that it writes next, as single asks would name them one after another: up to the
    /// entry's last word, or to the last one of their frame where the entry goes on in the next. `None` where it writes
    /// no entry, and at the first word of an entry with which a request is begun. Its end of the ring keeps no grant.
    #[inline(always)]
    pub fn entry_part(&self) -> Option<EntryPart>
        ensures value { result ≡ entry_part self.now }
        ensures asked { IfSome result (AsksEntry ask_of step_of self.now (entry_words self.now)) }
        ensures within { IfSome result (IsEntryWithin (entry_words self.now)) }
        ensures unkept { IfSome result (λ part. IsUnkept self.now.ring) }
    {
        self.front.entry_part()
    }

    /// What the words of the entry in hand are to be, from the one that it writes next on up to the entry's last one; none
    /// where it writes no entry.
    #[inline(always)]
    pub fn entry_words(&self) -> &[u32]
        ensures { result.now ≡ entry_words self.now }
    {
        self.front.entry_words()
    }

    /// So many of the words of the entry that it asks for were written: as many single answers, one after another. Nothing
    /// is told.
    pub fn tell_entered(&mut self, count: u32)
        requires part { HasEntered (entry_part self.old) count }
        requires told { self.old.ring.told ≡ None }
        ensures front { self.new ≡ steps_of self.old (all_written count) }
        ensures each { AreTellable self.old (all_written count) }
        ensures told { self.new.ring.told ≡ None }
        ensures ring { self.new ≡ record self.old { ring = self.new.ring } }
    {
        self.front.tell_entered(count);
    }
}

impl<'a> Endpoint<'a> for Frontend {
    ghost use Rattle.std.specs.Prelude.{None};
    ghost use Rattle.vbd_front.specs.Ask.{ask_of, IsAnswer};

    type Ask = FrontAsk<'a>;

    type Answer = FrontAnswer<'a>;

    ghost asked = { ask_of };

    ghost MayTell = { λ front answer. IsAnswer (ask_of front) answer × (front.ring.told ≡ None) };

    #[inline(always)]
    #[tactic(auto, using(crate::proofs::Unkept::asks_as_plain))]
    fn ask(&'a self) -> FrontAsk<'a>
        ensures value { result ≡ ask_of self.now }
        ensures within { StaysInMemory result }
    {
        self.front.ask()
    }

    #[inline(always)]
    fn tell(&mut self, answer: &FrontAnswer<'a>) -> Result<(), OutOfMemory>
        requires { IsAnswer (ask_of self.old) answer.now × (self.old.ring.told ≡ None) }
        ensures completed { self.new ≡ step_of self.old answer.now }
        ensures takes_no_memory { IsOk result }
    {
        self.front.tell(answer)
    }
}
