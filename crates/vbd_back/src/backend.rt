// The backend that keeps no mapping.
ghost use Rattle.std.specs.Prelude.{◌≡◌, ◌<◌, ◌≤◌, [], IfOk, IfSome, IsOk, None, true, length};
ghost use Rattle.std.specs.Option.{IsSomeAnd};
ghost use Rattle.blk_back.specs.Ask.{StaysInPage};
ghost use Rattle.blk_back.specs.Hands.{hands_of, most_held};
ghost use Rattle.blk_back.specs.Keeping.{KeepsNone};
ghost use Rattle.back_jobs.specs.Hands.{Names, HandsAfter};
ghost use Rattle.back_jobs.specs.Part.{words_read, words_written, AsksEach, IsWithinPage, NamesPart, IsReadPart, IsWrittenPart};
ghost use Rattle.back_jobs.specs.Sound.{StaysInPageAndDisk};
ghost use Rattle.back_jobs.specs.Work.{IsAnswer as IsJobAnswer};
ghost use Rattle.vbd_back.specs.View.{start_of, renewed, heard};
ghost use Rattle.vbd_back.specs.Ask.{ask_of, is_waiting, is_idle, IsAnswer};
ghost use Rattle.vbd_back.specs.Step.{step_of, closes, job_ask_of, job_step, next_job_of};
ghost use Rattle.vbd_back.specs.Part.{job_part, job_values, job_steps, job_asked, JobMovesEach};
ghost use Rattle.vbd_back.specs.Part.{entry_part, steps_of, asked_after, BackMovesEach};

use crate::keeping::KeepingBackend;
use back_jobs::SectorPart;
use blk_back::BackTold;
use blk_base::{BackAnswer, BackAsk, Config, Endpoint, Halt, OutOfMemory};
use std::alloc::Global;
use std::marker::Model;

/// The back end of a block device, likewise, that never keeps a mapping, and says so: that of the machine
/// of both domains. To contracts it is both ends.
#[derive(Drop)]
pub struct Backend {
    back: KeepingBackend,
}

impl Model for Backend {
    ghost use Rattle.vbd_back.specs.View.{View};
    ghost use Rattle.vbd_back.specs.Keeping.{IsPlain};

    ghost Value = { View };

    ghost view = { λ b. b.back.ends };

    ghost invariant = { λ b. IsPlain b.back };
}

impl Backend {
    /// A backend that publishes what it offers first. It fails only where there is not enough memory.
    pub fn new(alloc: Global, config: &Config) -> Result<Backend, OutOfMemory>
        ensures { IfOk result (λ backend. backend ≡ start_of config.now) }
    {
        let back = KeepingBackend::of(alloc, config, 0)?;
        Ok(Backend { back })
    }

    /// After a suspend: a new backend of the same disk, of a ring of this first index, which publishes
    /// what it offers first; where the front isn't going on, closed or broken, one that has halted. It fails
    /// only where there is not enough memory.
    pub fn renewed(&self, alloc: Global, start: u32, going: bool) -> Result<Backend, OutOfMemory>
        ensures { IfOk result (λ backend. backend ≡ renewed start going self.now) }
    {
        let back = self.back.renewed(alloc, start, going)?;
        Ok(Backend { back })
    }

    /// The back is to close: once it is connected it says so, between two steps of the ring's end, and
    /// serves on until the front is gone. On a halted back nothing happens.
    pub fn close(&mut self)
        ensures { self.new ≡ closes self.old }
    {
        self.back.close();
    }
}

impl<'a> Endpoint<'a> for Backend {
    ghost use Rattle.std.specs.Prelude.{None};
    ghost use Rattle.vbd_back.specs.Ask.{ask_of, IsAnswer};

    type Ask = BackAsk<'a>;

    type Answer = BackAnswer<'a>;

    ghost asked = { ask_of };

    ghost MayTell = { λ backend answer. IsAnswer (ask_of backend) answer × (backend.ring.told ≡ None) };

    #[inline(always)]
    fn ask(&'a self) -> BackAsk<'a>
        ensures value { result ≡ ask_of self.now }
        ensures within { StaysInPage result }
        ensures names { Names (hands_of self.now.ring) result }
        ensures few { length (hands_of self.now.ring) ≤ most_held }
    {
        self.back.ask()
    }

    #[inline(always)]
    fn tell(&mut self, answer: &BackAnswer<'a>) -> Result<(), OutOfMemory>
        requires { IsAnswer (ask_of self.old) answer.now × (self.old.ring.told ≡ None) }
        ensures completed { self.new ≡ step_of self.old answer.now }
        ensures hands { HandsAfter (ask_of self.old) answer.now (hands_of self.old.ring) (hands_of self.new.ring) }
        ensures takes_no_memory { IsOk result }
    {
        self.back.tell(answer)
    }
}

impl Backend {
    /// What the job of the `number`-th request that was fetched in this epoch asks next; `Wait` also
    /// where there is none, and for every job after a halt.
    #[inline(always)]
    pub fn job_ask(&self, number: u64) -> BackAsk<'_>
        ensures value { result ≡ job_ask_of self.now number }
        ensures within { StaysInPageAndDisk self.now.ring.jobs.info.sectors result }
        ensures names { Names (hands_of self.now.ring) result }
        ensures few { length (hands_of self.now.ring) ≤ most_held }
    {
        self.back.job_ask(number)
    }

    /// Answers what the job of a number asks.
    #[inline(always)]
    pub fn job_tell(&mut self, number: u64, answer: &BackAnswer)
        requires answer { IsJobAnswer (job_ask_of self.old number) answer.now }
        requires told { self.old.ring.told ≡ None }
        ensures stepped { self.new ≡ job_step self.old number answer.now }
        ensures hands { HandsAfter (job_ask_of self.old number) answer.now (hands_of self.old.ring) (hands_of self.new.ring) }
    {
        self.back.job_tell(number, answer);
    }

    /// The least number above this one of a job that is held; `None` exactly where there is none, and
    /// always after a halt. At most 512 are held.
    #[inline(always)]
    pub fn next_job(&self, after: u64) -> Option<u64>
        ensures value { result ≡ next_job_of self.now after }
        ensures above { IfSome result (λ next. after < next) }
        ensures few { length self.now.ring.jobs.works ≤ 512 }
    {
        self.back.next_job(after)
    }

    /// How many jobs it holds.
    #[inline(always)]
    pub fn held(&self) -> usize
        ensures { result ≡ length self.now.ring.jobs.works }
    {
        self.back.held()
    }

    /// Whether it asks for nothing but an event or a watch.
    #[inline(always)]
    pub fn waits(&self) -> bool
        ensures { result ≡ is_waiting self.now }
    {
        self.back.waits()
    }

    /// Whether it asks for nothing but an event or a watch, and no job is held.
    pub fn idle(&self) -> bool
        ensures { result ≡ is_idle self.now }
    {
        self.back.idle()
    }

    /// What happened at the ring in the last move, once; `None` exactly where nothing is left to tell.
    #[inline(always)]
    pub fn take_told(&mut self) -> Option<BackTold>
        ensures told { result ≡ self.old.ring.told }
        ensures taken { self.new ≡ heard self.old }
    {
        self.back.take_told()
    }

    /// Why the ring's end halted; `None` exactly where it didn't.
    pub fn halted(&self) -> Option<Halt>
        ensures { result ≡ self.now.ring.halted }
    {
        self.back.halted()
    }
}

impl Backend {
    /// The words of a sector that the job of a number has read or written next, as single asks would
    /// name them one after another; `None` exactly where it doesn't ask for a word, and so for every job
    /// after a halt.
    #[inline(always)]
    pub fn sector_part(&self, number: u64) -> Option<SectorPart>
        ensures value { result ≡ job_part self.now number }
        ensures each { IfSome result (λ part. AsksEach part (job_values self.now number) (job_asked self.now number)) }
        ensures within { IfSome result (λ part. IsWithinPage part) }
        ensures names { IfSome result (λ part. NamesPart (hands_of self.now.ring) part) }
    {
        self.back.sector_part(number)
    }

    /// The words that are to be written to a part that is written, in their order; none where the job
    /// of a number doesn't ask for a word to be written.
    #[inline(always)]
    pub fn part_values(&self, number: u64) -> &[u32]
        ensures value { result.now ≡ job_values self.now number }
        ensures count { IfSome (job_part self.now number) (λ part. part.writes ≡ true → length result.now ≡ part.count) }
    {
        self.back.part_values(number)
    }

    /// These words were read, the first ones of the part that the job of a number asks for: as if each
    /// had been told by itself.
    #[inline(always)]
    pub fn job_tell_read(&mut self, number: u64, words: &[u32])
        requires part { IsSomeAnd (job_part self.old number) (λ part. IsReadPart part (length words.now)) }
        requires told { self.old.ring.told ≡ None }
        ensures stepped { self.new ≡ job_steps self.old number (words_read words.now) }
        ensures each { JobMovesEach self.old number (words_read words.now) }
        ensures told { self.new.ring.told ≡ None }
        ensures hands { hands_of self.new.ring ≡ hands_of self.old.ring }
    {
        self.back.job_tell_read(number, words);
    }

    /// So many words were written, the first ones of the part that the job of a number asks for: as if
    /// each had been told by itself.
    #[inline(always)]
    pub fn job_tell_written(&mut self, number: u64, count: u32)
        requires part { IsSomeAnd (job_part self.old number) (λ part. IsWrittenPart part count) }
        requires told { self.old.ring.told ≡ None }
        ensures stepped { self.new ≡ job_steps self.old number (words_written count) }
        ensures each { JobMovesEach self.old number (words_written count) }
        ensures told { self.new.ring.told ≡ None }
        ensures hands { hands_of self.new.ring ≡ hands_of self.old.ring }
    {
        self.back.job_tell_written(number, count);
    }
}

impl Backend {
    /// The words of the entry that its end of the ring copies, as single asks would name them one after another from the
    /// next one on: up to the entry's last word, or to the last one of their page where the entry goes on in the next.
    /// `None` where it copies no entry, or hasn't its first word yet, which it asks for alone, after a halt, and while
    /// the negotiation asks for something. No mapping is kept, and none may be.
    #[inline(always)]
    pub fn entry_part(&self) -> Option<SectorPart>
        ensures value { result ≡ entry_part self.now }
        ensures each { IfSome result (λ part. AsksEach part [] (asked_after self.now)) }
        ensures within { IfSome result (λ part. IsWithinPage part) }
        ensures names { IfSome result (λ part. NamesPart (hands_of self.now.ring) part) }
        ensures unkept { IfSome result (λ part. KeepsNone self.now.ring) }
    {
        self.back.entry_part()
    }

    /// These words were read, the first ones of the part of an entry that it asks for: as if each had been told by
    /// itself. With the entry's last word its job begins.
    #[inline(always)]
    pub fn tell_entry(&mut self, words: &[u32])
        requires part { IsSomeAnd (entry_part self.old) (λ part. IsReadPart part (length words.now)) }
        requires told { self.old.ring.told ≡ None }
        ensures stepped { self.new ≡ steps_of self.old (words_read words.now) }
        ensures each { BackMovesEach self.old (words_read words.now) }
        ensures told { self.new.ring.told ≡ None }
        ensures ring { self.new ≡ record self.old { ring = self.new.ring } }
        ensures hands { hands_of self.new.ring ≡ hands_of self.old.ring }
    {
        self.back.tell_entry(words);
    }
}
