// A back that a program holds.
ghost use Rattle.std.specs.Prelude.{◌≡◌, ◌<◌, ◌≤◌, length, IfOk, IfSome, IsTrue, ◌↔◌, Some, None};
ghost use Rattle.blk_back.specs.Hands.{hands_of, all_hands_of, most_with_kept};
ghost use Rattle.back_jobs.specs.Hands.{Names, HandsKeep};
ghost use Rattle.vbd_back.specs.Step.{next_job_of};
ghost use Rattle.vbd_back.specs.Keeping.{closes_keeping, renewed_keeping};
ghost use Rattle.vbd_c.specs.View.{start_of};
ghost use Rattle.vbd_c.specs.Move.{ask_of, Stays, IsAllowed, IsAnswered, allows, moved, answered, status_of, heard, closed};
ghost use Rattle.vbd_c.specs.Answer.{mapping_for, answered_by, status_by};
ghost use Rattle.vbd_c.specs.Held.{SuspendedAs, AnsweredAs};

mod parts;

use crate::allowed::{back_allows, job_allows};
use crate::answer::mapping_for;
use crate::status::Status;
use blk_back::BackTold;
use blk_base::{BackAnswer, BackAsk, Config, Endpoint, Halt, OutOfMemory};
use std::alloc::Global;
use std::marker::Model;
use vbd_back::KeepingBackend;

/// A back, and what its last move told, until that is taken.
#[derive(Drop)]
pub struct HeldBack {
    back: KeepingBackend,
    told: Option<BackTold>,
}

impl Model for HeldBack {
    ghost use Rattle.vbd_c.specs.View.{View};

    ghost Value = { View };

    ghost use Rattle.vbd_c.specs.Inside.{view_of, IsQuiet};

    ghost view = { view_of };

    ghost invariant = { IsQuiet };
}

impl HeldBack {
    /// A back that publishes what it offers first. It fails only where there is not enough memory.
    pub fn new(alloc: Global, config: &Config) -> Result<HeldBack, OutOfMemory>
        ensures { IfOk result (λ held. held ≡ start_of config.now) }
    {
        let back = KeepingBackend::new(alloc, config)?;
        Ok(HeldBack { back, told: None })
    }

    /// What the back asks, where `job` is 0, or the job of that number; `Wait` where there is none.
    pub fn ask(&self, job: u64) -> BackAsk<'_>
        ensures value { result ≡ ask_of self.now job }
        ensures within { Stays self.now job result }
        ensures names { Names (hands_of self.now.back.ends.ring) result }
        ensures few { length (all_hands_of self.now.back.ends.ring) ≤ most_with_kept }
    {
        if job == 0 {
            self.back.ask()
        } else {
            self.back.job_ask(job)
        }
    }

    // Whether what is asked allows this answer.
    fn allows(&self, job: u64, answer: &BackAnswer) -> bool
        ensures value { result ≡ allows self.now job answer.now }
        ensures means { IsTrue result ↔ IsAllowed self.now job answer.now }
    {
        if job == 0 {
            back_allows(&self.back.ask(), answer)
        } else {
            job_allows(&self.back.job_ask(job), answer)
        }
    }

    // One move of the back or of a job.
    fn make_move(&mut self, job: u64, answer: &BackAnswer)
        requires { IsAllowed self.old job answer.now }
        ensures moved { self.new ≡ moved self.old job answer.now }
        ensures hands { HandsKeep (ask_of self.old job) answer.now (all_hands_of self.old.back.ends.ring) (all_hands_of self.new.back.ends.ring) }
    {
        if job == 0 {
            let _ = self.back.tell(answer);
        } else {
            self.back.job_tell(job, answer);
        }
        self.told = self.back.take_told();
    }

    /// Answers what the back or the job of a number asks, as `job` says. `Done` or `Told` where that is one move
    /// with this answer; `NotAllowed` exactly where the ask doesn't allow it, and `Untold` where what the last move
    /// told wasn't taken yet: then nothing changes.
    pub fn answer(&mut self, job: u64, answer: &BackAnswer) -> Status
        ensures held { self.new ≡ answered self.old job answer.now }
        ensures status { result ≡ status_of self.old job answer.now }
        ensures answered { IsAnswered self.old job answer.now self.new }
    {
        if self.told.is_some() {
            return Status::Untold;
        }
        if !self.allows(job, answer) {
            return Status::NotAllowed;
        }
        self.make_move(job, answer);
        match self.told {
            None => Status::Done,
            Some(_) => Status::Told,
        }
    }

    /// Answers a map with the number of the mapping that was made; `NotAllowed` where no map is asked for.
    pub fn answer_map(&mut self, job: u64, number: u64) -> Status
        ensures held { self.new ≡ answered_by self.old job (mapping_for (ask_of self.old job) number) }
        ensures status { result ≡ status_by self.old job (mapping_for (ask_of self.old job) number) }
        ensures answered { AnsweredAs (Some self.old) job (mapping_for (ask_of self.old job) number) (Some self.new) }
    {
        let answer = mapping_for(&self.ask(job), number);
        match answer {
            Some(answer) => self.answer(job, &answer),
            None => Status::NotAllowed,
        }
    }

    /// What the last move told, once; `None` where that is nothing.
    pub fn take_told(&mut self) -> Option<BackTold>
        ensures told { result ≡ self.old.told }
        ensures held { self.new ≡ heard self.old }
    {
        self.told.take()
    }

    /// The least number above this one of a job that is held; `None` where there is none.
    pub fn next_job(&self, after: u64) -> Option<u64>
        ensures value { result ≡ next_job_of self.now.back.ends after }
        ensures above { IfSome result (λ next. after < next) }
    {
        self.back.next_job(after)
    }

    /// Why the back halted; `None` where it didn't.
    pub fn halted(&self) -> Option<Halt>
        ensures { result ≡ self.now.back.ends.ring.halted }
    {
        self.back.halted()
    }

    /// The back is to close.
    pub fn close(&mut self)
        ensures { self.new ≡ closed (closes_keeping self.old.back) self.old }
    {
        self.back.close();
    }

    /// The guest's domain was suspended: a new back of the same disk, of a ring of this first index; where the front
    /// isn't going on, one that has halted. `NoMemory` where there is not enough memory for it, and `Untold` where
    /// what the last move told wasn't taken yet: then nothing changes.
    pub fn suspend(&mut self, alloc: Global, start: u32, going: bool) -> Status
        ensures { SuspendedAs (renewed_keeping start going self.old.back) self.old self.new result }
    {
        if self.told.is_some() {
            return Status::Untold;
        }
        match self.back.renewed(alloc, start, going) {
            Ok(back) => {
                self.back = back;
                Status::Done
            }
            Err(_) => Status::NoMemory,
        }
    }
}
