// The back's jobs, and what it tells.
ghost use Rattle.std.specs.Prelude.{◌≡◌, ◌<◌, ◌≤◌, None, Some, IfSome, length};
ghost use Rattle.blk_back.specs.Ask.{is_waiting, is_idle};
ghost use Rattle.blk_back.specs.Step.{told_effect, next_job_of};
ghost use Rattle.blk_back.specs.Keeping.{job_ask_keeping, job_step_keeping};
ghost use Rattle.blk_back.specs.Hands.{hands_of, all_hands_of, most_held, most_with_kept};
ghost use Rattle.back_jobs.specs.Work.{IsAnswer};
ghost use Rattle.back_jobs.specs.Sound.{StaysInPageAndDisk};
ghost use Rattle.back_jobs.specs.Hands.{Names, HandsKeep};

use super::Back;
use crate::stage::BackStage;
use crate::told::BackTold;
use back_jobs::Effect;
use blk_base::{BackAnswer, BackAsk, Halt};

impl Back {
    /// What the job of the `number`-th request that was fetched in this epoch asks next; `Wait` also
    /// where there is none, and for every job after a halt. Where mappings may be kept a frame of data is
    /// mapped for writing too.
    #[inline(always)]
    pub fn job_ask(&self, number: u64) -> BackAsk<'_>
        ensures value { result ≡ job_ask_keeping self.now number }
        ensures within { StaysInPageAndDisk self.now.jobs.info.sectors result }
        ensures names { Names (hands_of self.now) result }
        ensures few { length (hands_of self.now) ≤ most_held }
        ensures few_kept { length (all_hands_of self.now) ≤ most_with_kept }
    {
        match self.halted {
            Some(_) => BackAsk::Wait,
            None => self.jobs.ask(number),
        }
    }

    /// Answers what the job of a number asks. It takes the mapping that is kept of its next segment's
    /// reference, or maps the frame next; when it is done with a segment it puts the mapping back, and what
    /// is handed out for that is unmapped next.
    #[inline(always)]
    pub fn job_tell(&mut self, number: u64, answer: &BackAnswer)
        requires answer { IsAnswer (job_ask_keeping self.old number) answer.now }
        requires told { self.old.told ≡ None }
        ensures stepped { self.new ≡ job_step_keeping self.old number answer.now }
        ensures hands { HandsKeep (job_ask_keeping self.old number) answer.now (all_hands_of self.old) (all_hands_of self.new) }
    {
        // After a halt jobs ask for nothing, so there is no answer to tell.
        if let Some(_) = self.halted {
            unreachable!();
        }
        if let Some(effect) = self.jobs.tell(number, answer) {
            self.told = Some(told_effect(effect));
        }
    }

    /// The least number above this one of a job that is held; `None` exactly where there is none, and
    /// always after a halt. At most 512 are held.
    #[inline(always)]
    pub fn next_job(&self, after: u64) -> Option<u64>
        ensures value { result ≡ next_job_of self.now after }
        ensures above { IfSome result (λ next. after < next) }
        ensures few { length self.now.jobs.works ≤ 512 }
    {
        match self.halted {
            Some(_) => None,
            None => self.jobs.next_after(after),
        }
    }

    /// How many jobs it holds.
    #[inline(always)]
    pub fn held(&self) -> usize
        ensures { result ≡ length self.now.jobs.works }
    {
        self.jobs.count()
    }

    /// Whether it asks for nothing but an event.
    #[inline(always)]
    pub fn waits(&self) -> bool
        ensures { result ≡ is_waiting self.now }
    {
        if let BackStage::Loop = self.stage {
            return self.ring.asleep && self.next_reply().is_none();
        }
        matches!(self.stage, BackStage::InitWait | BackStage::Halted)
    }

    /// Whether it asks for nothing but an event, waits for no terms, and no job is held.
    pub fn idle(&self) -> bool
        ensures { result ≡ is_idle self.now }
    {
        !matches!(self.stage, BackStage::InitWait) && self.waits() && self.jobs.count() == 0
    }

    /// What happened in the last move, once; `None` exactly where nothing is left to tell.
    #[inline(always)]
    pub fn take_told(&mut self) -> Option<BackTold>
        ensures told { result ≡ self.old.told }
        ensures taken { self.new ≡ record self.old { told = None } }
    {
        match self.told {
            None => None,
            Some(_) => self.told.take(),
        }
    }

    /// What it is doing.
    #[inline(always)]
    pub fn stage(&self) -> BackStage
        ensures { result ≡ self.now.stage }
    {
        self.stage
    }

    /// Why it halted; `None` exactly where it didn't.
    #[inline(always)]
    pub fn halted(&self) -> Option<Halt>
        ensures { result ≡ self.now.halted }
    {
        self.halted
    }
}

// What a job's effect tells.
fn told_effect(effect: Effect) -> BackTold
    ensures { Some result ≡ told_effect (Some effect) }
{
    match effect {
        Effect::Moved { id, index } => BackTold::Effect { id, index },
        Effect::Flushed { id } => BackTold::Flushed { id },
        Effect::Trimmed { id } => BackTold::Trimmed { id },
        Effect::Failed { id, index } => BackTold::Fault { id, index },
    }
}
