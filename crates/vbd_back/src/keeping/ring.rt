// What the backend passes on to its end of the ring, and whether it waits.
ghost use Rattle.std.specs.Prelude.{◌≡◌, ◌<◌, ◌≤◌, None, IfSome, length};
ghost use Rattle.blk_back.specs.Hands.{hands_of, all_hands_of, most_held, most_with_kept};
ghost use Rattle.back_jobs.specs.Work.{IsAnswer};
ghost use Rattle.back_jobs.specs.Sound.{StaysInPageAndDisk};
ghost use Rattle.back_jobs.specs.Hands.{Names, HandsKeep};
ghost use Rattle.vbd_back.specs.Ask.{is_waiting, is_idle};
ghost use Rattle.vbd_back.specs.Step.{next_job_of};
ghost use Rattle.vbd_back.specs.Keeping.{heard_keeping, job_ask_keeping, job_step_keeping};

use super::KeepingBackend;
use crate::turn::Turn;
use blk_back::{BackStage, BackTold};
use blk_base::{BackAnswer, BackAsk, Halt};

impl KeepingBackend {
    /// What the job of the `number`-th request that was fetched in this epoch asks next; `Wait` also
    /// where there is none, and for every job after a halt. Where mappings may be kept a frame of data is
    /// mapped for writing too.
    #[inline(always)]
    pub fn job_ask(&self, number: u64) -> BackAsk<'_>
        ensures value { result ≡ job_ask_keeping self.now number }
        ensures within { StaysInPageAndDisk self.now.ends.ring.jobs.info.sectors result }
        ensures names { Names (hands_of self.now.ends.ring) result }
        ensures few { length (hands_of self.now.ends.ring) ≤ most_held }
        ensures few_kept { length (all_hands_of self.now.ends.ring) ≤ most_with_kept }
    {
        self.ring.job_ask(number)
    }

    /// Answers what the job of a number asks. It takes the mapping that is kept of its next segment's
    /// reference, and puts it back when the segment is done.
    #[inline(always)]
    pub fn job_tell(&mut self, number: u64, answer: &BackAnswer)
        requires answer { IsAnswer (job_ask_keeping self.old number) answer.now }
        requires told { self.old.ends.ring.told ≡ None }
        ensures stepped { self.new ≡ job_step_keeping self.old number answer.now }
        ensures hands { HandsKeep (job_ask_keeping self.old number) answer.now (all_hands_of self.old.ends.ring) (all_hands_of self.new.ends.ring) }
    {
        self.ring.job_tell(number, answer);
    }

    /// The least number above this one of a job that is held; `None` exactly where there is none, and
    /// always after a halt. At most 512 are held.
    #[inline(always)]
    pub fn next_job(&self, after: u64) -> Option<u64>
        ensures value { result ≡ next_job_of self.now.ends after }
        ensures above { IfSome result (λ next. after < next) }
        ensures few { length self.now.ends.ring.jobs.works ≤ 512 }
    {
        self.ring.next_job(after)
    }

    /// How many jobs it holds.
    #[inline(always)]
    pub fn held(&self) -> usize
        ensures { result ≡ length self.now.ends.ring.jobs.works }
    {
        self.ring.held()
    }

    /// Whether it asks for nothing but an event or a watch.
    #[inline(always)]
    #[tactic(auto, using(crate::proofs::Turns::open_asks))]
    pub fn waits(&self) -> bool
        ensures { result ≡ is_waiting self.now.ends }
    {
        match self.turn {
            Turn::Ring => self.ring.waits(),
            _ => self.waits_by_turn(),
        }
    }

    // The same, whosever turn it is.
    #[inline(never)]
    fn waits_by_turn(&self) -> bool
        ensures { result ≡ is_waiting self.now.ends }
    {
        matches!(self.ask_by_turn(), BackAsk::Wait)
    }

    /// Whether it asks for nothing but an event or a watch, and no job is held.
    pub fn idle(&self) -> bool
        ensures { result ≡ is_idle self.now.ends }
    {
        self.waits() && (matches!(self.ring.stage(), BackStage::InitWait) || self.ring.idle())
    }

    /// What happened at the ring in the last move, once; `None` exactly where nothing is left to tell.
    #[inline(always)]
    pub fn take_told(&mut self) -> Option<BackTold>
        ensures told { result ≡ self.old.ends.ring.told }
        ensures taken { self.new ≡ heard_keeping self.old }
    {
        self.ring.take_told()
    }

    /// Why the ring's end halted; `None` exactly where it didn't.
    pub fn halted(&self) -> Option<Halt>
        ensures { result ≡ self.now.ends.ring.halted }
    {
        self.ring.halted()
    }
}
