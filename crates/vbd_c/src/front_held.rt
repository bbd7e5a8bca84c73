// A front that a program holds.
ghost use Rattle.std.specs.Prelude.{◌≡◌, ◌⊎◌, None, IfOk, IfErr, IfSome, length};
ghost use Rattle.blk_front.specs.Submit.{submit_of, unfinished, sectors_owed};
ghost use Rattle.vbd_front.specs.Ask.{StaysInMemory};
ghost use Rattle.vbd_front.specs.Keep.{start_as, ask_as, step_as, suspended_as, heard_as};
ghost use Rattle.blk_front.specs.Part.{HasWritten, HasRead, all_written, all_read, AsksEach, IsWithin};
ghost use Rattle.vbd_front.specs.Part.{sector_part};
ghost use Rattle.vbd_c.specs.FrontPart.{part_written, written_status, part_read, read_status, IsMoved};
ghost use Rattle.vbd_c.specs.FrontMove.{answered, IsAnswered, status_of, submitted, submit_status, closed, close_status};

use crate::allowed::front_allows;
use crate::status::Status;
use blk_base::{Config, Endpoint, FrontAnswer, FrontAsk, OutOfMemory, Refusal, Submission};
use blk_front::{SectorPart, Told};
use std::alloc::Global;
use std::marker::Model;
use vbd_front::KeepingFrontend;
use xenbus_state::FrontNews;

/// A front, with what it has to tell, until that is taken.
#[derive(Drop)]
pub struct HeldFront {
    front: KeepingFrontend,
}

impl Model for HeldFront {
    ghost use Rattle.vbd_front.specs.Keep.{KeepingView};
    ghost use Rattle.vbd_c.specs.FrontMove.{TellsOne};

    ghost Value = { KeepingView };

    ghost view = { λ h. h.front };

    ghost invariant = { λ h. TellsOne h.front };
}

impl HeldFront {
    /// A front that sets its watch first. It fails only where there is not enough memory.
    pub fn new(alloc: Global, config: &Config) -> Result<HeldFront, OutOfMemory>
        ensures { IfOk result (λ held. held ≡ start_as config.now) }
    {
        Ok(HeldFront {
            front: KeepingFrontend::new(alloc, config)?,
        })
    }

    /// What the front asks.
    pub fn ask(&self) -> FrontAsk<'_>
        ensures value { result ≡ ask_as self.now }
        ensures within { StaysInMemory result }
    {
        self.front.ask()
    }

    /// Answers what the front asks. `Done` or `Told` where that is one move with this answer; `NotAllowed` exactly where the
    /// ask doesn't allow it, and `Untold` where what is to be told wasn't taken yet: then nothing changes.
    #[tactic(auto, using(crate::proofs::FrontMoves::one_after_a_move))]
    pub fn answer(&mut self, answer: &FrontAnswer) -> Status
        ensures held { self.new ≡ answered self.old answer.now }
        ensures status { result ≡ status_of self.old answer.now }
        ensures answered { IsAnswered self.old answer.now self.new }
    {
        if self.front.has_told() {
            return Status::Untold;
        }
        if !front_allows(&self.front.ask(), answer) {
            return Status::NotAllowed;
        }
        let _ = self.front.tell(answer);
        if self.front.has_told() {
            Status::Told
        } else {
            Status::Done
        }
    }

    /// The words of a request's data that the front asks for next, up to the last word of their sector.
    pub fn sector_part(&self) -> Option<SectorPart>
        ensures value { result ≡ sector_part self.now.ends }
        ensures asked { IfSome result (AsksEach ask_as step_as self.now) }
        ensures within { IfSome result IsWithin }
    {
        self.front.sector_part()
    }

    /// Answers that so many of those words were written. `Done` where that is as many single answers; `NotAllowed` exactly
    /// where fewer are asked for, and `Untold` where what is to be told wasn't taken yet: then nothing changes.
    #[tactic(auto, using(crate::proofs::FrontParts::all_taken))]
    pub fn part_written(&mut self, count: usize) -> Status
        ensures held { self.new ≡ part_written self.old count }
        ensures status { result ≡ written_status self.old count }
        ensures answered { IsMoved (HasWritten (sector_part self.old.ends) count) self.old (all_written count) self.new }
    {
        if self.front.has_told() {
            return Status::Untold;
        }
        match self.front.sector_part() {
            Some(part) if part.value.is_some() && count <= part.count as usize => {
                self.front.tell_written(count as u32);
                Status::Done
            }
            _ => Status::NotAllowed,
        }
    }

    /// Answers that these of those words were read, likewise; `Told` where they end a sector.
    #[tactic(auto, using(crate::proofs::FrontParts::all_taken))]
    pub fn part_read(&mut self, words: &[u32]) -> Status
        ensures held { self.new ≡ part_read self.old words.now }
        ensures status { result ≡ read_status self.old words.now }
        ensures answered { IsMoved (HasRead (sector_part self.old.ends) (length words.now)) self.old (all_read words.now) self.new }
    {
        if self.front.has_told() {
            return Status::Untold;
        }
        match self.front.sector_part() {
            Some(part) if part.value.is_none() && words.len() <= part.count as usize => {
                self.front.tell_read(words);
                if self.front.has_told() {
                    Status::Told
                } else {
                    Status::Done
                }
            }
            _ => Status::NotAllowed,
        }
    }

    /// Hands the front a request, and answers its number; a refusal is the first that applies, and changes nothing.
    #[tactic(auto, using(crate::proofs::FrontMoves::one_after_a_submission))]
    pub fn submit(&mut self, submission: Submission) -> Result<u32, Refusal>
        ensures answer { result ≡ (submit_of self.old.ends.ring submission).0 }
        ensures held { self.new ≡ submitted self.old submission }
        ensures refused { IfErr result (λ why. self.new ≡ self.old) }
    {
        self.front.submit(submission)
    }

    /// What happened at the ring, or what the negotiation came to, once.
    pub fn take_told(&mut self) -> (Option<Told>, Option<FrontNews>)
        ensures told { result.0 ≡ self.old.ends.ring.told }
        ensures news { result.1 ≡ self.old.ends.news }
        ensures one { (result.0 ≡ None) ⊎ (result.1 ≡ None) }
        ensures held { self.new ≡ heard_as self.old }
    {
        self.front.take_told()
    }

    /// The front is to close; `Told` where it begins to. `Untold` where what is to be told wasn't taken yet: then nothing
    /// changes.
    #[tactic(auto, using(crate::proofs::FrontMoves::one_as_it_closes))]
    pub fn close(&mut self) -> Status
        ensures held { self.new ≡ closed self.old }
        ensures status { result ≡ close_status self.old }
    {
        if self.front.has_told() {
            return Status::Untold;
        }
        self.front.close();
        if self.front.has_told() {
            Status::Told
        } else {
            Status::Done
        }
    }

    /// The domain was suspended and resumes.
    #[tactic(auto, using(crate::proofs::FrontMoves::one_after_a_suspend))]
    pub fn suspend(&mut self)
        ensures { self.new ≡ suspended_as self.old }
    {
        self.front.suspend();
    }

    /// How many requests are unfinished, and how many sectors they move.
    pub fn owed(&self) -> (u32, u64)
        ensures requests { result.0 ≡ unfinished self.now.ends.ring }
        ensures sectors { result.1 ≡ sectors_owed self.now.ends.ring }
    {
        self.front.owed()
    }
}
