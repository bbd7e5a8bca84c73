// One open request.
ghost use Rattle.std.specs.Prelude.{◌≡◌};
ghost use Rattle.blk_base.specs.Becomes.{Becomes};
ghost use Rattle.request_check.specs.Entries.{entry_at};
ghost use Rattle.request_check.specs.State.{opened, with_note, with_old_note};

use blk_base::{OutOfMemory, SectorWords, Submission};
use plain_disk::RequestStage;
use std::alloc::Global;
use std::collections::BTreeMap;
use std::marker::Model;

/// A request that isn't finished: its number, what it asks for, how far it is told, and the words
/// that its sectors showed.
#[derive(Drop)]
pub struct OpenRequest {
    number: u64,
    submission: Submission,
    stage: RequestStage,
    noted: BTreeMap<u32, SectorWords>,
}

impl Model for OpenRequest {
    ghost use Rattle.request_check.specs.State.{Open};

    ghost Value = { Open };

    ghost view = { λ o. record { number = o.number; submission = o.submission; stage = o.stage; noted = o.noted.entries } };
}

impl OpenRequest {
    /// A request that was just submitted.
    pub fn new(alloc: Global, number: u64, submission: Submission) -> OpenRequest
        ensures { result ≡ opened number submission }
    {
        OpenRequest {
            number,
            submission,
            stage: RequestStage::Open,
            noted: BTreeMap::new(alloc),
        }
    }

    /// Its number.
    pub fn number(&self) -> u64
        ensures { result ≡ self.now.number }
    {
        self.number
    }

    /// What it asks for.
    pub fn submission(&self) -> Submission
        ensures { result ≡ self.now.submission }
    {
        self.submission
    }

    /// How far it is told.
    pub fn stage(&self) -> RequestStage
        ensures { result ≡ self.now.stage }
    {
        self.stage
    }

    /// The words that a sector showed last.
    pub fn noted(&self, index: u32) -> Option<SectorWords>
        ensures { result ≡ entry_at self.now.noted index }
    {
        self.noted.get(&index).copied()
    }

    /// Takes in that a sector showed these words. `OutOfMemory` leaves all as it was.
    pub fn note(&mut self, index: u32, words: &SectorWords) -> Result<(), OutOfMemory>
        ensures done { Becomes (with_note self.old index words.now) result self.old self.new }
    {
        if let Some(noted) = self.noted.get_mut(&index) {
            *noted = *words;
            return Ok(());
        }
        match self.noted.insert(index, *words) {
            Ok(_) => Ok(()),
            Err(_) => Err(OutOfMemory),
        }
    }

    /// Sets what a sector showed to what it was before.
    #[tactic(auto, using(crate::proofs::Undone::set_nothing))]
    pub fn restore_note(&mut self, index: u32, old: &Option<SectorWords>)
        ensures { self.new ≡ with_old_note self.old index old.now }
    {
        match *old {
            None => {
                self.noted.remove(&index);
            }
            Some(words) => {
                if let Some(noted) = self.noted.get_mut(&index) {
                    *noted = words;
                }
            }
        }
    }

    /// Takes in how far it is told.
    pub fn tell(&mut self, stage: RequestStage)
        ensures { self.new ≡ record self.old { stage = stage } }
    {
        self.stage = stage;
    }
}
