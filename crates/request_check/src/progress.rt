// What was done of requests in this epoch.
ghost use Rattle.std.specs.Prelude.{◌≡◌, [], length};
ghost use Rattle.std.specs.Option.{option_copied};
ghost use Rattle.std.specs.Map.{lookup, remove_entry};
ghost use Rattle.std.specs.BTreeMap.{is_at, insert_entry};
ghost use Rattle.std.specs.Ordering.{nat_cmp};
ghost use Rattle.blk_base.specs.Becomes.{Becomes};
ghost use Rattle.request_check.specs.Progress.{nothing_done, is_place_done, with_doing, changed};

use blk_base::{OutOfMemory, Status};
use std::alloc::Global;
use std::collections::{BTreeMap, BTreeSet};
use std::marker::Model;

/// What the lines tell as done of a request: a place, a fault of the disk, or a reply.
#[derive(Clone, Copy)]
pub enum Doing {
    Done(u32),
    Failed,
    Replied(Status),
}

/// What was done of one request: whether the disk failed, what was replied, and the places that were
/// done.
#[derive(Drop)]
pub struct Doings {
    faulted: bool,
    reply: Option<Status>,
    done: BTreeSet<u32>,
}

impl Model for Doings {
    ghost use Rattle.request_check.specs.Progress.{Progress};

    ghost Value = { Progress };

    ghost view = { λ d. record { faulted = d.faulted; reply = d.reply; done = d.done.keys } };
}

impl Doings {
    /// Nothing was done.
    pub fn new(alloc: Global) -> Doings
        ensures { result ≡ nothing_done }
    {
        Doings {
            faulted: false,
            reply: None,
            done: BTreeSet::new(alloc),
        }
    }

    /// Whether the disk failed.
    pub fn faulted(&self) -> bool
        ensures { result ≡ self.now.faulted }
    {
        self.faulted
    }

    /// What was replied.
    pub fn reply(&self) -> Option<Status>
        ensures { result ≡ self.now.reply }
    {
        self.reply
    }

    /// Whether a place was done.
    pub fn is_done(&self, index: u32) -> bool
        ensures { result ≡ is_place_done self.now index }
    {
        self.done.contains(&index)
    }

    /// How many places were done.
    pub fn count(&self) -> usize
        ensures { result ≡ length self.now.done }
    {
        self.done.len()
    }

    // Takes in one doing.
    fn note(&mut self, doing: Doing) -> Result<(), OutOfMemory>
        ensures done { Becomes (with_doing doing self.old) result self.old self.new }
    {
        match doing {
            Doing::Done(index) => match self.done.insert(index) {
                Ok(_) => Ok(()),
                Err(_) => Err(OutOfMemory),
            },
            Doing::Failed => {
                self.faulted = true;
                Ok(())
            }
            Doing::Replied(status) => {
                self.reply = Some(status);
                Ok(())
            }
        }
    }
}

/// What was done of requests, by their numbers; nothing is kept of one of which nothing was done.
#[derive(Drop)]
pub struct EpochDoings {
    alloc: Global,
    by_number: BTreeMap<u64, Doings>,
}

impl Model for EpochDoings {
    ghost use Rattle.std.specs.Prelude.{ℕ, List};
    ghost use Rattle.request_check.specs.Progress.{Progress};

    ghost Value = { List (ℕ × Progress) };

    ghost view = { λ d. d.by_number.entries };
}

impl EpochDoings {
    /// Nothing was done.
    pub fn new(alloc: Global) -> EpochDoings
        ensures { result ≡ [] }
    {
        EpochDoings {
            alloc,
            by_number: BTreeMap::new(alloc),
        }
    }

    /// What was done of a request, if anything was.
    pub fn get(&self, id: u64) -> Option<&Doings>
        ensures { option_copied result ≡ lookup (is_at (nat_cmp id)) self.now }
    {
        self.by_number.get(&id)
    }

    /// Takes in what was done of a request. `OutOfMemory` leaves all as it was.
    pub fn note(&mut self, id: u64, doing: Doing) -> Result<(), OutOfMemory>
        ensures done { Becomes (changed (with_doing doing) self.old id) result self.old self.new }
    {
        match self.by_number.get_mut(&id) {
            Some(doings) => doings.note(doing),
            None => {
                let mut doings = Doings::new(self.alloc);
                doings.note(doing)?;
                self.add(id, doings)
            }
        }
    }

    fn add(&mut self, id: u64, doings: Doings) -> Result<(), OutOfMemory>
        ensures done { Becomes (insert_entry nat_cmp self.old id doings) result self.old self.new }
    {
        match self.by_number.insert(id, doings) {
            Ok(_) => Ok(()),
            Err(_) => Err(OutOfMemory),
        }
    }

    /// Forgets what was done of a request.
    pub fn remove(&mut self, id: u64)
        ensures { self.new ≡ remove_entry (is_at (nat_cmp id)) self.old }
    {
        self.by_number.remove(&id);
    }

    /// A new epoch: nothing was done.
    pub fn clear(&mut self)
        ensures { self.new ≡ [] }
    {
        self.by_number.clear();
    }
}
