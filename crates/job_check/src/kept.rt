// The mappings that jobs made and that stand.
ghost use Rattle.std.specs.Prelude.{◌≡◌, []};
ghost use Rattle.blk_base.specs.Becomes.{Becomes};
ghost use Rattle.job_check.specs.Kept.{is_writer_of, is_kept_of, is_kept_for, may_stay, has_unmapped, after_map, after_unmap};

use blk_base::OutOfMemory;
use std::alloc::Global;
use std::collections::BTreeMap;
use std::marker::Model;

/// A mapping that a job made: the job, the grant reference, and whether it is for writing.
#[derive(Clone, Copy)]
pub struct Made {
    pub job: u64,
    pub gref: u32,
    pub writes: bool,
}

/// The mappings that jobs made and that stand, by their numbers.
#[derive(Drop)]
pub struct KeptMappings {
    made: BTreeMap<u64, Made>,
}

impl Model for KeptMappings {
    ghost use Rattle.job_check.specs.Kept.{Kept};

    ghost Value = { Kept };

    ghost view = { λ k. k.made.entries };
}

fn is_writer_of(gref: u32, made: &Made) -> bool
    ensures { result ≡ is_writer_of gref made.now }
{
    made.writes && made.gref == gref
}

fn may_stay(persistent: bool, job: u64, made: &Made) -> bool
    ensures { result ≡ may_stay persistent job made.now }
{
    made.job != job || persistent && made.writes
}

impl KeptMappings {
    /// None stands yet.
    pub fn new(alloc: Global) -> KeptMappings
        ensures { result ≡ [] }
    {
        KeptMappings {
            made: BTreeMap::new(alloc),
        }
    }

    /// Takes in a mapping that a job made. After want of memory nothing has changed.
    pub fn add(&mut self, number: u64, made: Made) -> Result<(), OutOfMemory>
        ensures added { Becomes (after_map self.old number made) result self.old self.new }
    {
        match self.made.insert(number, made) {
            Ok(_) => Ok(()),
            Err(_) => Err(OutOfMemory),
        }
    }

    /// Takes in that a number was unmapped.
    pub fn remove(&mut self, number: u64)
        ensures { self.new ≡ after_unmap self.old number }
    {
        self.made.remove(&number);
    }

    /// Ends all mappings, as an epoch does.
    pub fn clear(&mut self)
        ensures { self.new ≡ [] }
    {
        self.made.clear();
    }

    /// Whether the mapping of a number is kept for a reference.
    pub fn is_kept_of(&self, gref: u32, number: u64) -> bool
        ensures { result ≡ is_kept_of self.now gref number }
    {
        match self.made.get(&number) {
            None => false,
            Some(made) => is_writer_of(gref, made),
        }
    }

    /// Whether a mapping is kept for a reference.
    pub fn is_kept_for(&self, gref: u32) -> bool
        ensures { result ≡ is_kept_for self.now gref }
    {
        self.made.values().any(|made| is_writer_of(gref, made))
    }

    /// Whether a job unmapped what it mapped, but for what may be kept.
    pub fn has_unmapped(&self, persistent: bool, job: u64) -> bool
        ensures { result ≡ has_unmapped self.now persistent job }
    {
        self.made
            .values()
            .all(|made| may_stay(persistent, job, made))
    }
}
