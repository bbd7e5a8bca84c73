// The mappings that stand.
ghost use Rattle.std.specs.Prelude.{◌≡◌, is_some, [], false};
ghost use Rattle.std.specs.Map.{values_of};
ghost use Rattle.blk_base.specs.Becomes.{Becomes};
ghost use Rattle.report_rules.specs.Standing.{others_of, other_writers_of};
ghost use Rattle.memory_check.specs.State.{standing_at, with_standing, without_standing};

use blk_base::{Mode, OutOfMemory};
use report_rules::Standing;
use std::alloc::Global;
use std::collections::BTreeMap;
use std::marker::Model;

/// The mappings that stand, by their numbers.
#[derive(Drop)]
pub(crate) struct Mappings {
    by_number: BTreeMap<u64, Standing>,
}

impl Model for Mappings {
    ghost use Rattle.std.specs.Prelude.{ℕ, List};
    ghost use Rattle.report_rules.specs.declared.standing.Standing.{Standing};

    ghost Value = { List (ℕ × Standing) };

    ghost view = { λ m. m.by_number.entries };
}

impl Mappings {
    pub(crate) fn new(alloc: Global) -> Mappings
        ensures { result ≡ [] }
    {
        Mappings {
            by_number: BTreeMap::new(alloc),
        }
    }

    /// The mapping of a number.
    pub(crate) fn get(&self, number: u64) -> Option<Standing>
        ensures { result ≡ standing_at self.now number }
    {
        self.by_number.get(&number).copied()
    }

    /// Whether a mapping of that number stands.
    pub(crate) fn stands(&self, number: u64) -> bool
        ensures { result ≡ is_some (standing_at self.now number) }
    {
        self.by_number.contains_key(&number)
    }

    /// Takes in a mapping of a number of which none stands. After want of memory nothing has
    /// changed.
    pub(crate) fn add(&mut self, made: Standing) -> Result<(), OutOfMemory>
        requires { is_some (standing_at self.old made.number) ≡ false }
        ensures added { Becomes (with_standing self.old made) result self.old self.new }
    {
        match self.by_number.insert(made.number, made) {
            Ok(_) => Ok(()),
            Err(_) => Err(OutOfMemory),
        }
    }

    /// Ends the mapping of a number.
    pub(crate) fn remove(&mut self, number: u64)
        ensures { self.new ≡ without_standing self.old number }
    {
        self.by_number.remove(&number);
    }

    /// Ends all mappings.
    pub(crate) fn clear(&mut self)
        ensures { self.new ≡ [] }
    {
        self.by_number.clear();
    }

    /// How many of the mappings that stand, but for one number, are of a reference.
    pub(crate) fn others_of(&self, gref: u32, number: u64) -> usize
        ensures { result ≡ others_of gref number (values_of self.now) }
    {
        self.by_number
            .values()
            .filter(|s| s.gref == gref && s.number != number)
            .count()
    }

    /// How many of those may write.
    pub(crate) fn other_writers_of(&self, gref: u32, number: u64) -> usize
        ensures { result ≡ other_writers_of gref number (values_of self.now) }
    {
        self.by_number
            .values()
            .filter(|s| s.gref == gref && s.mode == Mode::ReadWrite && s.number != number)
            .count()
    }
}
