// The numbers that mappings ever had.
ghost use Rattle.std.specs.Prelude.{◌≡◌};
ghost use Rattle.blk_base.specs.Becomes.{Becomes};
ghost use Rattle.memory_check.specs.Numbers.{no_numbers, has, wants_no_place, with_in_run, with_apart, without_apart};

use blk_base::OutOfMemory;
use std::alloc::Global;
use std::collections::BTreeSet;
use std::marker::Model;

/// The numbers that mappings ever had: a run of numbers, and those beside it. Where mappings are
/// numbered one after another, all of them are in the run.
#[derive(Drop)]
pub(crate) struct Numbers {
    low: u64,
    high: u64,
    apart: BTreeSet<u64>,
}

impl Model for Numbers {
    ghost use Rattle.memory_check.specs.Numbers.{NumberSet};

    ghost Value = { NumberSet };

    ghost view = { λ n. record { low = n.low; high = n.high; apart = n.apart.keys } };
}

impl Numbers {
    pub(crate) fn new(alloc: Global) -> Numbers
        ensures { result ≡ no_numbers }
    {
        Numbers {
            low: 1,
            high: 0,
            apart: BTreeSet::new(alloc),
        }
    }

    /// Whether a mapping had that number.
    pub(crate) fn has(&self, number: u64) -> bool
        ensures { result ≡ has self.now number }
    {
        self.low <= number && number <= self.high || self.apart.contains(&number)
    }

    /// Whether a number wants no place beside the run: a mapping had it, or it begins the run, or
    /// makes it longer.
    pub(crate) fn wants_no_place(&self, number: u64) -> bool
        ensures { result ≡ wants_no_place self.now number }
    {
        self.has(number) || self.high < self.low || number > self.high && number - self.high == 1
    }

    /// Takes such a number into the run.
    pub(crate) fn add_to_run(&mut self, number: u64)
        ensures { self.new ≡ with_in_run self.old number }
    {
        if self.has(number) {
            return;
        }
        if self.high < self.low {
            self.low = number;
        }
        self.high = number;
    }

    /// Takes in a number beside the run. After want of memory nothing has changed.
    pub(crate) fn add_apart(&mut self, number: u64) -> Result<(), OutOfMemory>
        ensures added { Becomes (with_apart self.old number) result self.old self.new }
    {
        match self.apart.insert(number) {
            Ok(_) => Ok(()),
            Err(_) => Err(OutOfMemory),
        }
    }

    /// Takes a number beside the run out again.
    pub(crate) fn remove_apart(&mut self, number: u64)
        ensures { self.new ≡ without_apart self.old number }
    {
        self.apart.remove(&number);
    }
}
