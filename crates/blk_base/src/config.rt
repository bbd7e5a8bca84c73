// The options of a run, and what a front is asked to do.
ghost use Rattle.std.specs.Prelude.{◌≡◌, ◌<◌, ◌≢◌, IfSome, IfNone};

use crate::operation::Abi;
use std::marker::Model;

/// How many sectors a request moves: 1 to 4294967295.
#[derive(Clone, Copy, PartialEq, Eq)]
pub struct SectorCount {
    value: u32,
}

impl Model for SectorCount {
    ghost use Rattle.std.specs.Prelude.{ℕ, ◌<◌};

    ghost Value = { ℕ };

    ghost view = { λ count. count.value };

    ghost invariant = { λ count. 0 < count.value };

    ghost inverse = { λ n. record { value = n } };
}

impl SectorCount {
    /// The count of that many sectors; `None` exactly at 0.
    pub fn new(value: u32) -> Option<SectorCount>
        ensures some { IfSome result (λ count. count ≡ value) }
        ensures positive { IfSome result (λ count. 0 < value) }
        ensures none { IfNone result (value ≡ 0) }
    {
        if value == 0 {
            None
        } else {
            Some(SectorCount { value })
        }
    }

    /// The number of sectors, above 0.
    pub fn get(self) -> u32
        ensures value { result ≡ self }
        ensures positive { 0 < result }
    {
        self.value
    }
}

/// What a front is asked to do with the disk. `sector` is the first 512-byte sector; sector `i` of
/// a write or barrier is filled with the word `tag + i` modulo 2^32.
#[derive(Clone, Copy, PartialEq, Eq)]
pub enum Submission {
    Read {
        sector: u64,
        count: SectorCount,
    },
    Write {
        sector: u64,
        count: SectorCount,
        tag: u32,
    },
    Barrier {
        sector: u64,
        count: SectorCount,
        tag: u32,
    },
    Flush,
    Discard {
        sector: u64,
        count: SectorCount,
    },
}

/// The options of a run: the guest's layout, the ring's order (0 to 4, the ring has `2^order`
/// pages), how many mappings the back keeps (0 to 1000; 0 turns persistent grants off), how many
/// segments an indirect request may have (0 to 960; 0 turns them off), the first ring index,
/// whether the disk is read-only, and its number of 512-byte sectors.
#[derive(Clone, Copy, PartialEq, Eq)]
pub struct Config {
    pub abi: Abi,
    pub order: u32,
    pub persistent: u32,
    pub indirect: u32,
    pub start: u32,
    pub read_only: bool,
    pub sectors: u64,
}

impl Model for Config {
    ghost use Rattle.std.specs.Prelude.{◌≤◌};
    ghost use Rattle.blk_base.specs.Options.{Options};

    ghost Value = { Options };

    ghost view = { λ c. record {
      abi = c.abi;
      order = c.order;
      persistent = c.persistent;
      indirect = c.indirect;
      start = c.start;
      read_only = c.read_only;
      sectors = c.sectors;
    } };

    ghost invariant = { λ c. (c.order ≤ 4) × (c.persistent ≤ 1000) × (c.indirect ≤ 960) };

    ghost inverse = { λ o. record {
      abi = o.abi;
      order = o.order;
      persistent = o.persistent;
      indirect = o.indirect;
      start = o.start;
      read_only = o.read_only;
      sectors = o.sectors;
    } };
}
