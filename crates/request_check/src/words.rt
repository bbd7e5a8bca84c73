// What sectors hold, where that is known.
ghost use Rattle.std.specs.Prelude.{◌≡◌, ◌+◌, drop, Option, Some, None};
ghost use Rattle.blk_base.specs.Becomes.{Becomes};
ghost use Rattle.request_check.specs.Entries.{entry_at};
ghost use Rattle.request_check.specs.Words.{nothing_known, has_sector, words_left, after_ranges, words_in, words_since, with_single, with_old_single, with_range, without_range};

use blk_base::{OutOfMemory, SectorWords};
use std::alloc::Global;
use std::collections::BTreeMap;
use std::marker::Model;

/// What one sector holds, where that is known, and how many discards came before that.
#[derive(Clone, Copy)]
pub struct Single {
    pub words: Option<SectorWords>,
    pub since: usize,
}

/// The sectors of a discard: zeros, or unknown where the disk failed.
#[derive(Clone, Copy)]
pub struct Discarded {
    pub sector: u64,
    pub count: u32,
    pub failed: bool,
}

/// What sectors hold: sectors one by one, and those of discards, oldest first.
#[derive(Drop)]
pub struct KnownWords {
    singles: BTreeMap<u128, Single>,
    ranges: Vec<Discarded>,
}

impl Model for KnownWords {
    ghost use Rattle.request_check.specs.Words.{Known};

    ghost Value = { Known };

    ghost view = { λ k. record { singles = k.singles.entries; ranges = k.ranges.items } };
}

// Whether a sector is among those of a discard.
fn has_sector(range: &Discarded, sector: u128) -> bool
    ensures { result ≡ has_sector range.now sector }
{
    let first = u128::from(range.sector);
    first <= sector && sector < first + u128::from(range.count)
}

// What a discard leaves in its sectors.
fn words_left(range: &Discarded) -> Option<SectorWords>
    ensures { result ≡ words_left range.now }
{
    if range.failed { None } else { Some([0; 128]) }
}

// What a sector holds after these discards.
fn after_ranges(
    before: Option<SectorWords>,
    ranges: &[Discarded],
    sector: u128,
) -> Option<SectorWords>
    ensures { result ≡ after_ranges before ranges.now sector }
{
    let mut words = before;
    for range in ranges {
        if has_sector(range, sector) {
            words = words_left(range);
        }
    }
    words
}

// The discards after so many others.
fn ranges_since(ranges: &[Discarded], since: usize) -> &[Discarded]
    ensures { result.now ≡ drop since ranges.now }
{
    if since < ranges.len() {
        &ranges[since..]
    } else {
        &[]
    }
}

impl KnownWords {
    /// Nothing is known yet.
    pub fn new(alloc: Global) -> KnownWords
        ensures { result ≡ nothing_known }
    {
        KnownWords {
            singles: BTreeMap::new(alloc),
            ranges: Vec::new(alloc),
        }
    }

    /// What a sector holds, where that is known.
    pub fn words(&self, sector: u128) -> Option<SectorWords>
        ensures { result ≡ words_in self.now sector }
    {
        let ranges = self.ranges.as_slice();
        match self.singles.get(&sector) {
            None => after_ranges(None, ranges, sector),
            Some(single) => after_ranges(single.words, ranges_since(ranges, single.since), sector),
        }
    }

    /// What is known of a sector by itself.
    pub fn single(&self, sector: u128) -> Option<Single>
        ensures { result ≡ entry_at self.now.singles sector }
    {
        self.singles.get(&sector).copied()
    }

    /// Takes in what one sector holds from now on. `OutOfMemory` leaves all as it was.
    pub fn set(&mut self, sector: u128, words: Option<SectorWords>) -> Result<(), OutOfMemory>
        ensures done { Becomes (with_single self.old sector words) result self.old self.new }
    {
        let since = self.ranges.len();
        let single = Single { words, since };
        if let Some(known) = self.singles.get_mut(&sector) {
            *known = single;
            return Ok(());
        }
        match self.singles.insert(sector, single) {
            Ok(_) => Ok(()),
            Err(_) => Err(OutOfMemory),
        }
    }

    /// Sets what is known of a sector by itself to what it was before.
    #[tactic(auto, using(crate::proofs::Undone::set_nothing))]
    pub fn restore(&mut self, sector: u128, old: &Option<Single>)
        ensures { self.new ≡ with_old_single self.old sector old.now }
    {
        match *old {
            None => {
                self.singles.remove(&sector);
            }
            Some(single) => {
                if let Some(known) = self.singles.get_mut(&sector) {
                    *known = single;
                }
            }
        }
    }

    /// Takes in what the sectors of a discard hold from now on. `OutOfMemory` leaves all as it was.
    /// Each discard is kept to the end, in 16 bytes.
    pub fn set_range(&mut self, range: Discarded) -> Result<(), OutOfMemory>
        ensures done { Becomes (with_range self.old range) result self.old self.new }
    {
        match self.ranges.push(range) {
            Ok(_) => Ok(()),
            Err(_) => Err(OutOfMemory),
        }
    }

    /// Takes the last discard out again.
    pub fn remove_range(&mut self)
        ensures { self.new ≡ without_range self.old }
    {
        self.ranges.pop();
    }
}
