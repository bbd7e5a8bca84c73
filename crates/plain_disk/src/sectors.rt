// What a plain disk's sectors hold, and what a loss of its cache may leave in them.
ghost use Rattle.std.specs.Prelude.{◌≡◌, ◌+◌, slice_get, option_map};
ghost use Rattle.plain_disk.specs.Sector.{Sector, covers, only, may_hold, changed, sector_at};
ghost use Rattle.plain_disk.specs.Step.{place_sector};

use crate::looking::sector_of;
use crate::request::{Change, Extent};
use blk_base::{SectorWords, Submission};

/// Whether a sector is among those.
pub fn covers(at: &Extent, sector: u128) -> bool
    ensures { result ≡ covers at.now sector }
{
    let begin = u128::from(at.sector) + u128::from(at.from);
    begin <= sector && sector < begin + u128::from(at.count)
}

// What a sector holds after a change, where that is known.
fn words_after(change: &Change, sector: u128, words: Option<SectorWords>) -> Option<SectorWords>
    ensures { (s : Sector) → s.own ≡ option_map only words → (changed sector s change.now).own ≡ option_map only result }
{
    match change {
        Change::Filled { at, words } if covers(at, sector) => Some(*words),
        Change::Showed { at, words } if covers(at, sector) => Some(*words),
        Change::Spoiled { at } if covers(at, sector) => None,
        _ => words,
    }
}

/// What a sector holds, where that is known.
pub fn words_at(first: &[SectorWords], changes: &[Change], sector: u128) -> Option<SectorWords>
    ensures { (sector_at first.now changes.now sector).own ≡ option_map only result }
{
    let mut words = first_words(first, sector);
    for change in changes {
        words = words_after(change, sector, words);
    }
    words
}

// Whether a sector that holds this, where that is known, may have these words after a change and a
// loss of the cache.
fn left_after(
    change: &Change,
    sector: u128,
    own: &Option<SectorWords>,
    left: bool,
    words: &SectorWords,
) -> bool
    ensures { (s : Sector) → s.own ≡ option_map only own.now → may_hold s.loss words.now ≡ left
        → may_hold (changed sector s change.now).loss words.now ≡ result }
{
    match change {
        Change::Filled { at, words: new } if covers(at, sector) => left || *new == *words,
        Change::Spoiled { at } if covers(at, sector) => true,
        Change::Flushed => may_hold(own, words),
        _ => left,
    }
}

/// Whether a sector may have these words where the disk loses its cache now.
pub fn may_leave(
    first: &[SectorWords],
    changes: &[Change],
    sector: u128,
    words: &SectorWords,
) -> bool
    ensures { result ≡ may_hold (sector_at first.now changes.now sector).loss words.now }
{
    let mut own = first_words(first, sector);
    let mut left = may_hold(&own, words);
    for change in changes {
        left = left_after(change, sector, &own, left, words);
        own = words_after(change, sector, own);
    }
    left
}

// What a sector held at first.
fn first_words(first: &[SectorWords], sector: u128) -> Option<SectorWords>
    ensures { result ≡ slice_get first.now sector }
{
    if sector < first.len() as u128 {
        Some(first[sector as usize])
    } else {
        None
    }
}

/// What the sector of a request's place holds, where that is known.
pub fn place_words(
    first: &[SectorWords],
    changes: &[Change],
    submission: &Submission,
    index: u32,
) -> Option<SectorWords>
    ensures { (place_sector first.now changes.now submission.now index).own ≡ option_map only result }
{
    let sector = u128::from(sector_of(submission)) + u128::from(index);
    words_at(first, changes, sector)
}

/// Whether a sector that holds this, where that is known, may have these words.
pub fn may_hold(known: &Option<SectorWords>, words: &SectorWords) -> bool
    ensures { result ≡ may_hold (option_map only known.now) words.now }
{
    match known {
        None => true,
        Some(known) => *known == *words,
    }
}
