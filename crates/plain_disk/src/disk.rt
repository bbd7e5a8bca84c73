// The plain, slow program.
ghost use Rattle.std.specs.Prelude.{◌≡◌, ℕ, List, Option, Some, None, IsNone, option_map};
ghost use Rattle.plain_disk.specs.Sector.{sector_at, only, may_hold};
ghost use Rattle.plain_disk.specs.Disk.{disk_of};
ghost use Rattle.plain_disk.specs.Step.{step};
ghost use Rattle.plain_disk.specs.Stands.{Steps};

mod steps;

use crate::request::{Change, DiskRequest, Noted, Place};
use crate::sectors;
use blk_base::{OutOfMemory, SectorWords};
use schedule_text::Line;
use std::alloc::Global;
use std::marker::Model;

/// Whether a line can stand where it does.
#[derive(Clone, Copy)]
pub enum Stand {
    /// It can, and the disk took its step.
    Stands,
    /// It can't, and the disk is as before.
    Falls,
}

/// A plain disk, moved by the lines of a report: first what its sectors hold, then each line's step.
/// It keeps all that happened to sectors, and looks through it each time.
#[derive(Drop)]
pub struct PlainDisk {
    first: Vec<SectorWords>,
    changes: Vec<Change>,
    requests: Vec<DiskRequest>,
    done: Vec<Place>,
    noted: Vec<Noted>,
}

impl Model for PlainDisk {
    ghost use Rattle.plain_disk.specs.Disk.{Disk};

    ghost Value = { Disk };

    ghost view = { λ d. record { first = d.first.items; changes = d.changes.items; requests = d.requests.items; done = d.done.items; noted = d.noted.items } };
}

impl PlainDisk {
    /// A disk whose sectors hold these words; of sectors past them nobody knows what they hold.
    pub fn new(alloc: Global, first: Vec<SectorWords>) -> PlainDisk
        ensures { result ≡ disk_of first.items }
    {
        PlainDisk {
            first,
            changes: Vec::new(alloc),
            requests: Vec::new(alloc),
            done: Vec::new(alloc),
            noted: Vec::new(alloc),
        }
    }

    /// What a sector holds, where that is known.
    pub fn words_at(&self, sector: u64) -> Option<SectorWords>
        ensures { (sector_at self.now.first self.now.changes sector).own ≡ option_map only result }
    {
        sectors::words_at(
            self.first.as_slice(),
            self.changes.as_slice(),
            u128::from(sector),
        )
    }

    /// Whether a sector may have these words where the disk loses its cache now.
    pub fn may_leave(&self, sector: u64, words: &SectorWords) -> bool
        ensures { result ≡ may_hold (sector_at self.now.first self.now.changes sector).loss words.now }
    {
        sectors::may_leave(
            self.first.as_slice(),
            self.changes.as_slice(),
            u128::from(sector),
            words,
        )
    }

    /// The requests that were submitted, number 1 first.
    pub fn requests(&self) -> &[DiskRequest]
        ensures { result.now ≡ self.now.requests }
    {
        self.requests.as_slice()
    }

    /// Takes a line's step, where it has one. After want of memory the disk is as before.
    pub fn step(&mut self, line: &Line) -> Result<Stand, OutOfMemory>
        ensures stands { Steps (step self.old line.now) result self.old self.new }
    {
        match *line {
            Line::Submit { id, submission } => self.submit(id, submission),
            Line::Effect { id, index } => self.effect(id, index),
            Line::EffectRead { id, index, words } => self.effect_read(id, index, words),
            Line::Flushed { id } => self.flushed(id),
            Line::Trimmed { id } => self.trimmed(id),
            Line::Fault { id, index } => self.fault(id, index),
            Line::Reply { id, status } => self.reply(id, status),
            Line::Answer { id, status } => self.answer(id, status),
            Line::Data { id, index, words } => self.tell(id, index, words),
            Line::Epoch => self.epoch(),
            Line::Quiet => self.quiet(),
            _ => Ok(Stand::Stands),
        }
    }
}
