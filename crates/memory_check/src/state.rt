// The state after some lines of a report.
ghost use Rattle.std.specs.Prelude.{◌≡◌};
ghost use Rattle.blk_base.specs.Becomes.{Becomes};
ghost use Rattle.schedule_text.specs.declared.line.Line.TheVariants as lines;
ghost use Rattle.grant_table.specs.Entry.{mapped_entry};
ghost use Rattle.memory_check.specs.Numbers.{has};
ghost use Rattle.memory_check.specs.State.{start, word_at, with_word, flags_of, with_flags, standing_at, with_mapping, after_map, after_unmap, after_epoch, seen};

use crate::mappings::Mappings;
use crate::numbers::Numbers;
use crate::words::Words;
use blk_base::{Mode, Move, OutOfMemory};
use report_rules::{Standing, entry_mapped, entry_unmapped};
use schedule_text::Line;
use std::alloc::Global;
use std::marker::Model;

/// What the lines of a report tell of memory and mappings.
#[derive(Drop)]
pub struct Memory {
    table: Words,
    pages: Words,
    standing: Mappings,
    numbers: Numbers,
}

impl Model for Memory {
    ghost use Rattle.memory_check.specs.State.{State};

    ghost Value = { State };

    ghost view = { λ m. record { table = m.table; pages = m.pages; standing = m.standing; numbers = m.numbers } };
}

impl Memory {
    /// No line was seen yet.
    pub fn new(alloc: Global) -> Memory
        ensures { result ≡ start }
    {
        Memory {
            table: Words::new(alloc),
            pages: Words::new(alloc),
            standing: Mappings::new(alloc),
            numbers: Numbers::new(alloc),
        }
    }

    /// The value of a word.
    #[inline(always)]
    pub fn word(&self, frame: u32, word: u32) -> u32
        ensures { result ≡ word_at self.now frame word }
    {
        if frame < 2 {
            self.table.value(frame, word)
        } else {
            self.pages.value(frame, word)
        }
    }

    /// The mapping of a number, where it stands.
    pub fn standing(&self, number: u64) -> Option<Standing>
        ensures { result ≡ standing_at self.now.standing number }
    {
        self.standing.get(number)
    }

    /// Whether a mapping had that number, in any epoch.
    pub fn was_made(&self, number: u64) -> bool
        ensures { result ≡ has self.now.numbers number }
    {
        self.numbers.has(number)
    }

    #[inline(always)]
    fn write(&mut self, frame: u32, word: u32, value: u32) -> Result<(), OutOfMemory>
        ensures written { Becomes (with_word self.old frame word value) result self.old self.new }
    {
        if frame < 2 {
            self.table.write(frame, word, value)
        } else {
            self.pages.write(frame, word, value)
        }
    }

    // Sets the flags of the entry of a reference that is mapped.
    fn set_flags(&mut self, gref: u32, mode: Mode) -> Result<(), OutOfMemory>
        ensures written { Becomes (with_flags self.old gref (mapped_entry (flags_of self.old gref) mode)) result self.old self.new }
    {
        let frame = gref / 512;
        let word = 2 * (gref % 512);
        let flags = entry_mapped(self.word(frame, word), mode);
        self.write(frame, word, flags)
    }

    // Takes in a map, but for its number.
    fn add_mapping(&mut self, made: Standing) -> Result<(), OutOfMemory>
        ensures added { Becomes (with_mapping self.old made) result self.old self.new }
    {
        if self.standing.stands(made.number) {
            return self.set_flags(made.gref, made.mode);
        }
        self.standing.add(made)?;
        let written = self.set_flags(made.gref, made.mode);
        if written.is_err() {
            self.standing.remove(made.number);
        }
        written
    }

    // Takes in a map.
    fn map(&mut self, made: Standing) -> Result<(), OutOfMemory>
        ensures mapped { Becomes (after_map self.old made) result self.old self.new }
    {
        if self.numbers.wants_no_place(made.number) {
            self.add_mapping(made)?;
            self.numbers.add_to_run(made.number);
            return Ok(());
        }
        self.numbers.add_apart(made.number)?;
        let added = self.add_mapping(made);
        if added.is_err() {
            self.numbers.remove_apart(made.number);
        }
        added
    }

    fn unmap(&mut self, number: u64) -> Result<(), OutOfMemory>
        ensures unmapped { Becomes (after_unmap self.old (standing_at self.old.standing number)) result self.old self.new }
    {
        let Some(ended) = self.standing(number) else {
            return Ok(());
        };
        let frame = ended.gref / 512;
        let word = 2 * (ended.gref % 512);
        let mappings = self.standing.others_of(ended.gref, ended.number);
        let writers = self.standing.other_writers_of(ended.gref, ended.number);
        let flags = entry_unmapped(self.word(frame, word), mappings, writers);
        self.write(frame, word, flags)?;
        self.standing.remove(ended.number);
        Ok(())
    }

    fn end_epoch(&mut self)
        ensures { self.new ≡ after_epoch self.old }
    {
        self.table.clear();
        self.standing.clear();
    }

    /// Takes in the next line. After want of memory nothing has changed.
    #[inline(always)]
    pub fn see(&mut self, line: &Line) -> Result<(), OutOfMemory>
        ensures seen { Becomes (seen self.old line.now) result self.old self.new }
    {
        match *line {
            Line::Move(Move::FrontWrite { frame, word, value }) => self.write(frame, word, value),
            Line::Move(Move::FrontRead { .. }) | Line::Move(Move::Read { .. }) => Ok(()),
            _ => self.see_any(line),
        }
    }

    // The next line, whatever it is. Most lines are accesses of the front's and reads, so `see` doesn't
    // ask of those what else they may be.
    fn see_any(&mut self, line: &Line) -> Result<(), OutOfMemory>
        ensures seen { Becomes (seen self.old line.now) result self.old self.new }
    {
        match *line {
            Line::Move(step) => self.see_move(&step),
            Line::Poke { frame, word, value } => self.write(frame, word, value),
            Line::Epoch => {
                self.end_epoch();
                Ok(())
            }
            _ => Ok(()),
        }
    }

    fn see_move(&mut self, step: &Move) -> Result<(), OutOfMemory>
        ensures seen { Becomes (seen self.old (lines.Move step.now)) result self.old self.new }
    {
        match *step {
            Move::FrontWrite { frame, word, value } => self.write(frame, word, value),
            Move::FrontCas {
                frame,
                word,
                old,
                new,
                seen,
            } if seen == old => self.write(frame, word, new),
            Move::Write {
                frame,
                word,
                value,
                ..
            } => self.write(frame, word, value),
            Move::Map {
                gref,
                mode,
                mapping,
                frame,
                ..
            } => self.map(Standing {
                number: mapping,
                gref,
                mode,
                frame,
            }),
            Move::Unmap { mapping, .. } => self.unmap(mapping),
            _ => Ok(()),
        }
    }
}
