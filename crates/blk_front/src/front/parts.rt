// Words of a sector, many at once.
ghost use Rattle.std.specs.Prelude.{◌≡◌, ◌≤◌, ◌+◌, None, IfSome, length};
ghost use Rattle.blk_front.specs.View.{next_request};
ghost use Rattle.blk_front.specs.Keep.{ask_as, step_as};
ghost use Rattle.blk_front.specs.Part.{part_from, written_part, first_part, read_part, sector_part, written_word, HasWritten, HasRead};
ghost use Rattle.blk_front.specs.Part.{all_written, all_read, steps_as, AreTellable, AsksEach, IsWithin, with_words};

use super::Front;
use crate::request::{Request, SECTOR_WORDS, Transfer};
use crate::sector_part::SectorPart;
use crate::stage::FrontStage;

impl Front {
    /// The words of a request's data that it asks for next, one after another, up to the last word of their sector: of
    /// a write or a barrier as it is issued, and of a read that was answered. `None` where it asks for no such word.
    pub fn sector_part(&self) -> Option<SectorPart>
        ensures value { result ≡ sector_part self.now }
        ensures asked { IfSome result (AsksEach ask_as step_as self.now) }
        ensures within { IfSome result IsWithin }
    {
        match self.stage {
            FrontStage::Loop => self.first_part(),
            FrontStage::Data(n) => self.written_part(n),
            FrontStage::ReadData(n) | FrontStage::LeftData(n) => self.read_part(n),
            _ => None,
        }
    }

    // The first sector of a write or a barrier that is issued next.
    fn first_part(&self) -> Option<SectorPart>
        ensures value { result ≡ first_part (next_request self.now) }
        ensures within { IfSome result IsWithin }
    {
        match self.next_request()?.transfer {
            Transfer::Write(_) | Transfer::Barrier(_) => self.written_part(0),
            _ => None,
        }
    }

    // The words from word `n` on of the data of the request that is issued next.
    fn written_part(&self, n: u32) -> Option<SectorPart>
        ensures value { result ≡ written_part (next_request self.now) n }
        ensures within { IfSome result IsWithin }
    {
        let r = self.next_request()?;
        part_from(r, n, Some(r.transfer.filling(n)))
    }

    // The same of the request that is ending.
    fn read_part(&self, n: u32) -> Option<SectorPart>
        ensures value { result ≡ read_part self.now.ending n }
        ensures within { IfSome result IsWithin }
    {
        let ending = self.ending.as_ref()?;
        part_from(&ending.request, n, None)
    }

    /// So many of the words that it asks for were written: as many single answers, one after another. Nothing is told.
    pub fn tell_written(&mut self, count: u32)
        requires part { HasWritten (sector_part self.old) count }
        requires told { self.old.told ≡ None }
        ensures front { self.new ≡ steps_as self.old (all_written count) }
        ensures each { AreTellable self.old (all_written count) }
        ensures told { self.new.told ≡ None }
    {
        if count == 0 {
            return;
        }
        let last = written_word(self.stage) + (count - 1);
        self.stage = FrontStage::Data(last);
        self.wrote_data(last);
    }

    /// These of the words that it asks for were read: as many single answers, one after another. A sector is told after
    /// its last word.
    pub fn tell_read(&mut self, words: &[u32])
        requires part { HasRead (sector_part self.old) (length words.now) }
        requires told { self.old.told ≡ None }
        ensures front { self.new ≡ steps_as self.old (all_read words.now) }
        ensures each { AreTellable self.old (all_read words.now) }
    {
        let Some((last, rest)) = words.split_last() else {
            return;
        };
        let count = rest.len() as u32;
        match self.stage {
            FrontStage::ReadData(n) => {
                put_words(&mut self.words, (n % SECTOR_WORDS) as usize, rest);
                self.stage = FrontStage::ReadData(n + count);
                self.read_data(n + count, *last);
            }
            FrontStage::LeftData(n) => {
                put_words(&mut self.words, (n % SECTOR_WORDS) as usize, rest);
                self.stage = FrontStage::LeftData(n + count);
                self.read_left(n + count, *last);
            }
            _ => {}
        }
    }
}

// The words of a request's data from word `n` on, up to the last one of its sector.
fn part_from(r: &Request, n: u32, value: Option<u32>) -> Option<SectorPart>
    requires { r.now.count ≤ 7680 }
    ensures value { result ≡ part_from r.now n value }
    ensures within { IfSome result IsWithin }
{
    if n >= SECTOR_WORDS * r.count {
        return None;
    }
    Some(SectorPart {
        id: r.number,
        index: n / SECTOR_WORDS,
        frame: r.frame(n / 1024).number(),
        word: n % 1024,
        count: SECTOR_WORDS - n % SECTOR_WORDS,
        value,
    })
}

// The word of a write's data that is written next: its first one where it isn't begun.
fn written_word(stage: FrontStage) -> u32
    ensures { result ≡ written_word stage }
{
    match stage {
        FrontStage::Data(n) => n,
        _ => 0,
    }
}

// These words are put in a sector's from a place on.
#[inline(always)]
fn put_words(sector: &mut [u32; 128], place: usize, words: &[u32])
    requires { place + length words.now ≤ 128 }
    ensures { sector.new ≡ with_words sector.old place words.now }
{
    for (i, word) in words.iter().enumerate() {
        sector[place + i] = *word;
    }
}
