// A front over a guest's memory, which answers what the front asks, and the ring's other end by hand. Its
// calls promise next to nothing, so that what plays the scripts is proved without what the front's
// contracts give.
ghost use Rattle.std.specs.Prelude.{IfSome};
ghost use Rattle.blk_front.specs.Ask.{IsAnswer};

use super::script::{Ask, NOTHING, Work};
use crate::expected::{holds, same};
use blk_base::{
    Config, Endpoint, FrontAnswer, FrontAsk, OutOfMemory, Refusal, SectorCount, Submission,
};
use blk_front::{EntryPart, Front, FrontState, Offers, SectorPart, Told};
use std::alloc::Global;
use std::process::Abort;

/// The words of frames 0 to 63.
#[derive(Drop)]
struct Memory {
    words: Vec<u32>,
}

impl Memory {
    fn new(alloc: Global) -> Result<Memory, OutOfMemory> {
        Ok(Memory {
            words: vec![in alloc; 0; 65536]?,
        })
    }

    fn read(&self, frame: u32, word: u32) -> u32 {
        let place = frame as usize * 1024 + word as usize;
        self.words.get(place).copied().unwrap_or(0)
    }

    fn write(&mut self, frame: u32, word: u32, value: u32) {
        if let Some(old) = self.words.get_mut(frame as usize * 1024 + word as usize) {
            *old = value;
        }
    }

    // Writes so many words of a frame from this one on: each is this value.
    fn fill(&mut self, frame: u32, first: u32, count: u32, value: u32) {
        for n in 0..count {
            self.write(frame, first.wrapping_add(n), value);
        }
    }

    // Writes these words of a frame, the first of them here.
    fn put(&mut self, frame: u32, first: u32, words: &[u32]) {
        let mut place = first;
        for word in words {
            self.write(frame, place, *word);
            place = place.wrapping_add(1);
        }
    }

    // The 128 words of a frame from this one on.
    fn sector(&self, frame: u32, first: u32) -> [u32; 128] {
        let mut words = [0; 128];
        for n in 0..128 {
            words[n] = self.read(frame, first.wrapping_add(n as u32));
        }
        words
    }

    // Does what is asked; `None` for what this front never asks.
    fn answer(&mut self, ask: &FrontAsk) -> Option<FrontAnswer<'static>>
        ensures { IfSome result (λ answer. IsAnswer ask.now answer) }
    {
        match *ask {
            FrontAsk::Wait => Some(FrontAnswer::Event),
            FrontAsk::Fence => Some(FrontAnswer::Done),
            FrontAsk::Read { frame, word } => Some(FrontAnswer::Word(self.read(frame, word))),
            FrontAsk::Write { frame, word, value } => {
                self.write(frame, word, value);
                Some(FrontAnswer::Done)
            }
            FrontAsk::Cas {
                frame,
                word,
                old,
                new,
            } => {
                let seen = self.read(frame, word);
                if seen == old {
                    self.write(frame, word, new);
                }
                Some(FrontAnswer::Word(seen))
            }
            FrontAsk::NewPort => Some(FrontAnswer::Port(1)),
            FrontAsk::Send | FrontAsk::ClosePort => Some(FrontAnswer::Done),
            _ => None,
        }
    }
}

// What is asked, as the front asks it.
fn asked(ask: Ask) -> FrontAsk<'static> {
    match ask {
        Ask::Wait => FrontAsk::Wait,
        Ask::Fence => FrontAsk::Fence,
        Ask::Read(frame, word) => FrontAsk::Read { frame, word },
        Ask::Write(frame, word, value) => FrontAsk::Write { frame, word, value },
        Ask::Cas(frame, word, old, new) => FrontAsk::Cas {
            frame,
            word,
            old,
            new,
        },
        Ask::NewPort => FrontAsk::NewPort,
        Ask::Send => FrontAsk::Send,
        Ask::ClosePort => FrontAsk::ClosePort,
    }
}

// The job that is to be done; `None` where it has no sector.
fn job(work: Work) -> Option<Submission> {
    let job = match work {
        Work::Read(sector, count) => Submission::Read {
            sector,
            count: SectorCount::new(count)?,
        },
        Work::Write(sector, count, tag) => Submission::Write {
            sector,
            count: SectorCount::new(count)?,
            tag,
        },
        Work::Barrier(sector, count, tag) => Submission::Barrier {
            sector,
            count: SectorCount::new(count)?,
            tag,
        },
        Work::Flush => Submission::Flush,
        Work::Discard(sector, count) => Submission::Discard {
            sector,
            count: SectorCount::new(count)?,
        },
    };
    Some(job)
}

/// A front and its guest's memory, and the disk that it is configured with.
#[derive(Drop)]
pub struct Guest {
    front: Front,
    memory: Memory,
    disk: Offers,
}

impl Guest {
    pub fn new(rt: &impl Abort, alloc: Global, config: &Config) -> Guest {
        holds(rt, config.order <= 4);
        Guest {
            front: Front::new(alloc, config).expect(rt, "memory"),
            memory: Memory::new(alloc).expect(rt, "memory"),
            disk: Offers {
                sectors: config.sectors,
                read_only: config.read_only,
                ..NOTHING
            },
        }
    }

    pub fn submit(&mut self, rt: &impl Abort, work: Work) -> Result<u32, Refusal> {
        self.front.submit(job(work).expect(rt, "a count above 0"))
    }

    /// A back of the disk that the guest is configured with, which serves reads and writes alone.
    pub fn disk(&self) -> Offers {
        self.disk
    }

    pub fn enter(&mut self, state: FrontState) -> bool {
        self.front.enter(state)
    }

    pub fn suspend(&mut self) {
        self.front.suspend();
    }

    pub fn idle(&self) -> bool {
        self.front.idle()
    }

    pub fn is_connected(&self) -> bool {
        self.front.is_connected()
    }

    pub fn owed(&self) -> (u32, u64) {
        self.front.owed()
    }

    pub fn has_told(&self) -> bool {
        self.front.has_told()
    }

    pub fn take_told(&mut self) -> Option<Told> {
        self.front.take_told()
    }

    /// It asks this.
    pub fn asks(&self, rt: &impl Abort, wanted: Ask) {
        same(rt, self.front.ask(), asked(wanted));
    }

    /// It asks this where that is a word of a request's data.
    pub fn asks_data(&self, rt: &impl Abort, wanted: Option<Ask>) {
        match wanted {
            Some(wanted) => same(rt, self.front.data_asked(), Some(asked(wanted))),
            None => same(rt, self.front.data_asked(), None),
        }
    }

    pub fn read(&self, frame: u32, word: u32) -> u32 {
        self.memory.read(frame, word)
    }

    pub fn write(&mut self, frame: u32, word: u32, value: u32) {
        self.memory.write(frame, word, value);
    }

    /// The words of data that it asks for next.
    pub fn part(&self) -> Option<SectorPart> {
        self.front.sector_part()
    }

    /// Writes so many of those words, and says so at once. What was told is taken before.
    pub fn writes_part(&mut self, rt: &impl Abort, count: u32) {
        same(rt, self.front.take_told(), None);
        match self.front.sector_part() {
            Some(part) if part.value.is_some() && count <= part.count => {
                let value = part.value.unwrap_or(0);
                self.memory.fill(part.frame, part.word, count, value);
                self.front.tell_written(count);
            }
            _ => holds(rt, false),
        }
    }

    /// Reads so many of those words, and says so at once, likewise.
    pub fn reads_part(&mut self, rt: &impl Abort, count: u32) {
        same(rt, self.front.take_told(), None);
        match self.front.sector_part() {
            Some(part) if part.value.is_none() && count <= part.count => {
                let words = self.memory.sector(part.frame, part.word);
                self.front.tell_read(&words[..count as usize]);
            }
            _ => holds(rt, false),
        }
    }

    /// The words of an entry that it writes next.
    pub fn entry(&self) -> Option<EntryPart> {
        self.front.entry_part()
    }

    /// Writes so many of those words, and says so at once, likewise.
    pub fn writes_entry(&mut self, rt: &impl Abort, count: u32) {
        same(rt, self.front.take_told(), None);
        match self.front.entry_part() {
            Some(part) if count <= part.count => {
                let words = self.front.entry_words();
                self.memory
                    .put(part.frame, part.word, &words[..count as usize]);
                self.front.tell_entered(count);
            }
            _ => holds(rt, false),
        }
    }

    /// Does what is asked next. What was told is taken before. A `Wait` is answered by an event.
    pub fn moves(&mut self, rt: &impl Abort) {
        same(rt, self.front.take_told(), None);
        let ask = self.front.ask();
        let answer = self.memory.answer(&ask).expect(rt, "never asked");
        self.front.tell(&answer).expect(rt, "memory");
    }
}
