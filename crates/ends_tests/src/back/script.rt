// Scripts: what a back is told, step by step, and what it is to ask and to tell. A test is one call over
// their parts; the calls that play them promise nothing, and are proved once.
use crate::asks::{Answer, Ask, RING, Why, asked, given, halt};
use crate::expected::{holds, same};
use back_jobs::SectorPart;
use blk_back::{Back, BackTold};
use blk_base::{
    Abi, BackAnswer, BackAsk, Config, Endpoint, Halt, Lent, Mapping, OutOfMemory, Status,
};
use std::alloc::Global;
use std::process::Abort;

#[derive(Clone, Copy)]
pub enum Step<'a> {
    /// It is given its front's terms: a layout, an order, references of the ring's pages, and port 1.
    Attaches(Abi, u32, &'a [u32]),
    /// It may keep so many mappings.
    KeepsAtMost(u32),
    Asks(Ask),
    Told(Answer),
    /// It asks this, which is done.
    Does(Ask),
    /// It asks for a page of the ring, and maps it.
    Maps(Mapping),
    /// It reads a word of a page, which is this.
    Reads(Mapping, u32, u32),
    /// It reads words of a page, from the first on to the one before the last, which are 0.
    ReadsZeros(Mapping, u32, u32),
    /// What it asks is done, and it tells a reply to this id.
    Replies(u64, Status),
    Waits(bool),
    Idle(bool),
    Halted(Option<Why>),
    /// Its negotiation has it halt.
    Halts(Why),
    /// The lowest number of a job above this one.
    NextJob(u64, Option<u64>),
    JobAsks(u64, Ask),
    /// It copies the entry of a write, at this word of the ring: of this id, of one sector at this place on
    /// the disk, of the first sector of the frame of this reference.
    FetchesWrite(u32, u32, u32, u32),
    /// The job of a number asks this, and is told this.
    JobDoes(u64, Ask, Answer),
    /// The job of a number reads the words of the first sector through this mapping, each word once, and
    /// writes them to this sector of the disk.
    JobMoves(u64, Mapping, u64),
    /// The same, with all words read at once.
    JobMovesAtOnce(u64, Mapping, u64),
    /// As `FetchesWrite`, for a read.
    FetchesRead(u32, u32, u32, u32),
    /// The disk gives the job of a number a sector, and all its words are written at once through this mapping.
    JobWritesAtOnce(u64, Mapping),
    /// It copies no entry.
    HasNoPart,
    /// The words of an entry that it copies next: through this mapping, from this word on, so many.
    HasPart(Mapping, u32, u32),
    /// It is told these words of the entry at once.
    CopiesAtOnce(&'a [u32]),
    /// It holds so many jobs.
    Holds(usize),
}

// A back on a disk of eight sectors, whose ring starts at this index.
fn back_from(alloc: Global, start: u32) -> Result<Back, OutOfMemory> {
    let config = Config {
        abi: Abi::X64,
        order: 0,
        persistent: 0,
        indirect: 0,
        start,
        read_only: false,
        sectors: 8,
    };
    Back::new(alloc, &config)
}

// Answers what the back asks with an answer of that kind, and takes what it tells.
fn tell(rt: &impl Abort, back: &mut Back, given: BackAnswer) -> Option<BackTold> {
    let _ = back.take_told();
    let allowed = match (back.ask(), &given) {
        (BackAsk::Wait, BackAnswer::Event) => true,
        (BackAsk::Fence, BackAnswer::Done) => true,
        (BackAsk::Read { .. }, BackAnswer::Word(_)) => true,
        (BackAsk::Write { .. }, BackAnswer::Done) => true,
        (BackAsk::Map { gref, mode }, BackAnswer::Mapped(m)) => m.gref == gref && m.mode == mode,
        (BackAsk::Map { .. }, BackAnswer::MapRefused(_)) => true,
        (BackAsk::Unmap(_), BackAnswer::Done) => true,
        (BackAsk::Bind(_), BackAnswer::Done) => true,
        (BackAsk::Bind(_), BackAnswer::BindRefused) => true,
        (BackAsk::Send, BackAnswer::Done) => true,
        (BackAsk::ClosePort, BackAnswer::Done) => true,
        _ => false,
    };
    holds(rt, allowed);
    back.tell(&given).expect(rt, "memory");
    back.take_told()
}

// Answers what a job asks with an answer of that kind; what it tells is taken.
fn tell_job(rt: &impl Abort, back: &mut Back, number: u64, given: BackAnswer) {
    let _ = back.take_told();
    let allowed = match (back.job_ask(number), &given) {
        (BackAsk::Map { gref, mode }, BackAnswer::Mapped(m)) => m.gref == gref && m.mode == mode,
        (BackAsk::Read { .. }, BackAnswer::Word(_)) => true,
        (BackAsk::DiskWrite(_, _), BackAnswer::Done) => true,
        (BackAsk::DiskRead(_), BackAnswer::Sector(_)) => true,
        (BackAsk::Unmap(_), BackAnswer::Done) => true,
        _ => false,
    };
    holds(rt, allowed);
    back.job_tell(number, &given);
}

fn ask(back: &Back) -> BackAsk<'_> {
    back.ask()
}

fn job_ask(back: &Back, number: u64) -> BackAsk<'_> {
    back.job_ask(number)
}

fn next_job(back: &Back, after: u64) -> Option<u64> {
    back.next_job(after)
}

fn waits(back: &Back) -> bool {
    back.waits()
}

fn idle(back: &Back) -> bool {
    back.idle()
}

fn halted(back: &Back) -> Option<Halt> {
    back.halted()
}

fn attach(back: &mut Back, abi: Abi, order: u32, grefs: &[u32]) {
    back.attach(abi, order, grefs, 1);
}

fn keep_at_most(back: &mut Back, cap: u32) {
    back.keep_at_most(cap);
}

fn halts(back: &mut Back, why: Why) {
    back.halt(halt(why));
}

// It asks this, and is told this.
fn does(rt: &impl Abort, back: &mut Back, asks: Ask, answer: Answer) {
    same(rt, ask(back), asked(asks));
    let _ = tell(rt, back, given(answer));
}

fn reads_zeros(rt: &impl Abort, back: &mut Back, mapping: Mapping, (first, end): (u32, u32)) {
    for word in first..end {
        does(rt, back, Ask::Read(mapping, word), Answer::Word(0));
    }
}

fn fetches(
    rt: &impl Abort,
    back: &mut Back,
    (at, first): (u32, u32),
    (id, sector, gref): (u32, u32, u32),
) {
    let words = [first, 0, id, 0, sector, 0, gref];
    for (k, word) in (0..7u32).zip(words) {
        let place = at.wrapping_add(k);
        does(rt, back, Ask::Read(RING, place), Answer::Word(word));
    }
    reads_zeros(rt, back, RING, (at.wrapping_add(7), at.wrapping_add(28)));
}

fn job_does(rt: &impl Abort, back: &mut Back, number: u64, (asks, answer): (Ask, Answer)) {
    same(rt, job_ask(back, number), asked(asks));
    tell_job(rt, back, number, given(answer));
}

fn job_moves(rt: &impl Abort, back: &mut Back, number: u64, (mapping, sector): (Mapping, u64)) {
    for word in 0..128u32 {
        let read = (Ask::Read(mapping, word), Answer::Word(word));
        job_does(rt, back, number, read);
    }
    writes_sector(rt, back, number, sector);
}

fn writes_sector(rt: &impl Abort, back: &mut Back, number: u64, sector: u64) {
    let writes = match job_ask(back, number) {
        BackAsk::DiskWrite(written, _) => Some(written),
        _ => None,
    };
    same(rt, writes, Some(sector));
    tell_job(rt, back, number, BackAnswer::Done);
}

fn moves_at_once(rt: &impl Abort, back: &mut Back, number: u64, (mapping, sector): (Mapping, u64)) {
    let _ = back.take_told();
    match back.sector_part(number) {
        Some(part) if !part.writes && part.count == 128 => {
            same(rt, (part.mapping, part.word), (mapping, 0));
            back.job_tell_read(number, &[5; 128]);
        }
        _ => holds(rt, false),
    }
    writes_sector(rt, back, number, sector);
}

fn writes_at_once(rt: &impl Abort, back: &mut Back, number: u64, mapping: Mapping) {
    let words = [9; 128];
    tell_job(rt, back, number, BackAnswer::Sector(Lent::at(&words)));
    let _ = back.take_told();
    holds(rt, back.part_values(number) == words.as_slice());
    match back.sector_part(number) {
        Some(part) if part.writes && part.count == 128 => {
            same(rt, (part.mapping, part.word), (mapping, 0));
            back.job_tell_written(number, 128);
        }
        _ => holds(rt, false),
    }
}

fn entry_part(back: &Back) -> Option<SectorPart> {
    back.entry_part()
}

fn has_part(rt: &impl Abort, back: &Back, mapping: Mapping, (word, count): (u32, u32)) {
    let part = SectorPart {
        mapping,
        word,
        count,
        writes: false,
    };
    same(rt, entry_part(back), Some(part));
}

fn copies_at_once(rt: &impl Abort, back: &mut Back, words: &[u32]) {
    let _ = back.take_told();
    match back.entry_part() {
        Some(part) if !part.writes && words.len() <= part.count as usize => back.tell_entry(words),
        _ => holds(rt, false),
    }
}

fn held(back: &Back) -> usize {
    back.held()
}

fn replies(rt: &impl Abort, back: &mut Back, id: u64, status: Status) {
    let told = tell(rt, back, BackAnswer::Done);
    same(rt, told, Some(BackTold::Reply { id, status }));
}

fn takes(rt: &impl Abort, back: &mut Back, step: &Step) {
    match *step {
        Step::Attaches(abi, order, grefs) => attach(back, abi, order, grefs),
        Step::Asks(wanted) => same(rt, ask(back), asked(wanted)),
        Step::Told(answer) => {
            let _ = tell(rt, back, given(answer));
        }
        Step::Does(asks) => does(rt, back, asks, Answer::Done),
        Step::Maps(page) => does(
            rt,
            back,
            Ask::Map(page.gref, page.mode),
            Answer::Mapped(page),
        ),
        Step::Reads(page, word, value) => {
            does(rt, back, Ask::Read(page, word), Answer::Word(value))
        }
        Step::ReadsZeros(page, first, end) => reads_zeros(rt, back, page, (first, end)),
        Step::Replies(id, status) => replies(rt, back, id, status),
        Step::Waits(wanted) => same(rt, waits(back), wanted),
        Step::Idle(wanted) => same(rt, idle(back), wanted),
        Step::Halted(why) => same(rt, halted(back), why.map(halt)),
        Step::Halts(why) => halts(back, why),
        Step::NextJob(after, wanted) => same(rt, next_job(back, after), wanted),
        Step::JobAsks(number, wanted) => same(rt, job_ask(back, number), asked(wanted)),
        _ => serves(rt, back, step),
    }
}

// The steps of jobs.
fn serves(rt: &impl Abort, back: &mut Back, step: &Step) {
    match *step {
        Step::KeepsAtMost(cap) => keep_at_most(back, cap),
        Step::FetchesWrite(at, id, sector, gref) => {
            fetches(rt, back, (at, 0xca000101), (id, sector, gref))
        }
        Step::FetchesRead(at, id, sector, gref) => {
            fetches(rt, back, (at, 0xca000100), (id, sector, gref))
        }
        Step::JobMovesAtOnce(number, mapping, sector) => {
            moves_at_once(rt, back, number, (mapping, sector))
        }
        Step::JobWritesAtOnce(number, mapping) => writes_at_once(rt, back, number, mapping),
        Step::HasNoPart => same(rt, entry_part(back), None),
        Step::HasPart(mapping, word, count) => has_part(rt, back, mapping, (word, count)),
        Step::CopiesAtOnce(words) => copies_at_once(rt, back, words),
        Step::Holds(count) => same(rt, held(back), count),
        Step::JobDoes(number, asks, answer) => job_does(rt, back, number, (asks, answer)),
        Step::JobMoves(number, mapping, sector) => job_moves(rt, back, number, (mapping, sector)),
        _ => {}
    }
}

fn takes_all(rt: &impl Abort, back: &mut Back, steps: &[Step]) {
    for step in steps {
        takes(rt, back, step);
    }
}

/// Plays these parts of a script from a new back on, on a disk of eight sectors, whose ring starts at this
/// index.
pub fn plays(rt: &impl Abort, alloc: Global, start: u32, parts: &[&[Step]]) {
    let mut back = back_from(alloc, start).expect(rt, "memory");
    for part in parts {
        takes_all(rt, &mut back, part);
    }
}
