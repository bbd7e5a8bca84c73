// Scripts: what jobs are told, step by step, and what they are to ask. A test is one call over a script;
// the calls that play it promise nothing, and are proved once.
ghost use Rattle.std.specs.Prelude.{◌≤◌};

use crate::asks::{Answer, Ask, asked, given};
use crate::expected::{holds, same};
use back_jobs::{Effect, Jobs, SectorPart};
use blk_base::{Abi, BackAnswer, BackAsk, Lent, Mapping, Mode, OutOfMemory, Status};
use blk_layout::{RawRequest, Segment};
use ring_words::RingShape;
use segment_list::DiskInfo;
use std::alloc::Global;
use std::process::Abort;

/// A job that is done: its number, its id, its operation, and how it ended.
pub type Response = (u64, u64, u8, Status);

/// Where no other job is named it is job 1.
#[derive(Clone, Copy)]
pub enum Step {
    /// There is room, and a job of this number begins, of this operation and sector.
    Starts(u64, u8, u64),
    /// The same for a discard of so many sectors.
    Discards(u64, u64),
    /// The same for a flush.
    Flushes,
    /// The same for an indirect write of so many segments.
    Indirect(u16),
    /// Its id, and how many sectors it has moved.
    At(Option<(u64, u32)>),
    Asks(Ask),
    Told(Answer),
    /// A job is told this.
    ToldTo(u64, Answer),
    /// It is told this, which has this effect.
    Tells(Answer, Effect),
    /// It reads the words of a sector of its frame, each one its number.
    ReadsWords(u32),
    /// It writes a sector to the disk.
    DiskWrites(u64),
    /// The disk gives it a sector, and it writes the words, each one 9, to this sector of its frame.
    WritesWords(u32),
    /// It maps the page of this reference for reading alone, reads both words of so many segments, each
    /// word once, and unmaps it. Each segment is of frame 24, with these sectors.
    Copies(u32, u32, u32),
    /// Which of jobs 1 to 5 ask for their frame; the others wait.
    GoOn([bool; 5]),
    Done(Option<Response>),
    /// What is done is taken.
    Taken(Option<Response>),
    Count(usize),
    /// The lowest number of a job above this one.
    NextAfter(u64, Option<u64>),
    /// No mapping is left to be unmapped.
    GivesNothingUp,
    /// A write of two sectors of the frame of this reference begins, of this number.
    StartsOn(u64, u32),
    /// The job of a number asks this.
    JobAsks(u64, Ask),
    /// The job of a number reads the words of both sectors through this mapping, each word once, and
    /// writes them to the disk.
    Moves(u64, Mapping),
    /// This mapping is given up.
    GivesUp(Mapping),
    /// The words of a sector that it moves next.
    Part(Option<SectorPart>),
    /// So many of them were read at once, each the number of its place in the sector.
    ReadsPart(u32),
    /// So many of them are to be 9, and were written at once.
    WritesPart(u32),
    /// It writes a sector to the disk, of words that are each the number of its place.
    DiskWritesWords(u64),
    /// The disk gives it a sector, of words that are each 9.
    Sector,
}

/// The frame of a job, mapped for reading alone.
pub const READ_ONLY: Mapping = Mapping {
    number: 7,
    gref: 24,
    mode: Mode::ReadOnly,
};

/// The frame of a job, mapped.
pub const FRAME: Mapping = Mapping {
    number: 7,
    gref: 24,
    mode: Mode::ReadWrite,
};

fn jobs_on(
    alloc: Global,
    sectors: u64,
    offered: bool,
    max_indirect: u32,
    cap: u32,
) -> Result<Jobs, OutOfMemory>
    requires { cap ≤ 1000 }
{
    let info = DiskInfo {
        sectors,
        read_only: false,
        barrier: offered,
        flush: offered,
        discard: offered,
        max_indirect,
    };
    Jobs::reserve(alloc, RingShape::of(Abi::X64, 0), info, cap)
}

// A request of id 5 with sectors 2 and 3 of the frame of reference 24.
fn request(op: u8, sector: u64) -> RawRequest {
    request_on(op, sector, 24)
}

// The same of the frame of another reference.
fn request_on(op: u8, sector: u64, gref: u32) -> RawRequest {
    let mut segments = [Segment::default(); 11];
    segments[0] = Segment {
        gref,
        first: 2,
        last: 3,
    };
    RawRequest::Direct {
        op,
        count: 1,
        device: 51712,
        id: 5,
        sector,
        segments,
    }
}

// A discard of id 5.
fn discard(sector: u64, count: u64) -> RawRequest {
    RawRequest::Discard {
        flag: 0,
        device: 51712,
        id: 5,
        sector,
        count,
    }
}

// A flush of id 5, which has no segments.
fn flush() -> RawRequest {
    RawRequest::Direct {
        op: 3,
        count: 0,
        device: 51712,
        id: 5,
        sector: 0,
        segments: [Segment::default(); 11],
    }
}

// An indirect write of id 5 of so many segments, which pages 40 and on name.
fn indirect(count: u16) -> RawRequest {
    RawRequest::Indirect {
        op: 1,
        count,
        device: 51712,
        id: 5,
        sector: 0,
        pages: [40, 41, 42, 43, 44, 45, 46, 47],
    }
}

fn start(rt: &impl Abort, jobs: &mut Jobs, number: u64, request: &RawRequest) {
    holds(rt, jobs.has_room());
    jobs.start(number, request);
}

fn ask(jobs: &Jobs, number: u64) -> BackAsk<'_> {
    jobs.ask(number)
}

fn at(jobs: &Jobs) -> Option<(u64, u32)> {
    jobs.at(1)
}

fn done(jobs: &Jobs) -> Option<Response> {
    jobs.done()
}

fn take_done(jobs: &mut Jobs) -> Option<Response> {
    jobs.take_done()
}

fn next_after(jobs: &Jobs, number: u64) -> Option<u64> {
    jobs.next_after(number)
}

fn count(jobs: &Jobs) -> usize {
    jobs.count()
}

fn abort(jobs: &mut Jobs) -> Option<Mapping> {
    jobs.give_up()
}

// Answers what a job asks with an answer of that kind.
fn tell(rt: &impl Abort, jobs: &mut Jobs, number: u64, given: BackAnswer) -> Option<Effect> {
    let allowed = match (jobs.ask(number), &given) {
        (BackAsk::Map { gref, mode }, BackAnswer::Mapped(m)) => m.gref == gref && m.mode == mode,
        (BackAsk::Map { .. }, BackAnswer::MapRefused(_)) => true,
        (BackAsk::Read { .. }, BackAnswer::Word(_)) => true,
        (BackAsk::Write { .. }, BackAnswer::Done) => true,
        (BackAsk::Unmap(_), BackAnswer::Done) => true,
        (BackAsk::DiskRead(_), BackAnswer::Sector(_)) => true,
        (BackAsk::DiskRead(_), BackAnswer::DiskFailed) => true,
        (BackAsk::DiskWrite(_, _), BackAnswer::Done) => true,
        (BackAsk::DiskWrite(_, _), BackAnswer::DiskFailed) => true,
        (BackAsk::Flush | BackAsk::Trim(_, _), BackAnswer::Done) => true,
        (BackAsk::Flush | BackAsk::Trim(_, _), BackAnswer::DiskFailed) => true,
        _ => false,
    };
    holds(rt, allowed);
    jobs.tell(number, &given)
}

fn told(rt: &impl Abort, jobs: &mut Jobs, number: u64, answer: Answer) {
    let _ = tell(rt, jobs, number, given(answer));
}

// Job 1 asks this, and is told this.
fn does(rt: &impl Abort, jobs: &mut Jobs, asks: Ask, answer: Answer) {
    same(rt, ask(jobs, 1), asked(asks));
    told(rt, jobs, 1, answer);
}

fn reads_words(rt: &impl Abort, jobs: &mut Jobs, sector: u32) {
    for k in 0..128u32 {
        let word = sector.wrapping_mul(128).wrapping_add(k);
        does(rt, jobs, Ask::Read(READ_ONLY, word), Answer::Word(k));
    }
}

// A job of a number reads the words of sectors 2 and 3 of its frame, and writes disk sectors 0 and 1.
fn moves(rt: &impl Abort, jobs: &mut Jobs, number: u64, mapping: Mapping) {
    for sector in 2..4u32 {
        for k in 0..128u32 {
            let word = sector.wrapping_mul(128).wrapping_add(k);
            same(rt, ask(jobs, number), asked(Ask::Read(mapping, word)));
            told(rt, jobs, number, Answer::Word(k));
        }
        let writes = match ask(jobs, number) {
            BackAsk::DiskWrite(written, _) => Some(written),
            _ => None,
        };
        same(rt, writes, Some(u64::from(sector.wrapping_sub(2))));
        told(rt, jobs, number, Answer::Done);
    }
}

fn disk_writes(rt: &impl Abort, jobs: &Jobs, sector: u64) {
    let writes = match ask(jobs, 1) {
        BackAsk::DiskWrite(written, _) => Some(written),
        _ => None,
    };
    same(rt, writes, Some(sector));
}

fn part(jobs: &Jobs) -> Option<SectorPart> {
    jobs.sector_part(1)
}

fn reads_part(rt: &impl Abort, jobs: &mut Jobs, count: u32) {
    let words = number_words();
    match jobs.sector_part(1) {
        Some(part) if !part.writes && count <= part.count => {
            let first = (128 - part.count) as usize;
            jobs.tell_read(1, &words[first..first + count as usize]);
        }
        _ => holds(rt, false),
    }
}

fn writes_part(rt: &impl Abort, jobs: &mut Jobs, count: u32) {
    match jobs.sector_part(1) {
        Some(part) if part.writes && count <= part.count => {
            same(rt, jobs.part_values(1).len(), part.count as usize);
            holds(rt, jobs.part_values(1).iter().all(|word| *word == 9));
            jobs.tell_written(1, count);
        }
        _ => holds(rt, false),
    }
}

// The words of a sector that are each the number of its place.
fn number_words() -> [u32; 128] {
    let mut words = [0; 128];
    for k in 0..128u32 {
        words[k as usize] = k;
    }
    words
}

fn disk_writes_words(rt: &impl Abort, jobs: &Jobs, sector: u64) {
    disk_writes(rt, jobs, sector);
    let words = number_words();
    let same_words = match ask(jobs, 1) {
        BackAsk::DiskWrite(_, written) => *written.get() == words,
        _ => false,
    };
    holds(rt, same_words);
}

fn sector(rt: &impl Abort, jobs: &mut Jobs) {
    let words = [9; 128];
    let _ = tell(rt, jobs, 1, BackAnswer::Sector(Lent::at(&words)));
}

fn writes_words(rt: &impl Abort, jobs: &mut Jobs, sector: u32) {
    let words = [9; 128];
    let _ = tell(rt, jobs, 1, BackAnswer::Sector(Lent::at(&words)));
    for k in 0..128u32 {
        let word = sector.wrapping_mul(128).wrapping_add(k);
        does(rt, jobs, Ask::Write(FRAME, word, 9), Answer::Done);
    }
}

fn copies(rt: &impl Abort, jobs: &mut Jobs, gref: u32, count: u32, sectors: u32) {
    let mode = Mode::ReadOnly;
    let page = Mapping {
        number: 9,
        gref,
        mode,
    };
    does(rt, jobs, Ask::Map(gref, mode), Answer::Mapped(page));
    for k in 0..count {
        let word = k.wrapping_mul(2);
        does(rt, jobs, Ask::Read(page, word), Answer::Word(24));
        let word = word.wrapping_add(1);
        does(rt, jobs, Ask::Read(page, word), Answer::Word(sectors));
    }
    same(rt, done(jobs), None);
    does(rt, jobs, Ask::Unmap(page), Answer::Done);
}

fn go_on(rt: &impl Abort, jobs: &Jobs, wanted: [bool; 5]) {
    for (number, goes_on) in (1..6u64).zip(wanted) {
        let asked = ask(jobs, number);
        same(rt, matches!(asked, BackAsk::Map { .. }), goes_on);
        same(rt, asked == BackAsk::Wait, !goes_on);
    }
}

fn takes(rt: &impl Abort, jobs: &mut Jobs, step: &Step) {
    match *step {
        Step::Starts(number, op, sector) => start(rt, jobs, number, &request(op, sector)),
        Step::Discards(sector, count) => start(rt, jobs, 1, &discard(sector, count)),
        Step::Flushes => start(rt, jobs, 1, &flush()),
        Step::Indirect(count) => start(rt, jobs, 1, &indirect(count)),
        Step::At(wanted) => same(rt, at(jobs), wanted),
        Step::Asks(wanted) => same(rt, ask(jobs, 1), asked(wanted)),
        Step::Told(answer) => told(rt, jobs, 1, answer),
        Step::ToldTo(number, answer) => told(rt, jobs, number, answer),
        Step::Tells(answer, effect) => same(rt, tell(rt, jobs, 1, given(answer)), Some(effect)),
        Step::ReadsWords(sector) => reads_words(rt, jobs, sector),
        Step::DiskWrites(sector) => disk_writes(rt, jobs, sector),
        Step::WritesWords(sector) => writes_words(rt, jobs, sector),
        Step::Copies(gref, count, sectors) => copies(rt, jobs, gref, count, sectors),
        Step::GoOn(wanted) => go_on(rt, jobs, wanted),
        Step::Done(wanted) => same(rt, done(jobs), wanted),
        Step::Taken(wanted) => same(rt, take_done(jobs), wanted),
        Step::Count(wanted) => same(rt, count(jobs), wanted),
        Step::NextAfter(number, wanted) => same(rt, next_after(jobs, number), wanted),
        Step::GivesNothingUp => same(rt, abort(jobs), None),
        Step::StartsOn(number, gref) => start(rt, jobs, number, &request_on(1, 0, gref)),
        Step::JobAsks(number, wanted) => same(rt, ask(jobs, number), asked(wanted)),
        Step::Moves(number, mapping) => moves(rt, jobs, number, mapping),
        Step::GivesUp(mapping) => same(rt, abort(jobs), Some(mapping)),
        Step::Part(wanted) => same(rt, part(jobs), wanted),
        Step::ReadsPart(count) => reads_part(rt, jobs, count),
        Step::WritesPart(count) => writes_part(rt, jobs, count),
        Step::DiskWritesWords(sector) => disk_writes_words(rt, jobs, sector),
        Step::Sector => sector(rt, jobs),
    }
}

/// Plays these steps from no jobs on, on a disk of eight sectors that publishes nothing, or barriers, flushes
/// and discards.
pub fn plays(rt: &impl Abort, alloc: Global, offered: bool, steps: &[Step]) {
    plays_on(rt, alloc, (8, offered, 0), steps);
}

/// The same on a disk of so many sectors, where an indirect request may have so many segments.
pub fn plays_on(
    rt: &impl Abort,
    alloc: Global,
    (sectors, offered, max_indirect): (u64, bool, u32),
    steps: &[Step],
) {
    let mut jobs = jobs_on(alloc, sectors, offered, max_indirect, 0).expect(rt, "memory");
    for step in steps {
        takes(rt, &mut jobs, step);
    }
}

/// The same on a disk of eight sectors, where at most one mapping is kept.
pub fn plays_keeping_one(rt: &impl Abort, alloc: Global, steps: &[Step]) {
    let mut jobs = jobs_on(alloc, 8, true, 0, 1).expect(rt, "memory");
    for step in steps {
        takes(rt, &mut jobs, step);
    }
}
