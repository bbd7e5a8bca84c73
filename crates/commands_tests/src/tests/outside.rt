// Cases: a command line, the input, disk and outputs that it is run over, and what each run of it leaves. A
// test is one call over a table of them; the calls that play them are proved once.
use super::asks::words;
use super::forms::Sips;
use blk_io::{FailsAt, MemorySink, Sink};
use commands::blkring;
use image_disk::{FailsAtCalls, ListedCalls, MemoryDisk};
use std::alloc::Global;
use std::process::Abort;

#[derive(Clone, Copy)]
pub enum Input {
    Text(&'static str),
    /// So many bytes of zeros.
    Zeros(usize),
}

/// Which calls fail, by their numbers from 1; 0 is none. Those of the disk are counted by what they do, all
/// calls of the input, of each output and of the error output together.
#[derive(Clone, Copy)]
pub struct Fails {
    pub attach: u64,
    pub read: u64,
    pub write: u64,
    pub flush: u64,
    pub trim: u64,
    pub input: u64,
    pub out: u64,
    pub err: u64,
}

/// No call fails.
pub const NONE: Fails = Fails {
    attach: 0,
    read: 0,
    write: 0,
    flush: 0,
    trim: 0,
    input: 0,
    out: 0,
    err: 0,
};

/// A run, and what stands after it.
#[derive(Clone, Copy)]
pub struct Run {
    /// Its output is new, and has room for so many bytes.
    pub room: usize,
    pub status: u8,
    pub out: &'static str,
    pub err: &'static str,
    /// How often the input failed so far, and the output, where that is looked at.
    pub faults: Option<(u64, u64)>,
    /// The sectors that are full of another word than in the beginning.
    pub written: &'static [(usize, u32)],
}

/// A run that is done, and leaves nothing.
pub const DONE: Run = Run {
    room: 4096,
    status: 0,
    out: "",
    err: "",
    faults: None,
    written: &[],
};

/// One or more runs of a command line.
#[derive(Clone, Copy)]
pub struct Case {
    pub name: &'static str,
    pub line: &'static str,
    pub input: Input,
    /// The disk has so many sectors, each full of this word.
    pub sectors: usize,
    pub word: u32,
    pub fails: Fails,
    pub runs: &'static [Run],
}

/// No input and no sectors, and no call fails.
pub const EMPTY: Case = Case {
    name: "",
    line: "",
    input: Input::Zeros(0),
    sectors: 0,
    word: 0,
    fails: NONE,
    runs: &[],
};

/// What the runs of a case have in common.
#[derive(Drop)]
pub struct Outside {
    words: Vec<String>,
    pub input: FailsAt<Sips>,
    pub disk: FailsAtCalls<MemoryDisk>,
    pub err: FailsAt<MemorySink>,
}

fn listed(rt: &impl Abort, alloc: Global, call: u64) -> Vec<u64> {
    Vec::from_slice(alloc, &[call]).expect(rt, "memory")
}

fn bytes_of(rt: &impl Abort, alloc: Global, input: Input) -> Vec<u8> {
    match input {
        Input::Text(text) => Vec::from_slice(alloc, text.as_bytes()).expect(rt, "memory"),
        Input::Zeros(count) => vec![in alloc; 0u8; count].expect(rt, "memory"),
    }
}

/// A disk of so many sectors, each full of a word.
pub fn sectors(rt: &impl Abort, alloc: Global, count: usize, word: u32) -> MemoryDisk {
    let sectors = vec![in alloc; [word; 128]; count].expect(rt, "memory");
    MemoryDisk::new(alloc, sectors).expect(rt, "memory")
}

fn failing(
    rt: &impl Abort,
    alloc: Global,
    disk: MemoryDisk,
    fails: &Fails,
) -> FailsAtCalls<MemoryDisk> {
    let listed = ListedCalls {
        attaches: listed(rt, alloc, fails.attach),
        reads: listed(rt, alloc, fails.read),
        writes: listed(rt, alloc, fails.write),
        flushes: listed(rt, alloc, fails.flush),
        trims: listed(rt, alloc, fails.trim),
    };
    FailsAtCalls::new(disk, listed)
}

/// An output with room for so many bytes, of which the call of a number fails.
pub fn sink(rt: &impl Abort, alloc: Global, room: usize, call: u64) -> FailsAt<MemorySink> {
    let shelf = MemorySink::with_room(alloc, room).expect(rt, "memory");
    FailsAt::new(shelf, listed(rt, alloc, call))
}

/// The outside of a command line, with this input and disk.
pub fn outside_of(
    rt: &impl Abort,
    alloc: Global,
    line: &str,
    input: Sips,
    disk: MemoryDisk,
    fails: &Fails,
) -> Outside {
    Outside {
        words: words(rt, alloc, line),
        input: FailsAt::new(input, listed(rt, alloc, fails.input)),
        disk: failing(rt, alloc, disk, fails),
        err: sink(rt, alloc, 4096, fails.err),
    }
}

fn outside_of_case(rt: &impl Abort, alloc: Global, case: &Case) -> Outside {
    let input = Sips::new(bytes_of(rt, alloc, case.input), 4096);
    let disk = sectors(rt, alloc, case.sectors, case.word);
    outside_of(rt, alloc, case.line, input, disk, &case.fails)
}

/// Runs the program; its exit status.
pub fn status<O: Sink>(alloc: Global, outside: &mut Outside, out: &mut O) -> u8 {
    blkring(
        alloc,
        outside.words.as_slice(),
        &mut outside.input,
        &mut outside.disk,
        out,
        &mut outside.err,
    )
}

// The word that a sector is full of.
fn word_of(sector: usize, word: u32, written: &[(usize, u32)]) -> u32 {
    for (at, other) in written {
        if *at == sector {
            return *other;
        }
    }
    word
}

fn is_full(disk: &FailsAtCalls<MemoryDisk>, word: u32, written: &[(usize, u32)]) -> bool {
    for (sector, words) in disk.inside.content().iter().enumerate() {
        if *words != [word_of(sector, word, written); 128] {
            return false;
        }
    }
    true
}

/// Goes on only where this is so.
pub fn holds(rt: &impl Abort, name: &str, condition: bool) {
    assert!(rt; condition, "{name}");
}

/// An output holds this text.
pub fn are_bytes(rt: &impl Abort, name: &str, found: &FailsAt<MemorySink>, wanted: &str) {
    assert_eq!(rt; found.inside.bytes(), wanted.as_bytes(), "{name}");
}

fn goes(rt: &impl Abort, alloc: Global, case: &Case, outside: &mut Outside, run: &Run) {
    let mut out = sink(rt, alloc, run.room, case.fails.out);
    let status = status(alloc, outside, &mut out);
    assert_eq!(rt; status, run.status, "{}", case.name);
    are_bytes(rt, case.name, &out, run.out);
    are_bytes(rt, case.name, &outside.err, run.err);
    if let Some(faults) = run.faults {
        assert_eq!(rt; (outside.input.faults, out.faults), faults, "{}", case.name);
    }
    assert!(rt;
        is_full(&outside.disk, case.word, run.written),
        "{}",
        case.name
    );
}

fn play(rt: &impl Abort, alloc: Global, case: &Case) {
    let mut outside = outside_of_case(rt, alloc, case);
    for run in case.runs {
        goes(rt, alloc, case, &mut outside, run);
    }
}

/// Plays all cases.
pub fn plays(rt: &impl Abort, alloc: Global, cases: &[Case]) {
    for case in cases {
        play(rt, alloc, case);
    }
}
