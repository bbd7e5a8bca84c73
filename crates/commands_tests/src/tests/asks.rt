// Words of a command line, and the command that they ask for.
use blk_base::Abi;
use commands::{Command, RunOptions, read_command};
use schedule_text::Detail;
use std::alloc::Global;
use std::process::Abort;

/// The words of a line with single spaces between them; a space at its end leaves an empty one.
pub fn words(rt: &impl Abort, alloc: Global, line: &str) -> Vec<String> {
    let mut words = Vec::new(alloc);
    if line.is_empty() {
        return words;
    }
    for word in line.split(' ') {
        let word = String::from_str(alloc, word).expect(rt, "memory");
        words.push(word).expect(rt, "memory");
    }
    words
}

/// The words of a line ask for this.
pub fn asks(rt: &impl Abort, alloc: Global, line: &str, wanted: Option<Command>) {
    let words = words(rt, alloc, line);
    let found = read_command(alloc, words.as_slice()).expect(rt, "memory");
    assert!(rt; found == wanted, "{line}");
}

/// The words of no line ask for anything.
pub fn ask_for_nothing(rt: &impl Abort, alloc: Global, lines: &[&str]) {
    for line in lines {
        asks(rt, alloc, line, None);
    }
}

// A line, the image of the run that it asks for, and its options.
type Run = (&'static str, &'static str, RunOptions);

fn ask_for_runs(rt: &impl Abort, alloc: Global, runs: &[Run]) {
    for (line, image, options) in runs {
        let options = *options;
        asks(rt, alloc, line, Some(Command::Run { image, options }));
    }
}

// A run that is told nothing but its image's name.
const PLAIN: RunOptions = RunOptions {
    detail: Detail::Lines,
    abi: Abi::X64,
    order: 0,
    start: 0,
    indirect: 0,
    read_only: false,
};

const MOVES: RunOptions = RunOptions {
    detail: Detail::Moves,
    ..PLAIN
};

const STARTED: RunOptions = RunOptions { start: 7, ..PLAIN };

const STARTED_LAST: RunOptions = RunOptions {
    start: 4294967295,
    ..PLAIN
};

const STARTED_WITH_MOVES: RunOptions = RunOptions { start: 4, ..MOVES };

const RUNS: &[Run] = &[
    ("run disk", "disk", PLAIN),
    ("run disk --moves", "disk", MOVES),
    ("run --moves disk", "disk", MOVES),
    ("run -", "-", PLAIN),
    ("run ", "", PLAIN),
    ("run disk --", "disk", PLAIN),
    ("run -- --moves", "--moves", PLAIN),
    ("run --moves -- -h", "-h", MOVES),
    ("run help", "help", PLAIN),
    ("run run", "run", PLAIN),
    ("run disk --start 7", "disk", STARTED),
    ("run --start=4294967295 disk", "disk", STARTED_LAST),
    ("run disk --start +4 --moves", "disk", STARTED_WITH_MOVES),
];

#[test]
fn words_that_ask_for_a_run(rt: HostRuntime) {
    ask_for_runs(&rt, rt.alloc(), RUNS);
}

const READ_ONLY: RunOptions = RunOptions {
    read_only: true,
    ..PLAIN
};

const READ_ONLY_WITH_MOVES: RunOptions = RunOptions {
    read_only: true,
    ..MOVES
};

const READ_ONLY_STARTED: RunOptions = RunOptions {
    read_only: true,
    ..STARTED
};

const READING: &[Run] = &[
    ("run disk --read-only", "disk", READ_ONLY),
    ("run --read-only disk --moves", "disk", READ_ONLY_WITH_MOVES),
    ("run --start 7 --read-only disk", "disk", READ_ONLY_STARTED),
];

#[test]
fn words_that_ask_for_a_run_on_a_read_only_disk(rt: HostRuntime) {
    ask_for_runs(&rt, rt.alloc(), READING);
}

const OF_32: RunOptions = RunOptions {
    abi: Abi::X32,
    ..PLAIN
};

const OF_SIXTEEN_PAGES: RunOptions = RunOptions { order: 4, ..PLAIN };

const OF_32_AND_TWO_PAGES: RunOptions = RunOptions {
    order: 1,
    start: 7,
    ..OF_32
};

const INDIRECT: RunOptions = RunOptions {
    indirect: 960,
    ..PLAIN
};

const INDIRECT_OF_TWO_PAGES: RunOptions = RunOptions {
    order: 1,
    indirect: 256,
    ..PLAIN
};

const SHAPES: &[Run] = &[
    ("run disk --abi 32", "disk", OF_32),
    ("run --abi=64 disk --order 4", "disk", OF_SIXTEEN_PAGES),
    (
        "run disk --order +1 --start 7 --abi 0032",
        "disk",
        OF_32_AND_TWO_PAGES,
    ),
    ("run disk --indirect 960", "disk", INDIRECT),
    (
        "run --indirect=+0256 disk --order 1",
        "disk",
        INDIRECT_OF_TWO_PAGES,
    ),
];

#[test]
fn words_that_ask_for_a_run_on_a_ring_of_a_shape(rt: HostRuntime) {
    ask_for_runs(&rt, rt.alloc(), SHAPES);
}

fn ask_for_rings(rt: &impl Abort, alloc: Global, rings: &[(&str, Abi, u32)]) {
    for (line, abi, order) in rings {
        let (abi, order) = (*abi, *order);
        asks(rt, alloc, line, Some(Command::Inspect { abi, order }));
    }
}

const RINGS: &[(&str, Abi, u32)] = &[
    ("inspect", Abi::X64, 0),
    ("inspect --abi 32", Abi::X32, 0),
    ("inspect --abi=32", Abi::X32, 0),
    ("inspect --abi +64", Abi::X64, 0),
    ("inspect --abi 0032", Abi::X32, 0),
    ("inspect --order 4", Abi::X64, 4),
    ("inspect --order +004", Abi::X64, 4),
    ("inspect --order=0", Abi::X64, 0),
    ("inspect --abi 64 --order 1", Abi::X64, 1),
    ("inspect --order 3 --abi 32", Abi::X32, 3),
];

#[test]
fn words_that_ask_for_a_ring(rt: HostRuntime) {
    ask_for_rings(&rt, rt.alloc(), RINGS);
}

fn ask_for_benches(rt: &impl Abort, alloc: Global, benches: &[(&str, u64, u64)]) {
    for (line, seed, count) in benches {
        let (seed, count) = (*seed, *count);
        asks(rt, alloc, line, Some(Command::Bench { seed, count }));
    }
}

const BENCHES: &[(&str, u64, u64)] = &[
    ("bench 7 10", 7, 10),
    ("bench 0 0", 0, 0),
    ("bench +007 +1", 7, 1),
    ("bench 18446744073709551615 100000", u64::MAX, 100_000),
];

const NO_BENCHES: &[&str] = &[
    "bench",
    "bench 7",
    "bench 7 10 1",
    "bench 7 x",
    "bench 18446744073709551616 1",
    "bench 7 100001",
    "bench 7 18446744073709551616",
    "bench 7 -1",
    "bench 7 10 --moves",
];

#[test]
fn words_that_ask_for_a_bench(rt: HostRuntime) {
    ask_for_benches(&rt, rt.alloc(), BENCHES);
    ask_for_nothing(&rt, rt.alloc(), NO_BENCHES);
}

const NO_RINGS: &[&str] = &[
    "",
    " ",
    "fly",
    "-",
    "--",
    "inspect x",
    "inspect --abi",
    "inspect --abi 16",
    "inspect --abi 48",
    "inspect --order 5",
    "inspect --order -1",
    "inspect --order=",
    "inspect --order 0x1",
    "inspect --order 18446744073709551616",
    "inspect --abi 64 --abi 64",
    "inspect --abi 32 --order 1 --order 1",
    "inspect --moves",
    "--order 1 inspect",
];

#[test]
fn words_that_ask_for_no_ring(rt: HostRuntime) {
    ask_for_nothing(&rt, rt.alloc(), NO_RINGS);
}

const NO_RUNS: &[&str] = &[
    "run",
    "run --moves",
    "run --",
    "run disk moves",
    "run disk --moves --moves",
    "run disk --moves=true",
    "run disk --abi",
    "run disk --abi 16",
    "run disk --abi 48",
    "run disk --abi 32 --abi 32",
    "run disk --order 5",
    "run disk --order -1",
    "run disk --order 1 --order 1",
    "run disk --start",
    "run disk --start x",
    "run disk --start -1",
    "run disk --start 4294967296",
    "run disk --start 1 --start 1",
    "run disk --indirect",
    "run disk --indirect 961",
    "run disk --indirect -1",
    "run disk --indirect 1 --indirect 1",
    "inspect --indirect 1",
    "run disk --move",
    "run -x",
    "--moves run disk",
];

#[test]
fn words_that_ask_for_no_run(rt: HostRuntime) {
    ask_for_nothing(&rt, rt.alloc(), NO_RUNS);
}

const WISHES: &[&str] = &[
    "-h",
    "--help",
    "help",
    "help run",
    "run -h",
    "run --help",
    "run disk --help",
    "run --help disk",
    "inspect -h",
    "inspect --help",
    "--version",
    "-V",
    "run --version",
];

#[test]
fn a_wish_for_help_or_the_version_asks_for_nothing(rt: HostRuntime) {
    ask_for_nothing(&rt, rt.alloc(), WISHES);
}
