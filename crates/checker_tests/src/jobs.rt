// Reports of one write and one read of a sector with all moves of the back, by hand, and the rule on
// jobs that the next line breaks.
use crate::given::line_of;
use blk_base::{BackMover, Move};
use job_check::JobSight;
use ring_check::RingSight;
use schedule_text::Line;
use std::alloc::Global;
use std::process::Abort;

// The rules on jobs, in the order in which they are asked.
#[derive(Clone, Copy, PartialEq, Eq)]
enum Rule {
    Step,
    Effect,
    Data,
    Reply,
}

// A piece of a report whose lines break no rule.
#[derive(Clone, Copy)]
enum Piece {
    Lines(&'static str),
    // The back is shown so many requests, and fetches the entry at the last of their places, which
    // begins with this word: its number is 1, its reference 24.
    Fetches(u32, u32),
    // A job reads so many words of frame 18 through a mapping.
    Reads(u64, u64, u32),
    // The disk gives job 1 a sector: word `i` is `i`.
    Gives,
    // Job 1 writes so many words of a sector into frame 18 through mapping 2: word `i` is `i`.
    Writes(u32),
}

// The lines so far; lines that then come, the next one, and the rule that it breaks.
type Group = (&'static str, &'static [Piece], &'static [Case]);

type Case = (&'static str, &'static str, Option<Rule>);

#[derive(Drop)]
struct Reader {
    ring: RingSight,
    jobs: JobSight,
}

impl Reader {
    // The first of the rules that a line breaks.
    fn broken_by(&self, line: &Line) -> Option<Rule> {
        if !self.jobs.allows_step(line) {
            Some(Rule::Step)
        } else if !self.jobs.allows_effect(line) {
            Some(Rule::Effect)
        } else if !self.jobs.allows_data(line) {
            Some(Rule::Data)
        } else if !self.jobs.allows_reply(&self.ring, line) {
            Some(Rule::Reply)
        } else {
            None
        }
    }

    // Takes in a line that breaks no rule.
    fn keep(&mut self, rt: &impl Abort, line: &Line) {
        assert!(rt; self.broken_by(line) == None, "a line that breaks no rule");
        self.jobs.see(&self.ring, line).expect(rt, "memory");
        self.ring.see(line).expect(rt, "memory");
    }

    fn add(&mut self, rt: &impl Abort, lines: &str) {
        for text in lines.lines() {
            self.keep(rt, &line_of(rt, text));
        }
    }

    fn fetch(&mut self, rt: &impl Abort, count: u32, first: u32) {
        self.keep(rt, &read_by(BackMover::Back, 1, 2, 0, count));
        let begin = count
            .saturating_sub(1)
            .saturating_mul(28)
            .saturating_add(16);
        for i in 0..28u32 {
            let word = begin.saturating_add(i);
            self.keep(
                rt,
                &read_by(BackMover::Back, 1, 2, word, entry_word(i, first)),
            );
        }
    }

    fn read(&mut self, rt: &impl Abort, job: u64, mapping: u64, count: u32) {
        for word in 0..count {
            self.keep(rt, &read_by(BackMover::Job(job), mapping, 18, word, 7));
        }
    }

    fn give(&mut self, rt: &impl Abort) {
        let mut words = [0u32; 128];
        for i in 0..128u32 {
            words[i as usize] = i;
        }
        self.keep(
            rt,
            &Line::EffectRead {
                id: 1,
                index: 0,
                words,
            },
        );
    }

    fn write(&mut self, rt: &impl Abort, count: u32) {
        for word in 0..count {
            self.keep(
                rt,
                &Line::Move(Move::Write {
                    who: BackMover::Job(1),
                    mapping: 2,
                    frame: 18,
                    word,
                    value: word,
                }),
            );
        }
    }

    fn take(&mut self, rt: &impl Abort, piece: Piece) {
        match piece {
            Piece::Lines(lines) => self.add(rt, lines),
            Piece::Fetches(count, first) => self.fetch(rt, count, first),
            Piece::Reads(job, mapping, count) => self.read(rt, job, mapping, count),
            Piece::Gives => self.give(rt),
            Piece::Writes(count) => self.write(rt, count),
        }
    }
}

fn read_by(who: BackMover, mapping: u64, frame: u32, word: u32, value: u32) -> Line {
    Line::Move(Move::Read {
        who,
        mapping,
        frame,
        word,
        value,
    })
}

// The words of an entry after its first: number 1, sector 0, reference 24.
fn entry_word(i: u32, first: u32) -> u32 {
    match i {
        0 => first,
        2 => 1,
        6 => 24,
        _ => 0,
    }
}

fn reader_after(rt: &impl Abort, alloc: Global, pieces: &[Piece], lines: &str) -> Reader {
    let mut reader = Reader {
        ring: RingSight::new(alloc),
        jobs: JobSight::new(alloc),
    };
    for piece in pieces {
        reader.take(rt, *piece);
    }
    reader.add(rt, lines);
    reader
}

fn follow(rt: &impl Abort, alloc: Global, groups: &[Group]) {
    for (name, pieces, cases) in groups {
        for (lines, next, broken) in *cases {
            let reader = reader_after(rt, alloc, pieces, lines);
            let found = reader.broken_by(&line_of(rt, next));
            assert!(rt; found == *broken, "{name}: {next} after {lines}");
        }
    }
}

// The back publishes what it has and maps the ring, frame 2, as mapping 1.
const CONNECTED: Piece = Piece::Lines(
    "begin 64 0 0 0 0 rw 8 moves
m front watch /local/domain/0/backend/vbd/1/51712/state
m back setkey /local/domain/0/backend/vbd/1/51712/feature-barrier =1
m back setkey /local/domain/0/backend/vbd/1/51712/feature-flush-cache =1
m back setkey /local/domain/0/backend/vbd/1/51712/feature-discard =1
m back setkey /local/domain/0/backend/vbd/1/51712/feature-persistent =0
m back getkey /local/domain/1/device/vbd/51712/ring-ref =8
m back getkey /local/domain/1/device/vbd/51712/protocol =x86_64-abi
m back getkey /local/domain/1/device/vbd/51712/feature-persistent =0
m back map 8 w ok 1 2
m back bind 1 ok
m back read 1 2 0 00000000
m back write 1 2 1 00000001
m back fence
m back read 1 2 0 00000000
ready",
);

// The ring of a disk that may only be read, of which no key is shown.
const READ_ONLY: Piece = Piece::Lines(
    "begin 64 0 0 0 0 ro 8 moves
m back map 8 w ok 1 2",
);

// The back reads the key of the layout anew.
const OTHER_LAYOUT: Piece = Piece::Lines(
    "m back getkey /local/domain/1/device/vbd/51712/protocol =x86_32-abi",
);

// Both ends say that grants are persistent.
const KEEPING: Piece = Piece::Lines(
    "m back setkey /local/domain/0/backend/vbd/1/51712/feature-persistent =1
m back getkey /local/domain/1/device/vbd/51712/feature-persistent =1",
);

const QUIET: Piece = Piece::Lines("quiet");

// The entries of two writes of one sector, of a read, and of a flush.
const WRITE: Piece = Piece::Fetches(1, 0xca00_0101);

const SECOND: Piece = Piece::Fetches(2, 0xca00_0101);

const READ: Piece = Piece::Fetches(1, 0xca00_0100);

const FLUSH: Piece = Piece::Fetches(1, 0xca00_0003);

// Job 1 maps its frame as mapping 2, for reading and for writing.
const MAP: Piece = Piece::Lines("m job 1 map 24 r ok 2 18");

const MAP_FOR_WRITING: Piece = Piece::Lines("m job 1 map 24 w ok 2 18");

const SECTOR: Piece = Piece::Reads(1, 2, 128);

const MOVED: Piece = Piece::Lines("m job 1 dwrite 0\neffect 1 0");

const UNMAP: Piece = Piece::Lines("m job 1 unmap 2");

const GET: Piece = Piece::Lines("m job 1 dread 0");

// The words of a reply to the write, and the words and their push.
const WORDS: Piece = Piece::Lines(
    "m back write 1 2 16 00000001
m back write 1 2 17 00000000
m back write 1 2 18 00000001",
);

const PUSH: Piece = Piece::Lines("m back write 1 2 2 00000001");

const TOLD: Piece = Piece::Lines("reply 1 ok");

// Job 1 is to write a sector, mapped its frame and read so many words.
const WRITING_0: &[Piece] = &[CONNECTED, WRITE, MAP];

const WRITING_127: &[Piece] = &[CONNECTED, WRITE, MAP, Piece::Reads(1, 2, 127)];

const WRITING: &[Piece] = &[CONNECTED, WRITE, MAP, SECTOR];

// It wrote its sector and unmapped its mapping.
const WRITTEN: &[Piece] = &[CONNECTED, WRITE, MAP, SECTOR, MOVED, UNMAP];

const PUT: &[Piece] = &[CONNECTED, WRITE, MAP, SECTOR, MOVED, UNMAP, WORDS];

const REPLIED: &[Piece] = &[
    CONNECTED, WRITE, MAP, SECTOR, MOVED, UNMAP, WORDS, PUSH, TOLD,
];

// Job 1 is to read a sector, mapped its frame, and moves the disk.
const READING: &[Piece] = &[CONNECTED, READ, MAP_FOR_WRITING, GET];

const GIVEN: &[Piece] = &[CONNECTED, READ, MAP_FOR_WRITING, GET, Piece::Gives];

const GIVEN_127: &[Piece] = &[
    CONNECTED,
    READ,
    MAP_FOR_WRITING,
    GET,
    Piece::Gives,
    Piece::Writes(127),
];

const LOADED: &[Piece] = &[
    CONNECTED,
    READ,
    MAP_FOR_WRITING,
    GET,
    Piece::Gives,
    Piece::Writes(128),
];

const ASLEEP: &str = "m back fence
m back read 1 2 3 00000001
m back send
m back read 1 2 0 00000001
m back write 1 2 1 00000002
m back fence
m back read 1 2 0 00000001
quiet";

const READ_REPLIED: &str = "m job 1 unmap 2
m back write 1 2 16 00000001
m back write 1 2 17 00000000
m back write 1 2 18 00000000
m back write 1 2 2 00000001
reply 1 ok
m back fence
m back read 1 2 3 00000001
m back send
m back read 1 2 0 00000001
m back write 1 2 1 00000002
m back fence
m back read 1 2 0 00000001
quiet";

const WHOLE: &[Group] = &[
    ("a write", REPLIED, &[(ASLEEP, "end", None)]),
    ("a read", LOADED, &[(READ_REPLIED, "end", None)]),
];

#[test]
fn whole_reports_are_allowed(rt: HostRuntime) {
    follow(&rt, rt.alloc(), WHOLE);
}

const TWO_WRITES: &[Piece] = &[
    CONNECTED,
    WRITE,
    SECOND,
    Piece::Lines("m job 2 map 24 r ok 2 18\nm job 1 map 24 r ok 3 18"),
    Piece::Reads(1, 3, 1),
];

const KEPT: &[Piece] = &[CONNECTED, KEEPING, WRITE, MAP_FOR_WRITING, SECOND];

const STEPS: &[Group] = &[
    (
        "no step is skipped",
        WRITING_0,
        &[
            ("", "m job 1 read 2 18 0 00000007", None),
            ("", "m job 1 read 2 18 1 00000007", Some(Rule::Step)),
            ("", "m job 1 fence", Some(Rule::Step)),
            ("", "m job 1 unmap 2", None),
        ],
    ),
    (
        "no word of a sector is skipped",
        WRITING_127,
        &[("", "m job 1 dwrite 0", Some(Rule::Step))],
    ),
    (
        "no step is skipped after a sector",
        WRITING,
        &[
            ("", "m job 1 dwrite 0", None),
            ("", "m job 1 dwrite 1", Some(Rule::Step)),
            ("", "m job 1 dread 0", Some(Rule::Step)),
            ("", "m job 2 dwrite 0", Some(Rule::Step)),
        ],
    ),
    (
        "a word is read through the mapping of its task",
        TWO_WRITES,
        &[
            ("", "m job 1 read 3 18 1 00000007", None),
            ("", "m job 1 read 2 18 1 00000007", Some(Rule::Step)),
            ("", "m job 2 read 2 18 0 00000007", None),
            ("", "m job 2 read 3 18 0 00000007", Some(Rule::Step)),
        ],
    ),
    (
        "a job takes a mapping that is kept until its unmap",
        KEPT,
        &[
            ("quiet", "m job 2 read 2 18 0 00000007", None),
            ("quiet", "m job 2 read 1 2 0 00000007", Some(Rule::Step)),
            (
                "m job 1 unmap 2",
                "m job 2 read 2 18 0 00000007",
                Some(Rule::Step),
            ),
            ("m job 1 unmap 2", "m job 2 map 24 w ok 3 18", None),
        ],
    ),
    (
        "a job has the entry that was read, whatever layout is read then",
        &[CONNECTED, WRITE, OTHER_LAYOUT],
        &[
            ("", "m job 1 map 24 r ok 2 18", None),
            ("", "m job 1 map 25 r ok 2 18", Some(Rule::Step)),
            ("", "m job 2 map 24 r ok 2 18", Some(Rule::Step)),
        ],
    ),
    (
        "a job stops at a fault",
        READING,
        &[
            (
                "fault 1 0",
                "m job 1 write 2 18 0 00000000",
                Some(Rule::Step),
            ),
            ("fault 1 0", "m job 1 dread 0", Some(Rule::Step)),
            ("fault 1 0", "m job 1 unmap 2", None),
            ("fault 1 0", "m back write 1 2 16 00000001", None),
        ],
    ),
];

#[test]
fn a_job_takes_its_steps_in_order(rt: HostRuntime) {
    follow(&rt, rt.alloc(), STEPS);
}

const CALLED: &str = "m job 1 dwrite 0";

const DONE: &str = "m job 1 dwrite 0\neffect 1 0";

const OUTCOMES: &[Group] = &[
    (
        "a move of the disk has its outcome at once",
        WRITING,
        &[
            (CALLED, "effect 1 0", None),
            (CALLED, "fault 1 0", None),
            (CALLED, "effect 1 1", Some(Rule::Effect)),
            (CALLED, "effect 2 0", Some(Rule::Effect)),
            (CALLED, "effect 1 0 fill 00000007", Some(Rule::Effect)),
            (CALLED, "flushed 1", Some(Rule::Effect)),
            (CALLED, "m front event", Some(Rule::Effect)),
            ("quiet", "effect 1 0", Some(Rule::Effect)),
            (DONE, "effect 1 0", Some(Rule::Effect)),
        ],
    ),
    (
        "a job writes what the disk gave",
        GIVEN,
        &[
            ("", "m job 1 write 2 18 0 00000000", None),
            ("", "m job 1 write 2 18 0 00000001", Some(Rule::Data)),
        ],
    ),
    (
        "a job writes what the disk gave to the last word",
        GIVEN_127,
        &[
            ("", "m job 1 write 2 18 127 0000007f", None),
            ("", "m job 1 write 2 18 127 00000000", Some(Rule::Data)),
            ("", "m job 1 write 2 18 126 0000007e", Some(Rule::Step)),
        ],
    ),
];

#[test]
fn a_job_and_the_disk_give_what_the_other_gave(rt: HostRuntime) {
    follow(&rt, rt.alloc(), OUTCOMES);
}

const UNMAPPED: &[Piece] = &[
    CONNECTED, QUIET, WRITE, MAP, SECTOR, MOVED, UNMAP, WORDS, PUSH,
];

const UNMAPPED_ANOTHER: &[Piece] = &[
    CONNECTED,
    QUIET,
    WRITE,
    MAP,
    SECTOR,
    MOVED,
    Piece::Lines("m job 1 unmap 3"),
    WORDS,
    PUSH,
];

const MAPPED: &[Piece] = &[
    CONNECTED, QUIET, WRITE, MAP, SECTOR, MOVED, QUIET, WORDS, PUSH,
];

const MAPPED_AND_KEPT: &[Piece] = &[
    CONNECTED,
    KEEPING,
    WRITE,
    MAP_FOR_WRITING,
    SECTOR,
    MOVED,
    QUIET,
    WORDS,
    PUSH,
];

const FAULT: &str = "fault 1 0
m job 1 unmap 2
m back write 1 2 16 00000001
m back write 1 2 17 00000000";

const FIRST: &str = "m back write 1 2 16 00000001";

const FAULTED: &str = "m job 1 dwrite 0\nfault 1 0";

const ENDS: &[Group] = &[
    (
        "a fault is replied as an error",
        READING,
        &[
            (FAULT, "m back write 1 2 18 ffff0000", None),
            (FAULT, "m back write 1 2 18 00000000", Some(Rule::Reply)),
        ],
    ),
    (
        "a reply waits for the end of its job",
        WRITING,
        &[
            ("quiet", FIRST, Some(Rule::Reply)),
            (DONE, FIRST, None),
            (FAULTED, FIRST, None),
        ],
    ),
    (
        "a job unmaps what it mapped before its reply",
        UNMAPPED,
        &[("", "reply 1 ok", None)],
    ),
    (
        "a job unmaps all that it mapped before its reply",
        UNMAPPED_ANOTHER,
        &[("", "reply 1 ok", Some(Rule::Reply))],
    ),
    (
        "a job that unmapped nothing has no reply",
        MAPPED,
        &[("", "reply 1 ok", Some(Rule::Reply))],
    ),
    (
        "a job unmaps nothing that is kept",
        MAPPED_AND_KEPT,
        &[("", "reply 1 ok", None)],
    ),
    (
        "a flush of a disk that is read only is unsupported",
        &[READ_ONLY, FLUSH],
        &[("", FIRST, None), ("", "m job 1 flush", Some(Rule::Step))],
    ),
    (
        "a flush of another disk is done before its reply, whatever the keys say",
        &[
            CONNECTED,
            Piece::Lines(
                "m back setkey /local/domain/0/backend/vbd/1/51712/feature-flush-cache =0",
            ),
            FLUSH,
        ],
        &[
            ("", FIRST, Some(Rule::Reply)),
            ("", "m job 1 flush", None),
            ("m job 1 flush\nflushed 1", FIRST, None),
        ],
    ),
];

#[test]
fn a_reply_comes_at_the_end_of_its_job(rt: HostRuntime) {
    follow(&rt, rt.alloc(), ENDS);
}

const PUSHED: &str = "m back write 1 2 2 00000001";

const FENCED: &str = "m back write 1 2 16 00000001\nm back fence";

const EVENT_AND_PUSH: &str = "m back write 1 2 1 00000002\nm back write 1 2 2 00000001";

const MAPPED_ANEW: &str = "epoch\nm back map 8 w ok 5 2";

const REPLIES: &[Group] = &[
    (
        "the words of a reply come in order",
        WRITTEN,
        &[
            ("quiet", FIRST, None),
            ("quiet", "m back write 1 2 16 00000002", Some(Rule::Reply)),
            ("quiet", "m back write 1 2 44 00000001", Some(Rule::Reply)),
            ("quiet", "m back write 1 2 2 00000001", Some(Rule::Reply)),
            ("quiet", "m back fence", None),
            (FIRST, "m back write 1 2 17 00000000", None),
            (FIRST, "m back write 1 2 18 00000001", Some(Rule::Reply)),
            (FIRST, "m front event", None),
        ],
    ),
    (
        "within a reply the back does what it likes, but for other words of the ring",
        WRITTEN,
        &[
            (FIRST, "m back write 1 2 1 00000002", None),
            (FIRST, "m back fence", None),
            (FIRST, "m back read 1 2 3 00000001", None),
            (
                FIRST,
                "m back getkey /local/domain/1/device/vbd/51712/state =4",
                None,
            ),
            (FIRST, "halt gone 6", None),
            (FIRST, "m back write 1 2 3 00000001", Some(Rule::Reply)),
            (FIRST, "m back write 1 2 2 00000001", Some(Rule::Reply)),
            (FENCED, "m back write 1 2 17 00000000", None),
            (FENCED, FIRST, Some(Rule::Reply)),
            (FENCED, "m back write 1 2 44 00000001", Some(Rule::Reply)),
        ],
    ),
    (
        "before the producer too",
        PUT,
        &[
            ("m back write 1 2 1 00000002", PUSHED, None),
            (
                "m back write 1 2 1 00000002",
                "reply 1 ok",
                Some(Rule::Reply),
            ),
            (EVENT_AND_PUSH, "reply 1 ok", None),
            (EVENT_AND_PUSH, "m back fence", Some(Rule::Reply)),
        ],
    ),
    (
        "a reply is told once and at once",
        PUT,
        &[
            ("quiet", PUSHED, None),
            ("quiet", "m back write 1 2 2 00000002", Some(Rule::Reply)),
            ("quiet", "reply 1 ok", Some(Rule::Reply)),
            (PUSHED, "reply 1 ok", None),
            (PUSHED, "reply 1 error", Some(Rule::Reply)),
            (PUSHED, "reply 2 ok", Some(Rule::Reply)),
            (PUSHED, "m front event", Some(Rule::Reply)),
        ],
    ),
    (
        "a job has one reply",
        REPLIED,
        &[
            ("", "reply 1 ok", Some(Rule::Reply)),
            ("", "m back write 1 2 44 00000001", Some(Rule::Reply)),
            ("", "m job 1 dwrite 0", Some(Rule::Step)),
            ("", "m back fence", None),
        ],
    ),
    (
        "an epoch ends the jobs",
        WRITTEN,
        &[
            ("quiet", FIRST, None),
            (
                MAPPED_ANEW,
                "m back write 5 2 16 00000001",
                Some(Rule::Reply),
            ),
            ("epoch", "m job 1 map 24 r ok 6 18", Some(Rule::Step)),
        ],
    ),
];

#[test]
fn a_reply_is_written_and_told_once(rt: HostRuntime) {
    follow(&rt, rt.alloc(), REPLIES);
}
