// Reports by hand, and whether each line can stand on the plain disk.
use crate::expected::{holds_at, holds_in};
use crate::given::line_of;
use blk_base::{Refusal, Submission};
use plain_disk::{PlainDisk, Sight, Stand};
use schedule_text::Line;
use std::alloc::Global;
use std::process::Abort;

// A report whose lines stand, but for those that begin with `! `, on a disk whose first sectors are
// zeros, so many; and the words of sectors after it.
struct Case {
    name: &'static str,
    zeros: usize,
    report: &'static str,
    sectors: &'static [(u64, Option<u32>)],
}

fn disk_of(rt: &impl Abort, alloc: Global, zeros: usize) -> PlainDisk {
    PlainDisk::new(
        alloc,
        vec![in alloc; [0u32; 128]; zeros].expect(rt, "memory"),
    )
}

// Whether a line stands or falls as its mark says.
fn is_so(rt: &impl Abort, disk: &mut PlainDisk, marked: &str) -> bool {
    let (text, wanted) = match marked.strip_prefix("! ") {
        None => (marked, Stand::Stands),
        Some(text) => (text, Stand::Falls),
    };
    disk.step(&line_of(rt, text)).expect(rt, "memory") == wanted
}

fn has_words(disk: &PlainDisk, sector: u64, word: Option<u32>) -> bool {
    match word {
        None => disk.words_at(sector).is_none(),
        Some(word) => disk.words_at(sector) == Some([word; 128]),
    }
}

fn stand(rt: &impl Abort, alloc: Global, cases: &[Case]) {
    for case in cases {
        let mut disk = disk_of(rt, alloc, case.zeros);
        for marked in case.report.lines() {
            holds_in(rt, (case.name, marked), is_so(rt, &mut disk, marked));
        }
        for (sector, word) in case.sectors {
            holds_at(rt, (case.name, *sector), has_words(&disk, *sector, *word));
        }
    }
}

const CASES: &[Case] = &[
    Case {
        name: "writes one sector",
        zeros: 0,
        report: "ready
quiet
submit 1 write 0 1 00000007
effect 1 0
reply 1 ok
answer 1 ok
quiet",
        sectors: &[(0, Some(7)), (1, None)],
    },
    Case {
        name: "the first request is number 1",
        zeros: 0,
        report: "! submit 2 write 0 1 00000007",
        sectors: &[],
    },
    Case {
        name: "each request has its effects, its reply and its answer once",
        zeros: 0,
        report: "submit 1 write 0 2 00000007
! effect 1 2
! answer 1 ok
! quiet
! reply 1 unsupported
effect 1 0
! reply 1 ok
! effect 1 0
effect 1 1
reply 1 ok
answer 1 ok
! answer 1 ok",
        sectors: &[],
    },
    Case {
        name: "reads back what was written",
        zeros: 0,
        report: "submit 1 write 0 1 00000007
effect 1 0
reply 1 ok
answer 1 ok
submit 2 read 0 1
! effect 2 0 fill 00000008
effect 2 0 fill 00000007
reply 2 ok
answer 2 ok
! quiet
! data 2 0 fill 00000008
data 2 0 fill 00000007
quiet",
        sectors: &[],
    },
    Case {
        name: "a failed write leaves its sector unknown",
        zeros: 2,
        report: "submit 1 write 1 1 00000002
fault 1 0
reply 1 error
answer 1 error
quiet",
        sectors: &[(0, Some(0)), (1, None)],
    },
    Case {
        name: "a write that didn't fail has no reply that it did",
        zeros: 0,
        report: "submit 1 write 1 1 00000002
! reply 1 error",
        sectors: &[],
    },
    Case {
        name: "a barrier orders what is before and after it",
        zeros: 0,
        report: "submit 1 write 0 1 00000001
submit 2 barrier 1 1 00000002
submit 3 write 2 1 00000003
! effect 2 0
! effect 3 0
effect 1 0
effect 2 0
effect 3 0",
        sectors: &[],
    },
    Case {
        name: "a new epoch serves what was not answered again",
        zeros: 0,
        report: "submit 1 write 0 1 00000007
effect 1 0
epoch
! reply 1 ok
effect 1 0
reply 1 ok
answer 1 ok
quiet",
        sectors: &[],
    },
    Case {
        name: "a discarded sector is zeros",
        zeros: 0,
        report: "submit 1 discard 3 1
submit 2 flush
trimmed 1
flushed 2
reply 2 ok
reply 1 ok
! trimmed 1",
        sectors: &[(3, Some(0))],
    },
];

#[test]
fn the_lines_of_a_report_stand_where_the_disk_takes_their_steps(rt: HostRuntime) {
    stand(&rt, rt.alloc(), CASES);
}

// Lines that stand on a disk of one sector of zeros, the words that a loss of its cache may leave in
// it, and words that it can't.
type Losing = (&'static str, &'static [u32], &'static [u32]);

fn may_leave(disk: &PlainDisk, word: u32) -> bool {
    disk.may_leave(0, &[word; 128])
}

fn lose(rt: &impl Abort, alloc: Global, cases: &[Losing]) {
    for (report, left, gone) in cases {
        let mut disk = disk_of(rt, alloc, 1);
        for text in report.lines() {
            assert!(rt; is_so(rt, &mut disk, text), "{text}");
        }
        for word in *left {
            assert!(rt; may_leave(&disk, *word), "{word} after {report}");
        }
        for word in *gone {
            assert!(rt; !may_leave(&disk, *word), "{word} after {report}");
        }
    }
}

const WRITTEN: &str = "submit 1 write 0 1 00000007
effect 1 0";

const FLUSHED: &str = "submit 1 write 0 1 00000007
effect 1 0
submit 2 flush
flushed 2";

const WRITTEN_SINCE: &str = "submit 1 write 0 1 00000007
effect 1 0
submit 2 flush
flushed 2
submit 3 write 0 1 00000008
effect 3 0";

const FAILED: &str = "submit 1 write 0 1 00000007
fault 1 0";

const LOSING: &[Losing] = &[
    (WRITTEN, &[0, 7], &[8]),
    (FLUSHED, &[7], &[0, 8]),
    (WRITTEN_SINCE, &[7, 8], &[0]),
    (FAILED, &[0, 7, 8], &[]),
];

#[test]
fn a_flush_makes_stable_what_was_written(rt: HostRuntime) {
    lose(&rt, rt.alloc(), LOSING);
}

// Lines that were seen, how often a request was submitted, and how it is then refused.
type Asked = (&'static str, u64, &'static str, Option<Refusal>);

fn read_submission(rt: &impl Abort, text: &str) -> Submission {
    match line_of(rt, text) {
        Line::Submit { submission, .. } => submission,
        _ => panic!(rt; "no submission: {text}"),
    }
}

fn seen(rt: &impl Abort, lines: &str) -> Sight {
    let mut sight = Sight::new();
    for text in lines.lines() {
        sight.see(&line_of(rt, text));
    }
    sight
}

fn line_at(id: u64, submission: &Submission) -> Line {
    Line::Submit {
        id,
        submission: *submission,
    }
}

fn submitted(rt: &impl Abort, alloc: Global, count: u64, submission: &Submission) -> PlainDisk {
    let mut disk = PlainDisk::new(alloc, Vec::new(alloc));
    for id in 0..count {
        let line = line_at(id.wrapping_add(1), submission);
        disk.step(&line).expect(rt, "memory");
    }
    disk
}

fn refuse(rt: &impl Abort, alloc: Global, cases: &[Asked]) {
    for (lines, count, text, wanted) in cases {
        let submission = read_submission(rt, text);
        let disk = submitted(rt, alloc, *count, &submission);
        let found = seen(rt, lines).refusal(disk.requests(), &submission);
        assert!(rt; found == *wanted, "{text} after {lines} and {count}");
    }
}

// Runs over a disk of 200 sectors.
const READY: &str = "begin 64 0 0 0 0 rw 200 lines\nready";

const FIXED: &str = "begin 64 0 0 0 0 ro 200 lines\nready";

const EPOCH: &str = "begin 64 0 0 0 0 rw 200 lines\nready\nepoch";

const CLOSING: &str = "begin 64 0 0 0 0 rw 200 lines\nready\nepoch\nclosing";

const REFUSALS: &[Asked] = &[
    ("", 0, "submit 1 read 0 1", Some(Refusal::NotReady)),
    (READY, 0, "submit 1 read 199 1", None),
    (READY, 0, "submit 1 read 199 2", Some(Refusal::Range)),
    (READY, 0, "submit 1 read 0 89", Some(Refusal::Long)),
    (READY, 0, "submit 1 write 0 88 00000000", None),
    (READY, 0, "submit 1 flush", None),
    (EPOCH, 0, "submit 1 read 0 1", Some(Refusal::NotReady)),
    (CLOSING, 0, "submit 1 read 0 1", Some(Refusal::Closing)),
    (FIXED, 0, "submit 1 flush", Some(Refusal::Unsupported)),
    (
        FIXED,
        0,
        "submit 1 write 0 1 00000001",
        Some(Refusal::ReadOnly),
    ),
];

#[test]
fn submissions_are_refused_in_order(rt: HostRuntime) {
    refuse(&rt, rt.alloc(), REFUSALS);
}

const OF_TWO_PAGES: &str = "begin 64 1 0 0 0 rw 200 lines\nready";

const OF_SIXTEEN: &str = "begin 64 4 0 0 0 rw 200 lines\nready";

const FILLED: &[Asked] = &[
    (READY, 32, "submit 33 read 0 1", Some(Refusal::Full)),
    (OF_TWO_PAGES, 32, "submit 33 read 0 1", None),
    (
        OF_SIXTEEN,
        500,
        "submit 501 read 0 16",
        Some(Refusal::Buffers),
    ),
];

#[test]
fn a_full_ring_and_a_drained_pool_refuse(rt: HostRuntime) {
    refuse(&rt, rt.alloc(), FILLED);
}
