// The work of entries, by hand from the header's structs.
use super::ENTRY;
use crate::expected::{holds, holds_of, same};
use blk_base::{Abi, Mode, Status};
use blk_layout::{RawRequest, Response, Segment, read_request};
use report_rules::{Task, status_by, work_response, work_tasks, work_verdict};
use segment_list::{DiskInfo, Verdict, Why};
use std::alloc::Global;
use std::process::Abort;

const DISK: DiskInfo = DiskInfo {
    sectors: 16,
    read_only: false,
    barrier: true,
    flush: true,
    discard: true,
    max_indirect: 960,
};

#[derive(Clone, Copy)]
enum Given {
    // The request of the entry of the write.
    Entry,
    // An operation, how many segments count and the first sector.
    Direct(u8, u8, u64),
    // An operation and how many segments its pages have.
    Indirect(u8, u16),
    // The first sector and how many.
    Discard(u64, u64),
}

// A request in the direct form, with a whole frame and two sectors after it.
fn direct(op: u8, count: u8, sector: u64) -> RawRequest {
    let mut segments = [Segment {
        gref: 0,
        first: 0,
        last: 0,
    }; 11];
    segments[0] = Segment {
        gref: 24,
        first: 0,
        last: 7,
    };
    segments[1] = Segment {
        gref: 25,
        first: 2,
        last: 3,
    };
    RawRequest::Direct {
        op,
        count,
        device: 51712,
        id: 9,
        sector,
        segments,
    }
}

fn request_of(given: Given) -> RawRequest {
    match given {
        Given::Entry => read_request(Abi::X64, &ENTRY),
        Given::Direct(op, count, sector) => direct(op, count, sector),
        Given::Indirect(op, count) => RawRequest::Indirect {
            op,
            count,
            device: 51712,
            id: 9,
            sector: 0,
            pages: [30, 31, 0, 0, 0, 0, 0, 0],
        },
        Given::Discard(sector, count) => RawRequest::Discard {
            flag: 0,
            device: 51712,
            id: 9,
            sector,
            count,
        },
    }
}

// A request, whether grants are persistent, the words of its pages that were read, and what is done.
type Case = (&'static str, Given, bool, &'static [u32], &'static [Task]);

const FOR_READING: Task = Task::Store {
    gref: 24,
    mode: Mode::ReadOnly,
    sector: 0,
    first: 0,
    count: 1,
};

const FOR_WRITING: Task = Task::Store {
    gref: 24,
    mode: Mode::ReadWrite,
    sector: 0,
    first: 0,
    count: 1,
};

const FIRST: Task = Task::Load {
    gref: 24,
    sector: 3,
    first: 0,
    count: 8,
};

const SECOND: Task = Task::Load {
    gref: 25,
    sector: 11,
    first: 2,
    count: 2,
};

const TRIM: Task = Task::Trim {
    sector: 2,
    count: 14,
};

const PAGE: Task = Task::Page { gref: 30, words: 4 };

const STORE: Task = Task::Store {
    gref: 24,
    mode: Mode::ReadOnly,
    sector: 0,
    first: 0,
    count: 8,
};

const LAST: Task = Task::Store {
    gref: 25,
    mode: Mode::ReadOnly,
    sector: 8,
    first: 2,
    count: 2,
};

const WHOLE: Task = Task::Page {
    gref: 30,
    words: 1024,
};

const REST: Task = Task::Page { gref: 31, words: 2 };

const READ_WORDS: &[u32] = &[24, 0x0700, 25, 0x0302];

const WRONG_WORDS: &[u32] = &[24, 0x0800, 25, 0x0302];

const CASES: &[Case] = &[
    (
        "an entry tells its work",
        Given::Entry,
        false,
        &[],
        &[FOR_READING],
    ),
    (
        "an entry tells its work that is kept",
        Given::Entry,
        true,
        &[],
        &[FOR_WRITING],
    ),
    ("one segment", Given::Direct(0, 1, 3), false, &[], &[FIRST]),
    (
        "segments follow each other on the disk",
        Given::Direct(0, 2, 3),
        false,
        &[],
        &[FIRST, SECOND],
    ),
    (
        "a request past the end has no work",
        Given::Direct(0, 2, 7),
        false,
        &[],
        &[],
    ),
    (
        "a request that is none has no work",
        Given::Direct(4, 2, 3),
        false,
        &[],
        &[],
    ),
    (
        "a flush has one task",
        Given::Direct(3, 0, 3),
        false,
        &[],
        &[Task::Flush],
    ),
    (
        "a discard has one task",
        Given::Discard(2, 14),
        false,
        &[],
        &[TRIM],
    ),
    (
        "pages are read first",
        Given::Indirect(1, 2),
        false,
        &[],
        &[PAGE],
    ),
    (
        "pages are read whole",
        Given::Indirect(1, 2),
        false,
        &[24, 0x0700, 25],
        &[PAGE],
    ),
    (
        "pages were read",
        Given::Indirect(1, 2),
        false,
        READ_WORDS,
        &[PAGE, STORE, LAST],
    ),
    (
        "a page is wrong",
        Given::Indirect(1, 2),
        false,
        WRONG_WORDS,
        &[PAGE],
    ),
    (
        "a page has 512 segments",
        Given::Indirect(0, 513),
        false,
        &[],
        &[WHOLE, REST],
    ),
    (
        "an indirect request that is none has no work",
        Given::Indirect(2, 2),
        false,
        &[],
        &[],
    ),
];

fn work(rt: &impl Abort, alloc: Global, cases: &[Case]) {
    for (name, given, persistent, words, tasks) in cases {
        let found = work_tasks(alloc, &request_of(*given), &DISK, *persistent, words);
        let found = found.expect(rt, "memory");
        holds_of(rt, name, found.as_slice() == *tasks);
    }
}

#[test]
fn a_request_tells_its_work(rt: HostRuntime) {
    work(&rt, rt.alloc(), CASES);
}

// A request, the words of its pages that were read, and how it ends.
type Ending = (Given, &'static [u32], Status);

const ENDS: &[Ending] = &[
    (Given::Entry, &[], Status::Okay),
    (Given::Direct(0, 2, 7), &[], Status::Error),
    (Given::Indirect(1, 2), WRONG_WORDS, Status::Error),
];

fn verdict_of(rt: &impl Abort, alloc: Global, given: Given, words: &[u32]) -> Verdict {
    work_verdict(alloc, &request_of(given), &DISK, words).expect(rt, "memory")
}

fn end(rt: &impl Abort, alloc: Global, cases: &[Ending]) {
    for (given, words, status) in cases {
        let verdict = verdict_of(rt, alloc, *given, words);
        holds(rt, status_by(&verdict) == *status);
    }
}

#[test]
fn a_request_that_is_not_served_ends_as_an_error(rt: HostRuntime) {
    end(&rt, rt.alloc(), ENDS);
}

#[test]
fn a_verdict_says_why_a_request_is_not_served(rt: HostRuntime) {
    let verdict = verdict_of(&rt, rt.alloc(), Given::Direct(4, 2, 3), &[]);
    same(&rt, verdict, Verdict::Error(Why::Op));
}

const RESPONSES: &[(Given, Response)] = &[
    (
        Given::Entry,
        Response {
            id: 1,
            op: 1,
            status: Status::Okay,
        },
    ),
    (
        Given::Indirect(1, 2),
        Response {
            id: 9,
            op: 1,
            status: Status::Error,
        },
    ),
];

fn respond(rt: &impl Abort, cases: &[(Given, Response)]) {
    for (given, wanted) in cases {
        let found = work_response(&request_of(*given), wanted.status);
        holds(rt, found == *wanted);
    }
}

#[test]
fn a_response_has_the_number_and_the_operation_of_its_request(rt: HostRuntime) {
    respond(&rt, RESPONSES);
}
