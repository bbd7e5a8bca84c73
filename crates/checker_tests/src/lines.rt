// Texts by hand, and the lines that come of them.
use crate::expected::{holds_in, holds_of};
use crate::given::{bytes_of, line_of};
use blk_io::{FailsAt, MemorySource, Source};
use report_lines::{ReadStop, ReportLines};
use schedule_text::Line;
use std::alloc::Global;
use std::process::Abort;

// A text, how often it stands there, and how many bytes may be taken; the lines that come of it each
// time, and the stop after the last, where it is not the end.
struct Case {
    name: &'static str,
    text: &'static [u8],
    times: usize,
    limit: u64,
    lines: &'static [&'static str],
    stop: Option<ReadStop>,
}

const CASES: &[Case] = &[
    Case {
        name: "two lines come in order, and then the end",
        text: b"ready\nclosed\n",
        times: 1,
        limit: 100,
        lines: &["ready", "closed"],
        stop: None,
    },
    Case {
        name: "an empty source has no line",
        text: b"",
        times: 1,
        limit: 100,
        lines: &[],
        stop: None,
    },
    Case {
        name: "a last line without its feed is none",
        text: b"ready\nready",
        times: 1,
        limit: 100,
        lines: &["ready"],
        stop: Some(ReadStop::BadLine),
    },
    Case {
        name: "words that no line has are none",
        text: b"hello\nready\n",
        times: 1,
        limit: 100,
        lines: &[],
        stop: Some(ReadStop::BadLine),
    },
    Case {
        name: "a line that goes on past 1152 bytes is none",
        text: b"r",
        times: 1153,
        limit: 1153,
        lines: &[],
        stop: Some(ReadStop::BadLine),
    },
    Case {
        name: "no more is taken than the limit",
        text: b"ready\nready\n",
        times: 1,
        limit: 11,
        lines: &["ready"],
        stop: Some(ReadStop::TooLong),
    },
    Case {
        name: "lines run on from one piece to the next",
        text: b"ready\n",
        times: 6000,
        limit: 100000,
        lines: &["ready"],
        stop: None,
    },
];

const FAILING: &Case = &Case {
    name: "a source that fails is said",
    text: b"ready\n",
    times: 1,
    limit: 100,
    lines: &[],
    stop: Some(ReadStop::Source),
};

fn is_next<S: Source>(
    reader: &mut ReportLines,
    source: &mut S,
    wanted: &Result<Option<Line>, ReadStop>,
) -> bool {
    reader.next(source) == *wanted
}

fn line_comes<S: Source>(
    rt: &impl Abort,
    reader: &mut ReportLines,
    source: &mut S,
    text: &str,
) -> bool {
    is_next(reader, source, &Ok(Some(line_of(rt, text))))
}

fn end_comes<S: Source>(reader: &mut ReportLines, source: &mut S, stop: Option<ReadStop>) -> bool {
    match stop {
        None => is_next(reader, source, &Ok(None)),
        Some(stop) => is_next(reader, source, &Err(stop)),
    }
}

fn comes<S: Source>(rt: &impl Abort, alloc: Global, case: &Case, source: &mut S) {
    let mut reader = ReportLines::new(alloc, case.limit);
    for _ in 0..case.times {
        for text in case.lines {
            holds_in(
                rt,
                (case.name, text),
                line_comes(rt, &mut reader, source, text),
            );
        }
    }
    holds_of(rt, case.name, end_comes(&mut reader, source, case.stop));
}

fn all_come(rt: &impl Abort, alloc: Global, cases: &[Case]) {
    for case in cases {
        let bytes = bytes_of(rt, alloc, case.text, case.times);
        comes(rt, alloc, case, &mut MemorySource::new(bytes));
    }
}

#[test]
fn the_lines_of_a_source_come_in_order(rt: HostRuntime) {
    all_come(&rt, rt.alloc(), CASES);
}

// The first call of the source fails.
fn comes_failed(rt: &impl Abort, alloc: Global, case: &Case) {
    let inside = MemorySource::new(bytes_of(rt, alloc, case.text, case.times));
    let listed = vec![in alloc; 1].expect(rt, "memory");
    comes(rt, alloc, case, &mut FailsAt::new(inside, listed));
}

#[test]
fn a_source_that_fails_is_said(rt: HostRuntime) {
    comes_failed(&rt, rt.alloc(), FAILING);
}
