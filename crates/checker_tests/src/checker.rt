// Whole reports by hand, and what the checker finds.
use crate::expected::{holds, holds_of, same_of};
use crate::given::bytes_of;
use blk_io::{FailsAt, MemorySource};
use checked_rules::Rule;
use line_text::LineText;
use std::alloc::Global;
use std::process::Abort;
use trace_check::{CheckStop, Finding, check, write_finding};

// A report, how many bytes may be taken, and what is found.
struct Case {
    name: &'static str,
    report: &'static [u8],
    limit: u32,
    found: Result<Finding, CheckStop>,
}

const CASES: &[Case] = &[
    Case {
        name: "a report of no requests is legal",
        report: b"begin 64 0 0 0 0 rw 8 lines\nready\nquiet\nend\n",
        limit: 4096,
        found: Ok(Finding::Legal),
    },
    Case {
        name: "an answer that was not replied breaks a rule",
        report: b"begin 64 0 0 0 0 rw 8 lines\nready\nsubmit 1 write 0 1 00000007\nanswer 1 ok\n",
        limit: 4096,
        found: Ok(Finding::Broken {
            line: 4,
            rule: Rule::Answer,
        }),
    },
    Case {
        name: "an empty report lacks its first line",
        report: b"",
        limit: 4096,
        found: Ok(Finding::Broken {
            line: 1,
            rule: Rule::Order,
        }),
    },
    Case {
        name: "words of no report are a bad line",
        report: b"hello\n",
        limit: 4096,
        found: Err(CheckStop::BadLine(1)),
    },
    Case {
        name: "after a hostile line the back may halt of an overrun",
        report: b"begin 64 0 0 0 0 rw 8 lines\nready\nquiet\npoke 2 0 33\nhalt overrun 33 0\nclosing\nclosed\nquiet\nend\n",
        limit: 4096,
        found: Ok(Finding::Legal),
    },
    Case {
        name: "an input of as many bytes as may be taken is too long",
        report: b"begin 64 0 0 0 0 rw 8 lines\nend\n",
        limit: 32,
        found: Err(CheckStop::TooLong),
    },
];

fn find(rt: &impl Abort, alloc: Global, cases: &[Case]) {
    for case in cases {
        let mut source = MemorySource::new(bytes_of(rt, alloc, case.report, 1));
        let found = check(alloc, u64::from(case.limit), &mut source);
        holds_of(rt, case.name, found == case.found);
    }
}

#[test]
fn the_first_broken_rule_of_a_report_is_found(rt: HostRuntime) {
    find(&rt, rt.alloc(), CASES);
}

// The first call of the source fails.
fn find_failed(rt: &impl Abort, alloc: Global, report: &[u8]) {
    let inside = MemorySource::new(bytes_of(rt, alloc, report, 1));
    let listed = vec![in alloc; 1].expect(rt, "memory");
    let mut source = FailsAt::new(inside, listed);
    let found = check(alloc, 4096, &mut source);
    holds(rt, found == Err(CheckStop::Source));
}

#[test]
fn a_source_that_fails_is_said(rt: HostRuntime) {
    find_failed(&rt, rt.alloc(), b"begin 64 0 0 0 0 rw 8 lines\nend\n");
}

const BROKEN: Finding = Finding::Broken {
    line: 12,
    rule: Rule::Overrun,
};

const TEXTS: &[(Finding, &str)] = &[(Finding::Legal, "legal\n"), (BROKEN, "broken 12 overrun\n")];

fn write(rt: &impl Abort, findings: &[(Finding, &str)]) {
    let mut text = LineText::new();
    for (finding, wanted) in findings {
        write_finding(*finding, &mut text);
        same_of(rt, "a finding", text.as_str(), *wanted);
    }
}

#[test]
fn a_finding_is_a_line(rt: HostRuntime) {
    write(&rt, TEXTS);
}
