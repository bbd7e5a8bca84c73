// Each call of the disk and of the error output fails in turn, under worked examples.
use super::each_input::{ends, has_image, run};
use super::outside::{Fails, NONE, holds};
use super::worked::{INDIRECT, WORKED, Worked, whole_of};
use std::alloc::Global;
use std::process::Abort;
use std::str;

// Whether a line says a fault of the request of which the other says what was done.
fn is_fault_of(line: &str, whole: &str) -> bool {
    let (mut words, mut done) = (line.split(' '), whole.split(' '));
    let (kind, _done) = (words.next(), done.next());
    kind == Some("fault") && words.next() == done.next()
}

// Whether a report goes as the whole one does, up to a fault in place of what was done there.
fn goes_up_to_a_fault(report: &str, whole: &str) -> bool {
    for (line, done) in report.lines().zip(whole.lines()) {
        if line != done {
            return is_fault_of(line, done);
        }
    }
    false
}

// How many lines begin so.
fn count(report: &str, beginning: &str) -> usize {
    let mut lines: usize = 0;
    for line in report.lines() {
        if line.starts_with(beginning) {
            lines = lines.saturating_add(1);
        }
    }
    lines
}

// One fault, and as many answers as without it.
fn is_faulty(report: &str, whole: &str) -> bool {
    goes_up_to_a_fault(report, whole)
        && count(report, "fault ") == 1
        && count(report, "answer ") == count(whole, "answer ")
        && report.ends_with("\nquiet\nend\n")
}

// One call of the disk fails: it is reported, and the request answered, and the run goes on.
fn lacks_disk(rt: &impl Abort, alloc: Global, worked: &Worked, fails: Fails) {
    let ending = run(rt, alloc, worked, &fails);
    ends(rt, worked.name, &ending.outside, ending.status, 0, "");
    let report = str::from_utf8(ending.out.inside.bytes()).expect(rt, "text");
    let whole = whole_of(rt, alloc, worked);
    holds(rt, worked.name, is_faulty(report, whole.as_str()));
    has_image(rt, alloc, worked.name, worked, &ending.outside, report);
}

fn each_lacks_disk(rt: &impl Abort, alloc: Global, worked: &Worked) {
    let [reads, writes, flushes, trims] = worked.calls;
    for read in 1..=reads {
        lacks_disk(rt, alloc, worked, Fails { read, ..NONE });
    }
    for write in 1..=writes {
        lacks_disk(rt, alloc, worked, Fails { write, ..NONE });
    }
    for flush in 1..=flushes {
        lacks_disk(rt, alloc, worked, Fails { flush, ..NONE });
    }
    for trim in 1..=trims {
        lacks_disk(rt, alloc, worked, Fails { trim, ..NONE });
    }
}

fn all_lack_disk(rt: &impl Abort, alloc: Global, examples: &[Worked]) {
    for worked in examples {
        each_lacks_disk(rt, alloc, worked);
    }
}

#[test]
fn where_a_call_of_the_disk_fails_it_is_told_and_every_request_answered(rt: HostRuntime) {
    all_lack_disk(&rt, rt.alloc(), WORKED);
}

#[test]
fn so_it_is_in_each_sector_of_an_indirect_request(rt: HostRuntime) {
    all_lack_disk(&rt, rt.alloc(), INDIRECT);
}

// Two calls of the error output say why a run stops: it takes the line, and hands it on.
fn says(rt: &impl Abort, alloc: Global, worked: &Worked, fails: Fails, status: u8, said: &str) {
    let ending = run(rt, alloc, worked, &fails);
    let said = if fails.err == 1 { "" } else { said };
    ends(
        rt,
        worked.name,
        &ending.outside,
        ending.status,
        status,
        said,
    );
    holds(rt, worked.name, ending.outside.err.calls == 2);
}

fn all_say(rt: &impl Abort, alloc: Global, examples: &[Worked]) {
    for worked in examples {
        for err in 0..=2 {
            let input = Fails {
                input: 1,
                err,
                ..NONE
            };
            says(rt, alloc, worked, input, 4, "blkring: the input failed\n");
            let out = Fails {
                out: 1,
                err,
                ..NONE
            };
            says(rt, alloc, worked, out, 5, "blkring: the output failed\n");
        }
    }
}

#[test]
fn where_a_call_of_the_error_output_fails_the_status_stays(rt: HostRuntime) {
    all_say(&rt, rt.alloc(), WORKED);
    all_say(&rt, rt.alloc(), INDIRECT);
}
