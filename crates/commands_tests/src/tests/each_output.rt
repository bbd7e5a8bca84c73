// Each call of the output fails in turn, under worked examples.
use super::each_input::{ends, goes, is_image, name_of, outside, run};
use super::forms::KeepsBack;
use super::outside::{Fails, NONE, Outside, holds, status};
use super::worked::{INDIRECT, WORKED, Worked, image_of, whole_of};
use std::alloc::Global;
use std::process::Abort;

const OUTPUT_FAILED: &str = "blkring: the output failed\n";

fn lines_in(bytes: &[u8]) -> usize {
    let mut lines: usize = 0;
    for byte in bytes {
        if *byte == b'\n' {
            lines = lines.saturating_add(1);
        }
    }
    lines
}

fn ends_a_line(bytes: &[u8]) -> bool {
    bytes.is_empty() || bytes.ends_with(b"\n")
}

// An output holds a beginning of the report, and the image is the one that its whole lines tell of, or is
// changed once more.
fn is_begun(
    rt: &impl Abort,
    alloc: Global,
    name: &str,
    worked: &Worked,
    outside: &Outside,
    out: &[u8],
) {
    let report = whole_of(rt, alloc, worked);
    holds(rt, name, report.as_bytes().starts_with(out));
    let lines = lines_in(out);
    let told = image_of(rt, alloc, worked, report.as_str(), lines, 0);
    let next = image_of(rt, alloc, worked, report.as_str(), lines, 1);
    assert!(rt;
        is_image(outside, &told) || is_image(outside, &next),
        "{name}"
    );
}

// The call takes nothing.
fn lacks_output(rt: &impl Abort, alloc: Global, worked: &Worked, call: u64) {
    let name = name_of(rt, alloc, worked, call);
    let ending = run(rt, alloc, worked, &Fails { out: call, ..NONE });
    let out = ending.out.inside.bytes();
    ends(
        rt,
        name.as_str(),
        &ending.outside,
        ending.status,
        5,
        OUTPUT_FAILED,
    );
    is_begun(rt, alloc, name.as_str(), worked, &ending.outside, out);
    holds(rt, name.as_str(), ends_a_line(out));
}

// The calls from this one to that, or to the last.
fn all_lack_output(rt: &impl Abort, alloc: Global, examples: &[Worked], from: u64, to: u64) {
    for worked in examples {
        let calls = goes(rt, alloc, worked).out.calls;
        for call in from..=calls.min(to) {
            lacks_output(rt, alloc, worked, call);
        }
    }
}

#[test]
fn where_a_call_of_the_output_fails_it_holds_the_lines_before_it(rt: HostRuntime) {
    all_lack_output(&rt, rt.alloc(), WORKED, 1, u64::MAX);
}

// An indirect request has many calls, so they are parted.
#[test]
fn so_it_is_where_an_indirect_request_begins(rt: HostRuntime) {
    all_lack_output(&rt, rt.alloc(), INDIRECT, 1, 50);
}

#[test]
fn so_it_is_amid_an_indirect_request(rt: HostRuntime) {
    all_lack_output(&rt, rt.alloc(), INDIRECT, 51, 100);
}

#[test]
fn so_it_is_later_in_an_indirect_request(rt: HostRuntime) {
    all_lack_output(&rt, rt.alloc(), INDIRECT, 101, 150);
}

#[test]
fn so_it_is_where_an_indirect_request_ends(rt: HostRuntime) {
    all_lack_output(&rt, rt.alloc(), INDIRECT, 151, u64::MAX);
}

// What came out of an output that keeps back, of which the flush of a number fails, and how many there
// were.
fn hands_on(rt: &impl Abort, alloc: Global, worked: &Worked, call: u64) -> u64 {
    let name = name_of(rt, alloc, worked, call);
    let mut outside = outside(rt, alloc, worked, &NONE);
    let mut out = KeepsBack::new(alloc, call);
    let status = status(alloc, &mut outside, &mut out);
    let (wanted, said) = if call == 0 {
        (0, "")
    } else {
        (5, OUTPUT_FAILED)
    };
    ends(rt, name.as_str(), &outside, status, wanted, said);
    is_begun(
        rt,
        alloc,
        name.as_str(),
        worked,
        &outside,
        out.bytes.as_slice(),
    );
    out.flushes
}

// The flushes from this one to that, or to the last.
fn all_hand_on(rt: &impl Abort, alloc: Global, examples: &[Worked], from: u64, to: u64) {
    for worked in examples {
        let calls = hands_on(rt, alloc, worked, 0);
        for call in from..=calls.min(to) {
            hands_on(rt, alloc, worked, call);
        }
    }
}

#[test]
fn where_handing_on_fails_amid_a_line_the_image_is_at_most_one_change_ahead(rt: HostRuntime) {
    all_hand_on(&rt, rt.alloc(), WORKED, 1, u64::MAX);
}

#[test]
fn so_it_is_where_the_first_sectors_of_an_indirect_request_are_handed_on(rt: HostRuntime) {
    all_hand_on(&rt, rt.alloc(), INDIRECT, 1, 50);
}

#[test]
fn so_it_is_where_its_last_sectors_are_handed_on(rt: HostRuntime) {
    all_hand_on(&rt, rt.alloc(), INDIRECT, 51, u64::MAX);
}
