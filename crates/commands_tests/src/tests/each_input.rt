// Worked examples, and each read of their input that fails in turn.
use super::forms::Sips;
use super::outside::{Fails, NONE, Outside, are_bytes, holds, outside_of, sectors, sink, status};
use super::worked::{INDIRECT, WORKED, Worked, image_of, report_of, schedule_of, whole_of};
use blk_io::{FailsAt, MemorySink};
use image_disk::CallCounts;
use std::alloc::Global;
use std::process::Abort;

// How many bytes the input gives a call.
const SIP: u64 = 13;

const INPUT_FAILED: &str = "blkring: the input failed\n";

/// An outside with the schedule of an example.
pub fn outside(rt: &impl Abort, alloc: Global, worked: &Worked, fails: &Fails) -> Outside {
    let schedule = schedule_of(rt, alloc, worked);
    let input = Sips::new(schedule.into_bytes(), SIP as usize);
    let disk = sectors(rt, alloc, worked.sectors, 0);
    outside_of(rt, alloc, worked.line, input, disk, fails)
}

/// What a run left.
#[derive(Drop)]
pub struct Ending {
    pub outside: Outside,
    pub out: FailsAt<MemorySink>,
    pub status: u8,
}

/// Runs an example.
pub fn run(rt: &impl Abort, alloc: Global, worked: &Worked, fails: &Fails) -> Ending {
    let mut outside = outside(rt, alloc, worked, fails);
    let mut out = sink(rt, alloc, 65536, fails.out);
    let status = status(alloc, &mut outside, &mut out);
    Ending {
        outside,
        out,
        status,
    }
}

/// What is said where an assertion doesn't hold.
pub fn name_of(rt: &impl Abort, alloc: Global, worked: &Worked, call: u64) -> String {
    format!(in alloc; "{}, call {call}", worked.name).expect(rt, "memory")
}

/// It ended with this status, and said this.
pub fn ends(rt: &impl Abort, name: &str, outside: &Outside, found: u8, status: u8, said: &str) {
    assert_eq!(rt; found, status, "{name}");
    are_bytes(rt, name, &outside.err, said);
}

/// Whether each sector is full of its word.
pub fn is_image(outside: &Outside, image: &Vec<u32>) -> bool {
    let sectors = outside.disk.inside.content();
    for (words, word) in sectors.iter().zip(image.as_slice()) {
        if *words != [*word; 128] {
            return false;
        }
    }
    sectors.len() == image.len()
}

/// The image is the one that a report tells of.
pub fn has_image(
    rt: &impl Abort,
    alloc: Global,
    name: &str,
    worked: &Worked,
    outside: &Outside,
    report: &str,
) {
    let image = image_of(rt, alloc, worked, report, usize::MAX, 0);
    holds(rt, name, is_image(outside, &image));
}

/// Runs an example of which no call fails.
pub fn goes(rt: &impl Abort, alloc: Global, worked: &Worked) -> Ending {
    let ending = run(rt, alloc, worked, &NONE);
    let report = whole_of(rt, alloc, worked);
    ends(rt, worked.name, &ending.outside, ending.status, 0, "");
    are_bytes(rt, worked.name, &ending.out, report.as_str());
    has_image(
        rt,
        alloc,
        worked.name,
        worked,
        &ending.outside,
        report.as_str(),
    );
    ending
}

// How many calls of the disk there are of each kind.
fn has_calls(rt: &impl Abort, worked: &Worked, ending: &Ending) {
    let [reads, writes, flushes, trims] = worked.calls;
    let calls = CallCounts {
        attaches: 1,
        reads,
        writes,
        flushes,
        trims,
    };
    holds(rt, worked.name, ending.outside.disk.made == calls);
}

fn all_go(rt: &impl Abort, alloc: Global, examples: &[Worked]) {
    for worked in examples {
        has_calls(rt, worked, &goes(rt, alloc, worked));
    }
}

#[test]
fn worked_examples_are_run_and_reported(rt: HostRuntime) {
    all_go(&rt, rt.alloc(), WORKED);
    all_go(&rt, rt.alloc(), INDIRECT);
}

// The whole lines of the bytes that came before are carried out, and reported, and no more.
fn lacks_input(rt: &impl Abort, alloc: Global, worked: &Worked, call: u64) {
    let name = name_of(rt, alloc, worked, call);
    let fails = Fails {
        input: call,
        ..NONE
    };
    let ending = run(rt, alloc, worked, &fails);
    let taken = call.saturating_sub(1).saturating_mul(SIP);
    let report = report_of(rt, alloc, worked, taken as usize);
    ends(
        rt,
        name.as_str(),
        &ending.outside,
        ending.status,
        4,
        INPUT_FAILED,
    );
    are_bytes(rt, name.as_str(), &ending.out, report.as_str());
    has_image(
        rt,
        alloc,
        name.as_str(),
        worked,
        &ending.outside,
        report.as_str(),
    );
}

fn all_lack_input(rt: &impl Abort, alloc: Global, examples: &[Worked]) {
    for worked in examples {
        let calls = goes(rt, alloc, worked).outside.input.calls;
        for call in 1..=calls {
            lacks_input(rt, alloc, worked, call);
        }
    }
}

#[test]
fn where_a_read_of_the_input_fails_the_whole_lines_before_it_are_carried_out(rt: HostRuntime) {
    all_lack_input(&rt, rt.alloc(), WORKED);
    all_lack_input(&rt, rt.alloc(), INDIRECT);
}
