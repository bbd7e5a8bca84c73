// Runs that stop before the end of their schedule.
use super::report::{attached, plain_config, source_of, zeros};
use crate::expected::holds;
use blk_io::{FailsAt, MemorySource};
use schedule_run::{RunStop, run};
use schedule_text::{Detail, Line, LineList};
use std::alloc::Global;
use std::process::Abort;

// A schedule, which calls of its source fail, and how many bytes may be taken; why the run stops, and
// how many lines were told before it, of which the last is `quiet`.
struct Stop {
    name: &'static str,
    schedule: &'static str,
    failing: &'static [u64],
    limit: u64,
    stop: RunStop,
    lines: usize,
}

fn source(rt: &impl Abort, alloc: Global, case: &Stop) -> FailsAt<MemorySource> {
    let failing = Vec::from_slice(alloc, case.failing).expect(rt, "memory");
    FailsAt::new(source_of(rt, alloc, case.schedule), failing)
}

fn stops(rt: &impl Abort, alloc: Global, case: &Stop, lines: &mut LineList) -> Result<(), RunStop> {
    let mut source = source(rt, alloc, case);
    let mut disk = zeros(rt, alloc, 8);
    let config = plain_config(attached(rt, &mut disk));
    holds(rt, case.limit <= 4294967296);
    run(alloc, config, case.limit, &mut source, &mut disk, lines)
}

// How it stops, how many lines were told, and whether the last is `quiet`.
fn left(rt: &impl Abort, alloc: Global, case: &Stop) -> (Result<(), RunStop>, usize, bool) {
    let mut list = LineList::new(alloc, Detail::Lines);
    let stop = stops(rt, alloc, case, &mut list);
    (
        stop,
        list.lines.len(),
        list.lines.last() == Some(&Line::Quiet),
    )
}

fn all_stop(rt: &impl Abort, alloc: Global, cases: &[Stop]) {
    for case in cases {
        let wanted = (Err(case.stop), case.lines, true);
        assert!(rt; left(rt, alloc, case) == wanted, "{}", case.name);
    }
}

const STOPS: &[Stop] = &[
    Stop {
        name: "a run stops where its source fails",
        schedule: "settle\nlook\n",
        failing: &[2],
        limit: 4294967296,
        stop: RunStop::Source,
        lines: 4,
    },
    Stop {
        name: "a run stops at its limit",
        schedule: "settle\n",
        failing: &[],
        limit: 7,
        stop: RunStop::TooLong,
        lines: 3,
    },
];

#[test]
fn a_run_stops_where_its_source_fails_and_at_its_limit(rt: HostRuntime) {
    all_stop(&rt, rt.alloc(), STOPS);
}
