// When a job is at its end, and which words are those of a reply.
use crate::expected::{holds, holds_at};
use blk_base::Status;
use report_rules::{Spot, end_of, is_event, is_like};
use std::process::Abort;

// Whether its disk failed; the tasks that are done, the place in the next, and whether a map was
// refused; how a job of two tasks ends.
const ENDS: &[(bool, Option<(usize, u64, bool)>, Option<Status>)] = &[
    (false, Some((2, 0, false)), Some(Status::Okay)),
    (false, Some((1, 0, false)), None),
    (false, Some((1, 3, false)), None),
    (false, Some((0, 1, true)), Some(Status::Error)),
    (true, Some((1, 3, false)), Some(Status::Error)),
    (false, None, None),
];

fn spot_at(place: Option<(usize, u64, bool)>) -> Option<Spot> {
    let (done, place, refused) = place?;
    Some(Spot {
        done,
        place,
        refused,
        mapping: None,
    })
}

fn end(rt: &impl Abort, cases: &[(bool, Option<(usize, u64, bool)>, Option<Status>)]) {
    for (failed, place, wanted) in cases {
        let found = end_of(*failed, 2, Status::Okay, spot_at(*place));
        holds(rt, found == *wanted);
    }
}

#[test]
fn a_job_of_two_tasks_ends(rt: HostRuntime) {
    end(&rt, ENDS);
}

const EVENTS: &[(Option<u128>, bool)] = &[
    (None, false),
    (Some(0), false),
    (Some(1), true),
    (Some(1025), false),
];

fn send(rt: &impl Abort, cases: &[(Option<u128>, bool)]) {
    for (word, event) in cases {
        holds(rt, is_event(*word) == *event);
    }
}

#[test]
fn the_event_word_is_word_1(rt: HostRuntime) {
    send(&rt, EVENTS);
}

const OKAY: [u32; 3] = [1, 0, 1];

const ROWS: &[(usize, [u32; 3], Option<[u32; 3]>, bool)] = &[
    (0, [1, 9, 9], Some(OKAY), true),
    (0, [2, 0, 1], Some(OKAY), false),
    (1, [1, 0, 9], Some(OKAY), true),
    (1, [1, 9, 1], Some(OKAY), false),
    (2, [1, 0, 1], Some(OKAY), true),
    (2, [1, 0, 0xffff_0001], Some(OKAY), false),
    (0, OKAY, None, false),
];

fn compare(rt: &impl Abort, cases: &[(usize, [u32; 3], Option<[u32; 3]>, bool)]) {
    for (last, row, words, alike) in cases {
        holds_at(
            rt,
            ("up to", *last as u64),
            is_like(*last, row, words) == *alike,
        );
    }
}

#[test]
fn a_row_is_compared_as_far_as_it_is_written(rt: HostRuntime) {
    compare(&rt, ROWS);
}
