// Runs of the program, and what they leave.
use super::outside::{Case, DONE, EMPTY, Fails, Input, NONE, Run, plays};

const RINGS: &[Case] = &[
    Case {
        name: "a ring is shown",
        line: "inspect --order 1",
        input: Input::Zeros(8192),
        runs: &[Run {
            out: "indices 0 0 0 0\nentries 64\nrequests 0\n",
            ..DONE
        }],
        ..EMPTY
    },
    Case {
        name: "a wrong length is said",
        line: "inspect",
        input: Input::Zeros(4095),
        runs: &[Run {
            status: 1,
            err: "blkring: 4095 bytes, expected 4096\n",
            ..DONE
        }],
        ..EMPTY
    },
    Case {
        name: "words that ask for nothing are said",
        line: "fly",
        input: Input::Zeros(4096),
        runs: &[Run {
            status: 2,
            err: "blkring: bad command line\n",
            ..DONE
        }],
        ..EMPTY
    },
];

#[test]
fn a_ring_is_shown_and_a_wrong_one_is_said(rt: HostRuntime) {
    plays(&rt, rt.alloc(), RINGS);
}

const SCHEDULES: &[Case] = &[
    Case {
        name: "a line that is not in the grammar ends the report",
        line: "run disk",
        input: Input::Text("settle\nsubmit wri\n"),
        sectors: 8,
        runs: &[Run {
            status: 3,
            out: "begin 64 0 0 0 0 rw 8 lines\nready\nquiet\n",
            err: "blkring: line 2: not in the grammar\n",
            ..DONE
        }],
        ..EMPTY
    },
    Case {
        name: "an empty schedule has the first and the last line",
        line: "run disk --moves",
        input: Input::Text(""),
        sectors: 8,
        runs: &[Run {
            out: "begin 64 0 0 0 0 rw 8 moves\nend\n",
            ..DONE
        }],
        ..EMPTY
    },
    Case {
        name: "an image that fails is said",
        line: "run disk",
        input: Input::Text("settle\n"),
        sectors: 8,
        fails: Fails { attach: 1, ..NONE },
        runs: &[Run {
            status: 7,
            err: "blkring: the image failed\n",
            ..DONE
        }],
        ..EMPTY
    },
];

#[test]
fn a_schedule_is_run_and_reported(rt: HostRuntime) {
    plays(&rt, rt.alloc(), SCHEDULES);
}

// The error output takes the first reason, and fails at the second.
const FAILING: &[Case] = &[Case {
    name: "first the input fails, and then the output",
    line: "inspect",
    input: Input::Zeros(4096),
    fails: Fails {
        input: 1,
        err: 3,
        ..NONE
    },
    runs: &[
        Run {
            status: 4,
            err: "blkring: the input failed\n",
            ..DONE
        },
        Run {
            room: 20,
            status: 5,
            out: "indices 0 0 0 0\n",
            err: "blkring: the input failed\n",
            ..DONE
        },
    ],
    ..EMPTY
}];

#[test]
fn a_failing_outside_gives_its_status_and_a_failing_error_output_none(rt: HostRuntime) {
    plays(&rt, rt.alloc(), FAILING);
}

// The output takes the first line, and hands it on before the source is read; the source fails, and after it
// the last handing on.
const TWICE: &[Case] = &[Case {
    name: "the input fails, and after it the output",
    line: "run disk",
    sectors: 8,
    fails: Fails {
        input: 1,
        out: 3,
        ..NONE
    },
    runs: &[Run {
        status: 4,
        out: "begin 64 0 0 0 0 rw 8 lines\n",
        err: "blkring: the input failed\n",
        faults: Some((1, 1)),
        ..DONE
    }],
    ..EMPTY
}];

#[test]
fn the_first_reason_stands_though_the_output_fails_after_it(rt: HostRuntime) {
    plays(&rt, rt.alloc(), TWICE);
}

const BENCHES: &[Case] = &[Case {
    name: "a bench reads no input, and then its output is full",
    line: "bench 7 10",
    sectors: 1,
    word: 1,
    fails: Fails { input: 1, ..NONE },
    runs: &[
        Run {
            out: "submitted 8\nrefused 0\neffects 62\nanswered 8\nquiet\n",
            faults: Some((0, 0)),
            ..DONE
        },
        Run {
            room: 20,
            status: 5,
            out: "",
            err: "blkring: the output failed\n",
            ..DONE
        },
    ],
    ..EMPTY
}];

#[test]
fn a_bench_says_its_counts_and_leaves_input_and_disk(rt: HostRuntime) {
    plays(&rt, rt.alloc(), BENCHES);
}
