// One call that fails, and examples of hostile hands, each with what is left outside.
use super::outside::{Case, DONE, EMPTY, Fails, Input, NONE, Run, plays};

// A run on eight sectors of zeros.
const EIGHT: Case = Case {
    line: "run disk",
    sectors: 8,
    ..EMPTY
};

const WRITE: Input = Input::Text("settle\nsubmit write 0 1 00000007\nsettle\n");

const STREAMS: &[Case] = &[
    Case {
        name: "the first read of the input fails",
        input: WRITE,
        fails: Fails { input: 1, ..NONE },
        runs: &[Run {
            status: 4,
            out: "begin 64 0 0 0 0 rw 8 lines\n",
            err: "blkring: the input failed\n",
            faults: Some((1, 0)),
            ..DONE
        }],
        ..EIGHT
    },
    Case {
        name: "the first write of the output fails",
        input: WRITE,
        fails: Fails { out: 1, ..NONE },
        runs: &[Run {
            status: 5,
            err: "blkring: the output failed\n",
            faults: Some((0, 1)),
            ..DONE
        }],
        ..EIGHT
    },
    Case {
        name: "the first write of the error output fails",
        line: "fly",
        fails: Fails { err: 1, ..NONE },
        runs: &[Run { status: 2, ..DONE }],
        ..EIGHT
    },
];

#[test]
fn a_stream_that_fails_at_once_leaves_the_image(rt: HostRuntime) {
    plays(&rt, rt.alloc(), STREAMS);
}

const DISKS: &[Case] = &[
    Case {
        name: "the first read of the disk fails",
        input: Input::Text("settle\nsubmit read 0 1\nsettle\n"),
        fails: Fails { read: 1, ..NONE },
        runs: &[Run {
            out: "begin 64 0 0 0 0 rw 8 lines
ready
quiet
submit 1 read 0 1
fault 1 0
reply 1 error
answer 1 error
quiet
end
",
            ..DONE
        }],
        ..EIGHT
    },
    Case {
        name: "the first flush fails",
        input: Input::Text("settle\nsubmit flush\nsettle\n"),
        fails: Fails { flush: 1, ..NONE },
        runs: &[Run {
            out: "begin 64 0 0 0 0 rw 8 lines
ready
quiet
submit 1 flush
fault 1 0
reply 1 error
answer 1 error
quiet
end
",
            ..DONE
        }],
        ..EIGHT
    },
    Case {
        name: "the first trim fails",
        input: Input::Text("settle\nsubmit discard 0 8\nsettle\n"),
        word: 9,
        fails: Fails { trim: 1, ..NONE },
        runs: &[Run {
            out: "begin 64 0 0 0 0 rw 8 lines
ready
quiet
submit 1 discard 0 8
fault 1 0
reply 1 error
answer 1 error
quiet
end
",
            ..DONE
        }],
        ..EIGHT
    },
    Case {
        name: "the second write of the disk fails",
        input: Input::Text("settle\nsubmit write 0 2 00000001\nsettle\n"),
        fails: Fails { write: 2, ..NONE },
        runs: &[Run {
            out: "begin 64 0 0 0 0 rw 8 lines
ready
quiet
submit 1 write 0 2 00000001
effect 1 0
fault 1 1
reply 1 error
answer 1 error
quiet
end
",
            written: &[(0, 1)],
            ..DONE
        }],
        ..EIGHT
    },
];

#[test]
fn a_call_of_the_disk_that_fails_is_a_fault_and_an_error(rt: HostRuntime) {
    plays(&rt, rt.alloc(), DISKS);
}

const HOSTILE: &[Case] = &[
    Case {
        name: "the guest says that it pushed 33 requests into a ring of 32",
        input: Input::Text("settle\npoke 2 0 33\nnotify back\nsettle\n"),
        runs: &[Run {
            out: "begin 64 0 0 0 0 rw 8 lines
ready
quiet
poke 2 0 33
halt overrun 33 0
closing
closed
quiet
end
",
            ..DONE
        }],
        ..EIGHT
    },
    Case {
        name: "the guest clears the grant entry of a frame that is to be written",
        input: Input::Text("settle\nsubmit write 0 1 00000007\nfront 1000\npoke 0 48 0\nsettle\n"),
        runs: &[Run {
            out: "begin 64 0 0 0 0 rw 8 lines
ready
quiet
submit 1 write 0 1 00000007
poke 0 48 0
reply 1 error
answer 1 error
quiet
end
",
            ..DONE
        }],
        ..EIGHT
    },
];

#[test]
fn an_overrun_and_a_lost_grant_change_no_sector(rt: HostRuntime) {
    plays(&rt, rt.alloc(), HOSTILE);
}
