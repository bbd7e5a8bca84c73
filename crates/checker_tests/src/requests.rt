// Lines by hand, and what the rules on requests allow after them.
use crate::expected::holds_in;
use crate::given::line_of;
use request_check::RequestCheck;
use schedule_text::Line;
use std::alloc::Global;
use std::process::Abort;

// The rules that are asked.
#[derive(Clone, Copy)]
enum Asked {
    State,
    Submit,
    Barrier,
    Effect,
    Reply,
}

// Lines, one more of which a rule is asked, and whether it is allowed.
type Case = (&'static str, Asked, &'static str, bool);

fn is_allowed(check: &RequestCheck, asked: Asked, line: &Line) -> bool {
    match asked {
        Asked::State => check.allows_state(line),
        Asked::Submit => check.allows_submit(line),
        Asked::Barrier => check.allows_barrier(line),
        Asked::Effect => check.allows_effect(line),
        Asked::Reply => check.allows_reply(line),
    }
}

fn after(rt: &impl Abort, alloc: Global, lines: &str) -> RequestCheck {
    let mut check = RequestCheck::new(alloc);
    for text in lines.lines() {
        check.see(&line_of(rt, text)).expect(rt, "memory");
    }
    check
}

fn allow(rt: &impl Abort, alloc: Global, cases: &[Case]) {
    for (before, asked, text, allowed) in cases {
        let check = after(rt, alloc, before);
        let found = is_allowed(&check, *asked, &line_of(rt, text));
        holds_in(rt, (before, text), found == *allowed);
    }
}

// A disk of 200 sectors.
const BEGUN: &str = "begin 64 0 0 32 0 rw 200 lines";

const CLOSING: &str = "begin 64 0 0 32 0 rw 200 lines\nready\nclosing";

// An epoch after a front that closed.
const ANEW: &str = "closing\nclosed\nepoch";

const STATES: &[Case] = &[
    (BEGUN, Asked::State, "ready", true),
    (BEGUN, Asked::State, "closing", true),
    (BEGUN, Asked::State, "closed", false),
    (BEGUN, Asked::State, "unsettled", false),
    (BEGUN, Asked::State, "halt badorder 1", false),
    (BEGUN, Asked::State, "halt gone 6", true),
    (CLOSING, Asked::State, "ready", false),
    (CLOSING, Asked::State, "closing", false),
    (CLOSING, Asked::State, "closed", true),
    (ANEW, Asked::State, "ready", false),
];

#[test]
fn the_front_tells_its_states_in_order(rt: HostRuntime) {
    allow(&rt, rt.alloc(), STATES);
}

const READY: &str = "begin 64 0 0 32 0 rw 200 lines\nready";

const FIXED: &str = "begin 64 0 0 32 0 ro 200 lines\nready";

const SUBMISSIONS: &[Case] = &[
    (READY, Asked::Submit, "submit 1 write 0 1 00000007", true),
    (READY, Asked::Submit, "submit 2 write 0 1 00000007", false),
    (READY, Asked::Submit, "submit 1 write 200 1 00000007", false),
    (
        READY,
        Asked::Submit,
        "submit 1 barrier 0 89 00000007",
        false,
    ),
    (FIXED, Asked::Submit, "submit 1 write 0 1 00000007", false),
    (FIXED, Asked::Submit, "submit 1 read 0 1", true),
];

#[test]
fn a_submission_has_the_next_number_and_is_within_the_limits(rt: HostRuntime) {
    allow(&rt, rt.alloc(), SUBMISSIONS);
}

const WAITING: &str = "submit 1 barrier 0 1 00000007\nsubmit 2 write 1 1 00000007";

const SERVED: &str = "submit 1 barrier 0 1 00000007\nsubmit 2 write 1 1 00000007\neffect 1 0";

const ORDERED: &[Case] = &[
    (WAITING, Asked::Barrier, "effect 2 0", false),
    (WAITING, Asked::Effect, "effect 2 0", true),
    (WAITING, Asked::Barrier, "effect 1 0", true),
    (SERVED, Asked::Barrier, "effect 2 0", true),
];

#[test]
fn a_write_waits_for_the_barrier_before_it(rt: HostRuntime) {
    allow(&rt, rt.alloc(), ORDERED);
}

const WRITTEN: &str = "submit 1 write 0 1 00000007";

const DONE: &str = "submit 1 write 0 1 00000007\neffect 1 0";

const REPLIED: &str = "submit 1 write 0 1 00000007\neffect 1 0\nreply 1 ok";

const REPLIES: &[Case] = &[
    (WRITTEN, Asked::Reply, "reply 1 ok", false),
    (WRITTEN, Asked::Reply, "reply 1 error", false),
    (WRITTEN, Asked::Reply, "reply 1 unsupported", false),
    (DONE, Asked::Reply, "reply 1 ok", true),
    (REPLIED, Asked::Reply, "reply 1 ok", false),
];

#[test]
fn a_reply_says_what_was_done(rt: HostRuntime) {
    allow(&rt, rt.alloc(), REPLIES);
}
