// The command `check`.
use super::asks::{ask_for_nothing, asks};
use super::outside::{Case, DONE, EMPTY, Input, Run, plays};
use commands::Command;

const NO_CHECKS: &[&str] = &["check report", "check --moves", "check check"];

#[test]
fn words_that_ask_for_a_check(rt: HostRuntime) {
    asks(&rt, rt.alloc(), "check", Some(Command::Check));
    ask_for_nothing(&rt, rt.alloc(), NO_CHECKS);
}

const CHECKS: &[Case] = &[Case {
    name: "a check says on the output alone what it finds",
    line: "check",
    input: Input::Text("begin 64 0 0 0 0 rw 8 lines\nready\nready\n"),
    sectors: 1,
    runs: &[Run {
        status: 1,
        out: "broken 3 state\n",
        ..DONE
    }],
    ..EMPTY
}];

#[test]
fn a_check_says_on_the_output_alone_what_it_finds(rt: HostRuntime) {
    plays(&rt, rt.alloc(), CHECKS);
}
