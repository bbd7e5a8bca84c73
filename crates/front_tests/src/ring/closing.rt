// How the front closes and leaves.
use super::script::{Ask, EIGHT, News, Step, Work, plays};
use blk_base::Refusal;
use blk_front::FrontState;

// The first word of the ring's grant entry is read.
const LOOK: Ask = Ask::Read(0, 16);

// It is exchanged for 0 if it still permits access.
const END: Ask = Ask::Cas(0, 16, 1, 0);

#[test]
fn a_closing_front_takes_no_more_and_does_nothing_more(rt: HostRuntime) {
    const STEPS: &[Step<'static>] = &[
        Step::Connects(19),
        Step::Enters(FrontState::Closing, true),
        Step::Enters(FrontState::Closing, false),
        Step::Refuses(Work::Write(0, 1, 7), Refusal::Closing),
        Step::AsksAll(&[Ask::Wait, Ask::Wait]),
        Step::Idle(true),
    ];
    plays(&rt, rt.alloc(), &EIGHT, STEPS);
}

#[test]
fn a_closing_front_serves_what_it_has_and_does_not_leave_before(rt: HostRuntime) {
    const STEPS: &[Step<'static>] = &[
        Step::Connects(19),
        Step::Sleeps,
        Step::Takes(Work::Write(0, 1, 7), 1),
        Step::Enters(FrontState::Closing, true),
        Step::Owed(1, 1),
        Step::Enters(FrontState::Leaving, false),
        Step::Moves(163),
        Step::Word(2, 0, 1),
        Step::Enters(FrontState::Leaving, false),
    ];
    plays(&rt, rt.alloc(), &EIGHT, STEPS);
}

#[test]
fn a_front_that_leaves_ends_its_grant_and_closes_its_port(rt: HostRuntime) {
    const STEPS: &[Step<'static>] = &[
        Step::Connects(19),
        Step::Enters(FrontState::Leaving, false),
        Step::Enters(FrontState::Closing, true),
        Step::Enters(FrontState::Closed, false),
        Step::Enters(FrontState::Leaving, true),
        Step::AsksAll(&[LOOK, END, Ask::ClosePort, Ask::Wait]),
        Step::Word(0, 16, 0),
        Step::Idle(false),
        Step::Enters(FrontState::Closed, true),
        Step::Idle(true),
        Step::Enters(FrontState::Broken(9), false),
    ];
    plays(&rt, rt.alloc(), &EIGHT, STEPS);
}

#[test]
fn a_grant_that_is_mapped_still_breaks_a_front_that_leaves(rt: HostRuntime) {
    const STEPS: &[Step<'static>] = &[
        Step::Connects(19),
        Step::Enters(FrontState::Closing, true),
        Step::Enters(FrontState::Leaving, true),
        Step::Puts(0, 16, 25),
        Step::Tells(LOOK, News::Broken(25)),
    ];
    plays(&rt, rt.alloc(), &EIGHT, STEPS);
}

#[test]
fn a_front_without_a_ring_is_closed_at_once_and_a_bad_state_breaks_one(rt: HostRuntime) {
    const CLOSES: &[Step<'static>] = &[
        Step::Enters(FrontState::Closing, true),
        Step::Enters(FrontState::Closed, true),
        Step::Idle(true),
    ];
    const BREAKS: &[Step<'static>] = &[
        Step::Enters(FrontState::Broken(9), true),
        Step::Enters(FrontState::Closing, false),
    ];
    plays(&rt, rt.alloc(), &EIGHT, CLOSES);
    plays(&rt, rt.alloc(), &EIGHT, BREAKS);
}
