// What is asked where it is a word of a request's data.
use super::reads::ANSWERED;
use super::script::{Ask, EIGHT, Step, Work, plays, plays_after};

#[test]
fn a_write_asks_for_each_word_of_its_data_but_the_first_as_data(rt: HostRuntime) {
    const STEPS: &[Step<'static>] = &[
        Step::Connects(19),
        Step::Sleeps,
        Step::Takes(Work::Write(0, 1, 7), 1),
        Step::DataAsked(None),
        Step::Asks(Ask::Write(18, 0, 7)),
        Step::DataAsked(Some(Ask::Write(18, 1, 7))),
        Step::Asks(Ask::Write(18, 1, 7)),
        Step::Moves(125),
        Step::DataAsked(Some(Ask::Write(18, 127, 7))),
        Step::Asks(Ask::Write(18, 127, 7)),
        // its grant
        Step::DataAsked(None),
        Step::Asks(Ask::Write(0, 49, 18)),
    ];
    plays(&rt, rt.alloc(), &EIGHT, STEPS);
}

#[test]
fn a_word_of_the_ring_is_not_asked_for_as_data(rt: HostRuntime) {
    const STEPS: &[Step<'static>] = &[
        Step::Connects(19),
        Step::DataAsked(None),
        Step::Asks(Ask::Read(2, 2)),
        Step::DataAsked(None),
        Step::Asks(Ask::Write(2, 3, 1)),
    ];
    plays(&rt, rt.alloc(), &EIGHT, STEPS);
}

#[test]
fn a_read_asks_for_each_word_of_its_data_as_data(rt: HostRuntime) {
    const STEPS: &[Step<'static>] = &[
        Step::DataAsked(Some(Ask::Read(18, 0))),
        Step::Asks(Ask::Read(18, 0)),
        Step::DataAsked(Some(Ask::Read(18, 1))),
        Step::Moves(126),
        Step::DataAsked(Some(Ask::Read(18, 127))),
    ];
    plays_after(&rt, rt.alloc(), &ANSWERED, STEPS);
}

#[test]
fn data_that_a_suspend_left_are_not_asked_for_as_data(rt: HostRuntime) {
    const STEPS: &[Step<'static>] = &[
        Step::Moves(5),
        Step::DataAsked(Some(Ask::Read(18, 5))),
        Step::Suspends,
        Step::DataAsked(None),
        Step::Asks(Ask::Read(18, 5)),
    ];
    plays_after(&rt, rt.alloc(), &ANSWERED, STEPS);
}
