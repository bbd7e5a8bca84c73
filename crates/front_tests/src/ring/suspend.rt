// What the front keeps over a suspend, and does after it.
use super::reads::ANSWERED;
use super::script::{Ask, Data, EIGHT, News, Step, Work, plays, plays_after};
use blk_base::Refusal;
use blk_front::FrontState;

#[test]
fn data_in_hand_go_on_at_the_very_word_before_the_ring_is_made_anew(rt: HostRuntime) {
    const STEPS: &[Step<'static>] = &[
        Step::Moves(5),
        Step::Suspends,
        Step::Suspends,
        Step::Owed(1, 1),
        Step::Refuses(Work::Write(0, 1, 7), Refusal::NotReady),
        Step::Asks(Ask::Read(18, 5)),
        Step::Moves(121),
        Step::Tells(Ask::Read(18, 127), News::Sector(1, 0, Data::Counted)),
        Step::Owed(0, 0),
        // the first word of a fresh ring
        Step::Asks(Ask::Write(2, 0, 0)),
    ];
    plays_after(&rt, rt.alloc(), &ANSWERED, STEPS);
}

#[test]
fn a_request_whose_grant_was_being_ended_is_issued_again_in_order_of_number(rt: HostRuntime) {
    const STEPS: &[Step<'static>] = &[
        Step::Connects(19),
        Step::Sleeps,
        Step::Takes(Work::Write(0, 1, 7), 1),
        Step::Takes(Work::Write(1, 1, 9), 2),
        // two writes of 163 and 162 moves; the second is answered, and its grant is read
        Step::Moves(325),
        Step::Responds(0, [2, 0, 1]),
        Step::Moves(6),
        Step::Suspends,
        Step::Owed(2, 2),
        Step::Connects(19),
        Step::Asks(Ask::Write(18, 0, 7)),
    ];
    plays(&rt, rt.alloc(), &EIGHT, STEPS);
}

#[test]
fn a_closed_front_does_nothing_after_a_suspend(rt: HostRuntime) {
    const STEPS: &[Step<'static>] = &[
        Step::Enters(FrontState::Closing, true),
        Step::Enters(FrontState::Closed, true),
        Step::Suspends,
        Step::Asks(Ask::Wait),
    ];
    plays(&rt, rt.alloc(), &EIGHT, STEPS);
}
