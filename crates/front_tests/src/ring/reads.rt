// How the front issues a read, and tells the data of one that went well.
use super::script::{Ask, Data, EIGHT, News, Step, Work, plays, plays_after};
use blk_base::Status;
use std::alloc::Global;
use std::process::Abort;

// The entry of a read of sector 3 with id 1 into the frame of reference 24, up to its first two
// words of zeros.
const ENTRY: [u32; 8] = [0xca00_0100, 0, 1, 0, 3, 0, 0x18, 0];

#[test]
fn the_first_read_takes_35_moves_and_sends_an_event(rt: HostRuntime) {
    const STEPS: &[Step<'static>] = &[
        Step::Connects(19),
        Step::Sleeps,
        Step::Takes(Work::Read(3, 1), 1),
        Step::AsksAll(&[Ask::Write(0, 49, 18), Ask::Fence, Ask::Write(0, 48, 1)]),
        Step::Writes(2, 16, 28, &ENTRY),
        Step::AsksAll(&[Ask::Write(2, 0, 1), Ask::Fence, Ask::Read(2, 1), Ask::Send]),
        Step::Asks(Ask::Wait),
    ];
    plays(&rt, rt.alloc(), &EIGHT, STEPS);
}

// The response is read, and the grant is looked at.
const RESPONSE: [Ask; 6] = [
    Ask::Wait,
    Ask::Read(2, 2),
    Ask::Read(2, 16),
    Ask::Read(2, 17),
    Ask::Read(2, 18),
    Ask::Read(0, 48),
];

// The grant is ended.
const END: Ask = Ask::Cas(0, 48, 1, 0);

/// A read of sector 3 is answered, which the move tells that ends its grant.
pub const ANSWERED: [Step<'static>; 9] = [
    Step::Connects(19),
    Step::Sleeps,
    Step::Takes(Work::Read(3, 1), 1),
    Step::Moves(35),
    Step::Lays(Data::Counted, 18, 128),
    Step::Responds(0, [1, 0, 0]),
    Step::AsksAll(&RESPONSE),
    Step::Tells(END, News::Answer(1, Status::Okay)),
    Step::Word(0, 48, 0),
];

#[test]
fn the_data_of_a_read_are_told_after_its_answer(rt: HostRuntime) {
    const STEPS: &[Step<'static>] = &[ // nothing else is done in between, though a write waits that has the next frame
        Step::Takes(Work::Write(3, 1, 9), 2),
        Step::Reads(18, 127, (2, 2)),
        Step::Tells(Ask::Read(18, 127), News::Sector(1, 0, Data::Counted)),
        Step::Owed(1, 1),
        Step::Asks(Ask::Write(19, 0, 9)),
    ];
    plays_after(&rt, rt.alloc(), &ANSWERED, STEPS);
}

#[test]
fn the_frame_of_a_read_is_free_once_its_data_are_told(rt: HostRuntime) {
    const STEPS: &[Step<'static>] = &[
        Step::Moves(127),
        Step::Owed(1, 1),
        Step::Told(News::Sector(1, 0, Data::Counted)),
        // nothing is left to be done, and the frame is the lowest free one again
        Step::Owed(0, 0),
        Step::Takes(Work::Write(3, 1, 9), 2),
        Step::Asks(Ask::Write(18, 0, 9)),
    ];
    plays_after(&rt, rt.alloc(), &ANSWERED, STEPS);
}

// A read whose response has this last word has failed, and its frame is free.
fn fails(rt: &impl Abort, alloc: Global, last: u32, status: Status) {
    plays(
        rt,
        alloc,
        &EIGHT,
        &[
            Step::Connects(19),
            Step::Sleeps,
            Step::Takes(Work::Read(3, 1), 1),
            Step::Moves(35),
            Step::Lays(Data::Counted, 18, 128),
            Step::Responds(0, [1, 0, last]),
            Step::AsksAll(&RESPONSE),
            Step::Tells(END, News::Answer(1, status)),
            Step::Word(0, 48, 0),
            Step::Owed(0, 0),
            Step::Takes(Work::Write(3, 1, 9), 2),
            Step::Asks(Ask::Write(18, 0, 9)),
        ],
    );
}

#[test]
fn a_read_that_failed_has_no_data(rt: HostRuntime) {
    fails(&rt, rt.alloc(), 0xffff_0000, Status::Error);
    fails(&rt, rt.alloc(), 0xfffe_0000, Status::Unsupported);
}
