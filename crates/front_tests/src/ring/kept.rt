// How the front keeps its grants, and how it ends them.
use super::script::{Ask, Data, EIGHT, NOTHING, News, Step, Work, plays, plays_after};
use blk_base::Status;
use blk_front::{FrontState, Offers};

// A back of a disk of 16 sectors that keeps its mappings.
const KEEPING: Offers = Offers {
    sectors: 16,
    persistent: true,
    ..NOTHING
};

// The responses' producer is read.
const LOOK: Ask = Ask::Read(2, 2);

// A write of sector 0 is issued and answered. Its frame is granted for reading and writing (1), and is
// granted still once the answer is told.
const WRITTEN: [Step<'static>; 11] = [
    Step::Offered(KEEPING),
    Step::Sleeps,
    Step::Takes(Work::Write(0, 1, 7), 1),
    Step::Fills(18, &[7]),
    Step::AsksAll(&[Ask::Write(0, 49, 18), Ask::Fence, Ask::Write(0, 48, 1)]),
    Step::Writes(2, 16, 28, &[0xca00_0101, 0, 1, 0, 0, 0, 0x18, 0]),
    Step::AsksAll(&[Ask::Write(2, 0, 1), Ask::Fence, Ask::Read(2, 1), Ask::Send]),
    Step::Responds(0, [1, 0, 1]),
    Step::AsksAll(&[Ask::Wait, LOOK, Ask::Read(2, 16), Ask::Read(2, 17)]),
    Step::Tells(Ask::Read(2, 18), News::Answer(1, Status::Okay)),
    Step::Word(0, 48, 1),
];

// The grants of the ring's frame, of frame 18 and of frame 19 are ended, and then the port is closed.
const LEAVES: [Ask; 8] = [
    Ask::Read(0, 16),
    Ask::Cas(0, 16, 1, 0),
    Ask::Read(0, 48),
    Ask::Cas(0, 48, 1, 0),
    Ask::Read(0, 50),
    Ask::Cas(0, 50, 1, 0),
    Ask::ClosePort,
    Ask::Wait,
];

#[test]
fn a_kept_grant_is_made_once_and_ended_as_the_front_leaves(rt: HostRuntime) {
    const STEPS: &[Step<'static>] = &[
        Step::Owed(0, 0),
        // a read into the same frame is at its entry at once, and its data are told at once
        Step::Takes(Work::Read(0, 1), 2),
        Step::Writes(2, 44, 28, &[0xca00_0100, 0, 2, 0, 0, 0, 0x18, 0]),
        Step::AsksAll(&[Ask::Write(2, 0, 2), Ask::Fence, Ask::Read(2, 1)]),
        Step::Responds(1, [2, 0, 0]),
        Step::Lays(Data::Counted, 18, 128),
        Step::AsksAll(&[LOOK, Ask::Read(2, 44), Ask::Read(2, 45)]),
        Step::Tells(Ask::Read(2, 46), News::Answer(2, Status::Okay)),
        Step::Reads(18, 127, (1, 1)),
        Step::Tells(Ask::Read(18, 127), News::Sector(2, 0, Data::Counted)),
        // of two frames the second alone is granted
        Step::Takes(Work::Read(0, 9), 3),
        Step::AsksAll(&[Ask::Write(0, 51, 19), Ask::Fence, Ask::Write(0, 50, 1)]),
        Step::Writes(
            2,
            72,
            28,
            &[0xca00_0200, 0, 3, 0, 0, 0, 0x18, 0x0700, 0x19, 0],
        ),
        Step::AsksAll(&[Ask::Write(2, 0, 3), Ask::Fence, Ask::Read(2, 1)]),
        Step::Responds(2, [3, 0, 0xffff_0000]),
        Step::AsksAll(&[LOOK, Ask::Read(2, 72), Ask::Read(2, 73)]),
        Step::Tells(Ask::Read(2, 74), News::Answer(3, Status::Error)),
        Step::Owed(0, 0),
        Step::Enters(FrontState::Closing, true),
        Step::Enters(FrontState::Leaving, true),
        Step::AsksAll(&LEAVES),
        Step::Word(0, 48, 0),
        Step::Word(0, 50, 0),
        Step::Enters(FrontState::Closed, true),
    ];
    plays_after(&rt, rt.alloc(), &WRITTEN, STEPS);
}

#[test]
fn a_kept_grant_that_is_mapped_breaks_a_front_that_leaves(rt: HostRuntime) {
    const STEPS: &[Step<'static>] = &[
        Step::Enters(FrontState::Closing, true),
        Step::Enters(FrontState::Leaving, true),
        Step::AsksAll(&[Ask::Read(0, 16), Ask::Cas(0, 16, 1, 0)]),
        Step::Puts(0, 48, 25),
        Step::Tells(Ask::Read(0, 48), News::Broken(25)),
    ];
    plays_after(&rt, rt.alloc(), &WRITTEN, STEPS);
}

#[test]
fn a_suspend_forgets_the_kept_grants(rt: HostRuntime) {
    const STEPS: &[Step<'static>] = &[
        Step::Suspends,
        Step::Offered(KEEPING),
        Step::Sleeps,
        Step::Takes(Work::Read(0, 1), 2),
        Step::AsksAll(&[Ask::Write(0, 49, 18), Ask::Fence, Ask::Write(0, 48, 1)]),
    ];
    plays_after(&rt, rt.alloc(), &WRITTEN, STEPS);
}

#[test]
fn a_front_that_keeps_none_ends_each_with_its_request(rt: HostRuntime) {
    const STEPS: &[Step<'static>] = &[
        Step::Offered(NOTHING),
        Step::Sleeps,
        Step::Takes(Work::Write(0, 1, 7), 1),
        Step::Fills(18, &[7]),
        Step::AsksAll(&[Ask::Write(0, 49, 18), Ask::Fence, Ask::Write(0, 48, 5)]),
        Step::Moves(32),
        Step::Responds(0, [1, 0, 1]),
        Step::AsksAll(&[Ask::Wait, LOOK, Ask::Read(2, 16), Ask::Read(2, 17)]),
        Step::AsksAll(&[Ask::Read(2, 18), Ask::Read(0, 48)]),
        Step::Tells(Ask::Cas(0, 48, 5, 0), News::Answer(1, Status::Okay)),
        // its frame is granted again
        Step::Takes(Work::Read(0, 1), 2),
        Step::AsksAll(&[Ask::Write(0, 49, 18), Ask::Fence, Ask::Write(0, 48, 1)]),
        Step::Moves(31),
        Step::Responds(1, [2, 0, 0xffff_0000]),
        Step::AsksAll(&[LOOK, Ask::Read(2, 44), Ask::Read(2, 45)]),
        Step::AsksAll(&[Ask::Read(2, 46), Ask::Read(0, 48)]),
        Step::Tells(Ask::Cas(0, 48, 1, 0), News::Answer(2, Status::Error)),
        Step::Enters(FrontState::Closing, true),
        Step::Enters(FrontState::Leaving, true),
        Step::AsksAll(&[Ask::Read(0, 16), Ask::Cas(0, 16, 1, 0), Ask::ClosePort]),
    ];
    plays(&rt, rt.alloc(), &EIGHT, STEPS);
}
