// How the front begins, sleeps, refuses, reads and writes, held against a guest's memory.
mod answers;
mod closing;
mod data;
mod frameless;
mod guest;
mod indirect;
mod kept;
mod long;
mod parts;
mod reads;
mod script;
mod shapes;
mod suspend;

use blk_base::{Config, Refusal};
use blk_front::{FrontState, Offers};
use script::{Ask, EIGHT, NOTHING, News, Step, Work, plays};
use std::alloc::Global;
use std::process::Abort;

// A new front whose ring starts at this index, which is before this one.
fn starts(rt: &impl Abort, alloc: Global, start: u32, next: u32) {
    plays(
        rt,
        alloc,
        &Config { start, ..EIGHT },
        &[
            Step::WritesRefusing(2, 16, &[start, next, start, next]),
            Step::AsksAll(&[Ask::Write(0, 17, 2), Ask::Fence, Ask::Write(0, 16, 1)]),
            Step::Refuses(Work::Write(0, 1, 7), Refusal::NotReady),
            Step::Asks(Ask::NewPort),
        ],
    );
}

#[test]
fn the_start_writes_a_fresh_ring_and_grants_it_by_reference_8(rt: HostRuntime) {
    starts(&rt, rt.alloc(), 0, 1);
    starts(&rt, rt.alloc(), 7, 8);
    starts(&rt, rt.alloc(), 4294967295, 0);
}

#[test]
fn it_waits_with_its_port_until_it_is_connected_once(rt: HostRuntime) {
    const STEPS: &[Step<'static>] = &[
        Step::Enters(FrontState::Connected(NOTHING), false),
        Step::Moves(20),
        Step::Asks(Ask::Wait),
        Step::Refuses(Work::Write(0, 1, 7), Refusal::NotReady),
        Step::IsConnected(true),
        Step::Idle(false),
        Step::Asks(Ask::Wait),
        Step::Refuses(Work::Write(0, 1, 7), Refusal::NotReady),
        Step::IsConnected(true),
        Step::Idle(false),
        Step::Enters(FrontState::Connected(NOTHING), true),
        Step::Enters(FrontState::Connected(NOTHING), false),
        Step::Takes(Work::Write(0, 1, 7), 1),
    ];
    plays(&rt, rt.alloc(), &EIGHT, STEPS);
}

// The responses' producer is read.
const LOOK: Ask = Ask::Read(2, 2);

// An event is asked for at the first response.
const EVENT: Ask = Ask::Write(2, 3, 1);

#[test]
fn it_sleeps_after_the_second_look_and_an_event_wakes_it(rt: HostRuntime) {
    const STEPS: &[Step<'static>] = &[
        Step::Connects(19),
        Step::Idle(false),
        Step::AsksAll(&[LOOK, EVENT, Ask::Fence, LOOK]),
        Step::Idle(true),
        Step::Asks(Ask::Wait),
        Step::Idle(false),
        Step::AsksAll(&[LOOK, EVENT, Ask::Fence, LOOK]),
        Step::Idle(true),
        Step::Asks(Ask::Wait),
        // a response that comes between the two looks is taken, and no event is waited for
        Step::Takes(Work::Write(0, 1, 7), 1),
        Step::Moves(163),
        Step::AsksAll(&[LOOK, EVENT, Ask::Fence]),
        Step::Responds(0, [1, 0, 1]),
        Step::AsksAll(&[LOOK, Ask::Read(2, 16)]),
    ];
    plays(&rt, rt.alloc(), &EIGHT, STEPS);
}

// The entry of a write of sector 0 with id 1 whose data are granted by reference 24, up to its
// first two words of zeros.
const ENTRY: [u32; 8] = [0xca00_0101, 0, 1, 0, 0, 0, 0x18, 0];

#[test]
fn the_first_write_takes_163_moves_and_sends_an_event(rt: HostRuntime) {
    const STEPS: &[Step<'static>] = &[
        Step::Connects(19),
        Step::Sleeps,
        Step::Takes(Work::Write(0, 1, 7), 1),
        Step::Fills(18, &[7]),
        Step::AsksAll(&[Ask::Write(0, 49, 18), Ask::Fence, Ask::Write(0, 48, 5)]),
        Step::Writes(2, 16, 28, &ENTRY),
        Step::AsksAll(&[Ask::Write(2, 0, 1), Ask::Fence, Ask::Read(2, 1), Ask::Send]),
        Step::Asks(Ask::Wait),
    ];
    plays(&rt, rt.alloc(), &EIGHT, STEPS);
}

#[test]
fn the_second_write_sends_no_event_where_none_is_waited_for(rt: HostRuntime) {
    const STEPS: &[Step<'static>] = &[
        Step::Connects(19),
        Step::Sleeps,
        Step::Takes(Work::Write(0, 1, 1), 1),
        Step::Moves(162),
        Step::Asks(Ask::Send),
        Step::Takes(Work::Write(1, 1, 2), 2),
        Step::Moves(159),
        Step::AsksAll(&[Ask::Write(2, 0, 2), Ask::Fence, Ask::Read(2, 1), Ask::Wait]),
        Step::Word(2, 46, 2),
        Step::Word(2, 48, 1),
        Step::Word(2, 50, 0x19),
    ];
    plays(&rt, rt.alloc(), &EIGHT, STEPS);
}

#[test]
fn what_it_cannot_do_is_refused_and_changes_nothing(rt: HostRuntime) {
    const STEPS: &[Step<'static>] = &[
        Step::Connects(19),
        Step::Sleeps,
        Step::RefusesEach(&[
            (Work::Barrier(0, 1, 7), Refusal::Unsupported),
            (Work::Flush, Refusal::Unsupported),
            (Work::Discard(0, 1), Refusal::Unsupported),
            (Work::Read(8, 1), Refusal::Range),
            (Work::Write(8, 1, 7), Refusal::Range),
            (Work::Read(7, 2), Refusal::Range),
            (Work::Write(0, 9, 7), Refusal::Range),
            (Work::Read(0, 89), Refusal::Range),
            (Work::Write(18446744073709551615, 1, 7), Refusal::Range),
            (
                Work::Write(18446744073709551615, 4294967295, 7),
                Refusal::Range,
            ),
        ]),
        Step::Takes(Work::Read(7, 1), 1),
        Step::Takes(Work::Write(0, 8, 7), 2),
    ];
    plays(&rt, rt.alloc(), &EIGHT, STEPS);
}

#[test]
fn a_write_to_a_read_only_disk_is_refused(rt: HostRuntime) {
    const STEPS: &[Step<'static>] = &[
        Step::Refuses(Work::Write(0, 1, 7), Refusal::NotReady),
        Step::Connects(19),
        Step::Refuses(Work::Write(0, 1, 7), Refusal::ReadOnly),
        Step::Refuses(Work::Write(8, 1, 7), Refusal::ReadOnly),
        Step::Refuses(Work::Read(8, 1), Refusal::Range),
        Step::Takes(Work::Read(7, 1), 1),
    ];
    plays(
        &rt,
        rt.alloc(),
        &Config {
            read_only: true,
            ..EIGHT
        },
        STEPS,
    );
}

// It connects over a back that published a disk of nine sectors, which may only be read.
const OVER_NINE: Step<'static> = Step::Enters(
    FrontState::Connected(Offers {
        sectors: 9,
        read_only: true,
        ..NOTHING
    }),
    true,
);

// The same of four sectors, which may be written.
const OVER_FOUR: Step<'static> = Step::Enters(
    FrontState::Connected(Offers {
        sectors: 4,
        read_only: false,
        ..NOTHING
    }),
    true,
);

#[test]
fn it_refuses_by_the_disk_that_it_connected_with_in_each_epoch(rt: HostRuntime) {
    const STEPS: &[Step<'static>] = &[
        Step::Moves(20),
        OVER_NINE,
        Step::Refuses(Work::Write(0, 1, 7), Refusal::ReadOnly),
        Step::Refuses(Work::Read(9, 1), Refusal::Range),
        Step::Suspends,
        Step::Refuses(Work::Read(0, 1), Refusal::NotReady),
        Step::Moves(20),
        OVER_FOUR,
        Step::Refuses(Work::Write(4, 1, 7), Refusal::Range),
        Step::Takes(Work::Write(3, 1, 7), 1),
    ];
    plays(&rt, rt.alloc(), &EIGHT, STEPS);
}

#[test]
fn a_33rd_request_is_refused(rt: HostRuntime) {
    const STEPS: &[Step<'static>] = &[
        Step::Connects(19),
        Step::Sleeps,
        Step::TakesEach(Work::Write(7, 1, 7), 32),
        Step::Refuses(Work::Write(0, 1, 7), Refusal::Full),
        Step::Owed(32, 32),
        // the last of the 32 is issued from frame 49 into the ring's last slot, and no more is begun
        Step::Moves(163 + 31 * 162),
        Step::Word(49, 127, 7),
        Step::Word(0, 111, 49),
        Step::Word(2, 886, 32),
        Step::Word(2, 0, 32),
        Step::Idle(true),
    ];
    plays(&rt, rt.alloc(), &EIGHT, STEPS);
}

#[test]
fn has_told_says_whether_something_is_left_to_tell(rt: HostRuntime) {
    const STEPS: &[Step<'static>] = &[
        Step::Connects(19),
        Step::Puts(2, 2, 1),
        Step::HasTold(false),
        Step::Untold(LOOK),
        Step::HasTold(true),
        Step::Taken(News::Broken(1)),
        Step::HasTold(false),
    ];
    plays(&rt, rt.alloc(), &EIGHT, STEPS);
}
