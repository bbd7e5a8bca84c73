// Rings of several pages, and of 32-bit guests.
use super::script::{Ask, EIGHT, Step, Work, plays};
use blk_base::{Abi, Config, Refusal};
use blk_front::FrontState;

// The entry of a write of sector 0 with id 1 under the layout of 32-bit guests, whose data are granted
// by reference 24, up to its first two words of zeros.
const ENTRY: [u32; 8] = [0xca00_0101, 1, 0, 0, 0, 0x18, 0, 0];

// The moves up to a write's entry: 128 words of data, and the 3 of their grant.
const BEFORE_ENTRY: u32 = 131;

#[test]
fn an_entry_of_a_32_bit_guest_has_27_words(rt: HostRuntime) {
    const STEPS: &[Step<'static>] = &[
        Step::Connects(19),
        Step::Takes(Work::Write(0, 1, 7), 1),
        Step::Moves(BEFORE_ENTRY),
        Step::Writes(2, 16, 27, &ENTRY),
        Step::Asks(Ask::Write(2, 0, 1)),
        // a fence, the event word and the event, and the second write
        Step::Takes(Work::Write(0, 1, 7), 2),
        Step::Moves(3 + BEFORE_ENTRY),
        Step::Asks(Ask::Write(2, 43, 0xca00_0101)),
    ];
    plays(
        &rt,
        rt.alloc(),
        &Config {
            abi: Abi::X32,
            ..EIGHT
        },
        STEPS,
    );
}

#[test]
fn both_pages_of_a_ring_are_granted_in_order(rt: HostRuntime) {
    const STEPS: &[Step<'static>] = &[
        Step::Moves(16),
        Step::AsksAll(&[Ask::Write(0, 17, 2), Ask::Fence, Ask::Write(0, 16, 1)]),
        Step::AsksAll(&[Ask::Write(0, 19, 3), Ask::Fence, Ask::Write(0, 18, 1)]),
        Step::Asks(Ask::NewPort),
    ];
    plays(&rt, rt.alloc(), &Config { order: 1, ..EIGHT }, STEPS);
}

#[test]
fn a_ring_of_two_pages_has_64_requests(rt: HostRuntime) {
    const STEPS: &[Step<'static>] = &[
        Step::Connects(22),
        Step::TakesEach(Work::Write(0, 1, 7), 64),
        Step::Refuses(Work::Write(0, 1, 7), Refusal::Full),
        Step::Owed(64, 64),
    ];
    plays(&rt, rt.alloc(), &Config { order: 1, ..EIGHT }, STEPS);
}

#[test]
fn entry_36_lies_in_the_second_page(rt: HostRuntime) {
    const STEPS: &[Step<'static>] = &[
        Step::Connects(22),
        Step::Takes(Work::Write(0, 1, 7), 1),
        Step::Moves(BEFORE_ENTRY),
        Step::Asks(Ask::Write(3, 0, 0xca00_0101)),
    ];
    plays(
        &rt,
        rt.alloc(),
        &Config {
            order: 1,
            start: 36,
            ..EIGHT
        },
        STEPS,
    );
}

#[test]
fn both_grants_are_ended_before_the_port_is_closed(rt: HostRuntime) {
    const STEPS: &[Step<'static>] = &[
        Step::Connects(22),
        Step::Enters(FrontState::Closing, true),
        Step::Enters(FrontState::Leaving, true),
        Step::AsksAll(&[Ask::Read(0, 16), Ask::Cas(0, 16, 1, 0)]),
        Step::AsksAll(&[Ask::Read(0, 18), Ask::Cas(0, 18, 1, 0)]),
        Step::Asks(Ask::ClosePort),
    ];
    plays(&rt, rt.alloc(), &Config { order: 1, ..EIGHT }, STEPS);
}

#[test]
fn a_lower_order_is_agreed_before_the_ring_is_begun(rt: HostRuntime) {
    const STEPS: &[Step<'static>] = &[
        Step::Enters(FrontState::Agreed(2), false),
        Step::Enters(FrontState::Agreed(0), true),
        Step::Enters(FrontState::Agreed(1), false),
        Step::Asks(Ask::Write(2, 0, 7)),
        Step::Enters(FrontState::Agreed(0), false),
        Step::Connects(18),
        Step::TakesEach(Work::Write(0, 1, 7), 32),
        Step::Refuses(Work::Write(0, 1, 7), Refusal::Full),
    ];
    plays(
        &rt,
        rt.alloc(),
        &Config {
            order: 1,
            start: 7,
            ..EIGHT
        },
        STEPS,
    );
}
