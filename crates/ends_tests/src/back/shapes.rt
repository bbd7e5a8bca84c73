// Rings of several pages, and of 32-bit guests.
use super::script::{Step, plays};
use super::{CONNECTS, WAITS_FOR_TERMS};
use crate::asks::{Answer, Ask, RING, SECOND, Why};
use blk_base::Abi;

// It takes the terms of a ring of two pages, maps both in order and binds the port.
const CONNECTS_TWO: &[Step<'static>] = &[
    Step::Attaches(Abi::X64, 1, &[8, 9]),
    Step::Maps(RING),
    Step::Maps(SECOND),
    Step::Does(Ask::Bind(1)),
];

#[test]
fn terms_without_a_reference_for_each_page_change_nothing(rt: HostRuntime) {
    const PARTS: &[&[Step<'static>]] = &[
        &[Step::Attaches(Abi::X64, 0, &[])],
        WAITS_FOR_TERMS,
        &[Step::Attaches(Abi::X64, 0, &[8, 9])],
        WAITS_FOR_TERMS,
        &[Step::Attaches(Abi::X64, 1, &[8])],
        WAITS_FOR_TERMS,
        &[Step::Attaches(Abi::X64, 5, &[8; 32])],
        WAITS_FOR_TERMS,
        CONNECTS,
    ];
    plays(&rt, rt.alloc(), 0, PARTS);
}

#[test]
fn terms_are_taken_once(rt: HostRuntime) {
    const PARTS: &[&[Step<'static>]] = &[&[
        Step::Attaches(Abi::X64, 0, &[8]),
        Step::Attaches(Abi::X64, 1, &[9, 10]),
        Step::Maps(RING),
        Step::Attaches(Abi::X64, 0, &[11]),
        Step::Does(Ask::Bind(1)),
    ]];
    plays(&rt, rt.alloc(), 0, PARTS);
}

#[test]
fn entry_36_and_its_reply_lie_in_the_second_page(rt: HostRuntime) {
    const PARTS: &[&[Step<'static>]] = &[
        CONNECTS_TWO,
        &[
            // an entry of an operation that it doesn't know, from the start of the second page
            Step::Reads(RING, 0, 37),
            Step::Reads(SECOND, 0, 0xca000104),
            Step::ReadsZeros(SECOND, 1, 28),
            Step::Asks(Ask::Write(SECOND, 0, 0)),
        ],
    ];
    plays(&rt, rt.alloc(), 36, PARTS);
}

#[test]
fn an_entry_of_a_32_bit_guest_has_27_words(rt: HostRuntime) {
    const PARTS: &[&[Step<'static>]] = &[&[
        Step::Attaches(Abi::X32, 0, &[8]),
        Step::Maps(RING),
        Step::Does(Ask::Bind(1)),
        Step::Reads(RING, 0, 2),
        Step::ReadsZeros(RING, 16, 42),
        Step::NextJob(0, None),
        Step::Reads(RING, 42, 0),
        Step::NextJob(0, Some(1)),
    ]];
    plays(&rt, rt.alloc(), 0, PARTS);
}

#[test]
fn an_entry_in_two_pages_is_told_at_once_page_by_page(rt: HostRuntime) {
    const PARTS: &[&[Step<'static>]] = &[&[
        Step::Attaches(Abi::X32, 1, &[8, 9]),
        Step::Maps(RING),
        Step::Maps(SECOND),
        Step::Does(Ask::Bind(1)),
        Step::Reads(RING, 0, 38),
        // entry 37 begins 9 words before the end of the first page
        Step::Reads(RING, 1015, 0),
        Step::HasPart(RING, 1016, 8),
        Step::CopiesAtOnce(&[0; 8]),
        Step::HasPart(SECOND, 0, 18),
        Step::CopiesAtOnce(&[0; 17]),
        Step::HasPart(SECOND, 17, 1),
        Step::NextJob(0, None),
        Step::Reads(SECOND, 17, 0),
        Step::HasNoPart,
        Step::NextJob(0, Some(1)),
    ]];
    plays(&rt, rt.alloc(), 37, PARTS);
}

#[test]
fn a_refused_second_page_unmaps_the_first_alone(rt: HostRuntime) {
    const PARTS: &[&[Step<'static>]] = &[&[
        Step::Attaches(Abi::X64, 1, &[8, 9]),
        Step::Maps(RING),
        Step::Told(Answer::MapRefused(-1)),
        Step::Halted(Some(Why::MapRefused(9, -1))),
        Step::Does(Ask::Unmap(RING)),
        Step::Idle(true),
    ]];
    plays(&rt, rt.alloc(), 0, PARTS);
}

#[test]
fn a_halt_between_two_pages_unmaps_the_first_alone(rt: HostRuntime) {
    const PARTS: &[&[Step<'static>]] = &[&[
        Step::Attaches(Abi::X64, 1, &[8, 9]),
        Step::Maps(RING),
        Step::Halts(Why::Gone(5)),
        Step::Does(Ask::Unmap(RING)),
        Step::Idle(true),
    ]];
    plays(&rt, rt.alloc(), 0, PARTS);
}

#[test]
fn a_ring_of_two_pages_is_overrun_at_65(rt: HostRuntime) {
    const AT_64: &[&[Step<'static>]] = &[
        CONNECTS_TWO,
        &[Step::Reads(RING, 0, 64), Step::Halted(None)],
    ];
    const AT_65: &[&[Step<'static>]] = &[
        CONNECTS_TWO,
        &[
            Step::Reads(RING, 0, 65),
            Step::Halted(Some(Why::Overrun(65, 0))),
            // both pages are unmapped in order, and the port is closed
            Step::Does(Ask::Unmap(RING)),
            Step::Does(Ask::Unmap(SECOND)),
            Step::Does(Ask::ClosePort),
            Step::Idle(true),
        ],
    ];
    plays(&rt, rt.alloc(), 0, AT_64);
    plays(&rt, rt.alloc(), 0, AT_65);
}
