// How a back takes its terms, maps its ring, copies an entry, replies, sleeps and halts.
mod kept;
mod script;
mod shapes;

use crate::asks::{Answer, Ask, RING, Why};
use blk_base::{Abi, Status};
use script::{Step, plays};

// It waits for the terms of its front, and isn't idle.
const WAITS_FOR_TERMS: &[Step<'static>] = &[
    Step::Asks(Ask::Wait),
    Step::Waits(true),
    Step::Idle(false),
];

// It takes the terms of a ring of one page, maps the ring and binds the port.
const CONNECTS: &[Step<'static>] = &[
    Step::Attaches(Abi::X64, 0, &[8]),
    Step::Maps(RING),
    Step::Does(Ask::Bind(1)),
];

#[test]
fn a_new_back_waits_for_its_terms_and_maps_its_ring(rt: HostRuntime) {
    const PARTS: &[&[Step<'static>]] = &[
        WAITS_FOR_TERMS,
        &[Step::Told(Answer::Event)],
        WAITS_FOR_TERMS,
        CONNECTS,
        &[Step::Waits(false)],
    ];
    plays(&rt, rt.alloc(), 0, PARTS);
}

#[test]
fn an_entry_is_copied_once_and_replied_to(rt: HostRuntime) {
    const PARTS: &[&[Step<'static>]] = &[
        CONNECTS,
        &[
            // a request of an operation that it does not know
            Step::Reads(RING, 0, 1),
            Step::Reads(RING, 16, 0xca000104),
            Step::Reads(RING, 17, 0),
            Step::Reads(RING, 18, 1),
            Step::ReadsZeros(RING, 19, 44),
            Step::NextJob(0, Some(1)),
            // the words of the reply, and the push
            Step::Does(Ask::Write(RING, 16, 1)),
            Step::Does(Ask::Write(RING, 17, 0)),
            Step::Does(Ask::Write(RING, 18, 0xffff0004)),
            Step::Asks(Ask::Write(RING, 2, 1)),
            Step::Replies(1, Status::Error),
            Step::Does(Ask::Fence),
            Step::Reads(RING, 3, 1),
            Step::Asks(Ask::Send),
        ],
    ];
    plays(&rt, rt.alloc(), 0, PARTS);
}

#[test]
fn the_words_of_an_entry_that_are_told_at_once_are_those_told_one_by_one(rt: HostRuntime) {
    const PARTS: &[&[Step<'static>]] = &[
        CONNECTS,
        &[
            Step::HasNoPart,
            Step::Reads(RING, 0, 1),
            // the first word is asked for alone
            Step::HasNoPart,
            Step::Reads(RING, 16, 0xca000104),
            Step::HasPart(RING, 17, 27),
            Step::CopiesAtOnce(&[]),
            Step::HasPart(RING, 17, 27),
            Step::CopiesAtOnce(&[0, 1, 0]),
            Step::HasPart(RING, 20, 24),
            Step::ReadsZeros(RING, 20, 22),
            Step::HasPart(RING, 22, 22),
            Step::Holds(0),
            Step::NextJob(0, None),
            Step::CopiesAtOnce(&[0; 22]),
            // its job begins with the last word, and is replied to as one of single words is
            Step::HasNoPart,
            Step::Holds(1),
            Step::NextJob(0, Some(1)),
            Step::Does(Ask::Write(RING, 16, 1)),
            Step::Holds(0),
            Step::Does(Ask::Write(RING, 17, 0)),
            Step::Does(Ask::Write(RING, 18, 0xffff0004)),
            Step::Asks(Ask::Write(RING, 2, 1)),
            Step::Replies(1, Status::Error),
        ],
    ];
    plays(&rt, rt.alloc(), 0, PARTS);
}

#[test]
fn it_sleeps_after_a_second_look_and_an_event_wakes_it(rt: HostRuntime) {
    const PARTS: &[&[Step<'static>]] = &[
        CONNECTS,
        &[
            // it finds no request, and is to look a second time
            Step::Reads(RING, 0, 0),
            Step::Does(Ask::Write(RING, 1, 1)),
            Step::Does(Ask::Fence),
            Step::Idle(false),
            Step::Reads(RING, 0, 0),
            Step::Waits(true),
            Step::Idle(true),
            Step::Told(Answer::Event),
            Step::Asks(Ask::Read(RING, 0)),
        ],
    ];
    plays(&rt, rt.alloc(), 0, PARTS);
}

// It unmaps the ring, closes its port, and does nothing more.
const GIVES_UP: &[Step<'static>] = &[
    Step::Does(Ask::Unmap(RING)),
    Step::Does(Ask::ClosePort),
    Step::Idle(true),
];

#[test]
fn a_producer_further_than_the_ring_halts_it(rt: HostRuntime) {
    const PARTS: &[&[Step<'static>]] = &[
        CONNECTS,
        &[
            Step::Halted(None),
            Step::Reads(RING, 0, 33),
            Step::Halted(Some(Why::Overrun(33, 0))),
        ],
        GIVES_UP,
        &[
            Step::Told(Answer::Event),
            Step::Idle(true),
            Step::JobAsks(1, Ask::Wait),
        ],
    ];
    plays(&rt, rt.alloc(), 0, PARTS);
}

#[test]
fn a_ring_that_cant_be_mapped_or_bound_halts_it(rt: HostRuntime) {
    const NOT_MAPPED: &[&[Step<'static>]] = &[&[
        Step::Attaches(Abi::X64, 0, &[8]),
        Step::Told(Answer::MapRefused(-1)),
        Step::Halted(Some(Why::MapRefused(8, -1))),
        Step::Idle(true),
    ]];
    const NOT_BOUND: &[&[Step<'static>]] = &[&[
        Step::Attaches(Abi::X64, 0, &[8]),
        Step::Maps(RING),
        Step::Told(Answer::BindRefused),
        Step::Halted(Some(Why::BadPort(1))),
        Step::Does(Ask::Unmap(RING)),
        Step::Idle(true),
    ]];
    plays(&rt, rt.alloc(), 0, NOT_MAPPED);
    plays(&rt, rt.alloc(), 0, NOT_BOUND);
}

#[test]
fn its_negotiation_halts_it_where_no_step_is_begun(rt: HostRuntime) {
    // where it waits for its terms it has nothing to unmap
    const AS_IT_WAITS: &[&[Step<'static>]] = &[&[
        Step::Halts(Why::Gone(5)),
        Step::Halted(Some(Why::Gone(5))),
        Step::Idle(true),
        Step::Attaches(Abi::X64, 0, &[8]),
        Step::Asks(Ask::Wait),
    ]];
    // where it is connected it unmaps its page and closes its port; an overrun it finds itself
    const CONNECTED: &[&[Step<'static>]] = &[
        CONNECTS,
        &[
            Step::Halts(Why::Overrun(33, 0)),
            Step::Halted(None),
            Step::Halts(Why::Unplugged(5)),
            Step::Halted(Some(Why::Unplugged(5))),
        ],
        GIVES_UP,
    ];
    plays(&rt, rt.alloc(), 0, AS_IT_WAITS);
    plays(&rt, rt.alloc(), 0, CONNECTED);
}
