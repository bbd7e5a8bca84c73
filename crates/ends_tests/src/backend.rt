// How a backend offers, reads what its front says, connects, and closes.
mod script;

use crate::asks::{Answer, Ask, RING, SECOND, Why};
use blk_base::Mode;
use script::{FRONT_STATE, Step, after, plays, plays_renewed};

const STATE: &str = "/local/domain/0/backend/vbd/1/51712/state";

// It publishes what it offers, sets its watch, and waits.
const BEGINS: &[Step<'static>] = &[
    Step::Sets("/local/domain/0/backend/vbd/1/51712/feature-barrier", "1"),
    Step::Sets(
        "/local/domain/0/backend/vbd/1/51712/feature-flush-cache",
        "1",
    ),
    Step::Sets("/local/domain/0/backend/vbd/1/51712/feature-discard", "1"),
    Step::Sets(
        "/local/domain/0/backend/vbd/1/51712/feature-persistent",
        "0",
    ),
    Step::Sets(
        "/local/domain/0/backend/vbd/1/51712/feature-max-indirect-segments",
        "32",
    ),
    Step::Sets(
        "/local/domain/0/backend/vbd/1/51712/max-ring-page-order",
        "4",
    ),
    Step::Sets(STATE, "2"),
    Step::Watches(FRONT_STATE),
    Step::Waits(true),
    Step::Idle(true),
    Step::HasNoPart,
    Step::Asks(Ask::Wait),
];

// It reads what the front says.
const READS: &[Step<'static>] = &[
    Step::Watched,
    Step::Gets(FRONT_STATE, "3"),
    Step::Misses("/local/domain/1/device/vbd/51712/ring-page-order"),
    Step::Gets("/local/domain/1/device/vbd/51712/ring-ref", "8"),
    Step::Gets("/local/domain/1/device/vbd/51712/event-channel", "1"),
    Step::Gets("/local/domain/1/device/vbd/51712/protocol", "x86_64-abi"),
    Step::Gets("/local/domain/1/device/vbd/51712/feature-persistent", "0"),
    Step::Asks(Ask::Map(8, Mode::ReadWrite)),
];

// It maps the ring, binds the port, and publishes what the disk is.
const CONNECTS: &[Step<'static>] = &[
    Step::Maps(RING),
    Step::Does(Ask::Bind(1)),
    Step::Sets("/local/domain/0/backend/vbd/1/51712/sectors", "8"),
    Step::Sets("/local/domain/0/backend/vbd/1/51712/sector-size", "512"),
    Step::Sets("/local/domain/0/backend/vbd/1/51712/info", "0"),
    Step::Sets(STATE, "4"),
];

#[test]
fn it_offers_and_waits_and_connects_as_the_front_says(rt: HostRuntime) {
    const PARTS: &[&[Step<'static>]] = &[
        BEGINS,
        READS,
        CONNECTS,
        &[Step::Asks(Ask::Read(RING, 0))],
    ];
    plays(&rt, rt.alloc(), PARTS);
}

#[test]
fn both_pages_of_a_ring_are_mapped_before_its_port_is_bound(rt: HostRuntime) {
    const PARTS: &[&[Step<'static>]] = &[
        BEGINS,
        &[
            // what a 32-bit front with a ring of two pages says
            Step::Watched,
            Step::Gets(FRONT_STATE, "3"),
            Step::Gets("/local/domain/1/device/vbd/51712/ring-page-order", "1"),
            Step::Gets("/local/domain/1/device/vbd/51712/ring-ref0", "8"),
            Step::Gets("/local/domain/1/device/vbd/51712/ring-ref1", "9"),
            Step::Gets("/local/domain/1/device/vbd/51712/event-channel", "1"),
            Step::Gets("/local/domain/1/device/vbd/51712/protocol", "x86_32-abi"),
            Step::Gets("/local/domain/1/device/vbd/51712/feature-persistent", "0"),
            Step::Maps(RING),
            Step::Maps(SECOND),
            Step::Does(Ask::Bind(1)),
        ],
    ];
    plays(&rt, rt.alloc(), PARTS);
}

// It finds no request, and sleeps.
const SLEEPS: &[Step<'static>] = &[
    Step::Told(Answer::Word(0)),
    Step::ToldEach(Answer::Done, 2),
    Step::Idle(false),
    Step::Told(Answer::Word(0)),
    Step::Idle(true),
];

#[test]
fn a_watch_is_looked_at_and_leaves_it_asleep(rt: HostRuntime) {
    const PARTS: &[&[Step<'static>]] = &[
        BEGINS,
        READS,
        CONNECTS,
        SLEEPS,
        &[
            Step::Watched,
            Step::Gets(FRONT_STATE, "4"),
            Step::Idle(true),
        ],
    ];
    plays(&rt, rt.alloc(), PARTS);
}

// It says that it closes, and is closed.
const SAYS_CLOSED: &[Step<'static>] = &[Step::Sets(STATE, "5"), Step::Sets(STATE, "6")];

#[test]
fn a_ring_that_cant_be_mapped_halts_it(rt: HostRuntime) {
    const PARTS: &[&[Step<'static>]] = &[
        BEGINS,
        READS,
        &[
            Step::Halted(None),
            Step::Told(Answer::MapRefused(-1)),
            Step::Halted(Some(Why::MapRefused(8, -1))),
        ],
        SAYS_CLOSED,
        &[Step::Watched, Step::Idle(true)],
    ];
    plays(&rt, rt.alloc(), PARTS);
}

// It unmaps its ring and closes its port.
const GIVES_UP: &[Step<'static>] = &[Step::Does(Ask::Unmap(RING)), Step::Does(Ask::ClosePort)];

#[test]
fn a_front_that_is_gone_halts_it(rt: HostRuntime) {
    const PARTS: &[&[Step<'static>]] = &[
        BEGINS,
        READS,
        CONNECTS,
        SLEEPS,
        &[
            Step::Watched,
            Step::Gets(FRONT_STATE, "6"),
            Step::Halted(Some(Why::Gone(6))),
        ],
        GIVES_UP,
        SAYS_CLOSED,
        &[Step::Idle(true)],
    ];
    plays(&rt, rt.alloc(), PARTS);
}

#[test]
fn an_overrun_halts_the_negotiation(rt: HostRuntime) {
    const PARTS: &[&[Step<'static>]] = &[
        BEGINS,
        READS,
        CONNECTS,
        &[
            Step::Told(Answer::Word(33)),
            Step::Halted(Some(Why::Overrun(33, 0))),
        ],
        GIVES_UP,
        SAYS_CLOSED,
    ];
    plays(&rt, rt.alloc(), PARTS);
}

#[test]
fn a_push_is_ended_before_it_says_that_it_closes(rt: HostRuntime) {
    const PARTS: &[&[Step<'static>]] = &[
        BEGINS,
        READS,
        CONNECTS,
        &[
            // it fetches one entry, of zeros, and begins to reply to it
            Step::Told(Answer::Word(1)),
            Step::ToldEach(Answer::Word(0), 28),
            Step::Told(Answer::Done),
            Step::Closes,
            Step::ToldEach(Answer::Done, 4),
            Step::Told(Answer::Word(9)),
            Step::Sets(STATE, "5"),
            Step::Told(Answer::Word(1)),
            Step::ToldEach(Answer::Done, 2),
            Step::Told(Answer::Word(1)),
            Step::Watched,
            Step::Gets(FRONT_STATE, "5"),
            Step::Halted(Some(Why::Unplugged(5))),
        ],
        GIVES_UP,
        &[Step::Sets(STATE, "6")],
    ];
    plays(&rt, rt.alloc(), PARTS);
}

#[test]
fn an_entry_is_told_at_once_until_the_negotiation_asks_for_something(rt: HostRuntime) {
    const PARTS: &[&[Step<'static>]] = &[
        BEGINS,
        READS,
        CONNECTS,
        &[
            Step::Told(Answer::Word(2)),
            Step::HasNoPart,
            Step::Told(Answer::Word(0)),
            Step::HasPart(17, 27),
            Step::CopiesAtOnce(&[0; 7]),
            Step::HasPart(24, 20),
            Step::CopiesAtOnce(&[0; 20]),
            Step::HasNoPart,
            Step::Holds(1),
            // it replies to a read of no segments with an error, and fetches the next entry
            Step::Does(Ask::Write(RING, 16, 0)),
            Step::Holds(0),
            Step::ToldEach(Answer::Done, 4),
            Step::Told(Answer::Word(9)),
            Step::Asks(Ask::Read(RING, 44)),
            Step::Told(Answer::Word(0)),
            Step::HasPart(45, 27),
            Step::CopiesAtOnce(&[0; 7]),
            // it says that it closes once it has copied the entry
            Step::Closes,
            Step::HasNoPart,
            Step::Asks(Ask::Read(RING, 52)),
            Step::ToldEach(Answer::Word(0), 20),
            Step::Holds(1),
            Step::Sets(STATE, "5"),
        ],
    ];
    plays(&rt, rt.alloc(), PARTS);
}

#[test]
fn after_a_suspend_a_new_backend_offers_the_same_and_none_whose_front_is_gone_moves(
    rt: HostRuntime,
) {
    let old = after(&rt, rt.alloc(), &[BEGINS]);
    plays_renewed(&rt, rt.alloc(), &old, true, BEGINS);
    plays_renewed(
        &rt,
        rt.alloc(),
        &old,
        false,
        &[
            Step::Waits(true),
            Step::Idle(true),
            Step::Halted(Some(Why::Gone(6))),
        ],
    );
}
