// A frontend over a back by hand, from its first watch to its first request, and to its end.
mod data;
mod parts;
mod script;

use blk_base::Refusal;
use script::{Ask, Step, plays};
use xenbus_state::FrontNews;

// It reads what a back of state InitWait offers, up to the greatest order of a ring.
const READS: &[Step<'static>] = &[
    Step::Sees("2"),
    Step::Gets(&[
        ("feature-barrier", "0"),
        ("feature-flush-cache", "0"),
        ("feature-discard", "0"),
        ("feature-persistent", "0"),
        ("feature-max-indirect-segments", "0"),
    ]),
];

// The greatest order is 4.
const READS_ORDER: &[Step<'static>] = &[Step::Gets(&[("max-ring-page-order", "4")])];

// It makes its ring and its port, and publishes them.
const PUBLISHES: &[Step<'static>] = &[
    Step::Writes(2, 0, 16, &[7, 8, 7, 8]),
    Step::AsksAll(&[
        Ask::Write(0, 17, 2),
        Ask::Fence,
        Ask::Write(0, 16, 1),
        Ask::NewPort,
    ]),
    Step::Sets(&[
        ("ring-ref", "8"),
        ("event-channel", "1"),
        ("protocol", "x86_64-abi"),
        ("feature-persistent", "0"),
        ("state", "3"),
    ]),
];

// It reads what the disk is, writes Connected, and is ready.
const CONNECTS: &[Step<'static>] = &[
    Step::Sees("4"),
    Step::Gets(&[("sectors", "8"), ("sector-size", "512"), ("info", "0")]),
    Step::Writing(Err(Refusal::NotReady)),
    Step::Says("4", Some(FrontNews::Ready)),
];

#[test]
fn the_state_is_read_after_each_watch_until_the_back_offers(rt: HostRuntime) {
    const PARTS: &[&[Step<'static>]] = &[
        &[Step::Watches, Step::Sees("1"), Step::Waits(true)],
        READS,
        READS_ORDER,
        &[Step::Asks(Ask::Write(2, 0, 7))],
    ];
    plays(&rt, rt.alloc(), 0, PARTS);
}

#[test]
fn the_ring_is_published_and_waits_for_the_back(rt: HostRuntime) {
    const PARTS: &[&[Step<'static>]] = &[
        &[Step::Watches],
        READS,
        READS_ORDER,
        PUBLISHES,
        &[
            Step::Sees("2"),
            Step::IsAsking(Ask::Wait),
            Step::Waits(true),
        ],
    ];
    plays(&rt, rt.alloc(), 0, PARTS);
}

#[test]
fn a_front_that_wishes_for_more_pages_has_as_many_as_are_offered(rt: HostRuntime) {
    const PARTS: &[&[Step<'static>]] = &[
        &[Step::Watches],
        READS,
        &[Step::Gets(&[("max-ring-page-order", "0")])],
        PUBLISHES,
    ];
    plays(&rt, rt.alloc(), 2, PARTS);
}

// It reads, as the back connects, that the disk has no sectors, or one that is read-only; it was
// constructed for a disk of 8 sectors that may be written.
const NO_SECTORS: &[Step<'static>] = &[
    Step::Sees("4"),
    Step::Gets(&[("sectors", "0"), ("sector-size", "512"), ("info", "0")]),
    Step::Says("4", Some(FrontNews::Ready)),
];

const READ_ONLY: &[Step<'static>] = &[
    Step::Sees("4"),
    Step::Gets(&[("sectors", "1"), ("sector-size", "512"), ("info", "4")]),
    Step::Says("4", Some(FrontNews::Ready)),
];

#[test]
fn a_front_refuses_by_the_sectors_that_it_read(rt: HostRuntime) {
    const PARTS: &[&[Step<'static>]] = &[
        &[Step::Watches],
        READS,
        READS_ORDER,
        PUBLISHES,
        NO_SECTORS,
        &[
            Step::Writing(Err(Refusal::Range)),
            Step::Reading(Err(Refusal::Range)),
        ],
    ];
    plays(&rt, rt.alloc(), 0, PARTS);
}

#[test]
fn a_front_refuses_writes_to_a_disk_that_it_read_to_be_read_only(rt: HostRuntime) {
    const PARTS: &[&[Step<'static>]] = &[
        &[Step::Watches],
        READS,
        READS_ORDER,
        PUBLISHES,
        READ_ONLY,
        &[Step::Writing(Err(Refusal::ReadOnly)), Step::Reading(Ok(1))],
    ];
    plays(&rt, rt.alloc(), 0, PARTS);
}

// The responses' producer is read.
const LOOK: Ask = Ask::Read(2, 2);

// An event is asked for at the first response.
const EVENT: Ask = Ask::Write(2, 3, 8);

#[test]
fn a_ready_front_issues_sleeps_and_takes_its_watch(rt: HostRuntime) {
    const PARTS: &[&[Step<'static>]] = &[
        &[Step::Watches],
        READS,
        READS_ORDER,
        PUBLISHES,
        CONNECTS,
        &[
            Step::Reads(LOOK, 7),
            Step::AsksAll(&[EVENT, Ask::Fence]),
            Step::Waits(false),
            Step::Reads(LOOK, 7),
            Step::Waits(true),
            Step::Sees("4"),
            Step::Waits(true),
            Step::Writing(Ok(1)),
            Step::Owed(1, 1),
            Step::Asks(Ask::Write(18, 0, 7)),
        ],
    ];
    plays(&rt, rt.alloc(), 0, PARTS);
}

#[test]
fn a_broken_front_takes_its_watch_and_reads_nothing(rt: HostRuntime) {
    const PARTS: &[&[Step<'static>]] = &[
        &[Step::Watches],
        READS,
        READS_ORDER,
        PUBLISHES,
        CONNECTS,
        &[
            Step::HasTold(false),
            Step::Breaks(LOOK, 8),
            Step::Waits(true),
            Step::Asks(Ask::Wait),
            Step::Waits(true),
            Step::Asks(Ask::Wait),
        ],
    ];
    plays(&rt, rt.alloc(), 0, PARTS);
}

#[test]
fn a_front_that_closes_leaves_once_the_back_is_gone(rt: HostRuntime) {
    const PARTS: &[&[Step<'static>]] = &[
        &[Step::Watches],
        READS,
        READS_ORDER,
        PUBLISHES,
        CONNECTS,
        &[
            Step::Closes,
            Step::Writing(Err(Refusal::Closing)),
            Step::Says("5", None),
            Step::Sees("5"),
            Step::Waits(true),
            Step::Sees("6"),
            Step::Waits(false),
            // it ends the grant of its ring, whose entry's first word is 1, and closes its port
            Step::Reads(Ask::Read(0, 16), 1),
            Step::Reads(Ask::Cas(0, 16, 1, 0), 1),
            Step::Asks(Ask::ClosePort),
            Step::Says("6", Some(FrontNews::Closed)),
            Step::Waits(true),
        ],
    ];
    plays(&rt, rt.alloc(), 0, PARTS);
}

#[test]
fn a_front_without_a_ring_closes_too(rt: HostRuntime) {
    const PARTS: &[&[Step<'static>]] = &[&[
        Step::Watches,
        Step::Closes,
        Step::Says("5", None),
        Step::Sees("6"),
        Step::Says("6", Some(FrontNews::Closed)),
    ]];
    plays(&rt, rt.alloc(), 0, PARTS);
}

#[test]
fn a_front_that_reads_no_state_is_broken(rt: HostRuntime) {
    const PARTS: &[&[Step<'static>]] = &[
        &[Step::Watches],
        READS,
        READS_ORDER,
        PUBLISHES,
        CONNECTS,
        &[
            Step::Reads(LOOK, 7),
            Step::AsksAll(&[EVENT, Ask::Fence]),
            Step::Reads(LOOK, 7),
            Step::Asks(Ask::Wait),
            Step::Learns("state", "four", FrontNews::Broken(9)),
            Step::Waits(true),
        ],
    ];
    plays(&rt, rt.alloc(), 0, PARTS);
}
