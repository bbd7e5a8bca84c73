// Mappings that are kept for later requests (`feature-persistent` of `io/blkif.h`).
use super::script::{Step, plays};
use super::{CONNECTS, GIVES_UP, WAITS_FOR_TERMS};
use crate::asks::{Answer, Ask, RING, Why};
use blk_base::{Abi, Mapping, Mode, Status};

// The frame of reference 24, mapped for writing too.
const FRAME: Mapping = Mapping {
    number: 7,
    gref: 24,
    mode: Mode::ReadWrite,
};

// That of reference 25.
const OTHER: Mapping = Mapping {
    number: 8,
    gref: 25,
    mode: Mode::ReadWrite,
};

// That of reference 24, mapped for reading alone.
const READ_ONLY: Mapping = Mapping {
    number: 7,
    gref: 24,
    mode: Mode::ReadOnly,
};

// It has room for one mapping, and finds two writes, of two frames.
const CONNECTS_KEEPING_ONE: &[Step<'static>] = &[
    Step::Attaches(Abi::X64, 0, &[8]),
    Step::KeepsAtMost(1),
    Step::Maps(RING),
    Step::Does(Ask::Bind(1)),
    Step::Reads(RING, 0, 2),
    Step::FetchesWrite(16, 1, 0, 24),
    Step::FetchesWrite(44, 2, 1, 25),
];

// The first maps its frame for writing too, and is done without an unmap; it is replied to.
const SERVES_THE_FIRST: &[Step<'static>] = &[
    Step::JobDoes(1, Ask::Map(24, Mode::ReadWrite), Answer::Mapped(FRAME)),
    Step::JobMoves(1, FRAME, 0),
    Step::JobAsks(1, Ask::Wait),
    Step::Does(Ask::Write(RING, 16, 1)),
    Step::Does(Ask::Write(RING, 17, 0)),
    Step::Does(Ask::Write(RING, 18, 1)),
    Step::Replies(1, Status::Okay),
    Step::Does(Ask::Fence),
    Step::Reads(RING, 3, 5),
    Step::JobDoes(2, Ask::Map(25, Mode::ReadWrite), Answer::Mapped(OTHER)),
];

#[test]
fn a_back_that_keeps_one_mapping_lets_go_of_the_older_one(rt: HostRuntime) {
    const PARTS: &[&[Step<'static>]] = &[
        CONNECTS_KEEPING_ONE,
        SERVES_THE_FIRST,
        &[
            // the second is kept, and the first goes, in the next move of its job
            Step::JobMoves(2, OTHER, 1),
            Step::JobDoes(2, Ask::Unmap(FRAME), Answer::Done),
            Step::JobAsks(2, Ask::Wait),
            Step::Does(Ask::Write(RING, 44, 2)),
            Step::Does(Ask::Write(RING, 45, 0)),
            Step::Does(Ask::Write(RING, 46, 1)),
            Step::Replies(2, Status::Okay),
            Step::Does(Ask::Fence),
            Step::Reads(RING, 3, 5),
            // a third write, of the second's frame, maps nothing
            Step::Reads(RING, 0, 3),
            Step::FetchesWrite(72, 3, 2, 25),
            Step::JobMoves(3, OTHER, 2),
            Step::JobAsks(3, Ask::Wait),
            // a halt unmaps what is kept, and then the ring
            Step::Halts(Why::Gone(5)),
            Step::Does(Ask::Unmap(OTHER)),
        ],
        GIVES_UP,
    ];
    plays(&rt, rt.alloc(), 0, PARTS);
}

#[test]
fn words_that_are_moved_at_once_leave_what_single_ones_do(rt: HostRuntime) {
    const PARTS: &[&[Step<'static>]] = &[&[
        Step::Attaches(Abi::X64, 0, &[8]),
        Step::KeepsAtMost(1),
        Step::Maps(RING),
        Step::Does(Ask::Bind(1)),
        Step::Reads(RING, 0, 2),
        Step::FetchesWrite(16, 1, 0, 24),
        Step::FetchesRead(44, 2, 1, 25),
        Step::JobDoes(1, Ask::Map(24, Mode::ReadWrite), Answer::Mapped(FRAME)),
        Step::JobMovesAtOnce(1, FRAME, 0),
        Step::JobAsks(1, Ask::Wait),
        Step::JobDoes(2, Ask::Map(25, Mode::ReadWrite), Answer::Mapped(OTHER)),
        Step::JobAsks(2, Ask::DiskRead(1)),
        Step::JobWritesAtOnce(2, OTHER),
        // the second frame is kept, and the first one goes
        Step::JobDoes(2, Ask::Unmap(FRAME), Answer::Done),
        Step::JobAsks(2, Ask::Wait),
    ]];
    plays(&rt, rt.alloc(), 0, PARTS);
}

#[test]
fn a_halt_unmaps_what_jobs_have_in_hand_before_what_is_kept(rt: HostRuntime) {
    const PARTS: &[&[Step<'static>]] = &[
        CONNECTS_KEEPING_ONE,
        SERVES_THE_FIRST,
        &[
            Step::Halts(Why::Gone(5)),
            Step::JobAsks(2, Ask::Wait),
            Step::Does(Ask::Unmap(OTHER)),
            Step::Does(Ask::Unmap(FRAME)),
        ],
        GIVES_UP,
    ];
    plays(&rt, rt.alloc(), 0, PARTS);
}

// It keeps none: the frame of a write is mapped for reading alone, and unmapped.
const UNMAPS_AFTER_ONE: &[Step<'static>] = &[
    Step::Reads(RING, 0, 1),
    Step::FetchesWrite(16, 1, 0, 24),
    Step::JobDoes(1, Ask::Map(24, Mode::ReadOnly), Answer::Mapped(READ_ONLY)),
    Step::JobMoves(1, READ_ONLY, 0),
    Step::JobDoes(1, Ask::Unmap(READ_ONLY), Answer::Done),
    Step::JobAsks(1, Ask::Wait),
];

#[test]
fn a_back_that_keeps_none_unmaps_each_frame(rt: HostRuntime) {
    const PARTS: &[&[Step<'static>]] = &[CONNECTS, UNMAPS_AFTER_ONE];
    plays(&rt, rt.alloc(), 0, PARTS);
}

#[test]
fn how_many_may_be_kept_is_said_before_the_ring_is_mapped_or_not_at_all(rt: HostRuntime) {
    const PARTS: &[&[Step<'static>]] = &[
        &[Step::KeepsAtMost(1)],
        WAITS_FOR_TERMS,
        &[
            Step::Attaches(Abi::X64, 0, &[8]),
            Step::KeepsAtMost(1001),
            Step::Maps(RING),
            Step::KeepsAtMost(1),
            Step::Does(Ask::Bind(1)),
        ],
        UNMAPS_AFTER_ONE,
    ];
    plays(&rt, rt.alloc(), 0, PARTS);
}
