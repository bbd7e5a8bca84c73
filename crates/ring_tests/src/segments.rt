//! The verdicts as tables, and clients of the segments.
use crate::expected::same;
use blk_layout::{RawRequest, Segment};
use segment_list::{
    DiskInfo, Kind, Place, Plan, Verdict, Why, check, cut, extent, finish_indirect,
};

const LAST: u64 = 0xffff_ffff_ffff_ffff;

// A disk on which everything is published.
fn disk(sectors: u64) -> DiskInfo {
    DiskInfo {
        sectors,
        read_only: false,
        barrier: true,
        flush: true,
        discard: true,
        max_indirect: 64,
    }
}

fn read_only(sectors: u64) -> DiskInfo {
    DiskInfo {
        sectors,
        read_only: true,
        barrier: false,
        flush: false,
        discard: false,
        max_indirect: 0,
    }
}

fn segment(first: u8, last: u8) -> Segment {
    Segment {
        gref: 24,
        first,
        last,
    }
}

// An entry of which each segment has these sectors.
fn direct(op: u8, count: u8, sector: u64, first: u8, last: u8) -> RawRequest {
    RawRequest::Direct {
        op,
        count,
        device: 51712,
        id: 1,
        sector,
        segments: [segment(first, last); 11],
    }
}

fn discard(flag: u8, sector: u64, count: u64) -> RawRequest {
    RawRequest::Discard {
        flag,
        device: 51712,
        id: 1,
        sector,
        count,
    }
}

fn indirect(op: u8, count: u16) -> RawRequest {
    RawRequest::Indirect {
        op,
        count,
        device: 51712,
        id: 1,
        sector: 8,
        pages: [24; 8],
    }
}

fn served(kind: Kind, sector: u64, count: u64) -> Verdict {
    Verdict::Serve(Plan {
        kind,
        sector,
        count,
    })
}

#[test]
fn judges_reads_writes_and_barriers(rt: HostRuntime) {
    let rows = [
        (
            "one sector",
            direct(0, 1, 0, 0, 0),
            disk(1),
            served(Kind::Read, 0, 1),
        ),
        (
            "no disk",
            direct(0, 1, 0, 0, 0),
            disk(0),
            Verdict::Error(Why::Range),
        ),
        (
            "no segment",
            direct(0, 0, 0, 0, 0),
            disk(88),
            Verdict::Error(Why::Count),
        ),
        (
            "11 full frames",
            direct(1, 11, 0, 0, 7),
            disk(88),
            served(Kind::Write, 0, 11),
        ),
        (
            "one sector too far",
            direct(1, 11, 1, 0, 7),
            disk(88),
            Verdict::Error(Why::Range),
        ),
        (
            "12 segments",
            direct(0, 12, 0, 0, 7),
            disk(960),
            Verdict::Error(Why::Count),
        ),
        (
            "last_sect 8",
            direct(0, 1, 0, 0, 8),
            disk(88),
            Verdict::Error(Why::Segment),
        ),
        (
            "first_sect above last_sect",
            direct(0, 1, 0, 3, 2),
            disk(0),
            Verdict::Error(Why::Segment),
        ),
        (
            "the last sector of the largest disk",
            direct(0, 1, LAST - 1, 0, 0),
            disk(LAST),
            served(Kind::Read, LAST - 1, 1),
        ),
        (
            "a sum of 2^64",
            direct(0, 1, LAST, 0, 0),
            disk(LAST),
            Verdict::Error(Why::Range),
        ),
        (
            "a write of a read-only disk",
            direct(1, 0, 0, 0, 0),
            read_only(88),
            Verdict::Error(Why::ReadOnly),
        ),
        (
            "a barrier",
            direct(2, 2, 8, 1, 6),
            disk(20),
            served(Kind::Barrier, 8, 2),
        ),
        (
            "a barrier that is not published",
            direct(2, 12, 0, 0, 8),
            read_only(88),
            Verdict::Unsupported,
        ),
        (
            "the reserved operation",
            direct(4, 1, 0, 0, 0),
            disk(88),
            Verdict::Error(Why::Op),
        ),
        (
            "no operation",
            direct(255, 1, 0, 0, 0),
            read_only(88),
            Verdict::Error(Why::Op),
        ),
    ];
    for (says, request, info, verdict) in &rows {
        assert!(rt; check(request, info) == *verdict, "{says}");
    }
}

#[test]
fn judges_flushes_and_discards(rt: HostRuntime) {
    let rows = [
        (
            "a flush",
            direct(3, 0, 0, 0, 0),
            disk(88),
            served(Kind::Flush, 0, 0),
        ),
        (
            "a flush with data",
            direct(3, 1, 0, 0, 0),
            disk(88),
            Verdict::Error(Why::Count),
        ),
        (
            "a flush that is not published",
            direct(3, 1, 0, 0, 0),
            read_only(88),
            Verdict::Unsupported,
        ),
        (
            "all of the disk",
            discard(0, 0, LAST),
            disk(LAST),
            served(Kind::Discard, 0, LAST),
        ),
        (
            "a secure discard",
            discard(1, 0, 8),
            disk(88),
            Verdict::Unsupported,
        ),
        (
            "an unknown flag",
            discard(2, 80, 8),
            disk(88),
            served(Kind::Discard, 80, 8),
        ),
        (
            "a secure discard with an unknown flag",
            discard(3, 0, 0),
            disk(88),
            Verdict::Unsupported,
        ),
        (
            "no sectors",
            discard(0, 0, 0),
            disk(88),
            Verdict::Error(Why::Count),
        ),
        (
            "one sector too far",
            discard(0, 81, 8),
            disk(88),
            Verdict::Error(Why::Range),
        ),
        (
            "a sum above 2^64",
            discard(0, LAST, LAST),
            disk(LAST),
            Verdict::Error(Why::Range),
        ),
        (
            "a discard that is not published",
            discard(0, 0, 8),
            read_only(88),
            Verdict::Unsupported,
        ),
    ];
    for (says, request, info, verdict) in &rows {
        assert!(rt; check(request, info) == *verdict, "{says}");
    }
}

#[test]
fn judges_indirect_requests(rt: HostRuntime) {
    let rows = [
        (
            "a read",
            indirect(0, 12),
            disk(0),
            served(Kind::IndirectRead, 8, 12),
        ),
        (
            "as many as may be",
            indirect(1, 64),
            disk(0),
            served(Kind::IndirectWrite, 8, 64),
        ),
        (
            "one too many",
            indirect(1, 65),
            disk(88),
            Verdict::Error(Why::Count),
        ),
        (
            "65535 segments",
            indirect(0, 65535),
            disk(88),
            Verdict::Error(Why::Count),
        ),
        (
            "no segment",
            indirect(0, 0),
            disk(88),
            Verdict::Error(Why::Count),
        ),
        (
            "a barrier inside",
            indirect(2, 0),
            disk(88),
            Verdict::Error(Why::Op),
        ),
        (
            "none may be indirect",
            indirect(2, 0),
            read_only(88),
            Verdict::Unsupported,
        ),
    ];
    for (says, request, info, verdict) in &rows {
        assert!(rt; check(request, info) == *verdict, "{says}");
    }

    let plan = Plan {
        kind: Kind::IndirectRead,
        sector: 8,
        count: 2,
    };
    let copied = [
        (
            "to the last sector",
            [segment(0, 7), segment(3, 3)],
            17,
            Verdict::Serve(plan),
        ),
        (
            "one sector too far",
            [segment(0, 7), segment(3, 3)],
            16,
            Verdict::Error(Why::Range),
        ),
        (
            "last_sect 8",
            [segment(0, 7), segment(3, 8)],
            0,
            Verdict::Error(Why::Segment),
        ),
    ];
    for (says, segments, sectors, verdict) in &copied {
        assert!(rt;
            finish_indirect(&plan, segments, &disk(*sectors)) == *verdict,
            "{says}"
        );
    }
}

fn place(disk: u64, segment: u32, within: u32) -> Place {
    Place {
        disk,
        segment,
        within,
    }
}

#[test]
fn walks_the_sectors_in_order(rt: HostRuntime) {
    let segments = [
        Segment {
            gref: 24,
            first: 6,
            last: 7,
        },
        Segment {
            gref: 25,
            first: 2,
            last: 2,
        },
    ];
    let mut places = extent(40, &segments);
    for wanted in [place(40, 0, 6), place(41, 0, 7), place(42, 1, 2)] {
        same(&rt, places.next(), Some(wanted));
    }
    same(&rt, places.next(), None);
}

#[test]
fn cuts_seventeen_sectors_into_three_frames(rt: HostRuntime) {
    let mut segments = cut(40, 17);
    for last in [7, 7, 0] {
        let wanted = Segment {
            gref: 0,
            first: 0,
            last,
        };
        same(&rt, segments.next(), Some(wanted));
    }
    same(&rt, segments.next(), None);
}
