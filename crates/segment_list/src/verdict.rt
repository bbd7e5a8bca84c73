//! The back's verdict on a request.
ghost use Rattle.std.specs.Prelude.{◌≡◌, ◌+◌, Some, None, if◌then◌else◌};
ghost use Rattle.std.specs.List.{list_any};
ghost use Rattle.segment_list.specs.Segments.{fails_test, sectors_of};
ghost use Rattle.segment_list.specs.Verdict.{transfer_verdict, flush_verdict, discard_verdict, kind_within, indirect_verdict, verdict_of, finished_verdict, IsOnDisk};

use blk_base::Op;
use blk_layout::{RawRequest, Segment};

/// Bit 0 of a discard's flag (`BLKIF_DISCARD_SECURE`): what was there must not be readable by any means.
const SECURE: u8 = 1;

/// Segments that an entry has room for (`BLKIF_MAX_SEGMENTS_PER_REQUEST`).
const MAX_SEGMENTS: u8 = 11;

/// The disk as the back knows it: its size in sectors of 512 bytes, whether it may be written, and what the back has
/// published of barriers, flushes and discards. An indirect request may have `max_indirect` segments; 0 is none at all.
#[derive(Clone, Copy, PartialEq, Eq)]
pub struct DiskInfo {
    pub sectors: u64,
    pub read_only: bool,
    pub barrier: bool,
    pub flush: bool,
    pub discard: bool,
    pub max_indirect: u32,
}

/// Why a request ends with an error before anything is done.
#[derive(Clone, Copy, PartialEq, Eq)]
pub enum Why {
    /// It writes, and the disk is read-only.
    ReadOnly,
    /// It has too few segments or sectors, or too many.
    Count,
    /// A segment is empty or goes beyond its frame.
    Segment,
    /// It goes beyond the end of the disk.
    Range,
    /// Its operation is none that the back knows, or none that may be indirect.
    Op,
}

/// What a served request does.
#[derive(Clone, Copy, PartialEq, Eq)]
pub enum Kind {
    Read,
    Write,
    Barrier,
    Flush,
    Discard,
    IndirectRead,
    IndirectWrite,
}

/// A request that is served: what it does, from which disk sector on, with how many segments. They stay in the entry,
/// or for an indirect request in its pages. A flush has none, and for a discard it is the number of sectors.
#[derive(Clone, Copy, PartialEq, Eq)]
pub struct Plan {
    pub kind: Kind,
    pub sector: u64,
    pub count: u64,
}

/// What becomes of a request: it is served by a plan, or its response is ERROR or EOPNOTSUPP at once.
#[derive(Clone, Copy, PartialEq, Eq)]
pub enum Verdict {
    Serve(Plan),
    Error(Why),
    Unsupported,
}

/// The verdict on a request as it was read, by its operation's tests in order. Of an indirect request it makes those
/// that come before its segments are copied, and [`finish_indirect`] makes the rest.
pub fn check(request: &RawRequest, info: &DiskInfo) -> Verdict
    ensures { result ≡ verdict_of request.now info.now }
{
    match request {
        RawRequest::Direct {
            op,
            count,
            sector,
            segments,
            ..
        } => match Op::from_code(*op) {
            Some(Op::Read) => check_transfer(Kind::Read, *count, *sector, segments, info),
            Some(Op::Write) => check_transfer(Kind::Write, *count, *sector, segments, info),
            Some(Op::Barrier) => check_transfer(Kind::Barrier, *count, *sector, segments, info),
            Some(Op::Flush) => check_flush(*count, *sector, info),
            Some(Op::Discard | Op::Indirect) => Verdict::Error(Why::Op),
            None => Verdict::Error(Why::Op),
        },
        RawRequest::Discard {
            flag,
            sector,
            count,
            ..
        } => check_discard(*flag, *count, *sector, info),
        RawRequest::Indirect {
            op,
            count,
            sector,
            ..
        } => check_indirect(*op, *count, *sector, info),
    }
}

/// The verdict on an indirect request of this plan once its segments are copied: it serves the same plan, or ends it.
pub fn finish_indirect(plan: &Plan, segments: &[Segment], info: &DiskInfo) -> Verdict
    ensures verdict { result ≡ finished_verdict plan.now segments.now info.now }
    ensures on_disk { result ≡ Verdict.Serve plan.now → IsOnDisk plan.now.sector segments.now info.now }
{
    match end_of(plan.sector, segments) {
        None => Verdict::Error(Why::Segment),
        Some(end) if end > u128::from(info.sectors) => Verdict::Error(Why::Range),
        Some(_) => Verdict::Serve(*plan),
    }
}

fn check_transfer(
    kind: Kind,
    count: u8,
    sector: u64,
    segments: &[Segment; 11],
    info: &DiskInfo,
) -> Verdict
    ensures { result ≡ transfer_verdict kind count sector segments.now info.now }
{
    match kind {
        Kind::Barrier if !info.barrier => return Verdict::Unsupported,
        Kind::Write if info.read_only => return Verdict::Error(Why::ReadOnly),
        _ => {}
    }
    if count == 0 || count > MAX_SEGMENTS {
        return Verdict::Error(Why::Count);
    }
    let plan = Plan {
        kind,
        sector,
        count: u64::from(count),
    };
    finish_indirect(&plan, &segments[..count as usize], info)
}

fn check_flush(count: u8, sector: u64, info: &DiskInfo) -> Verdict
    ensures { result ≡ flush_verdict count sector info.now }
{
    if !info.flush {
        return Verdict::Unsupported;
    }
    if count != 0 {
        return Verdict::Error(Why::Count);
    }
    Verdict::Serve(Plan {
        kind: Kind::Flush,
        sector,
        count: 0,
    })
}

fn check_discard(flag: u8, count: u64, sector: u64, info: &DiskInfo) -> Verdict
    ensures { result ≡ discard_verdict flag count sector info.now }
{
    if !info.discard || flag & SECURE != 0 {
        return Verdict::Unsupported;
    }
    if count == 0 {
        return Verdict::Error(Why::Count);
    }
    if u128::from(sector) + u128::from(count) > u128::from(info.sectors) {
        return Verdict::Error(Why::Range);
    }
    Verdict::Serve(Plan {
        kind: Kind::Discard,
        sector,
        count,
    })
}

fn check_indirect(op: u8, count: u16, sector: u64, info: &DiskInfo) -> Verdict
    ensures { result ≡ indirect_verdict op count sector info.now }
{
    if info.max_indirect == 0 {
        return Verdict::Unsupported;
    }
    let Some(kind) = inner_kind(op) else {
        return Verdict::Error(Why::Op);
    };
    if matches!(kind, Kind::IndirectWrite) && info.read_only {
        return Verdict::Error(Why::ReadOnly);
    }
    if count == 0 || u32::from(count) > info.max_indirect {
        return Verdict::Error(Why::Count);
    }
    Verdict::Serve(Plan {
        kind,
        sector,
        count: u64::from(count),
    })
}

// What an indirect request does; `None` exactly where its inner operation is neither READ nor WRITE.
fn inner_kind(op: u8) -> Option<Kind>
    ensures { result ≡ kind_within op }
{
    match Op::from_code(op)? {
        Op::Read => Some(Kind::IndirectRead),
        Op::Write => Some(Kind::IndirectWrite),
        Op::Barrier | Op::Flush | Op::Discard | Op::Indirect => None,
    }
}

// The disk sector after the last one of segments from `sector` on, as a whole number; `None` exactly where one of
// them fails its test.
fn end_of(sector: u64, segments: &[Segment]) -> Option<u128>
    ensures { result ≡ (if list_any fails_test segments.now then None else Some (sector + sectors_of segments.now)) }
{
    let mut end = u128::from(sector);
    for segment in segments {
        if segment.last > 7 || segment.first > segment.last {
            return None;
        }
        end += u128::from(segment.last - segment.first) + 1;
    }
    Some(end)
}
