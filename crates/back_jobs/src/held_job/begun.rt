// The job of a request that was fetched, before its first move.
ghost use Rattle.std.specs.Prelude.{◌≡◌, ◌≢◌, ◌<◌, ◌≤◌, ◌+◌, cond, length, take, vec_capacity};
ghost use Rattle.back_jobs.specs.Work.{first_of, IsDoneStage, id_of, response_op, served, served_paged, moving, paging, ended, frameless};
ghost use Rattle.back_jobs.specs.Segments.{is_paged};
ghost use Rattle.back_jobs.specs.Sound.{AreMovable, IsFrameless};
ghost use Rattle.segment_list.specs.declared.verdict.Plan.{Plan};
ghost use Rattle.segment_list.specs.Verdict.{verdict_of, transfer_verdict};
ghost use Rattle.segment_list.specs.declared.verdict.Kind.{Kind};
ghost use Rattle.back_jobs.specs.declared.stage.JobStage.TheVariants as stage;
ghost use Rattle.blk_base.specs.declared.operation.Status.TheVariants.{Error};

use super::HeldJob;
use crate::segments::{SegmentList, SegmentVec};
use crate::stage::JobStage;
use arrayvec::ArrayVec;
use blk_base::Status;
use blk_layout::{RawRequest, Segment};
use segment_list::{DiskInfo, Verdict};

// The job of a served request.
pub(super) fn served(
    number: u64,
    request: &RawRequest,
    info: &DiskInfo,
    spare: &mut Vec<SegmentVec>,
) -> HeldJob
    requires served { (plan : Plan) × (verdict_of request.now info.now ≡ Verdict.Serve plan) }
    requires has_spare { info.now.max_indirect ≢ 0 → 0 < length spare.old.items }
    ensures value { result ≡ served number request.now info.now.sectors }
    ensures spare { length spare.new.items + cond (is_paged result) 1 0 ≡ length spare.old.items }
    ensures capacity { vec_capacity spare.new ≡ vec_capacity spare.old }
{
    match request {
        RawRequest::Direct {
            op,
            count,
            sector,
            segments,
            ..
        } => {
            if *op <= 2 {
                let writes = *op != 0;
                transfer(number, request, info, writes, *count, *sector, segments)
            } else if *op == 3 {
                frameless(number, request, info.sectors, *sector, JobStage::Flush)
            } else {
                ended(number, request, info.sectors, JobStage::Done(Status::Error))
            }
        }
        RawRequest::Discard { sector, count, .. } => frameless(
            number,
            request,
            info.sectors,
            *sector,
            JobStage::Trim(*count),
        ),
        RawRequest::Indirect {
            op,
            count,
            sector,
            pages,
            ..
        } => {
            let writes = *op != 0;
            served_indirect(
                number,
                request,
                info.sectors,
                writes,
                *count,
                *sector,
                pages,
                spare,
            )
        }
    }
}

// The job of a read or a write that is served, of the first segments of its entry.
fn transfer(
    number: u64,
    request: &RawRequest,
    info: &DiskInfo,
    writes: bool,
    count: u8,
    sector: u64,
    segments: &[Segment],
) -> HeldJob
    requires long { length segments.now ≡ 11 }
    requires served { (kind : Kind) × (plan : Plan) × (transfer_verdict kind count sector segments.now info.now ≡ Verdict.Serve plan) }
    ensures { result ≡ moving number request.now info.now.sectors writes sector (take count segments.now) }
{
    moving(
        number,
        request,
        info.sectors,
        writes,
        sector,
        &segments[..count as usize],
    )
}

// The job of an indirect request that is served: there is room for 960 segments.
fn served_indirect(
    number: u64,
    request: &RawRequest,
    size: u64,
    writes: bool,
    count: u16,
    sector: u64,
    pages: &[u32; 8],
    spare: &mut Vec<SegmentVec>,
) -> HeldJob
    requires some { 0 < count }
    requires has_spare { 0 < length spare.old.items }
    ensures value { result ≡ served_paged number request.now size writes sector count pages.now }
    ensures spare { length spare.new.items + cond (is_paged result) 1 0 ≡ length spare.old.items }
    ensures capacity { vec_capacity spare.new ≡ vec_capacity spare.old }
{
    if count > 960 {
        return ended(number, request, size, JobStage::Done(Status::Error));
    }
    match spare.pop() {
        None => ended(number, request, size, JobStage::Done(Status::Error)),
        Some(segments) => paging(
            number, request, size, writes, sector, count, pages, segments,
        ),
    }
}

// A job that reads or writes the segments that these pages name.
fn paging(
    number: u64,
    request: &RawRequest,
    size: u64,
    writes: bool,
    disk: u64,
    count: u16,
    pages: &[u32; 8],
    segments: SegmentVec,
) -> HeldJob
    requires some { 0 < count }
    requires few { count ≤ 960 }
    ensures { result ≡ paging number request.now size writes disk count pages.now }
{
    HeldJob {
        number,
        id: id_of(request),
        op: response_op(request),
        writes,
        size,
        disk,
        moved: 0,
        rest: SegmentList::copied_into(segments),
        pages: page_list(pages),
        named: u32::from(count),
        within: 0,
        words: [0; 128],
        stage: JobStage::MapPage,
    }
}

// These references.
fn page_list(pages: &[u32]) -> ArrayVec<u32, 8>
    requires { length pages.now ≤ 8 }
    ensures { result.items ≡ pages.now }
{
    let mut list = ArrayVec::new();
    let _ = list.try_extend_from_slice(pages);
    list
}

// A job that reads or writes these segments.
fn moving(
    number: u64,
    request: &RawRequest,
    size: u64,
    writes: bool,
    disk: u64,
    segments: &[Segment],
) -> HeldJob
    requires few { length segments.now ≤ 11 }
    requires movable { AreMovable size disk segments.now }
    ensures { result ≡ moving number request.now size writes disk segments.now }
{
    HeldJob {
        number,
        id: id_of(request),
        op: response_op(request),
        writes,
        size,
        disk,
        moved: 0,
        rest: SegmentList::of(segments),
        pages: ArrayVec::new(),
        named: 0,
        within: first_of(segments),
        words: [0; 128],
        stage: JobStage::Map,
    }
}

// A job that is done before it began.
pub(super) fn ended(number: u64, request: &RawRequest, size: u64, stage: JobStage) -> HeldJob
    requires { IsDoneStage stage }
    ensures { result ≡ ended number request.now size stage }
{
    frameless(number, request, size, 0, stage)
}

// A job that moves no sectors between frames and the disk.
fn frameless(number: u64, request: &RawRequest, size: u64, disk: u64, stage: JobStage) -> HeldJob
    requires { IsFrameless stage disk size }
    ensures { result ≡ frameless number request.now size disk stage }
{
    HeldJob {
        number,
        id: id_of(request),
        op: response_op(request),
        writes: false,
        size,
        disk,
        moved: 0,
        rest: SegmentList::of(&[]),
        pages: ArrayVec::new(),
        named: 0,
        within: 0,
        words: [0; 128],
        stage,
    }
}

// The id that a response names.
fn id_of(request: &RawRequest) -> u64
    ensures { result ≡ id_of request.now }
{
    match request {
        RawRequest::Direct { id, .. } => *id,
        RawRequest::Discard { id, .. } => *id,
        RawRequest::Indirect { id, .. } => *id,
    }
}

// The operation that a response names.
fn response_op(request: &RawRequest) -> u8
    ensures { result ≡ response_op request.now }
{
    match request {
        RawRequest::Direct { op, .. } => *op,
        RawRequest::Discard { .. } => 5,
        RawRequest::Indirect { op, .. } => *op,
    }
}

// The first sector of the first segment.
pub(super) fn first_of(segments: &[Segment]) -> u32
    ensures { result ≡ first_of segments.now }
{
    match segments.first() {
        None => 0,
        Some(segment) => u32::from(segment.first),
    }
}
