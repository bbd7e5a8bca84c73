// The work of an entry.
ghost use Rattle.std.specs.Prelude.{◌≡◌, ℕ, ◌+◌, ◌*◌, ◌<◌, ◌≤◌, ◌^◌, ◌++◌, ◌∷◌, [], length, take, OnOk, IfOk};
ghost use Rattle.blk_layout.specs.Entry.{segments_at};
ghost use Rattle.segment_list.specs.Segments.{length_of, sectors_of};
ghost use Rattle.segment_list.specs.Verdict.{verdict_of, finished_verdict};
ghost use Rattle.segment_list.specs.declared.verdict.Verdict.TheVariants.{Serve};
ghost use Rattle.blk_layout.specs.declared.request.RawRequest.TheVariants.{Direct};
ghost use Rattle.report_rules.specs.Work.{store_mode, store_of, load_of, stores_of, loads_of, pages_of, planned_tasks, served_tasks, are_read, settled, work_verdict, indirect_tasks, work_tasks, status_by, response_to, work_response};

use blk_base::{Mode, OutOfMemory, Status};
use blk_layout::{RawRequest, Response, Segment, read_segment};
use segment_list::{DiskInfo, Kind, Plan, Verdict, check, finish_indirect};
use std::alloc::Global;

/// One part of a request's work.
#[derive(Clone, Copy, PartialEq, Eq)]
pub enum Task {
    /// A page of an indirect request is mapped for reading, and so many of its words are read, from
    /// word 0 on.
    Page {
        gref: u32,
        words: u32,
    },
    /// A frame is mapped. For each of `count` sectors, of which the first is sector `first` of the
    /// frame, its 128 words are read, and written to the disk, from `sector` on.
    Store {
        gref: u32,
        mode: Mode,
        sector: u64,
        first: u8,
        count: u32,
    },
    /// A frame is mapped for writing. Each of `count` sectors is read from the disk, from `sector`
    /// on, and its 128 words are written, from sector `first` of the frame on.
    Load {
        gref: u32,
        sector: u64,
        first: u8,
        count: u32,
    },
    /// The disk is flushed.
    Flush,
    /// Sectors are discarded.
    Trim {
        sector: u64,
        count: u64,
    },
}

fn store_mode(persistent: bool) -> Mode
    ensures { result ≡ store_mode persistent }
{
    if persistent {
        Mode::ReadWrite
    } else {
        Mode::ReadOnly
    }
}

// The sectors of a segment.
fn length_of(s: &Segment) -> u32
    ensures value { result ≡ length_of s.now }
    ensures small { result ≤ 256 }
{
    u32::from(s.last.saturating_sub(s.first)) + 1
}

fn store_of(persistent: bool, disk: u64, s: &Segment) -> Task
    ensures { result ≡ store_of persistent disk s.now }
{
    Task::Store {
        gref: s.gref,
        mode: store_mode(persistent),
        sector: disk,
        first: s.first,
        count: length_of(s),
    }
}

fn load_of(disk: u64, s: &Segment) -> Task
    ensures { result ≡ load_of disk s.now }
{
    Task::Load {
        gref: s.gref,
        sector: disk,
        first: s.first,
        count: length_of(s),
    }
}

// Adds the segments of a write.
fn add_stores(
    tasks: &mut Vec<Task>,
    persistent: bool,
    sector: u64,
    segments: &[Segment],
) -> Result<(), OutOfMemory>
    requires { sector + sectors_of segments.now < 2 ^ 64 }
    ensures { OnOk result (tasks.new.items ≡ tasks.old.items ++ stores_of persistent sector segments.now) }
{
    let mut disk = sector;
    for s in segments {
        tasks.push(store_of(persistent, disk, s))?;
        disk += u64::from(length_of(s));
    }
    Ok(())
}

// Adds the segments of a read.
fn add_loads(tasks: &mut Vec<Task>, sector: u64, segments: &[Segment]) -> Result<(), OutOfMemory>
    requires { sector + sectors_of segments.now < 2 ^ 64 }
    ensures { OnOk result (tasks.new.items ≡ tasks.old.items ++ loads_of sector segments.now) }
{
    let mut disk = sector;
    for s in segments {
        tasks.push(load_of(disk, s))?;
        disk += u64::from(length_of(s));
    }
    Ok(())
}

// Adds the pages in which an indirect request has its segments.
fn add_pages(tasks: &mut Vec<Task>, count: u32, pages: &[u32]) -> Result<(), OutOfMemory>
    ensures { OnOk result (tasks.new.items ≡ tasks.old.items ++ pages_of count pages.now) }
{
    let mut left = count;
    for &gref in pages {
        if left == 0 {
            return Ok(());
        }
        tasks.push(Task::Page {
            gref,
            words: 2 * left.min(512),
        })?;
        left = left.saturating_sub(512);
    }
    Ok(())
}

// Adds what is done for a request that is served.
fn add_planned(
    tasks: &mut Vec<Task>,
    persistent: bool,
    plan: &Plan,
    segments: &[Segment],
    size: u64,
) -> Result<(), OutOfMemory>
    requires { plan.now.sector + sectors_of segments.now ≤ size }
    ensures { OnOk result (tasks.new.items ≡ tasks.old.items ++ planned_tasks persistent plan.now plan.now.kind segments.now) }
{
    match plan.kind {
        Kind::Read => add_loads(tasks, plan.sector, segments),
        Kind::IndirectRead => add_loads(tasks, plan.sector, segments),
        Kind::Write => add_stores(tasks, persistent, plan.sector, segments),
        Kind::Barrier => add_stores(tasks, persistent, plan.sector, segments),
        Kind::IndirectWrite => add_stores(tasks, persistent, plan.sector, segments),
        Kind::Flush => push(tasks, Task::Flush),
        Kind::Discard => push(
            tasks,
            Task::Trim {
                sector: plan.sector,
                count: plan.count,
            },
        ),
    }
}

fn push(tasks: &mut Vec<Task>, task: Task) -> Result<(), OutOfMemory>
    ensures { OnOk result (tasks.new.items ≡ tasks.old.items ++ task ∷ []) }
{
    tasks.push(task)?;
    Ok(())
}

// Whether all segments of an indirect request were read.
fn are_read(count: u16, indirect: &[u32]) -> bool
    ensures { result ≡ are_read count indirect.now }
{
    2 * usize::from(count) <= indirect.len()
}

// The segments that the words of indirect pages are.
fn copied(alloc: Global, indirect: &[u32], count: u16) -> Result<Vec<Segment>, OutOfMemory>
    requires { 2 * count ≤ length indirect.now }
    ensures { IfOk result (λ segments. segments.items ≡ segments_at indirect.now 0 count) }
{
    let mut segments = Vec::new(alloc);
    for k in 0..usize::from(count) {
        segments.push(read_segment([indirect[2 * k], indirect[2 * k + 1]]))?;
    }
    Ok(segments)
}

// Adds what is done for an indirect request whose segments were read.
fn add_finished(
    tasks: &mut Vec<Task>,
    persistent: bool,
    plan: &Plan,
    segments: &[Segment],
    info: &DiskInfo,
) -> Result<(), OutOfMemory>
    ensures { OnOk result (tasks.new.items ≡ tasks.old.items ++ served_tasks persistent (finished_verdict plan.now segments.now info.now) segments.now) }
{
    match finish_indirect(plan, segments, info) {
        Verdict::Serve(served) => add_planned(tasks, persistent, &served, segments, info.sectors),
        _ => Ok(()),
    }
}

// Adds what is done for an indirect request that passes the tests before its segments are read.
fn add_indirect(
    alloc: Global,
    tasks: &mut Vec<Task>,
    persistent: bool,
    plan: &Plan,
    count: u16,
    pages: &[u32],
    indirect: &[u32],
    info: &DiskInfo,
) -> Result<(), OutOfMemory>
    ensures { OnOk result (tasks.new.items ≡ tasks.old.items ++ indirect_tasks persistent (Serve plan.now) count pages.now indirect.now info.now) }
{
    add_pages(tasks, u32::from(count), pages)?;
    if !are_read(count, indirect) {
        return Ok(());
    }
    let segments = copied(alloc, indirect, count)?;
    add_finished(tasks, persistent, plan, segments.as_slice(), info)
}

// Adds what is done for a request that has its segments in its entry.
fn add_direct(
    tasks: &mut Vec<Task>,
    persistent: bool,
    plan: &Plan,
    count: u8,
    segments: &[Segment],
    info: &DiskInfo,
) -> Result<(), OutOfMemory>
    requires long { length segments.now ≡ 11 }
    requires served { (op device id sector : ℕ) × (verdict_of (Direct op count device id sector segments.now) info.now ≡ Serve plan.now) }
    ensures { OnOk result (tasks.new.items ≡ tasks.old.items ++ planned_tasks persistent plan.now plan.now.kind (take count segments.now)) }
{
    let used = usize::from(count).min(11);
    let size = info.sectors.max(plan.sector);
    add_planned(tasks, persistent, plan, &segments[..used], size)
}

/// What a job does for a request, in order, as far as the words of its indirect pages that were read
/// tell. `persistent` says whether grants are.
pub fn work_tasks(
    alloc: Global,
    request: &RawRequest,
    info: &DiskInfo,
    persistent: bool,
    indirect: &[u32],
) -> Result<Vec<Task>, OutOfMemory>
    ensures { IfOk result (λ tasks. tasks.items ≡ work_tasks request.now info.now persistent indirect.now) }
{
    let mut tasks = Vec::new(alloc);
    let Verdict::Serve(plan) = check(request, info) else {
        return Ok(tasks);
    };
    match request {
        RawRequest::Direct {
            count,
            segments,
            ..
        } => add_direct(&mut tasks, persistent, &plan, *count, segments, info)?,
        RawRequest::Discard { .. } => {
            add_planned(&mut tasks, persistent, &plan, &[], plan.sector)?;
        }
        RawRequest::Indirect { count, pages, .. } => {
            add_indirect(
                alloc, &mut tasks, persistent, &plan, *count, pages, indirect, info,
            )?;
        }
    }
    Ok(tasks)
}

/// The verdict on a request of which these words of its indirect pages were read.
pub fn work_verdict(
    alloc: Global,
    request: &RawRequest,
    info: &DiskInfo,
    indirect: &[u32],
) -> Result<Verdict, OutOfMemory>
    ensures { IfOk result (λ verdict. verdict ≡ work_verdict request.now info.now indirect.now) }
{
    match (request, check(request, info)) {
        (RawRequest::Indirect { count, .. }, Verdict::Serve(plan)) if are_read(*count, indirect) =>
            {
                let segments = copied(alloc, indirect, *count)?;
                Ok(finish_indirect(&plan, segments.as_slice(), info))
            }
        (_, verdict) => Ok(verdict),
    }
}

/// The status of a verdict.
pub fn status_by(verdict: &Verdict) -> Status
    ensures { result ≡ status_by verdict.now }
{
    match verdict {
        Verdict::Serve(_) => Status::Okay,
        Verdict::Error(_) => Status::Error,
        Verdict::Unsupported => Status::Unsupported,
    }
}

/// The response to a request.
pub fn work_response(request: &RawRequest, status: Status) -> Response
    ensures { result ≡ work_response request.now status }
{
    match *request {
        RawRequest::Direct { op, id, .. } => Response { id, op, status },
        RawRequest::Discard { id, .. } => Response { id, op: 5, status },
        RawRequest::Indirect { op, id, .. } => Response { id, op, status },
    }
}
