// What a plain disk is asked before a line's step.
ghost use Rattle.std.specs.Prelude.{◌≡◌, ◌+◌, ◌<◌, ◌-◌, ◌∷◌, slice_get, length, take, IsSome};
ghost use Rattle.plain_disk.specs.Request.{places_of, sector_of, count_of, filling, is_read, is_write, is_flush, is_discard, is_barrier, is_ordered, is_open, is_finished, is_done, done_count, may_serve, is_settled, are_settled};
ghost use Rattle.plain_disk.specs.Disk.{request_of, noted_at};
ghost use Rattle.plain_disk.specs.Step.{are_noted, is_next, is_status, told_stage, next_stage, reopened};
ghost use Rattle.std.specs.List.{list_all};
ghost use Rattle.plain_disk.specs.declared.request.DiskRequest.{DiskRequest};

use crate::request::{DiskRequest, Noted, Place, RequestStage};
use blk_base::{SectorWords, Status, Submission};

/// How many places a request has.
pub fn places_of(submission: &Submission) -> u32
    ensures { result ≡ places_of submission.now }
{
    match *submission {
        Submission::Read { count, .. } => count.get(),
        Submission::Write { count, .. } => count.get(),
        Submission::Barrier { count, .. } => count.get(),
        Submission::Flush => 1,
        Submission::Discard { .. } => 1,
    }
}

/// The first sector of a request.
pub fn sector_of(submission: &Submission) -> u64
    ensures { result ≡ sector_of submission.now }
{
    match *submission {
        Submission::Read { sector, .. } => sector,
        Submission::Write { sector, .. } => sector,
        Submission::Barrier { sector, .. } => sector,
        Submission::Flush => 0,
        Submission::Discard { sector, .. } => sector,
    }
}

/// How many sectors a request speaks of.
pub fn count_of(submission: &Submission) -> u32
    ensures { result ≡ count_of submission.now }
{
    match *submission {
        Submission::Read { count, .. } => count.get(),
        Submission::Write { count, .. } => count.get(),
        Submission::Barrier { count, .. } => count.get(),
        Submission::Flush => 0,
        Submission::Discard { count, .. } => count.get(),
    }
}

/// The words of a sector of a write or barrier.
pub fn filling(submission: &Submission, index: u32) -> SectorWords
    ensures { result ≡ filling submission.now index }
{
    match *submission {
        Submission::Write { tag, .. } => [tag.wrapping_add(index); 128],
        Submission::Barrier { tag, .. } => [tag.wrapping_add(index); 128],
        _ => [0; 128],
    }
}

/// Whether a request reads.
pub fn is_read(submission: &Submission) -> bool
    ensures { result ≡ is_read submission.now }
{
    matches!(*submission, Submission::Read { .. })
}

/// Whether a request is a flush.
pub fn is_flush(submission: &Submission) -> bool
    ensures { result ≡ is_flush submission.now }
{
    matches!(*submission, Submission::Flush)
}

/// Whether a request is a discard.
pub fn is_discard(submission: &Submission) -> bool
    ensures { result ≡ is_discard submission.now }
{
    matches!(*submission, Submission::Discard { .. })
}

/// Whether a request is a barrier.
pub fn is_barrier(submission: &Submission) -> bool
    ensures { result ≡ is_barrier submission.now }
{
    matches!(*submission, Submission::Barrier { .. })
}

/// Whether a request is a write or a barrier, whose sectors are filled one by one.
pub fn is_write(submission: &Submission) -> bool
    ensures { result ≡ is_write submission.now }
{
    matches!(
        *submission,
        Submission::Write { .. } | Submission::Barrier { .. }
    )
}

/// Whether a barrier orders a request: a write, a barrier or a discard.
pub fn is_ordered(submission: &Submission) -> bool
    ensures { result ≡ is_ordered submission.now }
{
    is_write(submission) || is_discard(submission)
}

/// Whether a request's answer wasn't told.
pub fn is_open(stage: RequestStage) -> bool
    ensures { result ≡ is_open stage }
{
    matches!(stage, RequestStage::Open)
}

/// Whether all of a request was told.
pub fn is_finished(stage: RequestStage) -> bool
    ensures { result ≡ is_finished stage }
{
    matches!(stage, RequestStage::Finished)
}

/// Whether a place was done in this epoch.
pub fn is_done(done: &[Place], id: u64, index: u32) -> bool
    ensures { result ≡ is_done done.now id index }
{
    done.iter().any(|p| p.id == id && p.index == index)
}

/// How many places of a request were done in this epoch.
pub fn done_count(done: &[Place], id: u64) -> usize
    ensures { result ≡ done_count done.now id }
{
    done.iter().filter(|p| p.id == id).count()
}

/// Whether a place may be served now.
pub fn may_serve(done: &[Place], id: u64, r: &DiskRequest, index: u32) -> bool
    ensures { result ≡ may_serve done.now id r.now index }
{
    is_open(r.stage)
        && r.reply.is_none()
        && !r.faulted
        && index < places_of(&r.submission)
        && !is_done(done, id, index)
}

/// Whether what waits for a request may go on.
pub fn is_settled(done: &[Place], id: u64, r: &DiskRequest) -> bool
    ensures { result ≡ is_settled done.now id r.now }
{
    !is_open(r.stage)
        || r.reply.is_some()
        || r.faulted
        || done_count(done, id) == places_of(&r.submission) as usize
}

/// Whether the requests of the first numbers are settled where a barrier orders them with one that
/// comes later.
pub fn are_settled(done: &[Place], earlier: &[DiskRequest], barrier: bool) -> bool
    ensures { result ≡ are_settled done.now 1 earlier.now barrier }
{
    for i in 0..earlier.len() {
        let r = &earlier[i];
        let waits = is_ordered(&r.submission) && (barrier || is_barrier(&r.submission));
        if waits && !is_settled(done, i as u64 + 1, r) {
            return false;
        }
    }
    true
}

/// The request of a number.
pub fn request_of(requests: &[DiskRequest], id: u64) -> Option<DiskRequest>
    ensures value { result ≡ request_of requests.now id }
{
    if id == 0 {
        return None;
    }
    requests.get((id - 1) as usize).copied()
}

/// What a request's sector showed.
pub fn noted_at(noted: &[Noted], id: u64, index: u32) -> Option<SectorWords>
    ensures { result ≡ noted_at noted.now id index }
{
    let mut words = None;
    for n in noted {
        if n.id == id && n.index == index {
            words = Some(n.words);
        }
    }
    words
}

/// Whether these words were noted.
pub fn are_noted(noted: &Option<SectorWords>, words: &SectorWords) -> bool
    ensures { result ≡ are_noted noted.now words.now }
{
    match noted {
        None => false,
        Some(noted) => *noted == *words,
    }
}

/// Whether a sector is told next.
pub fn is_next(stage: RequestStage, index: u32) -> bool
    ensures { result ≡ is_next stage index }
{
    match stage {
        RequestStage::Telling(next) => index == next,
        _ => false,
    }
}

/// Whether this was replied.
pub fn is_status(reply: Option<Status>, status: Status) -> bool
    ensures { result ≡ is_status reply status }
{
    matches!(
        (reply, status),
        (Some(Status::Okay), Status::Okay)
            | (Some(Status::Error), Status::Error)
            | (Some(Status::Unsupported), Status::Unsupported)
    )
}

/// The stage of a request whose answer was told.
pub fn told_stage(submission: &Submission, status: Status) -> RequestStage
    ensures { result ≡ told_stage submission.now status }
{
    match (is_read(submission), status) {
        (true, Status::Okay) => RequestStage::Telling(0),
        _ => RequestStage::Finished,
    }
}

/// The stage of a request after one sector more was told.
pub fn next_stage(submission: &Submission, index: u32) -> RequestStage
    ensures { result ≡ next_stage submission.now index }
{
    let places = places_of(submission);
    if index < places && index + 1 != places {
        RequestStage::Telling(index + 1)
    } else {
        RequestStage::Finished
    }
}

/// A request in a new epoch.
pub fn reopened(r: &DiskRequest) -> DiskRequest
    ensures { result ≡ reopened r.now }
{
    let mut next = *r;
    if is_open(r.stage) {
        next.faulted = false;
        next.reply = None;
    }
    next
}

/// Whether all of each request was told.
pub fn are_finished(requests: &[DiskRequest]) -> bool
    ensures { result ≡ list_all (λ (r : DiskRequest). is_finished r.stage) requests.now }
{
    requests.iter().all(|r| is_finished(r.stage))
}
