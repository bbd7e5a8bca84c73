// The limits that a submission is held against.
ghost use Rattle.std.specs.Prelude.{◌≡◌, ◌+◌, ◌^◌, ◌*◌, ◌/◌, nat_lt, if◌then◌else◌};
ghost use Rattle.plain_disk.specs.Refusal.{frames_of, is_unsupported, is_refused_write, is_past_end, is_long, is_full, lacks_frames, frames_held};

use crate::looking;
use crate::request::DiskRequest;
use blk_base::{Config, SectorCount, Submission};

// The segments that so many sectors take.
fn segments(count: SectorCount) -> u32
    ensures { result ≡ (count + 7) / 8 }
{
    count.get().div_ceil(8)
}

// The frames that so many sectors take, with those for the segments.
fn all_frames(count: SectorCount) -> u32
    ensures { result ≡ (if nat_lt 11 ((count + 7) / 8) then (count + 7) / 8 + ((count + 7) / 8 + 511) / 512 else (count + 7) / 8) }
{
    let data = segments(count);
    if data > 11 {
        data + data.div_ceil(512)
    } else {
        data
    }
}

/// The frames of the pool that a request takes.
pub fn frames_of(submission: &Submission) -> u32
    ensures { result ≡ frames_of submission.now }
{
    match *submission {
        Submission::Read { count, .. } => all_frames(count),
        Submission::Write { count, .. } => all_frames(count),
        Submission::Barrier { count, .. } => segments(count),
        Submission::Flush => 0,
        Submission::Discard { .. } => 0,
    }
}

/// Whether a request is a barrier, flush or discard, of which a read-only disk has none.
pub fn is_unsupported(config: &Config, submission: &Submission) -> bool
    ensures { result ≡ is_unsupported config.now submission.now }
{
    match *submission {
        Submission::Read { .. } => false,
        Submission::Write { .. } => false,
        Submission::Barrier { .. } => config.read_only,
        Submission::Flush => config.read_only,
        Submission::Discard { .. } => config.read_only,
    }
}

/// Whether a request writes on a disk that is read-only.
pub fn is_refused_write(config: &Config, submission: &Submission) -> bool
    ensures { result ≡ is_refused_write config.now submission.now }
{
    match *submission {
        Submission::Write { .. } => config.read_only,
        _ => false,
    }
}

/// Whether a request's sectors lie past the disk's end.
pub fn is_past_end(config: &Config, submission: &Submission) -> bool
    ensures { result ≡ is_past_end config.now submission.now }
{
    let sector = looking::sector_of(submission);
    let count = u64::from(looking::count_of(submission));
    sector > config.sectors || config.sectors - sector < count
}

/// Whether a request has more segments than one may have.
pub fn is_long(config: &Config, submission: &Submission) -> bool
    ensures { result ≡ is_long config.now submission.now }
{
    match *submission {
        Submission::Read { count, .. } => segments(count) > config.indirect.max(11),
        Submission::Write { count, .. } => segments(count) > config.indirect.max(11),
        Submission::Barrier { count, .. } => segments(count) > 11,
        Submission::Flush => false,
        Submission::Discard { .. } => false,
    }
}

// The entries of the ring.
fn entries(config: &Config) -> u64
    ensures { result ≡ 32 * 2 ^ config.now.order }
{
    32 << config.order
}

pub fn is_full(config: &Config, requests: &[DiskRequest]) -> bool
    ensures { result ≡ is_full config.now requests.now }
{
    let unfinished = requests
        .iter()
        .filter(|r| !looking::is_finished(r.stage))
        .count();
    entries(config) <= unfinished as u64
}

// The frames that a request holds.
fn frames_held(r: &DiskRequest) -> u32
    ensures { result ≡ frames_held r.now }
{
    if looking::is_finished(r.stage) {
        0
    } else {
        frames_of(&r.submission)
    }
}

pub fn lacks_frames(requests: &[DiskRequest], submission: &Submission) -> bool
    ensures { result ≡ lacks_frames requests.now submission.now }
{
    let mut held = 0u64;
    for r in requests {
        held = held.saturating_add(u64::from(frames_held(r)));
    }
    held.saturating_add(u64::from(frames_of(submission))) > 1000
}
