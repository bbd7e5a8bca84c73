// The vectors that segments are copied into.
ghost use Rattle.std.specs.Prelude.{◌≡◌, ◌≤◌, ◌+◌, IfOk, cond, length, vec_capacity};
ghost use Rattle.back_jobs.specs.Segments.{is_paged, vecs_for};

use crate::held_job::HeldJob;
use crate::segments::SegmentVec;
use arrayvec::ArrayVec;
use blk_base::OutOfMemory;
use std::alloc::Global;

// The vector of a job that is over is spare again.
pub(super) fn give_back(spare: &mut Vec<SegmentVec>, job: HeldJob)
    requires { length spare.old.items + cond (is_paged job) 1 0 ≤ vec_capacity spare.old }
    ensures spare { length spare.new.items ≡ length spare.old.items + cond (is_paged job) 1 0 }
    ensures capacity { vec_capacity spare.new ≡ vec_capacity spare.old }
{
    if let Some(segments) = job.into_vec() {
        spare.push_reserved(segments);
    }
}

// How many vectors are needed for so many jobs.
pub(super) fn vecs_for(indirect: u32, jobs: u32) -> u32
    ensures { result ≡ vecs_for indirect jobs }
{
    if indirect == 0 { 0 } else { jobs }
}

// So many vectors.
pub(super) fn reserve_spare(alloc: Global, count: u32) -> Result<Vec<SegmentVec>, OutOfMemory>
    ensures spare { IfOk result (λ spare. length spare.items ≡ count) }
    ensures capacity { IfOk result (λ spare. count ≤ vec_capacity spare) }
{
    let mut spare = Vec::with_capacity(alloc, count as usize)?;
    for _ in 0..count {
        spare.push(Box::new(alloc, ArrayVec::new())?)?;
    }
    Ok(spare)
}
