// Which jobs hold up others: a barrier waits for what was fetched before it, and what was fetched
// after it waits for the barrier (BLKIF_OP_WRITE_BARRIER of `io/blkif.h`).
ghost use Rattle.std.specs.Prelude.{◌≡◌, if◌then◌else◌, ◌==◌, position};
ghost use Rattle.std.specs.List.{position_or_len};
ghost use Rattle.back_jobs.specs.Work.{Work};
ghost use Rattle.back_jobs.specs.Order.{without, holds};

use crate::held_job::HeldJob;

// The place of the first write, barrier or discard that isn't done, or with `all` that of the first
// barrier; how many jobs there are where there is none.
pub(super) fn first_holding(held: &[HeldJob], all: bool) -> usize
    ensures { result ≡ position_or_len (λ (t : Work). holds all t) held.now }
{
    holding_in(held, all).unwrap_or(held.len())
}

// Where it stands.
fn holding_in(held: &[HeldJob], all: bool) -> Option<usize>
    ensures { result ≡ position (λ (t : Work). holds all t) held.now }
{
    held.iter().position(|job| job.holds(all))
}

// That place after the job at a place was done: looked for anew where it was that one.
pub(super) fn holding_after(held: &[HeldJob], all: bool, was: usize, ended: usize) -> usize
    ensures { result ≡ (if was == ended then position_or_len (λ (t : Work). holds all t) held.now else was) }
{
    if was == ended {
        first_holding(held, all)
    } else {
        was
    }
}

// That place after another job was removed.
pub(super) fn without(first: usize, removed: usize) -> usize
    ensures { result ≡ without first removed }
{
    if removed < first { first - 1 } else { first }
}
