// How many rounds move nothing but words of sectors and of entries.
ghost use Rattle.std.specs.Prelude.{ℕ, ◌<◌, ◌≤◌, All};
ghost use Rattle.grant_table.specs.Table.{IsLive};
ghost use Rattle.blk_back.specs.Hands.{hands_of};
ghost use Rattle.schedule_run.specs.Looking.{FrontSays, BackSays, JobSays, JobsSay};

use super::marks::mark;
use blk_base::{BackAsk, End};
use hypervisor::Hypervisor;
use vbd_back::Backend;
use vbd_front::Frontend;

/// So many words, that many at most, the front may move and be in its sector still, or in its entry; where it
/// waits and has nothing to take, as many as that. It marks their frame.
pub(super) fn words_of_front(
    front: &Frontend,
    under: &Hypervisor,
    most: u32,
    marks: &mut [u64; 17],
) -> u32
    ensures few { result ≤ most }
    ensures front { (n : ℕ) → 0 < n → n ≤ result → FrontSays n front.now under.now marks.new }
{
    if let Some(part) = front.sector_part() {
        mark(marks, part.frame);
        return all_but_one(part.count, most);
    }
    if let Some(part) = front.entry_part() {
        mark(marks, part.frame);
        return all_but_one(part.count, most);
    }
    if !front.waits() {
        return 0;
    }
    if under.has_to_take(End::Front) {
        return 0;
    }
    most
}

/// So many words, that many at most, the back may copy and be in its entry still; where it waits and has
/// nothing to take, as many as that. None where it does anything else, or the ring's frame is marked; it
/// marks that.
pub(super) fn words_of_back(
    back: &Backend,
    under: &Hypervisor,
    most: u32,
    marks: &mut [u64; 17],
) -> u32
    requires live { All (IsLive under.now.grants) (hands_of back.now.ring) }
    ensures few { result ≤ most }
    ensures back { (n : ℕ) → 0 < n → n ≤ result → BackSays n under.now back.now marks.old marks.new }
{
    if back.halted().is_some() {
        return 0;
    }
    match back.entry_part() {
        Some(part) => {
            let frame = under.frame_of(part.mapping);
            if mark(marks, frame) {
                return 0;
            }
            all_but_one(part.count, most)
        }
        None => {
            if !back.waits() {
                return 0;
            }
            if under.has_to_take(End::Back) {
                return 0;
            }
            most
        }
    }
}

/// So many words, that many at most, each job may move and be in its sector still; a job that waits, as many
/// as that. None where a job does anything else, or moves words of a frame that is marked; each marks its own.
pub(super) fn words_of_jobs(
    back: &Backend,
    under: &Hypervisor,
    most: u32,
    marks: &mut [u64; 17],
) -> u32
    requires live { All (IsLive under.now.grants) (hands_of back.now.ring) }
    ensures few { result ≤ most }
    ensures jobs { 0 < result → JobsSay result under.now back.now.ring marks.old }
{
    let mut least = most;
    let mut left = back.held();
    let mut last = 0;
    while let Some(number) = back.next_job(last) {
        if left == 0 {
            return 0;
        }
        least = words_of_job(back, under, number, least, marks);
        if least == 0 {
            return 0;
        }
        left -= 1;
        last = number;
    }
    if left == 0 { least } else { 0 }
}

// The same of the job of a number.
#[inline(always)]
fn words_of_job(
    back: &Backend,
    under: &Hypervisor,
    number: u64,
    most: u32,
    marks: &mut [u64; 17],
) -> u32
    requires live { All (IsLive under.now.grants) (hands_of back.now.ring) }
    ensures few { result ≤ most }
    ensures job { (n : ℕ) → 0 < n → n ≤ result → JobSays n under.now back.now.ring number marks.old marks.new }
{
    match back.sector_part(number) {
        Some(part) => {
            if mark(marks, under.frame_of(part.mapping)) {
                return 0;
            }
            if part.writes {
                // What is to be written is there, as this call says.
                let _values = back.part_values(number);
            }
            all_but_one(part.count, most)
        }
        None => match back.job_ask(number) {
            BackAsk::Wait => most,
            _ => 0,
        },
    }
}

// All of so many words but the last, as a sector's last word is told of; that many at most.
#[inline(always)]
fn all_but_one(count: u32, most: u32) -> u32
    requires { 0 < count }
    ensures few { result ≤ most }
    ensures left { result < count }
{
    most.min(count - 1)
}
