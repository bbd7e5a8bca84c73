// Which jobs are done.
ghost use Rattle.std.specs.Prelude.{◌≡◌, ◌<◌, ◌≤◌, true, drop, position, length, vec_capacity};
ghost use Rattle.std.specs.List.Sorted.{IsNonDecreasing};
ghost use Rattle.back_jobs.specs.Order.{put, done_with};
ghost use Rattle.back_jobs.specs.Sound.{AreAscending, done_place, done_numbers};
ghost use Rattle.back_jobs.specs.Jobs.{is_done};
ghost use Rattle.back_jobs.specs.Work.{Work};

use super::finding::first_from;
use crate::held_job::HeldJob;

// The place of the lowest job that is done, where these are the numbers of those that are; by a walk
// where numbers don't ascend.
pub(super) fn lowest_done(held: &[HeldJob], ascending: bool, finished: &[u64]) -> usize
    requires in_order { ascending ≡ true → AreAscending held.now }
    requires listed { ascending ≡ true → finished.now ≡ done_numbers held.now }
    ensures { result ≡ done_place held.now }
{
    if !ascending {
        return first_done(held);
    }
    match finished.first() {
        None => held.len(),
        Some(number) => first_from(held, *number),
    }
}

// Where numbers ascend, puts the number of a job that is done among those of the others. There is
// room for it.
pub(super) fn note(numbers: &mut Vec<u64>, number: u64, ascending: bool)
    requires ascending { ascending ≡ true → IsNonDecreasing numbers.old.items }
    requires has_room { ascending ≡ true → length numbers.old.items < vec_capacity numbers.old }
    ensures items { ascending ≡ true → numbers.new.items ≡ put number numbers.old.items }
    ensures capacity { vec_capacity numbers.old ≤ vec_capacity numbers.new }
{
    if ascending {
        let place = numbers.as_slice().partition_point(|n| *n < number);
        let _ = numbers.insert(place, number);
    }
}

// Drops the first number.
pub(super) fn drop_first(numbers: &mut Vec<u64>)
    ensures items { numbers.new.items ≡ drop 1 numbers.old.items }
    ensures capacity { vec_capacity numbers.new ≡ vec_capacity numbers.old }
{
    if !numbers.is_empty() {
        let _ = numbers.remove(0);
    }
}

// The place of the lowest job that is done; how many there are where none is.
pub(super) fn first_done(held: &[HeldJob]) -> usize
    ensures { result ≡ done_place held.now }
{
    match done_in(held) {
        None => held.len(),
        Some(place) => place,
    }
}

// Where the lowest job that is done stands.
fn done_in(held: &[HeldJob]) -> Option<usize>
    ensures { result ≡ position (λ (t : Work). is_done t) held.now }
{
    held.iter().position(|job| job.is_done())
}

// The place of the lowest job that is done after one more was begun, which is done at once or not.
pub(super) fn done_with(done: usize, count: usize, is_done: bool) -> usize
    requires { count < 4294967296 }
    ensures { result ≡ done_with done count is_done }
{
    if done != count {
        done
    } else if is_done {
        count
    } else {
        count + 1
    }
}
