// Where a job of a number stands.
ghost use Rattle.std.specs.Prelude.{◌≡◌, ◌<◌, ◌+◌, ◌&&◌, ◌↔◌, IfSome, IsTrue, Some, length};
ghost use Rattle.back_jobs.specs.Order.{IsFirstFrom, IsNumberAt, number_at, is_above, is_below};
ghost use Rattle.back_jobs.specs.Sound.{AreAscending};
ghost use Rattle.back_jobs.specs.Jobs.{place_of, next_in};

use crate::held_job::HeldJob;

// Where the job of a number stands.
pub(super) fn place_in(held: &[HeldJob], number: u64) -> Option<usize>
    ensures place { result ≡ place_of held.now number }
    ensures within { IfSome result (λ place. place < length held.now) }
{
    held.iter().position(|job| job.number() == number)
}

// The least number above this one.
pub(super) fn next_in(held: &[HeldJob], number: u64) -> Option<u64>
    ensures { result ≡ next_in held.now number }
{
    match held.iter().find(|job| number < job.number()) {
        None => None,
        Some(job) => Some(job.number()),
    }
}

// Whether the first job has this number.
#[inline(always)]
pub(super) fn is_first(held: &[HeldJob], number: u64) -> bool
    ensures { IsTrue result ↔ (number_at held.now 0 ≡ Some number) }
{
    match held.first() {
        None => false,
        Some(job) => job.number() == number,
    }
}

// The number of the job at a place.
#[inline(always)]
pub(super) fn number_at(held: &[HeldJob], place: usize) -> Option<u64>
    ensures { result ≡ number_at held.now place }
{
    if place < held.len() {
        Some(held[place].number())
    } else {
        None
    }
}

// The place of the first job whose number isn't below this one, among jobs whose numbers ascend; how
// many there are where there is none.
pub(super) fn first_from(held: &[HeldJob], number: u64) -> usize
    requires { AreAscending held.now }
    ensures { IsFirstFrom number held.now result }
{
    match guess(held, number) {
        Some(place) => place,
        None => by_halves(held, number),
    }
}

// The same, found by halves.
pub(super) fn by_halves(held: &[HeldJob], number: u64) -> usize
    requires { AreAscending held.now }
    ensures { IsFirstFrom number held.now result }
{
    held.partition_point(|job| job.number() < number)
}

// The place of the first job whose number is above this one, among such jobs.
pub(super) fn first_above(held: &[HeldJob], number: u64) -> usize
    requires { AreAscending held.now }
    ensures { IsFirstFrom (number + 1) held.now result }
{
    if is_below(held, number) {
        return 0;
    }
    if is_past(held, number) {
        return held.len();
    }
    if let Some(place) = guess(held, number) {
        return place + 1;
    }
    held.partition_point(|job| job.number() <= number)
}

// Whether a number is below that of the first job; also where there is no job.
fn is_below(held: &[HeldJob], number: u64) -> bool
    ensures { result ≡ is_below held.now number }
{
    match held.first() {
        None => true,
        Some(job) => number < job.number(),
    }
}

// Whether no job has a number above this one, among jobs whose numbers ascend; also where there is no job.
#[inline(always)]
fn is_past(held: &[HeldJob], number: u64) -> bool
    ensures { result ≡ is_above held.now (number + 1) }
{
    match held.last() {
        None => true,
        Some(job) => job.number() <= number,
    }
}

// The place of the job of a number where all jobs from the first one's number to it are held, as they
// mostly are.
#[inline(always)]
pub(super) fn guess(held: &[HeldJob], number: u64) -> Option<usize>
    ensures { IfSome result (λ place. IsNumberAt number held.now place) }
{
    let first = held.first()?.number();
    let place = number.wrapping_sub(first) as usize;
    match number_at(held, place) {
        Some(found) if found == number => Some(place),
        _ => None,
    }
}

// Whether numbers that ascended, or not, ascend with this one after them.
pub(super) fn goes_on_ascending(ascending: bool, held: &[HeldJob], number: u64) -> bool
    ensures { result ≡ (ascending && is_above held.now number) }
{
    match held.last() {
        None => ascending,
        Some(job) => ascending && job.number() < number,
    }
}
