// What C calls to move the words of a sector many at once (`include/vbd.h`).
ghost use Rattle.std.specs.Prelude.{◌≡◌, true, false, None, IfSome, is_some, length};
ghost use Rattle.back_jobs.specs.Part.{words_read, words_written, AsksEach, IsReadPart, IsWrittenPart, IsWithinPage, NamesPart};
ghost use Rattle.blk_back.specs.Hands.{hands_of};
ghost use Rattle.vbd_c.specs.Status.{code_of};
ghost use Rattle.vbd_c.specs.Part.{part_of, part_in, values_of, values_in, asked_after, part_numbers, copied_values, values_copied, part_answered_in, part_status_in, PartAnsweredIn};

use crate::handle::Handle;
use crate::part::{PartNumbers, copy_values, numbers_of_part};
use crate::status::Status;
use std::alloc::Global;

/// The words of a sector that a job has read or written next, one after another; false, and nothing is written, where it
/// asks for none.
#[unsafe(no_mangle)]
pub extern "C" fn vbd_back_part(
    alloc: Global,
    back: &mut Handle,
    job: u64,
    part: &mut PartNumbers,
) -> bool
    ensures held { back.new.place.held ≡ back.old.place.held }
    ensures part { part.new ≡ part_numbers (part_in back.old.place.held job) part.old }
    ensures any { result ≡ is_some (part_in back.old.place.held job) }
    ensures each { IfSome back.old.place.held (λ v. v.told ≡ None → IfSome (part_of v job) (λ part. AsksEach part (values_of v job) (asked_after v job))) }
    ensures within { IfSome (part_in back.old.place.held job) (λ part. IsWithinPage part) }
    ensures names { IfSome back.old.place.held (λ v. IfSome (part_of v job) (λ part. NamesPart (hands_of v.back.ends.ring) part)) }
{
    let Some(held) = back.take(alloc) else {
        return false;
    };
    let asked = held.part(job);
    back.put(held);
    match asked {
        Some(asked) => {
            *part = numbers_of_part(asked);
            true
        }
        None => false,
    }
}

/// The words that are to be written to a part that is written, as many as there is room for, copied to the front of
/// `words`; how many, which is 0 where none are to be written.
#[unsafe(no_mangle)]
pub extern "C" fn vbd_back_part_words(
    alloc: Global,
    back: &mut Handle,
    job: u64,
    words: &mut [u32],
) -> usize
    ensures held { back.new.place.held ≡ back.old.place.held }
    ensures words { words.new ≡ values_copied (values_in back.old.place.held job) words.old }
    ensures count { result ≡ copied_values (values_in back.old.place.held job) words.old }
{
    let Some(held) = back.take(alloc) else {
        return copy_values(&[], words);
    };
    let count = copy_values(held.part_values(job), words);
    back.put(held);
    count
}

/// Answers that these words were read, the first ones of the part that a job asks for.
#[unsafe(no_mangle)]
pub extern "C" fn vbd_back_part_read(
    alloc: Global,
    back: &mut Handle,
    job: u64,
    words: &[u32],
) -> u32
    ensures held { back.new.place.held ≡ part_answered_in back.old.place.held job false (length words.now) (words_read words.now) }
    ensures status { result ≡ code_of (part_status_in back.old.place.held job false (length words.now)) }
    ensures answered { PartAnsweredIn back.old.place.held job (λ part. IsReadPart part (length words.now)) (words_read words.now) back.new.place.held }
{
    let Some(mut held) = back.take(alloc) else {
        return Status::Empty.code();
    };
    let status = held.read_part(job, words);
    back.put(held);
    status.code()
}

/// Answers that so many words were written, the first ones of the part that a job asks for.
#[unsafe(no_mangle)]
pub extern "C" fn vbd_back_part_written(
    alloc: Global,
    back: &mut Handle,
    job: u64,
    count: usize,
) -> u32
    ensures held { back.new.place.held ≡ part_answered_in back.old.place.held job true count (words_written count) }
    ensures status { result ≡ code_of (part_status_in back.old.place.held job true count) }
    ensures answered { PartAnsweredIn back.old.place.held job (λ part. IsWrittenPart part count) (words_written count) back.new.place.held }
{
    let Some(mut held) = back.take(alloc) else {
        return Status::Empty.code();
    };
    let status = held.wrote_part(job, count);
    back.put(held);
    status.code()
}
