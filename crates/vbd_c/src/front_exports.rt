// What C calls of a front: `include/vbd_front.h` says of each call what it is for, and what its numbers mean.
ghost use Rattle.std.specs.Prelude.{◌≡◌, None, IfSome, is_some};
ghost use Rattle.vbd_front.specs.Ask.{StaysInMemory};
ghost use Rattle.vbd_front.specs.Keep.{start_as, ask_as, step_as};
ghost use Rattle.vbd_front.specs.Part.{sector_part};
ghost use Rattle.blk_front.specs.Part.{AsksEach, IsWithin};
ghost use Rattle.vbd_c.specs.Status.{code_of};
ghost use Rattle.vbd_c.specs.Answer.{front_answer_of};
ghost use Rattle.vbd_c.specs.Submission.{submission_of};
ghost use Rattle.vbd_c.specs.Bytes.{copied, copied_count, IsNoText};
ghost use Rattle.vbd_c.specs.Handle.{found, MadeAs};
ghost use Rattle.vbd_c.specs.FrontHeld.{asked, path_in, text_in, options_of, closed_in, close_status_in};
ghost use Rattle.vbd_c.specs.FrontHeld.{AnsweredAs, answered_in, status_in, key_answer, watch_answer};
ghost use Rattle.vbd_c.specs.FrontHeld.{submitted_in, submit_status_in, number_in, told_in, told_numbers, heard_in};
ghost use Rattle.vbd_c.specs.FrontHeld.{owed_in, suspended_in};
ghost use Rattle.vbd_c.specs.FrontPart.{part_in, part_numbers, written_in, written_status_in, WrittenAs, read_in, read_status_in, ReadAs};

use crate::answer::AnswerNumbers;
use crate::bytes::{copy_text, short_text};
use crate::front_ask::{FrontAskNumbers, path_of, text_of};
use crate::front_handle::FrontHandle;
use crate::front_part::SectorPartNumbers;
use crate::front_told::{FrontToldNumbers, numbers_told};
use crate::options::FrontOptions;
use crate::owed::OwedNumbers;
use crate::status::Status;
use crate::submission::SubmissionNumbers;
use blk_base::{FrontAnswer, Lent};
use std::alloc::Global;

/// Makes a front in a handle that has none. `OutOfRange` where the order is above 4, `InUse`, or `NoMemory`: then nothing
/// changes.
#[unsafe(no_mangle)]
pub extern "C" fn vbd_front_new(
    alloc: Global,
    front: &mut FrontHandle,
    options: &FrontOptions,
) -> u32
    ensures { MadeAs start_as (options_of options.now) front.old.place.held front.new.place.held result }
{
    front.make(alloc, options).code()
}

/// Leaves the handle without a front.
#[unsafe(no_mangle)]
pub extern "C" fn vbd_front_free(alloc: Global, front: &mut FrontHandle)
    ensures { front.new.place.held ≡ None }
{
    drop(front.take(alloc));
}

/// What the front asks. Without a front nothing is written.
#[unsafe(no_mangle)]
pub extern "C" fn vbd_front_ask(
    alloc: Global,
    front: &mut FrontHandle,
    ask: &mut FrontAskNumbers,
) -> u32
    ensures held { front.new.place.held ≡ front.old.place.held }
    ensures ask { ask.new ≡ asked front.old.place.held ask.old }
    ensures within { IfSome front.old.place.held (λ v. StaysInMemory (ask_as v)) }
    ensures status { result ≡ code_of (found front.old.place.held) }
{
    let Some(held) = front.take(alloc) else {
        return Status::Empty.code();
    };
    *ask = FrontAskNumbers::of(&held.ask());
    front.put(held);
    Status::Done.code()
}

/// The path of the key or the watch that the front asks for, copied to the front of `bytes`; 0 where there is none, or no
/// room for it.
#[unsafe(no_mangle)]
pub extern "C" fn vbd_front_path(alloc: Global, front: &mut FrontHandle, bytes: &mut [u8]) -> usize
    ensures held { front.new.place.held ≡ front.old.place.held }
    ensures bytes { bytes.new ≡ copied (path_in front.old.place.held) bytes.old }
    ensures count { result ≡ copied_count (path_in front.old.place.held) bytes.old }
{
    let Some(held) = front.take(alloc) else {
        return copy_text("", bytes);
    };
    let path = path_of(&held.ask());
    front.put(held);
    copy_text(path.as_str(), bytes)
}

/// The text that the key is to have, likewise.
#[unsafe(no_mangle)]
pub extern "C" fn vbd_front_text(alloc: Global, front: &mut FrontHandle, bytes: &mut [u8]) -> usize
    ensures held { front.new.place.held ≡ front.old.place.held }
    ensures bytes { bytes.new ≡ copied (text_in front.old.place.held) bytes.old }
    ensures count { result ≡ copied_count (text_in front.old.place.held) bytes.old }
{
    let Some(held) = front.take(alloc) else {
        return copy_text("", bytes);
    };
    let text = text_of(&held.ask());
    front.put(held);
    copy_text(text.as_str(), bytes)
}

/// Answers what the front asks.
#[unsafe(no_mangle)]
pub extern "C" fn vbd_front_complete(
    alloc: Global,
    front: &mut FrontHandle,
    answer: &AnswerNumbers,
) -> u32
    ensures held { front.new.place.held ≡ answered_in front.old.place.held (front_answer_of answer.now) }
    ensures status { result ≡ code_of (status_in front.old.place.held (front_answer_of answer.now)) }
    ensures answered { AnsweredAs front.old.place.held (front_answer_of answer.now) front.new.place.held }
{
    front.answer(alloc, answer.front_answer()).code()
}

/// Answers with the text of a key. `OutOfRange`, and nothing changes, where these are no text of at most 64 bytes.
#[unsafe(no_mangle)]
pub extern "C" fn vbd_front_key(alloc: Global, front: &mut FrontHandle, text: &[u8]) -> u32
    ensures held { ¬ (IsNoText 64 text.now) → front.new.place.held ≡ answered_in front.old.place.held (key_answer text.now) }
    ensures status { ¬ (IsNoText 64 text.now) → result ≡ code_of (status_in front.old.place.held (key_answer text.now)) }
    ensures answered { ¬ (IsNoText 64 text.now) → AnsweredAs front.old.place.held (key_answer text.now) front.new.place.held }
    ensures no_text { IsNoText 64 text.now → (front.new.place.held ≡ front.old.place.held) × (result ≡ 7) }
{
    match short_text::<64>(text) {
        Some(text) => {
            let answer = FrontAnswer::Key(Some(Lent::at(&text)));
            front.answer(alloc, Some(answer)).code()
        }
        None => Status::OutOfRange.code(),
    }
}

/// Answers with the path of a watch. `OutOfRange`, and nothing changes, where these are no text of at most 80 bytes.
#[unsafe(no_mangle)]
pub extern "C" fn vbd_front_watched(alloc: Global, front: &mut FrontHandle, path: &[u8]) -> u32
    ensures held { ¬ (IsNoText 80 path.now) → front.new.place.held ≡ answered_in front.old.place.held (watch_answer path.now) }
    ensures status { ¬ (IsNoText 80 path.now) → result ≡ code_of (status_in front.old.place.held (watch_answer path.now)) }
    ensures answered { ¬ (IsNoText 80 path.now) → AnsweredAs front.old.place.held (watch_answer path.now) front.new.place.held }
    ensures no_text { IsNoText 80 path.now → (front.new.place.held ≡ front.old.place.held) × (result ≡ 7) }
{
    match short_text::<80>(path) {
        Some(path) => {
            let answer = FrontAnswer::Watched(Lent::at(&path));
            front.answer(alloc, Some(answer)).code()
        }
        None => Status::OutOfRange.code(),
    }
}

/// What words of a request's data the front asks for next, up to the last word of their sector; false, and nothing is
/// written, where it asks for none.
#[unsafe(no_mangle)]
pub extern "C" fn vbd_front_part(
    alloc: Global,
    front: &mut FrontHandle,
    part: &mut SectorPartNumbers,
) -> bool
    ensures held { front.new.place.held ≡ front.old.place.held }
    ensures part { part.new ≡ part_numbers (part_in front.old.place.held) part.old }
    ensures any { result ≡ is_some (part_in front.old.place.held) }
    ensures asked { IfSome front.old.place.held (λ v. IfSome (sector_part v.ends) (AsksEach ask_as step_as v)) }
    ensures within { IfSome (part_in front.old.place.held) IsWithin }
{
    let Some(held) = front.take(alloc) else {
        return false;
    };
    let asked = held.sector_part();
    front.put(held);
    match asked {
        Some(asked) => {
            *part = SectorPartNumbers::of(&asked);
            true
        }
        None => false,
    }
}

/// Answers that so many of the words that are written were: as many single answers.
#[unsafe(no_mangle)]
pub extern "C" fn vbd_front_part_written(
    alloc: Global,
    front: &mut FrontHandle,
    count: usize,
) -> u32
    ensures held { front.new.place.held ≡ written_in front.old.place.held count }
    ensures status { result ≡ code_of (written_status_in front.old.place.held count) }
    ensures answered { WrittenAs front.old.place.held count front.new.place.held }
{
    let Some(mut held) = front.take(alloc) else {
        return Status::Empty.code();
    };
    let status = held.part_written(count);
    front.put(held);
    status.code()
}

/// Answers with words that were read of those that are: as many single answers.
#[unsafe(no_mangle)]
pub extern "C" fn vbd_front_part_read(alloc: Global, front: &mut FrontHandle, words: &[u32]) -> u32
    ensures held { front.new.place.held ≡ read_in front.old.place.held words.now }
    ensures status { result ≡ code_of (read_status_in front.old.place.held words.now) }
    ensures answered { ReadAs front.old.place.held words.now front.new.place.held }
{
    let Some(mut held) = front.take(alloc) else {
        return Status::Empty.code();
    };
    let status = held.part_read(words);
    front.put(held);
    status.code()
}

/// What is to be told, once; false, and nothing is written, where that is nothing.
#[unsafe(no_mangle)]
pub extern "C" fn vbd_front_told(
    alloc: Global,
    front: &mut FrontHandle,
    told: &mut FrontToldNumbers,
) -> bool
    ensures held { front.new.place.held ≡ heard_in front.old.place.held }
    ensures told { told.new ≡ told_numbers (told_in front.old.place.held) told.old }
    ensures any { result ≡ is_some (told_in front.old.place.held) }
{
    let Some(mut held) = front.take(alloc) else {
        return false;
    };
    let (said, news) = held.take_told();
    front.put(held);
    match numbers_told(said, news) {
        Some(numbers) => {
            *told = numbers;
            true
        }
        None => false,
    }
}

/// Hands the front a request, whose number is written. A refusal, or `OutOfRange` where the numbers say no submission,
/// changes nothing.
#[unsafe(no_mangle)]
pub extern "C" fn vbd_front_submit(
    alloc: Global,
    front: &mut FrontHandle,
    submission: &SubmissionNumbers,
    id: &mut u32,
) -> u32
    ensures held { front.new.place.held ≡ submitted_in front.old.place.held (submission_of submission.now) }
    ensures id { id.new ≡ number_in front.old.place.held (submission_of submission.now) id.old }
    ensures status { result ≡ code_of (submit_status_in front.old.place.held (submission_of submission.now)) }
    ensures refused { ¬ (result ≡ 0) → (front.new.place.held ≡ front.old.place.held) × (id.new ≡ id.old) }
{
    let Some(mut held) = front.take(alloc) else {
        return Status::Empty.code();
    };
    let status = match submission.submission() {
        Some(submission) => match held.submit(submission) {
            Ok(number) => {
                *id = number;
                Status::Done
            }
            Err(why) => Status::Refused(why),
        },
        None => Status::OutOfRange,
    };
    front.put(held);
    status.code()
}

/// How many requests are unfinished, and how many sectors they move. Without a front nothing is written.
#[unsafe(no_mangle)]
pub extern "C" fn vbd_front_owed(
    alloc: Global,
    front: &mut FrontHandle,
    owed: &mut OwedNumbers,
) -> u32
    ensures held { front.new.place.held ≡ front.old.place.held }
    ensures owed { owed.new ≡ owed_in front.old.place.held owed.old }
    ensures status { result ≡ code_of (found front.old.place.held) }
{
    let Some(held) = front.take(alloc) else {
        return Status::Empty.code();
    };
    let (requests, sectors) = held.owed();
    *owed = OwedNumbers { requests, sectors };
    front.put(held);
    Status::Done.code()
}

/// The front is to close. `Untold` changes nothing.
#[unsafe(no_mangle)]
pub extern "C" fn vbd_front_close(alloc: Global, front: &mut FrontHandle) -> u32
    ensures held { front.new.place.held ≡ closed_in front.old.place.held }
    ensures status { result ≡ code_of (close_status_in front.old.place.held) }
{
    let Some(mut held) = front.take(alloc) else {
        return Status::Empty.code();
    };
    let status = held.close();
    front.put(held);
    status.code()
}

/// The domain was suspended and resumes: the front negotiates anew, and issues what isn't finished again.
#[unsafe(no_mangle)]
pub extern "C" fn vbd_front_suspend(alloc: Global, front: &mut FrontHandle) -> u32
    ensures held { front.new.place.held ≡ suspended_in front.old.place.held }
    ensures status { result ≡ code_of (found front.old.place.held) }
{
    let Some(mut held) = front.take(alloc) else {
        return Status::Empty.code();
    };
    held.suspend();
    front.put(held);
    Status::Done.code()
}
