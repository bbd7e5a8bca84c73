// What C calls: `include/vbd.h` says of each call what it is for, and what its numbers mean.
ghost use Rattle.std.specs.Prelude.{◌≡◌, ◌≤◌, None, IfSome, is_some, length};
ghost use Rattle.back_jobs.specs.Hands.{Names};
ghost use Rattle.blk_back.specs.Hands.{hands_of, all_hands_of, most_with_kept};
ghost use Rattle.vbd_c.specs.Status.{code_of};
ghost use Rattle.vbd_c.specs.Move.{ask_of, Stays};
ghost use Rattle.vbd_c.specs.Answer.{answer_of};
ghost use Rattle.vbd_c.specs.Bytes.{copied, copied_count, IsNoText, sector_copied, is_sector_copied};
ghost use Rattle.vbd_c.specs.View.{start_of};
ghost use Rattle.vbd_c.specs.Handle.{found, MadeAs};
ghost use Rattle.vbd_c.specs.Held.{asked, path_in, text_in, words_in, next_job_in, SuspendedIn};
ghost use Rattle.vbd_c.specs.Held.{AnsweredAs, answered_in, status_in, mapping_in, key_answer, watch_answer, sector_answer};
ghost use Rattle.vbd_c.specs.Held.{told_in, told_numbers, heard_in, halt_in, halt_numbers, halt_key, closed_in, options_of};

use crate::answer::AnswerNumbers;
use crate::ask::{AskNumbers, path_of, text_of, words_of};
use crate::bytes::{copy_sector, copy_text, sector_of, short_text};
use crate::halt::{HaltNumbers, key_of, numbers_halted};
use crate::handle::Handle;
use crate::options::BackOptions;
use crate::status::Status;
use crate::told::{ToldNumbers, numbers_told};
use blk_base::{BackAnswer, Lent};
use std::alloc::Global;

/// Makes a back in a handle that has none. `OutOfRange` where an indirect request might have more than 960 segments, or more
/// than 1000 mappings might be kept, `InUse`, or `NoMemory`: then nothing changes.
#[unsafe(no_mangle)]
pub extern "C" fn vbd_back_new(alloc: Global, back: &mut Handle, options: &BackOptions) -> u32
    ensures { MadeAs start_of (options_of options.now) back.old.place.held back.new.place.held result }
{
    back.make(alloc, options).code()
}

/// Leaves the handle without a back.
#[unsafe(no_mangle)]
pub extern "C" fn vbd_back_free(alloc: Global, back: &mut Handle)
    ensures { back.new.place.held ≡ None }
{
    drop(back.take(alloc));
}

/// What the back asks, where `job` is 0, or the job of that number. Without a back nothing is written.
#[unsafe(no_mangle)]
pub extern "C" fn vbd_back_ask(
    alloc: Global,
    back: &mut Handle,
    job: u64,
    ask: &mut AskNumbers,
) -> u32
    ensures held { back.new.place.held ≡ back.old.place.held }
    ensures ask { ask.new ≡ asked back.old.place.held job ask.old }
    ensures within { IfSome back.old.place.held (λ v. Stays v job (ask_of v job)) }
    ensures names { IfSome back.old.place.held (λ v. Names (hands_of v.back.ends.ring) (ask_of v job)) }
    ensures few { IfSome back.old.place.held (λ v. length (all_hands_of v.back.ends.ring) ≤ most_with_kept) }
    ensures status { result ≡ code_of (found back.old.place.held) }
{
    let Some(held) = back.take(alloc) else {
        return Status::Empty.code();
    };
    *ask = AskNumbers::of(&held.ask(job));
    back.put(held);
    Status::Done.code()
}

/// The path of the key or the watch that the back asks for, copied to the front of `bytes`; 0 where there is none, or no
/// room for it.
#[unsafe(no_mangle)]
pub extern "C" fn vbd_back_path(alloc: Global, back: &mut Handle, bytes: &mut [u8]) -> usize
    ensures held { back.new.place.held ≡ back.old.place.held }
    ensures bytes { bytes.new ≡ copied (path_in back.old.place.held) bytes.old }
    ensures count { result ≡ copied_count (path_in back.old.place.held) bytes.old }
{
    let Some(held) = back.take(alloc) else {
        return copy_text("", bytes);
    };
    let path = path_of(&held.ask(0));
    back.put(held);
    copy_text(path.as_str(), bytes)
}

/// The text that the key is to have, likewise.
#[unsafe(no_mangle)]
pub extern "C" fn vbd_back_text(alloc: Global, back: &mut Handle, bytes: &mut [u8]) -> usize
    ensures held { back.new.place.held ≡ back.old.place.held }
    ensures bytes { bytes.new ≡ copied (text_in back.old.place.held) bytes.old }
    ensures count { result ≡ copied_count (text_in back.old.place.held) bytes.old }
{
    let Some(held) = back.take(alloc) else {
        return copy_text("", bytes);
    };
    let text = text_of(&held.ask(0));
    back.put(held);
    copy_text(text.as_str(), bytes)
}

/// The words of the sector that a job has written; false where it has none written, or `words` aren't 128.
#[unsafe(no_mangle)]
pub extern "C" fn vbd_back_words(
    alloc: Global,
    back: &mut Handle,
    job: u64,
    words: &mut [u32],
) -> bool
    ensures held { back.new.place.held ≡ back.old.place.held }
    ensures words { words.new ≡ sector_copied (words_in back.old.place.held job) words.old }
    ensures copied { result ≡ is_sector_copied (words_in back.old.place.held job) words.old }
{
    let Some(held) = back.take(alloc) else {
        return false;
    };
    let sector = words_of(&held.ask(job));
    back.put(held);
    copy_sector(sector, words)
}

/// Answers what the back or a job asks.
#[unsafe(no_mangle)]
pub extern "C" fn vbd_back_complete(
    alloc: Global,
    back: &mut Handle,
    job: u64,
    answer: &AnswerNumbers,
) -> u32
    ensures held { back.new.place.held ≡ answered_in back.old.place.held job (answer_of answer.now) }
    ensures status { result ≡ code_of (status_in back.old.place.held job (answer_of answer.now)) }
    ensures answered { AnsweredAs back.old.place.held job (answer_of answer.now) back.new.place.held }
{
    back.answer(alloc, job, answer.answer()).code()
}

/// Answers a map with the number of the mapping that was made.
#[unsafe(no_mangle)]
pub extern "C" fn vbd_back_mapped(alloc: Global, back: &mut Handle, job: u64, number: u64) -> u32
    ensures held { back.new.place.held ≡ answered_in back.old.place.held job (mapping_in back.old.place.held job number) }
    ensures status { result ≡ code_of (status_in back.old.place.held job (mapping_in back.old.place.held job number)) }
    ensures answered { AnsweredAs back.old.place.held job (mapping_in back.old.place.held job number) back.new.place.held }
{
    let Some(mut held) = back.take(alloc) else {
        return Status::Empty.code();
    };
    let status = held.answer_map(job, number);
    back.put(held);
    status.code()
}

/// Answers with the text of a key. `OutOfRange`, and nothing changes, where these are no text of at most 64 bytes.
#[unsafe(no_mangle)]
pub extern "C" fn vbd_back_key(alloc: Global, back: &mut Handle, text: &[u8]) -> u32
    ensures held { ¬ (IsNoText 64 text.now) → back.new.place.held ≡ answered_in back.old.place.held 0 (key_answer text.now) }
    ensures status { ¬ (IsNoText 64 text.now) → result ≡ code_of (status_in back.old.place.held 0 (key_answer text.now)) }
    ensures answered { ¬ (IsNoText 64 text.now) → AnsweredAs back.old.place.held 0 (key_answer text.now) back.new.place.held }
    ensures no_text { IsNoText 64 text.now → (back.new.place.held ≡ back.old.place.held) × (result ≡ 7) }
{
    match short_text::<64>(text) {
        Some(text) => {
            let answer = BackAnswer::Key(Some(Lent::at(&text)));
            back.answer(alloc, 0, Some(answer)).code()
        }
        None => Status::OutOfRange.code(),
    }
}

/// Answers with the path of a watch. `OutOfRange`, and nothing changes, where these are no text of at most 80 bytes.
#[unsafe(no_mangle)]
pub extern "C" fn vbd_back_watched(alloc: Global, back: &mut Handle, path: &[u8]) -> u32
    ensures held { ¬ (IsNoText 80 path.now) → back.new.place.held ≡ answered_in back.old.place.held 0 (watch_answer path.now) }
    ensures status { ¬ (IsNoText 80 path.now) → result ≡ code_of (status_in back.old.place.held 0 (watch_answer path.now)) }
    ensures answered { ¬ (IsNoText 80 path.now) → AnsweredAs back.old.place.held 0 (watch_answer path.now) back.new.place.held }
    ensures no_text { IsNoText 80 path.now → (back.new.place.held ≡ back.old.place.held) × (result ≡ 7) }
{
    match short_text::<80>(path) {
        Some(path) => {
            let answer = BackAnswer::Watched(Lent::at(&path));
            back.answer(alloc, 0, Some(answer)).code()
        }
        None => Status::OutOfRange.code(),
    }
}

/// Answers with the words of a sector; `NotAllowed`, and nothing changes, where they aren't 128.
#[unsafe(no_mangle)]
pub extern "C" fn vbd_back_sector(alloc: Global, back: &mut Handle, job: u64, words: &[u32]) -> u32
    ensures held { back.new.place.held ≡ answered_in back.old.place.held job (sector_answer words.now) }
    ensures status { result ≡ code_of (status_in back.old.place.held job (sector_answer words.now)) }
    ensures answered { AnsweredAs back.old.place.held job (sector_answer words.now) back.new.place.held }
{
    match sector_of(words) {
        Some(words) => {
            let answer = BackAnswer::Sector(Lent::at(&words));
            back.answer(alloc, job, Some(answer)).code()
        }
        None => back.answer(alloc, job, None).code(),
    }
}

/// The least number above `after` of a job that is held; 0 where there is none.
#[unsafe(no_mangle)]
pub extern "C" fn vbd_back_next_job(alloc: Global, back: &mut Handle, after: u64) -> u64
    ensures held { back.new.place.held ≡ back.old.place.held }
    ensures number { result ≡ next_job_in back.old.place.held after }
{
    let Some(held) = back.take(alloc) else {
        return 0;
    };
    let next = held.next_job(after);
    back.put(held);
    next.unwrap_or(0)
}

/// What the last move told, once; false, and nothing is written, where that is nothing.
#[unsafe(no_mangle)]
pub extern "C" fn vbd_back_told(alloc: Global, back: &mut Handle, told: &mut ToldNumbers) -> bool
    ensures held { back.new.place.held ≡ heard_in back.old.place.held }
    ensures told { told.new ≡ told_numbers (told_in back.old.place.held) told.old }
    ensures any { result ≡ is_some (told_in back.old.place.held) }
{
    let Some(mut held) = back.take(alloc) else {
        return false;
    };
    let said = held.take_told();
    back.put(held);
    match said {
        Some(said) => {
            *told = numbers_told(said);
            true
        }
        None => false,
    }
}

/// Why the back halted; false, and nothing is written, where it didn't.
#[unsafe(no_mangle)]
pub extern "C" fn vbd_back_halted(alloc: Global, back: &mut Handle, halt: &mut HaltNumbers) -> bool
    ensures held { back.new.place.held ≡ back.old.place.held }
    ensures halt { halt.new ≡ halt_numbers (halt_in back.old.place.held) halt.old }
    ensures any { result ≡ is_some (halt_in back.old.place.held) }
{
    let Some(held) = back.take(alloc) else {
        return false;
    };
    let why = held.halted();
    back.put(held);
    match why {
        Some(why) => {
            *halt = numbers_halted(why);
            true
        }
        None => false,
    }
}

/// The name of the key for which the back halted, as `vbd_back_path` a path.
#[unsafe(no_mangle)]
pub extern "C" fn vbd_back_halt_key(alloc: Global, back: &mut Handle, bytes: &mut [u8]) -> usize
    ensures held { back.new.place.held ≡ back.old.place.held }
    ensures bytes { bytes.new ≡ copied (halt_key (halt_in back.old.place.held)) bytes.old }
    ensures count { result ≡ copied_count (halt_key (halt_in back.old.place.held)) bytes.old }
{
    let Some(held) = back.take(alloc) else {
        return copy_text("", bytes);
    };
    let why = held.halted();
    back.put(held);
    match why {
        Some(why) => copy_text(key_of(why).as_str(), bytes),
        None => copy_text("", bytes),
    }
}

/// The back is to close.
#[unsafe(no_mangle)]
pub extern "C" fn vbd_back_close(alloc: Global, back: &mut Handle) -> u32
    ensures held { back.new.place.held ≡ closed_in back.old.place.held }
    ensures status { result ≡ code_of (found back.old.place.held) }
{
    let Some(mut held) = back.take(alloc) else {
        return Status::Empty.code();
    };
    held.close();
    back.put(held);
    Status::Done.code()
}

/// The guest's domain was suspended: the back is made anew, of a ring of this first index, and has halted where the front
/// isn't going on. `Untold` and `NoMemory` change nothing.
#[unsafe(no_mangle)]
pub extern "C" fn vbd_back_suspend(alloc: Global, back: &mut Handle, start: u32, going: bool) -> u32
    ensures { SuspendedIn start going back.old.place.held back.new.place.held result }
{
    let Some(mut held) = back.take(alloc) else {
        return Status::Empty.code();
    };
    let status = held.suspend(alloc, start, going);
    back.put(held);
    status.code()
}
