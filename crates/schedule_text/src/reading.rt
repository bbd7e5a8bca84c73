// What the words of a report's line say, if they are those of a line. Any words are read as some
// line; `read_line` sees by writing it again whether they are that line's.
ghost use Rattle.std.specs.Prelude.{◌≡◌};
ghost use Rattle.line_text.specs.Words.{first_of, later, words_in};
ghost use Rattle.schedule_text.specs.Parts.{IsReadAs};
ghost use Rattle.schedule_text.specs.Range.{HaltHasWidths, SubmissionHasWidths, AreOptions, IsCount};
ghost use Rattle.schedule_text.specs.Reading.{line_at, word_line_at, request_at, other_at, effect_at, data_at, halt_at, job_at, count_of, options_at, status_at, detail_at, refusal_at};

use crate::line::{Detail, Line};
use crate::reading_moves::movement;
use blk_base::{Abi, Config, Halt, Refusal, SectorCount, Status, Submission};
use line_text::{Words, is, sector, short_text};

/// Reads the line that words say. Lines are large: it is made where it is to lie.
#[tactic(auto, unfolding(crate::specs::Reading::line_at))]
pub fn read_words(bytes: &[u8], line: &mut Line)
    ensures { IsReadAs (line_at (words_in bytes.now)) line.new }
{
    let mut words = Words::new(bytes);
    let name = words.next();
    if is(name, "m") {
        movement(&mut words, line);
    } else {
        read_word_line(name, &mut words, line);
    }
}

// Reads a line that is no move's.
#[inline(never)]
fn read_word_line(name: &[u8], words: &mut Words, line: &mut Line)
    ensures { IsReadAs (word_line_at name.now words.old) line.new }
{
    *line = word_line(name, words);
}

/// A line of one word, or one of those below.
fn word_line(name: &[u8], words: &mut Words) -> Line
    ensures { IsReadAs (word_line_at name.now words.old) result }
{
    if is(name, "ready") {
        Line::Ready
    } else if is(name, "closing") {
        Line::Closing
    } else if is(name, "closed") {
        Line::Closed
    } else if is(name, "epoch") {
        Line::Epoch
    } else if is(name, "quiet") {
        Line::Quiet
    } else if is(name, "busy") {
        Line::Busy
    } else if is(name, "unsettled") {
        Line::Unsettled
    } else if is(name, "end") {
        Line::End
    } else {
        request_line(name, words)
    }
}

/// A line of a request, or one of those below.
fn request_line(name: &[u8], words: &mut Words) -> Line
    ensures { IsReadAs (request_at name.now words.old) result }
{
    if is(name, "submit") {
        let id = words.number();
        let submission = submission(words);
        Line::Submit { id, submission }
    } else if is(name, "effect") {
        effect_line(words)
    } else if is(name, "flushed") {
        Line::Flushed { id: words.number() }
    } else if is(name, "trimmed") {
        Line::Trimmed { id: words.number() }
    } else if is(name, "fault") {
        let id = words.number();
        let index = words.small();
        Line::Fault { id, index }
    } else if is(name, "reply") {
        let id = words.number();
        let status = status(words.next());
        Line::Reply { id, status }
    } else if is(name, "answer") {
        let id = words.number();
        let status = status(words.next());
        Line::Answer { id, status }
    } else if is(name, "data") {
        data_line(words)
    } else {
        other_line(name, words)
    }
}

/// An effect, with what was read where that is told.
fn effect_line(words: &mut Words) -> Line
    ensures { IsReadAs (effect_at words.old) result }
{
    let id = words.number();
    let index = words.small();
    let first = words.next();
    if first.is_empty() {
        Line::Effect { id, index }
    } else {
        let words = sector(first, words);
        Line::EffectRead { id, index, words }
    }
}

/// A sector that a request read.
fn data_line(words: &mut Words) -> Line
    ensures { IsReadAs (data_at words.old) result }
{
    let id = words.number();
    let index = words.small();
    let first = words.next();
    let words = sector(first, words);
    Line::Data { id, index, words }
}

/// Another line with numbers in it.
fn other_line(name: &[u8], words: &mut Words) -> Line
    ensures { IsReadAs (other_at name.now words.old) result }
{
    if is(name, "begin") {
        let config = options(words);
        let detail = detail(words.next());
        Line::Begin { config, detail }
    } else if is(name, "broken") {
        Line::Broken(words.hex())
    } else if is(name, "refuse") {
        Line::Refuse(refusal(words.next()))
    } else if is(name, "halt") {
        Line::Halt(halt(words))
    } else if is(name, "poke") {
        let frame = words.small();
        let word = words.small();
        let value = words.small();
        Line::Poke { frame, word, value }
    } else if is(name, "key") {
        let name = short_text(words.next());
        let text = short_text(words.next());
        Line::Key { name, text }
    } else {
        let frame = words.small();
        let word = words.small();
        let value = words.hex();
        Line::Word { frame, word, value }
    }
}

/// The options of a run, each in its range.
fn options(words: &mut Words) -> Config
    ensures value { result ≡ options_at words.old }
    ensures widths { AreOptions result }
    ensures rest { words.new ≡ later (later (later (later (later (later (later words.old)))))) }
{
    let abi = if is(words.next(), "64") {
        Abi::X64
    } else {
        Abi::X32
    };
    let order = words.small().min(4);
    let persistent = words.small().min(1000);
    let indirect = words.small().min(960);
    let start = words.small();
    let read_only = is(words.next(), "ro");
    let sectors = words.number();
    Config {
        abi,
        order,
        persistent,
        indirect,
        start,
        read_only,
        sectors,
    }
}

fn detail(word: &[u8]) -> Detail
    ensures { result ≡ detail_at word.now }
{
    if is(word, "lines") {
        Detail::Lines
    } else {
        Detail::Moves
    }
}

fn status(word: &[u8]) -> Status
    ensures { result ≡ status_at word.now }
{
    if is(word, "ok") {
        Status::Okay
    } else if is(word, "error") {
        Status::Error
    } else {
        Status::Unsupported
    }
}

fn refusal(word: &[u8]) -> Refusal
    ensures { result ≡ refusal_at word.now }
{
    if is(word, "spent") {
        Refusal::Spent
    } else if is(word, "notready") {
        Refusal::NotReady
    } else if is(word, "closing") {
        Refusal::Closing
    } else if is(word, "unsupported") {
        Refusal::Unsupported
    } else if is(word, "readonly") {
        Refusal::ReadOnly
    } else if is(word, "range") {
        Refusal::Range
    } else if is(word, "long") {
        Refusal::Long
    } else if is(word, "full") {
        Refusal::Full
    } else {
        Refusal::Buffers
    }
}

/// A number of sectors, which isn't 0.
fn count(words: &mut Words) -> SectorCount
    ensures value { result ≡ count_of (first_of words.old) }
    ensures widths { IsCount result }
    ensures rest { words.new ≡ later words.old }
{
    match SectorCount::new(words.small().max(1)) {
        Some(count) => count,
        None => unreachable!(),
    }
}

/// What a request asks for.
pub fn submission(words: &mut Words) -> Submission
    ensures says { result ≡ job_at words.old }
    ensures widths { SubmissionHasWidths result }
{
    let name = words.next();
    if is(name, "flush") {
        return Submission::Flush;
    }
    let sector = words.number();
    let count = count(words);
    if is(name, "read") {
        Submission::Read { sector, count }
    } else if is(name, "write") {
        let tag = words.hex();
        Submission::Write { sector, count, tag }
    } else if is(name, "barrier") {
        let tag = words.hex();
        Submission::Barrier { sector, count, tag }
    } else {
        Submission::Discard { sector, count }
    }
}

/// Why the back halted.
fn halt(words: &mut Words) -> Halt
    ensures says { result ≡ halt_at words.old }
    ensures widths { HaltHasWidths result }
{
    let name = words.next();
    if is(name, "overrun") {
        let prod = words.small();
        let rsp_prod = words.small();
        Halt::Overrun { prod, rsp_prod }
    } else if is(name, "gone") {
        Halt::Gone(words.small())
    } else if is(name, "unplugged") {
        Halt::Unplugged(words.small())
    } else if is(name, "badkey") {
        Halt::BadKey(short_text(words.next()))
    } else if is(name, "badorder") {
        Halt::BadOrder(words.small())
    } else if is(name, "badport") {
        Halt::BadPort(words.small())
    } else {
        let gref = words.small();
        let status = words.signed();
        Halt::MapRefused { gref, status }
    }
}
