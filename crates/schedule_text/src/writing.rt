// A report's line is written word by word.
ghost use Rattle.std.specs.Prelude.{◌≡◌, ◌+◌, ◌<◌, ◌≤◌, ◌∷◌, [], ◌++◌, decimal, codes, length};
ghost use Rattle.arrayvec.specs.ArrayString.{array_string_len};
ghost use Rattle.line_text.specs.Sector.{sector_words};
ghost use Rattle.line_text.specs.Words.{spaced};
ghost use Rattle.schedule_text.specs.Parts.{AddsWords, IsWritten};
ghost use Rattle.schedule_text.specs.Line.{text_of, submission_words, halt_words, status_word, refusal_word, detail_word};

use crate::accesses::{access_of, write_access};
use crate::line::{Detail, Line};
use crate::moves::put_move;
use blk_base::{
    Abi, Config, Halt, KeyName, Move, Refusal, SectorCount, SectorWords, Status, Submission, Text,
};
use line_text::{LineText, begin, put, put_hex, put_number, put_sector, put_signed};

/// Writes the one spelling of a line, without its line feed, in place of what the text held.
pub fn write_line(line: &Line, text: &mut LineText)
    ensures written { text.new.bytes ≡ text_of line.now }
    ensures short { array_string_len text.new < 1152 }
{
    match line {
        Line::Begin { config, detail } => write_begin(text, config, *detail),
        Line::Ready => begin(text, "ready"),
        Line::Closing => begin(text, "closing"),
        Line::Closed => begin(text, "closed"),
        Line::Broken(word) => write_broken(text, *word),
        Line::Submit { id, submission } => write_submit(text, *id, submission),
        Line::Refuse(refusal) => write_refuse(text, *refusal),
        Line::Effect { id, index } => write_place(text, "effect", *id, *index),
        Line::EffectRead { id, index, words } => write_sector(text, "effect", *id, *index, words),
        Line::Flushed { id } => write_number(text, "flushed", *id),
        Line::Trimmed { id } => write_number(text, "trimmed", *id),
        Line::Fault { id, index } => write_place(text, "fault", *id, *index),
        Line::Reply { id, status } => write_status(text, "reply", *id, *status),
        Line::Answer { id, status } => write_status(text, "answer", *id, *status),
        Line::Data { id, index, words } => write_sector(text, "data", *id, *index, words),
        Line::Epoch => begin(text, "epoch"),
        Line::Halt(halt) => write_halt(text, halt),
        Line::Poke { frame, word, value } => write_poke(text, *frame, *word, *value),
        Line::Key { name, text: value } => write_key(text, name, value),
        Line::Quiet => begin(text, "quiet"),
        Line::Busy => begin(text, "busy"),
        Line::Unsettled => begin(text, "unsettled"),
        Line::Word { frame, word, value } => write_word(text, *frame, *word, *value),
        Line::End => begin(text, "end"),
        Line::Move(one) => write_shown(text, one),
    }
}

fn write_begin(text: &mut LineText, config: &Config, detail: Detail)
    ensures { IsWritten (Line.Begin config.now detail) text.new }
{
    begin(text, "begin");
    put(
        text,
        match config.abi {
            Abi::X64 => "64",
            Abi::X32 => "32",
        },
    );
    put_number(text, u64::from(config.order));
    put_number(text, u64::from(config.persistent));
    put_number(text, u64::from(config.indirect));
    put_number(text, u64::from(config.start));
    put(text, if config.read_only { "ro" } else { "rw" });
    put_number(text, config.sectors);
    put(text, detail_text(detail));
}

fn detail_text(detail: Detail) -> &'static str
    ensures value { result.now ≡ detail_word detail }
    ensures short { length result.now ≤ 20 }
{
    match detail {
        Detail::Lines => "lines",
        Detail::Moves => "moves",
    }
}

fn refusal_text(refusal: Refusal) -> &'static str
    ensures value { result.now ≡ refusal_word refusal }
    ensures short { length result.now ≤ 20 }
{
    match refusal {
        Refusal::Spent => "spent",
        Refusal::NotReady => "notready",
        Refusal::Closing => "closing",
        Refusal::Unsupported => "unsupported",
        Refusal::ReadOnly => "readonly",
        Refusal::Range => "range",
        Refusal::Long => "long",
        Refusal::Full => "full",
        Refusal::Buffers => "buffers",
    }
}

fn status_text(status: Status) -> &'static str
    ensures value { result.now ≡ status_word status }
    ensures short { length result.now ≤ 20 }
{
    match status {
        Status::Okay => "ok",
        Status::Error => "error",
        Status::Unsupported => "unsupported",
    }
}

fn write_broken(text: &mut LineText, word: u32)
    ensures { IsWritten (Line.Broken word) text.new }
{
    begin(text, "broken");
    put_hex(text, word);
}

fn write_submit(text: &mut LineText, id: u64, submission: &Submission)
    ensures { IsWritten (Line.Submit id submission.now) text.new }
{
    begin(text, "submit");
    put_number(text, id);
    put_submission(text, submission);
}

fn write_refuse(text: &mut LineText, refusal: Refusal)
    ensures { IsWritten (Line.Refuse refusal) text.new }
{
    begin(text, "refuse");
    put(text, refusal_text(refusal));
}

fn write_halt(text: &mut LineText, halt: &Halt)
    ensures { IsWritten (Line.Halt halt.now) text.new }
{
    begin(text, "halt");
    put_halt(text, halt);
}

fn write_word(text: &mut LineText, frame: u32, word: u32, value: u32)
    ensures { IsWritten (Line.Word frame word value) text.new }
{
    begin(text, "word");
    put_number(text, u64::from(frame));
    put_number(text, u64::from(word));
    put_hex(text, value);
}

/// Writes the line of a move, without its line feed, in place of what the text held.
pub fn write_shown(text: &mut LineText, one: &Move)
    ensures written { text.new.bytes ≡ text_of (Line.Move one.now) }
    ensures short { array_string_len text.new ≤ 1000 }
{
    match access_of(one) {
        Some(access) => write_access(text, &access),
        None => {
            begin(text, "m");
            put_move(text, one);
        }
    }
}

/// A word that is overwritten from outside, as a schedule and a report have it.
pub fn write_poke(text: &mut LineText, frame: u32, word: u32, value: u32)
    ensures bytes { text.new.bytes ≡ codes "poke" ++ spaced (decimal frame ∷ decimal word ∷ decimal value ∷ []) }
    ensures len { array_string_len text.new ≤ 100 }
{
    begin(text, "poke");
    put_number(text, u64::from(frame));
    put_number(text, u64::from(word));
    put_number(text, u64::from(value));
}

/// A key that is overwritten from outside, as a schedule and a report have it.
pub fn write_key(text: &mut LineText, name: &KeyName, value: &Text)
    ensures bytes { text.new.bytes ≡ codes "key" ++ spaced (name.now ∷ value.now ∷ []) }
    ensures len { array_string_len text.new ≤ 200 }
{
    begin(text, "key");
    put(text, name.as_str());
    put(text, value.as_str());
}

/// A line of a word and a number.
pub fn write_number(text: &mut LineText, name: &str, number: u64)
    requires { length name.now ≤ 100 }
    ensures bytes { text.new.bytes ≡ name.now ++ spaced (decimal number ∷ []) }
    ensures len { array_string_len text.new ≤ length name.now + 21 }
{
    begin(text, name);
    put_number(text, number);
}

/// A line of a word, a request and a sector's place in it.
fn write_place(text: &mut LineText, name: &str, id: u64, index: u32)
    requires { length name.now ≤ 80 }
    ensures bytes { text.new.bytes ≡ name.now ++ spaced (decimal id ∷ decimal index ∷ []) }
    ensures len { array_string_len text.new ≤ length name.now + 42 }
{
    begin(text, name);
    put_number(text, id);
    put_number(text, u64::from(index));
}

/// A line of a word, a request, a sector's place in it and what it holds.
fn write_sector(text: &mut LineText, name: &str, id: u64, index: u32, words: &SectorWords)
    requires { length name.now ≤ 80 }
    ensures bytes { text.new.bytes ≡ name.now ++ spaced (decimal id ∷ decimal index ∷ sector_words words.now) }
    ensures len { array_string_len text.new < 1152 }
{
    write_place(text, name, id, index);
    put_sector(text, words);
}

/// A line of a word, a request and a status.
fn write_status(text: &mut LineText, name: &str, id: u64, status: Status)
    requires { length name.now ≤ 80 }
    ensures bytes { text.new.bytes ≡ name.now ++ spaced (decimal id ∷ status_word status ∷ []) }
    ensures len { array_string_len text.new ≤ 300 }
{
    begin(text, name);
    put_number(text, id);
    put(text, status_text(status));
}

/// Adds what a request asks for.
pub fn put_submission(text: &mut LineText, submission: &Submission)
    requires { array_string_len text.old ≤ 200 }
    ensures { AddsWords (submission_words submission.now) 500 text.old text.new }
{
    match submission {
        Submission::Read { sector, count } => put_sectors(text, "read", *sector, *count),
        Submission::Write { sector, count, tag } => {
            put_sectors(text, "write", *sector, *count);
            put_hex(text, *tag);
        }
        Submission::Barrier { sector, count, tag } => {
            put_sectors(text, "barrier", *sector, *count);
            put_hex(text, *tag);
        }
        Submission::Flush => put(text, "flush"),
        Submission::Discard { sector, count } => put_sectors(text, "discard", *sector, *count),
    }
}

/// Adds an operation, its first sector and how many there are.
fn put_sectors(text: &mut LineText, name: &str, sector: u64, count: SectorCount)
    requires { array_string_len text.old + length name.now ≤ 300 }
    ensures { AddsWords (name.now ∷ decimal sector ∷ decimal count ∷ []) 400 text.old text.new }
{
    put(text, name);
    put_number(text, sector);
    put_number(text, u64::from(count.get()));
}

/// Adds why the back halted.
fn put_halt(text: &mut LineText, halt: &Halt)
    requires { array_string_len text.old ≤ 200 }
    ensures { AddsWords (halt_words halt.now) 500 text.old text.new }
{
    match halt {
        Halt::Overrun { prod, rsp_prod } => {
            put_small(text, "overrun", *prod);
            put_number(text, u64::from(*rsp_prod));
        }
        Halt::Gone(state) => put_small(text, "gone", *state),
        Halt::Unplugged(state) => put_small(text, "unplugged", *state),
        Halt::BadKey(name) => {
            put(text, "badkey");
            put(text, name.as_str());
        }
        Halt::BadOrder(state) => put_small(text, "badorder", *state),
        Halt::BadPort(port) => put_small(text, "badport", *port),
        Halt::MapRefused { gref, status } => {
            put_small(text, "refused", *gref);
            put_signed(text, *status);
        }
    }
}

/// Adds a word and a number.
fn put_small(text: &mut LineText, name: &str, number: u32)
    requires { array_string_len text.old + length name.now ≤ 300 }
    ensures { AddsWords (name.now ∷ decimal number ∷ []) 400 text.old text.new }
{
    put(text, name);
    put_number(text, u64::from(number));
}
