// A line of a schedule, written and read.
ghost use Rattle.std.specs.Prelude.{◌≡◌, ◌≤◌, ◌∷◌, [], ◌++◌, length};
ghost use Rattle.line_text.specs.Words.{spaced, words_in};
ghost use Rattle.schedule_text.specs.Event.{event_text, EventHasWidths, is_event_allowed, is_number, end_word};
ghost use Rattle.schedule_text.specs.EventReading.{event_at, other_event_at, end_at};

use crate::event::Event;
use crate::reading::submission;
use crate::writing::{put_submission, write_key, write_number, write_poke};
use blk_base::End;
use line_text::{
    LineText, Words, begin, is, is_key_name, is_key_text, put, put_number, short_text,
};

/// Writes the one spelling of a schedule's line, without its line feed.
pub fn write_event(event: &Event, text: &mut LineText)
    ensures { text.new.bytes ≡ event_text event.now }
{
    match event {
        Event::Submit(submission) => {
            begin(text, "submit");
            put_submission(text, submission);
        }
        Event::Front(moves) => write_number(text, "front", u64::from(*moves)),
        Event::Back(moves) => write_number(text, "back", u64::from(*moves)),
        Event::Job { number, moves } => {
            write_number(text, "job", u64::from(*number));
            put_number(text, u64::from(*moves));
        }
        Event::Turn(rounds) => write_number(text, "turn", u64::from(*rounds)),
        Event::Settle => begin(text, "settle"),
        Event::Look => begin(text, "look"),
        Event::Notify(end) => write_end(text, "notify", *end),
        Event::Suspend => begin(text, "suspend"),
        Event::Close(end) => write_end(text, "close", *end),
        Event::Poke { frame, word, value } => write_poke(text, *frame, *word, *value),
        Event::Key { name, text: value } => write_key(text, name, value),
        Event::Dump => begin(text, "dump"),
    }
}

/// A line of a word and an end.
fn write_end(text: &mut LineText, name: &str, end: End)
    requires { length name.now ≤ 100 }
    ensures { text.new.bytes ≡ name.now ++ spaced (end_word end ∷ []) }
{
    begin(text, name);
    put(text, end_text(end));
}

fn end_text(end: End) -> &'static str
    ensures { result.now ≡ end_word end }
{
    match end {
        End::Front => "front",
        End::Back => "back",
    }
}

/// The event that words say. Any words are read as some event.
#[tactic(auto, unfolding(crate::specs::EventReading::event_at))]
pub fn event_of(bytes: &[u8]) -> Event
    ensures says { result ≡ event_at (words_in bytes.now) }
    ensures widths { EventHasWidths result }
{
    let mut words = Words::new(bytes);
    let name = words.next();
    if is(name, "submit") {
        Event::Submit(submission(&mut words))
    } else if is(name, "front") {
        Event::Front(words.small())
    } else if is(name, "back") {
        Event::Back(words.small())
    } else if is(name, "job") {
        let number = words.small();
        let moves = words.small();
        Event::Job { number, moves }
    } else if is(name, "turn") {
        Event::Turn(words.small())
    } else {
        other_event(name, &mut words)
    }
}

/// An event that is no move's.
fn other_event(name: &[u8], words: &mut Words) -> Event
    ensures says { result ≡ other_event_at name.now words.old }
    ensures widths { EventHasWidths result }
{
    if is(name, "settle") {
        Event::Settle
    } else if is(name, "look") {
        Event::Look
    } else if is(name, "notify") {
        Event::Notify(end(words.next()))
    } else if is(name, "suspend") {
        Event::Suspend
    } else if is(name, "close") {
        Event::Close(end(words.next()))
    } else if is(name, "poke") {
        let frame = words.small();
        let word = words.small();
        let value = words.small();
        Event::Poke { frame, word, value }
    } else if is(name, "key") {
        let name = short_text(words.next());
        let text = short_text(words.next());
        Event::Key { name, text }
    } else {
        Event::Dump
    }
}

fn end(word: &[u8]) -> End
    ensures { result ≡ end_at word.now }
{
    if is(word, "front") {
        End::Front
    } else {
        End::Back
    }
}

/// Whether an event is one of the grammar: its texts, and the numbers that have bounds of their own.
pub fn is_event_allowed(event: &Event) -> bool
    ensures { result ≡ is_event_allowed event.now }
{
    match event {
        Event::Front(n) | Event::Back(n) | Event::Turn(n) => is_number(*n),
        Event::Job { number, moves } => is_number(*number) && is_number(*moves),
        Event::Poke { frame, word, .. } => *frame < 1024 && *word < 1024,
        Event::Key { name, text } => {
            is_key_name(name.as_str().as_bytes()) && is_key_text(text.as_str().as_bytes())
        }
        Event::Submit(_)
        | Event::Settle
        | Event::Look
        | Event::Notify(_)
        | Event::Suspend
        | Event::Close(_)
        | Event::Dump => true,
    }
}

/// Whether a number of moves, of rounds or of a job is 1 to 1000000.
fn is_number(n: u32) -> bool
    ensures { result ≡ is_number n }
{
    n > 0 && n <= 1_000_000
}
