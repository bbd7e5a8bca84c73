// Whether a line is in the grammar.
ghost use Rattle.std.specs.Prelude.{◌≡◌, ◌↔◌, IsTrue, IfOk, IsOkAnd, IfSome, IsSome, IsErr, OnOk, ◌<◌, ◌≤◌, length};
ghost use Rattle.schedule_text.specs.Range.{IsTextOf};
ghost use Rattle.schedule_text.specs.declared.line.Line.{Line};
ghost use Rattle.schedule_text.specs.declared.event.Event.{Event};
ghost use Rattle.schedule_text.specs.Event.{IsEventOf, IsReadOf, IsSilent};

use crate::event::{BadLine, Event};
use crate::line::Line;
use crate::ranges::is_allowed;
use crate::reading::read_words;
use crate::reading_access::read_access;
use crate::schedule::{event_of, is_event_allowed, write_event};
use crate::writing::write_line;
use line_text::{LineText, are_equal};

/// The line of a report that has this text, without its line feed. `BadLine` comes exactly where
/// no line has it.
pub fn read_line(bytes: &[u8]) -> Result<Line, BadLine>
    // What is read is a line of the grammar that has this text.
    ensures found { IfOk result (λ line. IsTextOf line bytes.now) }
    // Each line that has this text is read, and no other one has it.
    ensures only { (line : Line) → IsTextOf line bytes.now → result ≡ Ok line }
{
    let mut line = Line::End;
    let mut text = LineText::new();
    match read_line_into(bytes, &mut line, &mut text) {
        Ok(()) => Ok(line),
        Err(BadLine) => Err(BadLine),
    }
}

/// Puts the line of a report that has this text, without its line feed, in place of `line`, and its
/// text in place of `text`: whoever reads many lines keeps the room for both. `BadLine` comes
/// exactly where no line has it.
pub fn read_line_into(bytes: &[u8], line: &mut Line, text: &mut LineText) -> Result<(), BadLine>
    // What is read is a line of the grammar that has this text.
    ensures found { OnOk result (IsTextOf line.new bytes.now) }
    // Each line that has this text is read, and no other one has it.
    ensures only { (said : Line) → IsTextOf said bytes.now → IsOkAnd result (λ _. line.new ≡ said) }
{
    if read_access(bytes, line) {
        return Ok(());
    }
    read_words(bytes, line);
    if !is_allowed(line) {
        return Err(BadLine);
    }
    write_line(line, text);
    if has_bytes(text, bytes) {
        Ok(())
    } else {
        Err(BadLine)
    }
}

/// The event of a line of a schedule, without its line feed; `None` exactly for an empty line and
/// for a comment, a line of at most 128 bytes that begins with `#`. `BadLine` comes exactly where
/// the bytes are neither, nor an event's text.
pub fn read_event(bytes: &[u8]) -> Result<Option<Event>, BadLine>
    // What is read is a silent line, or an event of the grammar that has this text.
    ensures found { IfOk result (λ read. IsReadOf read bytes.now) }
    // A silent line is read as no event.
    ensures silent { IsSilent bytes.now → result ≡ Ok None }
    // Each event that has this text is read, and no other one has it.
    ensures only { (event : Event) → IsEventOf event bytes.now → result ≡ Ok (Some event) }
{
    match bytes {
        [] => Ok(None),
        [b'#', ..] => comment(bytes),
        _ => spoken(bytes),
    }
}

/// The event of a line that isn't silent.
fn spoken(bytes: &[u8]) -> Result<Option<Event>, BadLine>
    ensures found { IfOk result (λ read. IfSome read (λ event. IsEventOf event bytes.now) × IsSome read) }
    ensures only { (event : Event) → IsEventOf event bytes.now → result ≡ Ok (Some event) }
{
    let event = event_of(bytes);
    if !is_event_allowed(&event) {
        return Err(BadLine);
    }
    let mut text = LineText::new();
    write_event(&event, &mut text);
    if !has_bytes(&text, bytes) {
        return Err(BadLine);
    }
    Ok(Some(event))
}

/// A comment, which has at most 128 bytes.
fn comment(bytes: &[u8]) -> Result<Option<Event>, BadLine>
    ensures short { length bytes.now ≤ 128 → result ≡ Ok None }
    ensures long { 128 < length bytes.now → IsErr result }
{
    if bytes.len() <= 128 {
        Ok(None)
    } else {
        Err(BadLine)
    }
}

/// Whether a text has these bytes.
fn has_bytes(text: &LineText, bytes: &[u8]) -> bool
    ensures { IsTrue result ↔ (text.now.bytes ≡ bytes.now) }
{
    are_equal(text.as_str().as_bytes(), bytes)
}
