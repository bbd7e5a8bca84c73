// The line of an access to a word is by far the most common one. Where its numbers are short and it
// is spelled as it is to be, it is read at once; each other text is left to `read_words`.
ghost use Rattle.std.specs.Prelude.{◌≡◌, ◌∷◌, [], ◌++◌, ◌<◌, IsTrue, IfSome, codes, decimal, true};
ghost use Rattle.line_text.specs.Numbers.{hex8};
ghost use Rattle.line_text.specs.Words.{spaced};
ghost use Rattle.schedule_text.specs.declared.line.Line.{Line};
ghost use Rattle.schedule_text.specs.Access.{access_head};
ghost use Rattle.schedule_text.specs.Range.{IsTextOf, BackHasWidths, is_back_allowed};

use crate::line::Line;
use blk_base::{BackMover, Move};
use line_text::{after, number_before, whole_hex};

/// A word of a frame, and its value.
struct Place {
    frame: u32,
    word: u32,
    value: u32,
}

/// The word and its value that a text says.
fn read_place(text: &[u8]) -> Option<Place>
    ensures { IfSome result (λ at. text.now ≡ decimal at.frame ++ spaced (decimal at.word ∷ hex8 at.value ∷ [])) }
{
    let (frame, text) = number_before(text)?;
    let (word, text) = number_before(text)?;
    let value = whole_hex(text)?;
    Some(Place { frame, word, value })
}

/// Puts the line of a move in place of `line`. Most lines are moves and come after one: then the room of
/// a line, which has a sector's words, is not cleared again.
#[inline(always)]
fn put_move(made: Move, line: &mut Line)
    ensures { line.new ≡ Line.Move made }
{
    match line {
        Line::Move(last) => *last = made,
        _ => *line = Line::Move(made),
    }
}

/// Puts the line of an access in place of `line`, where the text is one; else any line may lie there.
pub fn read_access(text: &[u8], line: &mut Line) -> bool
    ensures { IsTrue result → IsTextOf line.new text.now }
{
    if let Some(rest) = after(text, "m front ") {
        return front_access(rest, line);
    }
    if let Some(rest) = after(text, "m back ") {
        return back_access(BackMover::Back, rest, line);
    }
    match after(text, "m job ") {
        Some(rest) => job_access(rest, line),
        None => false,
    }
}

/// An access of a job's.
fn job_access(text: &[u8], line: &mut Line) -> bool
    ensures { IsTrue result → IsTextOf line.new (codes "m job " ++ text.now) }
{
    match number_before(text) {
        Some((job, rest)) => job > 0 && back_access(BackMover::Job(u64::from(job)), rest, line),
        None => false,
    }
}

/// An access of the front's.
fn front_access(text: &[u8], line: &mut Line) -> bool
    ensures { IsTrue result → IsTextOf line.new (codes "m front " ++ text.now) }
{
    if let Some(rest) = after(text, "write ") {
        return front_write(rest, line);
    }
    match after(text, "read ") {
        Some(rest) => front_read(rest, line),
        None => false,
    }
}

fn front_write(text: &[u8], line: &mut Line) -> bool
    ensures { IsTrue result → IsTextOf line.new (codes "m front write " ++ text.now) }
{
    let Some(Place { frame, word, value }) = read_place(text) else {
        return false;
    };
    put_move(Move::FrontWrite { frame, word, value }, line);
    true
}

fn front_read(text: &[u8], line: &mut Line) -> bool
    ensures { IsTrue result → IsTextOf line.new (codes "m front read " ++ text.now) }
{
    let Some(Place { frame, word, value }) = read_place(text) else {
        return false;
    };
    put_move(Move::FrontRead { frame, word, value }, line);
    true
}

/// An access of the back's side, after the words that say who moves.
fn back_access(who: BackMover, text: &[u8], line: &mut Line) -> bool
    requires widths { BackHasWidths who }
    requires allowed { is_back_allowed who ≡ true }
    ensures { IsTrue result → IsTextOf line.new (access_head who ++ 32 ∷ text.now) }
{
    if let Some(rest) = after(text, "read ") {
        return back_read(who, rest, line);
    }
    match after(text, "write ") {
        Some(rest) => back_write(who, rest, line),
        None => false,
    }
}

fn back_read(who: BackMover, text: &[u8], line: &mut Line) -> bool
    requires widths { BackHasWidths who }
    requires allowed { is_back_allowed who ≡ true }
    ensures { IsTrue result → IsTextOf line.new (access_head who ++ 32 ∷ (codes "read " ++ text.now)) }
{
    let Some((number, rest)) = number_before(text) else {
        return false;
    };
    let Some(Place { frame, word, value }) = read_place(rest) else {
        return false;
    };
    let made = Move::Read {
        who,
        mapping: u64::from(number),
        frame,
        word,
        value,
    };
    put_move(made, line);
    true
}

fn back_write(who: BackMover, text: &[u8], line: &mut Line) -> bool
    requires widths { BackHasWidths who }
    requires allowed { is_back_allowed who ≡ true }
    ensures { IsTrue result → IsTextOf line.new (access_head who ++ 32 ∷ (codes "write " ++ text.now)) }
{
    let Some((number, rest)) = number_before(text) else {
        return false;
    };
    let Some(Place { frame, word, value }) = read_place(rest) else {
        return false;
    };
    let made = Move::Write {
        who,
        mapping: u64::from(number),
        frame,
        word,
        value,
    };
    put_move(made, line);
    true
}
