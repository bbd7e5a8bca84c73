// What the back writes for a reply, and the lines that tell of it.
ghost use Rattle.std.specs.Prelude.{◌≡◌};
ghost use Rattle.report_rules.specs.Reply.{end_of, is_event, value_at, are_alike, is_like, is_reply};

use crate::walk::Spot;
use blk_base::Status;
use schedule_text::Line;

/// How a job's work ended, if it did.
pub fn end_of(failed: bool, tasks: usize, served: Status, s: Option<Spot>) -> Option<Status>
    ensures { result ≡ end_of failed tasks served s }
{
    if failed {
        return Some(Status::Error);
    }
    let s = s?;
    if s.refused {
        Some(Status::Error)
    } else if s.place == 0 && tasks <= s.done {
        Some(served)
    } else {
        None
    }
}

/// Whether a word of the ring is `req_event`.
pub fn is_event(word: Option<u128>) -> bool
    ensures { result ≡ is_event word }
{
    match word {
        None => false,
        Some(word) => word == 1,
    }
}

fn value_at(values: &[u32], i: usize) -> u32
    ensures { result ≡ value_at values.now i }
{
    if i < values.len() { values[i] } else { 0 }
}

// Whether two rows have the same words, up to the last one that is looked at.
fn are_alike(last: usize, xs: &[u32; 3], ys: &[u32; 3]) -> bool
    ensures { result ≡ are_alike last xs.now ys.now }
{
    value_at(xs, 0) == value_at(ys, 0)
        && (last == 0 || value_at(xs, 1) == value_at(ys, 1))
        && (last < 2 || value_at(xs, 2) == value_at(ys, 2))
}

/// Whether a row has the words of a response, up to the last one that is looked at.
pub fn is_like(last: usize, row: &[u32; 3], words: &Option<[u32; 3]>) -> bool
    ensures { result ≡ is_like last row.now words.now }
{
    match words {
        None => false,
        Some(words) => are_alike(last, row, words),
    }
}

/// Whether a line tells of a reply.
pub fn is_reply(line: &Line) -> bool
    ensures { result ≡ is_reply line.now }
{
    matches!(*line, Line::Reply { .. })
}
