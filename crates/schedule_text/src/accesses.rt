// The line of a read or a write of a word. Most lines of a report with moves are such ones, so each is
// written by few pieces.
ghost use Rattle.std.specs.Prelude.{◌≡◌, ◌+◌, ◌≤◌, ◌∷◌, [], ◌++◌, decimal, codes, length, IfSome, is_some};
ghost use Rattle.arrayvec.specs.ArrayString.{array_string_len};
ghost use Rattle.blk_base.specs.Access.{move_of, is_access};
ghost use Rattle.line_text.specs.Numbers.{hex8};
ghost use Rattle.line_text.specs.Words.{spaced};
ghost use Rattle.schedule_text.specs.declared.line.Line.{Line};
ghost use Rattle.schedule_text.specs.Access.{access_head};
ghost use Rattle.schedule_text.specs.Line.{text_of};
ghost use Rattle.schedule_text.specs.Parts.{AddsWords};

use crate::moves::put_place;
use blk_base::{Access, BackMover, Move};
use line_text::{LineText, begin, put, put_number};

/// The access that a move is; `None` where it is none.
pub fn access_of(one: &Move) -> Option<Access>
    ensures same { IfSome result (λ access. move_of access ≡ one.now) }
    ensures all { is_some result ≡ is_access one.now }
{
    match *one {
        Move::FrontRead { frame, word, value } => Some(Access::FrontRead { frame, word, value }),
        Move::FrontWrite { frame, word, value } => Some(Access::FrontWrite { frame, word, value }),
        Move::Read {
            who,
            mapping,
            frame,
            word,
            value,
        } => Some(Access::Read {
            who,
            mapping,
            frame,
            word,
            value,
        }),
        Move::Write {
            who,
            mapping,
            frame,
            word,
            value,
        } => Some(Access::Write {
            who,
            mapping,
            frame,
            word,
            value,
        }),
        _ => None,
    }
}

/// Writes the line of an access, without its line feed, in place of what the text held.
#[inline(always)]
pub fn write_access(text: &mut LineText, access: &Access)
    ensures written { text.new.bytes ≡ text_of (Line.Move (move_of access.now)) }
    ensures short { array_string_len text.new ≤ 1000 }
{
    match *access {
        Access::FrontRead { frame, word, value } => {
            begin(text, "m front read");
            put_place(text, frame, word, value);
        }
        Access::FrontWrite { frame, word, value } => {
            begin(text, "m front write");
            put_place(text, frame, word, value);
        }
        Access::Read {
            who,
            mapping,
            frame,
            word,
            value,
        } => {
            begin_back(text, who);
            put(text, "read");
            put_mapped(text, mapping, frame, word, value);
        }
        Access::Write {
            who,
            mapping,
            frame,
            word,
            value,
        } => {
            begin_back(text, who);
            put(text, "write");
            put_mapped(text, mapping, frame, word, value);
        }
    }
}

/// Begins the line of a move of the back's side.
fn begin_back(text: &mut LineText, who: BackMover)
    ensures bytes { text.new.bytes ≡ access_head who }
    ensures len { array_string_len text.new ≤ 30 }
{
    match who {
        BackMover::Back => begin(text, "m back"),
        BackMover::Job(k) => {
            begin(text, "m job");
            put_number(text, k);
        }
    }
}

/// Adds the mapping, the word's place and its value.
fn put_mapped(text: &mut LineText, mapping: u64, frame: u32, word: u32, value: u32)
    requires { array_string_len text.old ≤ 200 }
    ensures { AddsWords (decimal mapping ∷ decimal frame ∷ decimal word ∷ hex8 value ∷ []) 450 text.old text.new }
{
    put_number(text, mapping);
    put_place(text, frame, word, value);
}
