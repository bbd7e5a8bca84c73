// The line of a read or a write of a word as a recorder writes it: most lines of a report with moves are
// such ones, so each is made from its end, in a room of its own, and no digit is moved once it is made.
ghost use Rattle.std.specs.Prelude.{◌≡◌, ◌≤◌, ◌∷◌, [], decimal, length, drop};
ghost use Rattle.blk_base.specs.Access.{move_of};
ghost use Rattle.line_text.specs.Numbers.{hex8};
ghost use Rattle.line_text.specs.Words.{spaced};
ghost use Rattle.schedule_text.specs.declared.line.Line.{Line};
ghost use Rattle.schedule_text.specs.Access.{access_head, Prepends};
ghost use Rattle.schedule_text.specs.Line.{text_of};
ghost use Rattle.schedule_text.specs.Recorder.{line_bytes};

use blk_base::{Access, BackMover};
use line_text::{prepend, prepend_hex, prepend_number};

/// Room for the longest line of an access and its line feed.
pub type AccessRoom = [u8; 112];

/// Writes the line of an access, and its line feed, at the end of the room, and answers where it begins.
#[inline(always)]
pub fn end_with_access(room: &mut AccessRoom, access: &Access) -> usize
    ensures written { drop result room.new ≡ line_bytes (Line.Move (move_of access.now)) }
    ensures within { result ≤ 112 }
{
    room[111] = b'\n';
    prepend_access(room, 111, access)
}

/// Puts the line of an access, without its line feed, before the bytes from `end` on, and answers where
/// it begins.
#[inline(always)]
fn prepend_access(room: &mut [u8], end: usize, access: &Access) -> usize
    requires before { 111 ≤ end }
    requires within { end ≤ length room.old }
    ensures { Prepends (text_of (Line.Move (move_of access.now))) 111 room.old end room.new result }
{
    match *access {
        Access::FrontRead { frame, word, value } => {
            let place = prepend_place(room, end, frame, word, value);
            prepend(room, place, "m front read")
        }
        Access::FrontWrite { frame, word, value } => {
            let place = prepend_place(room, end, frame, word, value);
            prepend(room, place, "m front write")
        }
        Access::Read {
            who,
            mapping,
            frame,
            word,
            value,
        } => {
            let mapped = prepend_mapped(room, end, mapping, frame, word, value);
            let name = prepend(room, mapped, " read");
            prepend_head(room, name, who)
        }
        Access::Write {
            who,
            mapping,
            frame,
            word,
            value,
        } => {
            let mapped = prepend_mapped(room, end, mapping, frame, word, value);
            let name = prepend(room, mapped, " write");
            prepend_head(room, name, who)
        }
    }
}

/// Puts the words that say who of the back's side moves before the bytes from `end` on.
#[inline(always)]
fn prepend_head(room: &mut [u8], end: usize, who: BackMover) -> usize
    requires before { 26 ≤ end }
    requires within { end ≤ length room.old }
    ensures { Prepends (access_head who) 26 room.old end room.new result }
{
    match who {
        BackMover::Back => prepend(room, end, "m back"),
        BackMover::Job(k) => {
            let number = prepend_number(room, end, k);
            prepend(room, number, "m job")
        }
    }
}

/// Puts a mapping, a word's place and its value before the bytes from `end` on.
#[inline(always)]
fn prepend_mapped(
    room: &mut [u8],
    end: usize,
    mapping: u64,
    frame: u32,
    word: u32,
    value: u32,
) -> usize
    requires before { 72 ≤ end }
    requires within { end ≤ length room.old }
    ensures { Prepends (spaced (decimal mapping ∷ decimal frame ∷ decimal word ∷ hex8 value ∷ [])) 72 room.old end room.new result }
{
    let place = prepend_place(room, end, frame, word, value);
    prepend_number(room, place, mapping)
}

/// Puts a word's place and its value before the bytes from `end` on.
#[inline(always)]
fn prepend_place(room: &mut [u8], end: usize, frame: u32, word: u32, value: u32) -> usize
    requires before { 51 ≤ end }
    requires within { end ≤ length room.old }
    ensures { Prepends (spaced (decimal frame ∷ decimal word ∷ hex8 value ∷ [])) 51 room.old end room.new result }
{
    let digits = prepend_hex(room, end, value);
    let place = prepend_number(room, digits, u64::from(word));
    prepend_number(room, place, u64::from(frame))
}
