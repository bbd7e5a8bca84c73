// A line that is made from its end: each piece is put before what stands there, so a number's digits are
// made where they stay. Whoever makes one has room for the whole line, and each piece answers where it
// begins.
ghost use Rattle.std.specs.Prelude.{◌≡◌, ◌+◌, ◌≤◌, ◌∷◌, ◌++◌, length, drop, decimal};
ghost use Rattle.line_text.specs.Numbers.{hex8};

use crate::writing::eight;
use itoa::write_digits;

/// Puts these bytes before the bytes from `end` on.
#[inline(always)]
fn prepend_bytes(room: &mut [u8], end: usize, bytes: &[u8]) -> usize
    requires before { length bytes.now ≤ end }
    requires within { end ≤ length room.old }
    ensures written { drop result room.new ≡ bytes.now ++ drop end room.old }
    ensures start { result + length bytes.now ≡ end }
{
    let start = end - bytes.len();
    room[start..end].copy_from_slice(bytes);
    start
}

/// Puts a text before the bytes from `end` on.
#[inline(always)]
pub fn prepend(room: &mut [u8], end: usize, text: &str) -> usize
    requires before { length text.now ≤ end }
    requires within { end ≤ length room.old }
    ensures written { drop result room.new ≡ text.now ++ drop end room.old }
    ensures start { result + length text.now ≡ end }
{
    prepend_bytes(room, end, text.as_bytes())
}

/// Puts a space and a number in decimal digits before the bytes from `end` on.
pub fn prepend_number(room: &mut [u8], end: usize, number: u64) -> usize
    requires before { 21 ≤ end }
    requires within { end ≤ length room.old }
    ensures written { drop result room.new ≡ 32 ∷ decimal number ++ drop end room.old }
    ensures start { (result ≤ end) × (end ≤ result + 21) }
{
    let space = write_digits(number, room, end) - 1;
    room[space] = b' ';
    space
}

/// Puts a space and a word as eight hexadecimal digits before the bytes from `end` on.
#[inline(always)]
pub fn prepend_hex(room: &mut [u8], end: usize, word: u32) -> usize
    requires before { 9 ≤ end }
    requires within { end ≤ length room.old }
    ensures written { drop result room.new ≡ 32 ∷ hex8 word ++ drop end room.old }
    ensures start { result + 9 ≡ end }
{
    let d = eight(word);
    // The nine bytes as one array: so the compiler makes the digits side by side.
    let bytes = [b' ', d[0], d[1], d[2], d[3], d[4], d[5], d[6], d[7]];
    prepend_bytes(room, end, &bytes)
}
