// A line is written word by word.
ghost use Rattle.std.specs.Prelude.{◌≡◌, ℕ, ◌+◌, ◌<◌, ◌≤◌, ◌∷◌, ◌++◌, length, decimal, IsAscii};
ghost use Rattle.std.specs.Fmt.{signed_decimal};
ghost use Rattle.arrayvec.specs.ArrayString.{array_string_len};
ghost use Rattle.line_text.specs.Numbers.{hex8, glyph};

use arrayvec::ArrayString;
use itoa::{Buffer, write_digits};
use std::str;

/// A line of a report, at most 1,152 bytes.
pub type LineText = ArrayString<1152>;

/// Makes this word the first one.
pub fn begin(text: &mut LineText, word: &str)
    requires { length word.now ≤ 1152 }
    ensures bytes { text.new.bytes ≡ word.now }
    ensures len { array_string_len text.new ≡ length word.now }
{
    text.clear();
    text.push_str(word);
}

/// Adds a space and this word.
pub fn put(text: &mut LineText, word: &str)
    requires { array_string_len text.old + length word.now < 1152 }
    ensures bytes { text.new.bytes ≡ text.old.bytes ++ 32 ∷ word.now }
    ensures len { array_string_len text.new ≡ array_string_len text.old + length word.now + 1 }
{
    text.push_str(" ");
    text.push_str(word);
}

/// Adds a space and a number in decimal digits.
pub fn put_number(text: &mut LineText, number: u64)
    requires { array_string_len text.old + 21 ≤ 1152 }
    ensures bytes { text.new.bytes ≡ text.old.bytes ++ 32 ∷ decimal number }
    ensures len { array_string_len text.new ≤ array_string_len text.old + 21 }
{
    let mut bytes = [0; 21];
    let space = write_digits(number, &mut bytes, 21) - 1;
    bytes[space] = b' ';
    text.push_str(unsafe { str::from_utf8_unchecked(&bytes[space..]) });
}

/// Adds a space and a signed number in decimal digits.
pub fn put_signed(text: &mut LineText, number: i32)
    requires { array_string_len text.old + 12 ≤ 1152 }
    ensures bytes { text.new.bytes ≡ text.old.bytes ++ 32 ∷ signed_decimal number }
    ensures len { array_string_len text.new ≤ array_string_len text.old + 12 }
{
    let mut buffer = Buffer::new();
    put(text, buffer.format(number));
}

/// A hexadecimal digit, of a number below 16.
pub fn digit(d: u32) -> u8
    requires { d < 16 }
    ensures value { result ≡ glyph d }
    ensures ascii { result < 128 }
{
    if d < 10 { b'0' + d as u8 } else { 87 + d as u8 }
}

/// The eight digits of a word.
#[tactic(auto, unfolding(crate::specs::Numbers::hex8))]
pub fn eight(word: u32) -> [u8; 8]
    ensures digits { result ≡ hex8 word }
    ensures ascii { IsAscii result }
{
    [
        digit(word / (1 << 28)),
        digit(word / (1 << 24) % 16),
        digit(word / (1 << 20) % 16),
        digit(word / (1 << 16) % 16),
        digit(word / (1 << 12) % 16),
        digit(word / (1 << 8) % 16),
        digit(word / (1 << 4) % 16),
        digit(word % 16),
    ]
}

/// Adds a space and a word as eight hexadecimal digits.
pub fn put_hex(text: &mut LineText, word: u32)
    requires { array_string_len text.old + 9 ≤ 1152 }
    ensures bytes { text.new.bytes ≡ text.old.bytes ++ 32 ∷ hex8 word }
    ensures len { array_string_len text.new ≡ array_string_len text.old + 9 }
{
    let d = eight(word);
    let bytes = [b' ', d[0], d[1], d[2], d[3], d[4], d[5], d[6], d[7]];
    text.push_str(unsafe { str::from_utf8_unchecked(&bytes) });
}
