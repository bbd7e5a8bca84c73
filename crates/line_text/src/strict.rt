// Numbers and words of memory in their one spelling, read from the head of a text at once. Long
// numbers aren't taken: whoever needs them reads the text another way.
ghost use Rattle.std.specs.Prelude.{◌≡◌, ◌<◌, ◌/◌, ◌%◌, ◌++◌, ◌∷◌, [], decimal, IfSome};
ghost use Rattle.line_text.specs.Numbers.{glyph, hex8};

use crate::words::is;

/// What follows a text's head; `None` where it begins with another.
#[inline(always)]
pub fn after<'a>(text: &'a [u8], head: &str) -> Option<&'a [u8]>
    ensures { IfSome result (λ rest. text.now ≡ head.now ++ rest.now) }
{
    let count = head.len();
    if text.len() < count || !is(&text[..count], head) {
        return None;
    }
    Some(&text[count..])
}

/// A short number, and what follows the space after it.
pub fn number_before(text: &[u8]) -> Option<(u32, &[u8])>
    ensures { IfSome result (λ read. text.now ≡ decimal read.0 ++ 32 ∷ read.1.now) }
{
    let mut number: u32 = 0;
    for (at, byte) in text.iter().enumerate() {
        if *byte == b' ' {
            return if at > 0 {
                Some((number, &text[at + 1..]))
            } else {
                None
            };
        }
        let is_zero_first = at > 0 && number == 0;
        if *byte < b'0' || *byte > b'9' || is_zero_first || number >= 400_000_000 {
            return None;
        }
        number = number * 10 + u32::from(*byte - b'0');
    }
    None
}

/// The value of a digit of a word; `None` where the byte isn't one.
fn hex_digit(byte: u8) -> Option<u32>
    ensures { IfSome result (λ d. (d < 16) × (byte ≡ glyph d)) }
{
    match byte {
        b'0'..=b'9' => Some(u32::from(byte - b'0')),
        b'a'..=b'f' => Some(u32::from(byte - 87)),
        _ => None,
    }
}

/// The number that four digits of a word say.
fn four_digits(one: u8, two: u8, three: u8, four: u8) -> Option<u32>
    ensures small { IfSome result (λ n. n < 65536) }
    ensures digits { IfSome result (λ n. one ∷ two ∷ three ∷ four ∷ [] ≡ glyph (n / 4096) ∷ glyph (n / 256 % 16) ∷ glyph (n / 16 % 16) ∷ glyph (n % 16) ∷ []) }
{
    let a = hex_digit(one)?;
    let b = hex_digit(two)?;
    let c = hex_digit(three)?;
    let d = hex_digit(four)?;
    Some(4096 * a + 256 * b + 16 * c + d)
}

/// The word of memory that a whole text says.
#[tactic(auto, unfolding(crate::specs::Numbers::hex8))]
pub fn whole_hex(text: &[u8]) -> Option<u32>
    ensures { IfSome result (λ word. text.now ≡ hex8 word) }
{
    let [a, b, c, d, e, f, g, h] = *text else {
        return None;
    };
    let high = four_digits(a, b, c, d)?;
    let low = four_digits(e, f, g, h)?;
    Some(65536 * high + low)
}
