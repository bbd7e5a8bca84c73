// Numbers in keys.
ghost use Rattle.std.specs.Prelude.{◌≡◌, ◌≤◌, IfSome};
ghost use Rattle.xenbus_state.specs.Numbers.{number_after, number_in, number_of, long_of};

use blk_base::Text;

// The number that digits say; `None` exactly where a byte is no digit, or the number is above `limit`.
#[tactic(auto, unfolding(crate::specs::Numbers::number_after))]
fn read_digits(digits: &[u8], limit: u64) -> Option<u64>
    ensures value { result ≡ number_after limit 0 digits.now }
    ensures within { IfSome result (λ number. number ≤ limit) }
{
    let mut number: u64 = 0;
    for digit in digits {
        if !digit.is_ascii_digit() {
            return None;
        }
        number = number
            .checked_mul(10)?
            .checked_add(u64::from(digit - b'0'))?;
        if number > limit {
            return None;
        }
    }
    Some(number)
}

// The number that 1 to `most` digits say, up to `limit`.
#[tactic(auto, unfolding(crate::specs::Numbers::number_in))]
fn read_up_to(text: &Text, most: usize, limit: u64) -> Option<u64>
    ensures value { result ≡ number_in most limit text.now }
    ensures within { IfSome result (λ number. number ≤ limit) }
{
    let digits = text.as_str().as_bytes();
    if digits.is_empty() || digits.len() > most {
        return None;
    }
    read_digits(digits, limit)
}

/// The number of a key: 1 to 10 decimal digits, leading zeros allowed, up to 4294967295. `None`
/// exactly where the text is nothing of the kind.
pub fn read_number(text: &Text) -> Option<u32>
    ensures { result ≡ number_of text.now }
{
    match read_up_to(text, 10, u64::from(u32::MAX)) {
        Some(number) => Some(number as u32),
        None => None,
    }
}

/// The number of the key `sectors`: 1 to 20 decimal digits, up to 18446744073709551615.
pub fn read_long(text: &Text) -> Option<u64>
    ensures { result ≡ long_of text.now }
{
    read_up_to(text, 20, u64::MAX)
}
