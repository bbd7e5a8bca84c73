// Numbers as the digits of a word. A word that isn't such a number is read as some number: the
// reader of the whole line finds that its text is another.
ghost use Rattle.std.specs.Prelude.{◌≡◌, ℕ, ◌%◌, ◌^◌};
ghost use Rattle.line_text.specs.Numbers.{number_of, hex_of, digit_of, signed_of, hex8};

#[tactic(auto, unfolding(crate::specs::Numbers::number_of))]
/// The number of 64 bits that a word says in decimal digits.
pub fn number(word: &[u8]) -> u64
    ensures { result ≡ number_of word.now }
{
    let mut n: u64 = 0;
    for digit in word {
        n = n
            .wrapping_mul(10)
            .wrapping_add(u64::from(digit.saturating_sub(b'0')));
    }
    n
}

/// The number of 32 bits that a word says in decimal digits.
pub fn small(word: &[u8]) -> u32
    ensures { result ≡ number_of word.now % 2 ^ 32 }
{
    (number(word) % (1 << 32)) as u32
}

/// The value of a hexadecimal digit.
pub fn hex_value(digit: u8) -> u8
    ensures { result ≡ digit_of digit }
{
    if digit < b'a' {
        digit.saturating_sub(b'0')
    } else {
        digit - 87
    }
}

#[tactic(auto, unfolding(crate::specs::Numbers::hex_of))]
/// The word of 32 bits that a word says in hexadecimal digits.
pub fn hex(word: &[u8]) -> u32
    ensures { result ≡ hex_of word.now }
{
    let mut n: u32 = 0;
    for digit in word {
        n = n
            .wrapping_mul(16)
            .wrapping_add(u32::from(hex_value(*digit)));
    }
    n
}

/// The signed number of 32 bits that a word says in decimal digits.
pub fn signed(word: &[u8]) -> i32
    ensures { result ≡ signed_of word.now }
{
    match word {
        [b'-', digits @ ..] => {
            let n = small(digits).min(1 << 31);
            (-i64::from(n)) as i32
        }
        _ => small(word).min((1 << 31) - 1) as i32,
    }
}
