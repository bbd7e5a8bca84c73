// The numbers of a line.

use arrayvec::ArrayVec;

/// The decimal numbers among a line's words, in order, and no more than eight; a status of -1 or -2
/// is taken as its 16 bits.
pub fn decimals(text: &str) -> ArrayVec<u64, 8> {
    let mut found = ArrayVec::new();
    for word in text.split_whitespace() {
        let number = match word {
            "-1" => Some(0xffff),
            "-2" => Some(0xfffe),
            _ => word.parse::<u64>().ok(),
        };
        if let Some(number) = number {
            let _ = found.try_push(number);
        }
    }
    found
}

/// The hexadecimal words of a text, and no more than an entry has.
pub fn words(text: &str) -> ArrayVec<u32, 28> {
    let mut found = ArrayVec::new();
    for word in text.split_whitespace() {
        if let Ok(number) = u32::from_str_radix(word, 16) {
            let _ = found.try_push(number);
        }
    }
    found
}

/// The low 32 bits of a number.
pub fn low(number: u64) -> u32 {
    (number & 0xffff_ffff) as u32
}
