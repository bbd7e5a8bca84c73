// A sector's words, as one word where all are equal and else as the sector's bytes.
ghost use Rattle.std.specs.Prelude.{◌≡◌, ℕ, ◌+◌, ◌*◌, ◌^◌, ◌<◌, ◌≤◌, ◌∷◌, ◌++◌, length, slice_index, All, IsAscii};
ghost use Rattle.std.specs.List.{flat_map};
ghost use Rattle.arrayvec.specs.ArrayString.{array_string_len};
ghost use Rattle.line_text.specs.Words.{spaced};
ghost use Rattle.line_text.specs.Sector.{word_digits, byte_digits, are_all, sector_words, byte_of, digits_word, IsSector, digits_sector, words_of_digits, sector_of};

use crate::numbers::hex_value;
use crate::words::{Words, is};
use crate::writing::{LineText, digit, put, put_hex};
use blk_base::SectorWords;
use std::str;

/// The eight digits of a word's bytes, the lowest byte first.
fn digits_of(word: u32) -> [u8; 8]
    ensures digits { result ≡ word_digits word }
    ensures ascii { IsAscii result }
{
    let second = word / (1 << 8) % (1 << 8);
    let third = word / (1 << 16) % (1 << 8);
    let last = word / (1 << 24);
    [
        digit(word % (1 << 8) / 16),
        digit(word % (1 << 8) % 16),
        digit(second / 16),
        digit(second % 16),
        digit(third / 16),
        digit(third % 16),
        digit(last / 16),
        digit(last % 16),
    ]
}

/// Adds a word's digits, with no space.
fn add_digits(text: &mut LineText, word: u32)
    requires { array_string_len text.old + 8 ≤ 1152 }
    ensures bytes { text.new.bytes ≡ text.old.bytes ++ word_digits word }
    ensures len { array_string_len text.new ≡ array_string_len text.old + 8 }
{
    let digits = digits_of(word);
    text.push_str(unsafe { str::from_utf8_unchecked(&digits) });
}

/// Whether all words are this one.
#[tactic(auto, unfolding(crate::specs::Sector::are_all))]
fn are_all(word: u32, words: &SectorWords) -> bool
    ensures { result ≡ are_all word words.now }
{
    for other in words {
        if *other != word {
            return false;
        }
    }
    true
}

/// Adds a space and all bytes of a sector.
fn put_digits(text: &mut LineText, words: &SectorWords)
    requires { array_string_len text.old + 1025 ≤ 1152 }
    ensures bytes { text.new.bytes ≡ text.old.bytes ++ 32 ∷ byte_digits words.now }
    ensures len { array_string_len text.new ≤ array_string_len text.old + 1025 }
{
    text.push_str(" ");
    for word in words {
        add_digits(text, *word);
    }
}

/// Adds what a sector holds: `fill` and a word, or all its bytes.
pub fn put_sector(text: &mut LineText, words: &SectorWords)
    requires { array_string_len text.old + 1025 ≤ 1152 }
    ensures bytes { text.new.bytes ≡ text.old.bytes ++ spaced (sector_words words.now) }
    ensures len { array_string_len text.new ≤ array_string_len text.old + 1025 }
{
    if are_all(words[0], words) {
        put(text, "fill");
        put_hex(text, words[0]);
    } else {
        put_digits(text, words);
    }
}

/// The byte that two digits say.
fn byte(high: u8, low: u8) -> u32
    ensures value { result ≡ byte_of high low }
    ensures fits { result < 256 }
{
    u32::from(hex_value(high) % 16) * 16 + u32::from(hex_value(low) % 16)
}

/// The word that eight digits say.
fn word_in(digits: &[u8], at: usize) -> u32
    requires { at + 8 ≤ length digits.now }
    ensures { result ≡ digits_word digits.now at }
{
    let first = byte(digits[at], digits[at + 1]);
    let second = byte(digits[at + 2], digits[at + 3]);
    let third = byte(digits[at + 4], digits[at + 5]);
    let last = byte(digits[at + 6], digits[at + 7]);
    first + (1 << 8) * second + (1 << 16) * third + (1 << 24) * last
}

/// The sector whose bytes a word says.
#[tactic(auto, unfolding(crate::specs::Sector::digits_sector))]
fn from_digits(word: &[u8]) -> SectorWords
    ensures { result ≡ digits_sector word.now }
{
    let mut words = [0; 128];
    if word.len() != 1024 {
        return words;
    }
    for at in 0..128 {
        words[at] = word_in(word, at * 8);
    }
    words
}

/// The sector that a word and those after it say.
#[tactic(auto, unfolding(crate::specs::Sector::sector_of))]
pub fn sector(first: &[u8], words: &mut Words) -> SectorWords
    ensures says { result ≡ sector_of first.now words.old }
    ensures sector { IsSector result }
{
    let read = if is(first, "fill") {
        [words.hex(); 128]
    } else {
        from_digits(first)
    };
    every_sector(&read);
    read
}

/// Every word has 32 bits.
fn every_word(words: &[u32])
    ensures { All (λ w. w < 2 ^ 32) words.now }
{}

/// Every sector has 128 words of 32 bits.
fn every_sector(words: &SectorWords)
    ensures { IsSector words.now }
{
    every_word(words.as_slice());
}
