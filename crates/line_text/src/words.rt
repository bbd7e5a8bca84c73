// The words of a line.
ghost use Rattle.std.specs.Prelude.{◌≡◌, ◌%◌, ◌^◌, ℕ, List, ◌==◌, length, take, drop};
ghost use Rattle.std.specs.Str.{bytes_eq};
ghost use Rattle.std.specs.List.{before_first, after_first, slice_split};
ghost use Rattle.line_text.specs.Numbers.{number_of, hex_of, signed_of};
ghost use Rattle.line_text.specs.Words.{is_space, first_of, later, words_in};

use crate::numbers::{hex, number, signed, small};
use std::marker::Model;

/// The words of a line that are left to read, with single spaces between them.
#[derive(Drop)]
pub struct Words<'a> {
    rest: &'a [u8],
}

impl<'a> Model for Words<'a> {
    ghost use Rattle.std.specs.Prelude.{ℕ, List};
    ghost use Rattle.line_text.specs.Words.{words_in};

    ghost Value = { List (List ℕ) };

    ghost view = { λ w. words_in w.rest.now };
}

impl<'a> Words<'a> {
    /// The words of a line.
    pub fn new(line: &'a [u8]) -> Words<'a>
        ensures { result ≡ words_in line.now }
    {
        Words { rest: line }
    }

    /// Takes the next word. After the last one there are only empty words.
    pub fn next(&mut self) -> &'a [u8]
        ensures word { result.now ≡ first_of self.old }
        ensures rest { self.new ≡ later self.old }
    {
        let (word, rest) = cut(self.rest);
        self.rest = rest;
        word
    }

    /// Takes the next word as a number of 64 bits.
    pub fn number(&mut self) -> u64
        ensures value { result ≡ number_of (first_of self.old) }
        ensures rest { self.new ≡ later self.old }
    {
        number(self.next())
    }

    /// Takes the next word as a number of 32 bits.
    pub fn small(&mut self) -> u32
        ensures value { result ≡ number_of (first_of self.old) % 2 ^ 32 }
        ensures rest { self.new ≡ later self.old }
    {
        small(self.next())
    }

    /// Takes the next word as a word of 32 bits in hexadecimal digits.
    pub fn hex(&mut self) -> u32
        ensures value { result ≡ hex_of (first_of self.old) }
        ensures rest { self.new ≡ later self.old }
    {
        hex(self.next())
    }

    /// Takes the next word as a signed number of 32 bits.
    pub fn signed(&mut self) -> i32
        ensures value { result ≡ signed_of (first_of self.old) }
        ensures rest { self.new ≡ later self.old }
    {
        signed(self.next())
    }
}

/// Whether a word is this text.
#[inline(always)]
pub fn is(word: &[u8], text: &str) -> bool
    ensures { result ≡ bytes_eq word.now text.now }
{
    are_equal(word, text.as_bytes())
}

/// Whether two texts have the same bytes: `==` is slower at texts that are known.
#[inline(always)]
pub fn are_equal(bytes: &[u8], others: &[u8]) -> bool
    ensures { result ≡ bytes_eq bytes.now others.now }
{
    if bytes.len() != others.len() {
        return false;
    }
    for (at, byte) in bytes.iter().enumerate() {
        if *byte != others[at] {
            return false;
        }
    }
    true
}

/// The bytes up to the first space, and those after it.
fn cut(bytes: &[u8]) -> (&[u8], &[u8])
    ensures before { result.0.now ≡ before_first is_space bytes.now }
    ensures after { result.1.now ≡ after_first is_space bytes.now }
{
    for (at, byte) in bytes.iter().enumerate() {
        if *byte == b' ' {
            return (&bytes[..at], &bytes[at + 1..]);
        }
    }
    (bytes, &[])
}
