// Words that are put into a text, and taken from it.
use crate::expected::{holds, same};
use blk_base::SectorWords;
use line_text::{LineText, Words, begin, put, put_hex, put_number, put_sector, put_signed, sector};
use std::process::Abort;

#[derive(Clone, Copy)]
enum Word {
    Plain(&'static str),
    Number(u64),
    Hex(u32),
    Signed(i32),
}

fn puts(rt: &impl Abort, text: &mut LineText, words: &[Word]) {
    for word in words {
        holds(rt, text.len() <= 1000);
        match *word {
            Word::Plain(word) => {
                holds(rt, word.len() <= 100);
                put(text, word);
            }
            Word::Number(number) => put_number(text, number),
            Word::Hex(word) => put_hex(text, word),
            Word::Signed(number) => put_signed(text, number),
        }
    }
}

fn is_next(words: &mut Words, word: Word) -> bool {
    match word {
        Word::Plain(word) => words.next() == word.as_bytes(),
        Word::Number(number) => words.number() == number,
        Word::Hex(word) => words.hex() == word,
        Word::Signed(number) => words.signed() == number,
    }
}

fn takes(rt: &impl Abort, text: &[u8], all: &[Word]) {
    let mut words = Words::new(text);
    for word in all {
        holds(rt, is_next(&mut words, *word));
    }
}

const WORDS: &[Word] = &[
    Word::Number(18446744073709551615),
    Word::Plain("ok"),
    Word::Hex(0x20),
    Word::Signed(-3),
];

// The same after the first word, and nothing after the last.
const TAKEN: &[Word] = &[
    Word::Plain("answer"),
    Word::Number(18446744073709551615),
    Word::Plain("ok"),
    Word::Hex(0x20),
    Word::Signed(-3),
    Word::Plain(""),
];

#[test]
fn words_stand_apart_by_one_space(rt: HostRuntime) {
    let wanted = "answer 18446744073709551615 ok 00000020 -3";
    let mut text = LineText::new();
    begin(&mut text, "answer");
    puts(&rt, &mut text, WORDS);
    same(&rt, text.as_str(), wanted);
    takes(&rt, wanted.as_bytes(), TAKEN);
}

fn sector_after_a_word(line: &[u8]) -> SectorWords {
    let mut words = Words::new(line);
    let _name = words.next();
    let first = words.next();
    sector(first, &mut words)
}

fn shows(rt: &impl Abort, all: &SectorWords, start: &str) {
    let mut text = LineText::new();
    begin(&mut text, "data");
    put_sector(&mut text, all);
    holds(rt, text.as_str().starts_with(start));
    same(rt, sector_after_a_word(text.as_str().as_bytes()), *all);
}

#[test]
fn a_sector_shows_the_lowest_byte_first(rt: HostRuntime) {
    let mut all = [0; 128];
    all[0] = 0xca00_0101;
    shows(&rt, &all, "data 010100ca00000000");
}
