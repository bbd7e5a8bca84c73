// A client of the memory: it writes words of several frames and reads them all back.
use crate::expected::{holds, same};
use std::process::Abort;
use xen_pages::Pages;

fn read(rt: &impl Abort, pages: &Pages, frame: u32, word: u32) -> u32 {
    holds(rt, frame < 1088 && word < 1024);
    pages.read(frame, word)
}

fn write(rt: &impl Abort, pages: &mut Pages, frame: u32, word: u32, value: u32) {
    holds(rt, frame < 1088 && word < 1024);
    pages.write(frame, word, value);
}

// Each word of a frame has this value.
fn reads_all(rt: &impl Abort, pages: &Pages, words: &[(u32, u32, u32)]) {
    for (frame, word, wanted) in words {
        let found = read(rt, pages, *frame, *word);
        assert_eq!(rt; found, *wanted, "word {word} of frame {frame}");
    }
}

fn writes_all(rt: &impl Abort, pages: &mut Pages, words: &[(u32, u32, u32)]) {
    for (frame, word, value) in words {
        write(rt, pages, *frame, *word, *value);
    }
}

const FRESH: &[(u32, u32, u32)] = &[(0, 0, 0), (1087, 1023, 0)];

const WRITTEN: &[(u32, u32, u32)] = &[(0, 1023, 1), (1, 0, 2), (1087, 1023, 4294967295), (1, 0, 3)];

const KEPT: &[(u32, u32, u32)] = &[
    (0, 1022, 0),
    (0, 1023, 1),
    (1, 0, 3),
    (1, 1, 0),
    (1087, 1022, 0),
    (1087, 1023, 4294967295),
];

#[test]
fn each_word_keeps_what_was_last_written(rt: HostRuntime) {
    let mut pages = Pages::new(rt.alloc()).expect(&rt, "memory");
    reads_all(&rt, &pages, FRESH);
    writes_all(&rt, &mut pages, WRITTEN);
    reads_all(&rt, &pages, KEPT);
}

fn write_many(rt: &impl Abort, pages: &mut Pages, frame: u32, word: u32, words: &[u32]) {
    holds(
        rt,
        frame < 1088 && word <= 1024 && words.len() <= 1024 - word as usize,
    );
    pages.write_words(frame, word, words);
}

fn read_many(rt: &impl Abort, pages: &Pages, frame: u32, word: u32, words: &mut [u32]) {
    holds(
        rt,
        frame < 1088 && word <= 1024 && words.len() <= 1024 - word as usize,
    );
    pages.read_words(frame, word, words);
}

fn reads_many(rt: &impl Abort, pages: &Pages, frame: u32, word: u32, wanted: [u32; 4]) {
    let mut found = [9; 4];
    read_many(rt, pages, frame, word, &mut found);
    same(rt, found, wanted);
}

const AROUND: &[(u32, u32, u32)] = &[
    (4, 1023, 0),
    (5, 1019, 0),
    (5, 1020, 21),
    (5, 1023, 24),
    (6, 0, 0),
];

#[test]
fn many_words_are_written_in_their_places_up_to_the_last_one_of_the_frame(rt: HostRuntime) {
    let mut pages = Pages::new(rt.alloc()).expect(&rt, "memory");
    write_many(&rt, &mut pages, 5, 1020, &[21, 22, 23, 24]);
    reads_all(&rt, &pages, AROUND);
    write(&rt, &mut pages, 5, 1021, 4294967295);
    write_many(&rt, &mut pages, 5, 1024, &[]);
    reads_many(&rt, &pages, 5, 1020, [21, 4294967295, 23, 24]);
    reads_many(&rt, &pages, 5, 1018, [0, 0, 21, 4294967295]);
}

fn owner(rt: &impl Abort, frame: u32) -> u16 {
    holds(rt, frame < 1088);
    Pages::owner(frame)
}

fn belong(rt: &impl Abort, frames: &[(u32, u16)]) {
    for (frame, wanted) in frames {
        same(rt, (*frame, owner(rt, *frame)), (*frame, *wanted));
    }
}

const OWNERS: &[(u32, u16)] = &[(0, 1), (17, 1), (1023, 1), (1024, 2), (1087, 2)];

#[test]
fn each_frame_has_its_domain(rt: HostRuntime) {
    belong(&rt, OWNERS);
}
