// Lines by hand, and what is kept of the ring and allowed after them.
use crate::given::line_of;
use blk_base::{Abi, BackMover, Move};
use ring_check::RingSight;
use schedule_text::Line;
use std::alloc::Global;
use std::process::Abort;

// What is asked after the lines, and the answer.
#[derive(Clone, Copy)]
enum Asked {
    Start(u32),
    Layout(Option<Abi>),
    Order(Option<u32>),
    Shaped(bool),
    Produced(u32),
    Replied(u32),
    // The entry that is fetched, and how many words of it were read.
    Fetched(u32, u32),
    Overrun(bool),
    Overran(bool),
    // Whether a mapping is a page of the ring, and the first.
    Page(u64, bool),
    FirstPage(u64, bool),
    // The word of the ring that a word of a mapping is.
    WordOf(u64, u32, Option<u128>),
    // The word of an entry that a line reads.
    EntryWord(&'static str, Option<u128>),
    // Whether the rule on stretches allows a line, and the one on overruns.
    Stretch(&'static str, bool),
    AfterOverrun(&'static str, bool),
}

// Lines; then the back reads so many words of the first entry; then lines again, and what is asked.
type Case = (&'static str, u32, &'static str, &'static [Asked]);

// What is kept of the whole.
fn is_kept(sight: &RingSight, asked: Asked) -> bool {
    match asked {
        Asked::Start(start) => sight.start() == start,
        Asked::Layout(abi) => sight.abi() == abi,
        Asked::Order(order) => sight.order() == order,
        Asked::Shaped(shaped) => sight.shape().is_some() == shaped,
        Asked::Produced(index) => sight.produced() == index,
        Asked::Replied(index) => sight.replied() == index,
        Asked::Fetched(index, words) => is_fetched(sight, index, words),
        Asked::Overrun(shown) => sight.overrun().is_some() == shown,
        Asked::Overran(overran) => sight.overran() == overran,
        Asked::Page(number, is) => sight.is_page(number) == is,
        Asked::FirstPage(number, is) => sight.is_first_page(number) == is,
        Asked::WordOf(number, word, of) => sight.word_of(number, word) == of,
        _ => false,
    }
}

fn is_fetched(sight: &RingSight, index: u32, words: u32) -> bool {
    sight.next_index() == index && sight.words_within() == u64::from(words)
}

fn is_answer(rt: &impl Abort, sight: &RingSight, asked: Asked) -> bool {
    match asked {
        Asked::EntryWord(text, word) => sight.entry_word(&line_of(rt, text)) == word,
        Asked::Stretch(text, may) => sight.allows_stretch(&line_of(rt, text)) == may,
        Asked::AfterOverrun(text, may) => sight.allows_overrun(&line_of(rt, text)) == may,
        _ => is_kept(sight, asked),
    }
}

fn see(rt: &impl Abort, sight: &mut RingSight, lines: &str) {
    for text in lines.lines() {
        sight.see(&line_of(rt, text)).expect(rt, "memory");
    }
}

fn read_words(rt: &impl Abort, sight: &mut RingSight, count: u32) {
    for i in 0..count {
        let line = Line::Move(Move::Read {
            who: BackMover::Back,
            mapping: 1,
            frame: 2,
            word: i.saturating_add(16),
            value: 0,
        });
        sight.see(&line).expect(rt, "memory");
    }
}

fn answer(rt: &impl Abort, alloc: Global, cases: &[Case]) {
    for (before, count, after, all) in cases {
        let mut sight = RingSight::new(alloc);
        see(rt, &mut sight, before);
        read_words(rt, &mut sight, *count);
        see(rt, &mut sight, after);
        for (place, asked) in all.iter().enumerate() {
            let found = is_answer(rt, &sight, *asked);
            assert!(rt; found, "{place} after {before}, {count} words, {after}");
        }
    }
}

// A ring of one page, mapping 1 of frame 2, and one request that was shown.
const SHOWN: &str = "begin 64 0 0 0 0 rw 8 moves
m back map 8 w ok 1 2
m back read 1 2 0 00000001";

const NO_RING: &[Case] = &[(
    "",
    0,
    "",
    &[
        Asked::Start(0),
        Asked::Layout(Some(Abi::X64)),
        Asked::Order(None),
        Asked::Shaped(false),
        Asked::WordOf(1, 0, None),
        Asked::Overrun(false),
    ],
)];

#[test]
fn before_the_first_line_there_is_no_ring(rt: HostRuntime) {
    answer(&rt, rt.alloc(), NO_RING);
}

const ONE_PAGE: &str = "m back map 8 w ok 5 2
m job 1 map 9 w ok 6 3";

const TWO_PAGES: &str = "m back map 8 w ok 5 2
m job 1 map 9 w ok 6 3
m back map 10 w ok 7 4";

const PAGES: &[Case] = &[
    (ONE_PAGE, 0, "", &[Asked::Order(Some(0))]),
    (
        TWO_PAGES,
        0,
        "",
        &[
            Asked::Order(Some(1)),
            Asked::WordOf(5, 3, Some(3)),
            Asked::WordOf(6, 3, None),
            Asked::WordOf(7, 3, Some(1027)),
            Asked::Page(7, true),
            Asked::FirstPage(7, false),
        ],
    ),
    (
        TWO_PAGES,
        0,
        "m back map 11 w ok 8 5",
        &[Asked::Order(None)],
    ),
];

#[test]
fn pages_run_on_from_one_to_the_next(rt: HostRuntime) {
    answer(&rt, rt.alloc(), PAGES);
}

const LAYOUTS: &[Case] = &[
    (
        "m back getkey /local/domain/1/device/vbd/51712/protocol =x86_32-abi",
        0,
        "",
        &[Asked::Layout(Some(Abi::X32))],
    ),
    (
        "m front getkey /local/domain/1/device/vbd/51712/protocol =x86_32-abi",
        0,
        "",
        &[Asked::Layout(Some(Abi::X64))],
    ),
    (
        "m back getkey /local/domain/1/device/vbd/51712/protocol =arm-abi",
        0,
        "",
        &[Asked::Layout(None)],
    ),
];

#[test]
fn the_protocol_that_the_back_read_names_the_layout(rt: HostRuntime) {
    answer(&rt, rt.alloc(), LAYOUTS);
}

const FROM_7: &str = "begin 64 0 0 0 7 rw 8 moves
m back map 8 w ok 1 2";

const TOUCHED: &str = "m back read 1 2 0 00000009
m back write 1 2 2 00000008
m back read 1 2 1 00000001
m back write 1 2 1 00000001
m back read 2 3 0 00000001
m job 1 write 1 2 2 00000001";

const PRODUCERS: &[Case] = &[
    (FROM_7, 0, "", &[Asked::Produced(7), Asked::Replied(7)]),
    (FROM_7, 0, TOUCHED, &[Asked::Produced(9), Asked::Replied(8)]),
];

#[test]
fn the_producers_are_words_0_and_2_of_page_0(rt: HostRuntime) {
    answer(&rt, rt.alloc(), PRODUCERS);
}

const OVERRUN: &str = "m back read 1 2 0 00000030";

const EPOCH: &str = "m back read 1 2 0 00000030
epoch";

const EPOCHS: &[Case] = &[
    (
        SHOWN,
        3,
        OVERRUN,
        &[Asked::Fetched(0, 3), Asked::Overran(true)],
    ),
    (
        SHOWN,
        3,
        EPOCH,
        &[
            Asked::Fetched(0, 0),
            Asked::Overran(false),
            Asked::Produced(0),
            Asked::Page(1, false),
        ],
    ),
];

#[test]
fn an_epoch_begins_all_anew_but_the_start(rt: HostRuntime) {
    answer(&rt, rt.alloc(), EPOCHS);
}

const ENTRIES: &[Case] = &[(
    SHOWN,
    30,
    "",
    &[
        Asked::Fetched(1, 2),
        Asked::EntryWord("m back read 1 2 15 00000000", None),
        Asked::EntryWord("m back read 1 2 16 00000000", Some(16)),
    ],
)];

const OTHER: &str = "m back read 1 2 0 00000002
m back getkey /local/domain/1/device/vbd/51712/protocol =x86_32-abi";

const OTHER_LAYOUTS: &[Case] = &[
    // Entries that were read whole stay counted, whatever layout is read then; the next one has
    // its place and its words by the new one.
    (
        SHOWN,
        28,
        OTHER,
        &[
            Asked::Fetched(1, 0),
            Asked::Stretch("m back read 1 2 43 00000000", true),
            Asked::Stretch("m back read 1 2 44 00000000", false),
        ],
    ),
    // No layout, no stretch.
    (
        SHOWN,
        28,
        "m back read 1 2 0 00000002
m back getkey /local/domain/1/device/vbd/51712/protocol =arm-abi",
        &[
            Asked::Fetched(1, 0),
            Asked::Stretch("m back read 1 2 43 00000000", false),
            Asked::Stretch("m back read 1 2 44 00000000", false),
            Asked::Stretch("m back fence", true),
        ],
    ),
    // No key is read within a stretch.
    (
        SHOWN,
        5,
        "",
        &[Asked::Stretch(
            "m back getkey /local/domain/1/device/vbd/51712/protocol =x86_32-abi",
            false,
        )],
    ),
];

#[test]
fn a_layout_that_is_read_between_two_stretches_is_that_of_the_next(rt: HostRuntime) {
    answer(&rt, rt.alloc(), OTHER_LAYOUTS);
}

#[test]
fn the_next_entry_comes_after_28_words(rt: HostRuntime) {
    answer(&rt, rt.alloc(), ENTRIES);
}

const STRETCHES: &[Case] = &[
    // An entry is read in ascending order, and the back makes no other move between.
    (
        SHOWN,
        0,
        "",
        &[
            Asked::Stretch("m back read 1 2 16 00000000", true),
            Asked::Stretch("m back read 1 2 17 00000000", false),
            Asked::Stretch("m back fence", true),
        ],
    ),
    (
        SHOWN,
        5,
        "",
        &[
            Asked::Stretch("m back read 1 2 21 00000000", true),
            Asked::Stretch("m back read 1 2 20 00000000", false),
            Asked::Stretch("m back read 1 2 22 00000000", false),
            Asked::Stretch("m back fence", false),
            Asked::Stretch("m back read 1 2 0 00000002", false),
            Asked::Stretch("m job 1 fence", true),
            Asked::Stretch("effect 1 0", true),
        ],
    ),
    (
        SHOWN,
        28,
        "",
        &[
            Asked::Stretch("m back read 1 2 16 00000000", false),
            Asked::Stretch("m back fence", true),
        ],
    ),
    // A stretch begins where a request is unconsumed.
    (
        SHOWN,
        28,
        "m back read 1 2 0 00000001",
        &[Asked::Stretch("m back read 1 2 44 00000000", false)],
    ),
    (
        SHOWN,
        28,
        "m back read 1 2 0 00000002",
        &[Asked::Stretch("m back read 1 2 44 00000000", true)],
    ),
    (
        SHOWN,
        28,
        "m back write 1 2 2 00000001",
        &[Asked::Stretch("m back read 1 2 44 00000000", false)],
    ),
    // A page has 1024 words.
    (
        SHOWN,
        0,
        "",
        &[
            Asked::Stretch("m back write 1 2 1023 00000000", true),
            Asked::Stretch("m back write 1 2 1024 00000000", false),
            Asked::Stretch("m back write 3 4 1024 00000000", true),
        ],
    ),
];

#[test]
fn an_entry_is_read_in_one_stretch(rt: HostRuntime) {
    answer(&rt, rt.alloc(), STRETCHES);
}

const HALTED: &str = "m back read 1 2 0 00000021
halt overrun 33 0";

const ANEW: &str = "m back read 1 2 0 00000021
halt overrun 33 0
epoch";

const OVERRUNS: &[Case] = &[
    // The line after an overrun is its halt.
    (
        SHOWN,
        0,
        "m back read 1 2 0 00000021",
        &[
            Asked::AfterOverrun("halt overrun 33 0", true),
            Asked::AfterOverrun("halt overrun 34 0", false),
            Asked::AfterOverrun("m back fence", false),
        ],
    ),
    (
        SHOWN,
        0,
        "m back read 1 2 0 00000020",
        &[
            Asked::AfterOverrun("m back fence", true),
            Asked::AfterOverrun("halt overrun 32 0", false),
            Asked::AfterOverrun("halt gone 6", true),
        ],
    ),
    // Nothing is served after an overrun.
    (
        SHOWN,
        0,
        HALTED,
        &[
            Asked::AfterOverrun("reply 1 error", false),
            Asked::AfterOverrun("m back fence", true),
        ],
    ),
    (
        SHOWN,
        0,
        ANEW,
        &[Asked::AfterOverrun("reply 1 error", true)],
    ),
];

#[test]
fn an_overrun_halts_the_back(rt: HostRuntime) {
    answer(&rt, rt.alloc(), OVERRUNS);
}
