// Lines by hand, and what is kept of memory and mappings after them. The entry of reference 8 is words
// 16 and 17 of frame 0; the frame that it grants is 700.
use crate::expected::{holds_at, same_of};
use crate::given::line_of;
use blk_base::Mode;
use memory_check::Memory;
use report_rules::Standing;
use schedule_text::Line;
use std::alloc::Global;
use std::process::Abort;

// What is asked after the lines, and the answer.
#[derive(Clone, Copy)]
enum Asked {
    // Whether a map may be answered so.
    Answers(&'static str, bool),
    // Whether a word may be touched so.
    Touches(&'static str, bool),
    // What a word of a frame holds.
    Word(u32, u32, u32),
    // The mapping of a number.
    Standing(u64, Option<Standing>),
    // Whether a mapping had a number.
    Made(u64, bool),
}

// Words that are overwritten, then lines, and how many of both break no rule up to the first that
// does; what is then asked.
struct Case {
    name: &'static str,
    pokes: &'static [(u32, u32, u32)],
    lines: &'static str,
    allowed: usize,
    asked: &'static [Asked],
}

fn is_allowed(memory: &Memory, line: &Line) -> bool {
    memory.shows_what_is_there(line) && memory.answers_map(line) && memory.touches_a_mapping(line)
}

// Sees a line that breaks no rule.
fn keeps(rt: &impl Abort, memory: &mut Memory, line: &Line) -> bool {
    let allowed = is_allowed(memory, line);
    if allowed {
        memory.see(line).expect(rt, "memory");
    }
    allowed
}

fn count_allowed(rt: &impl Abort, memory: &mut Memory, case: &Case) -> usize {
    let mut count = 0usize;
    for (frame, word, value) in case.pokes {
        let poke = Line::Poke {
            frame: *frame,
            word: *word,
            value: *value,
        };
        if !keeps(rt, memory, &poke) {
            return count;
        }
        count = count.wrapping_add(1);
    }
    for text in case.lines.lines() {
        if !keeps(rt, memory, &line_of(rt, text)) {
            return count;
        }
        count = count.wrapping_add(1);
    }
    count
}

fn is_answer(rt: &impl Abort, memory: &Memory, asked: Asked) -> bool {
    match asked {
        Asked::Answers(text, may) => memory.answers_map(&line_of(rt, text)) == may,
        Asked::Touches(text, may) => memory.touches_a_mapping(&line_of(rt, text)) == may,
        Asked::Word(frame, word, value) => memory.word(frame, word) == value,
        Asked::Standing(number, mapping) => memory.standing(number) == mapping,
        Asked::Made(number, made) => memory.was_made(number) == made,
    }
}

fn memory_after(rt: &impl Abort, alloc: Global, lines: &str) -> Memory {
    let mut memory = Memory::new(alloc);
    for text in lines.lines() {
        memory.see(&line_of(rt, text)).expect(rt, "memory");
    }
    memory
}

fn answer(rt: &impl Abort, alloc: Global, begin: &str, cases: &[Case]) {
    for case in cases {
        let mut memory = memory_after(rt, alloc, begin);
        let count = count_allowed(rt, &mut memory, case);
        same_of(rt, case.name, count, case.allowed);
        for (place, asked) in case.asked.iter().enumerate() {
            holds_at(
                rt,
                (case.name, place as u64),
                is_answer(rt, &memory, *asked),
            );
        }
    }
}

const WORDS: &[Case] = &[
    Case {
        name: "a word reads as it was last written",
        pokes: &[],
        lines: "m front read 5 7 00000000
m front write 5 7 00000009
m front write 5 8 0000000a
m front read 5 7 00000009
poke 5 7 11
word 5 7 0000000b
m front read 5 8 0000000b",
        allowed: 6,
        asked: &[],
    },
    Case {
        name: "words elsewhere are kept too",
        pokes: &[(5000, 7, 3), (7, 5000, 4)],
        lines: "m front read 5000 7 00000003
m front read 7 5000 00000004
m front read 5000 8 00000000
m front read 1023 1023 00000000",
        allowed: 6,
        asked: &[],
    },
];

#[test]
fn a_word_is_kept(rt: HostRuntime) {
    answer(&rt, rt.alloc(), "", WORDS);
}

// Reference 8 grants its frame for writing.
const GRANTED: &str = "m front write 0 17 000002bc
m front write 0 16 00000001";

const MADE: Standing = Standing {
    number: 1,
    gref: 8,
    mode: Mode::ReadWrite,
    frame: 700,
};

const MAPPINGS: &[Case] = &[
    Case {
        name: "an exchange writes where it saw what it asked for",
        pokes: &[],
        lines: "m front cas 0 16 00000002 00000005 00000001
m front cas 0 16 00000001 00000006 00000001
m front cas 0 16 00000006 00000007 00000005",
        allowed: 2,
        asked: &[Asked::Word(0, 16, 6)],
    },
    Case {
        name: "a map gives the frame of its entry",
        pokes: &[],
        lines: "",
        allowed: 0,
        asked: &[
            Asked::Answers("m back map 8 w ok 1 700", true),
            Asked::Answers("m back map 8 w ok 1 701", false),
            Asked::Answers("m back map 9 w ok 1 700", false),
        ],
    },
    Case {
        name: "an entry is read and written through a mapping",
        pokes: &[],
        lines: "m back map 8 w ok 1 700",
        allowed: 1,
        asked: &[
            Asked::Word(0, 16, 25),
            Asked::Standing(1, Some(MADE)),
            Asked::Standing(2, None),
        ],
    },
    Case {
        name: "a refused map has the status of its refusal",
        pokes: &[],
        lines: "",
        allowed: 0,
        asked: &[
            Asked::Answers("m job 1 map 9 w refused -1", true),
            Asked::Answers("m job 1 map 1024 w refused -3", true),
            Asked::Answers("m job 1 map 9 w refused -3", false),
            // The entry grants its frame.
            Asked::Answers("m job 1 map 8 w refused -1", false),
        ],
    },
    Case {
        name: "a map has a new number",
        pokes: &[],
        lines: "m back map 8 r ok 5 700
m back map 8 r ok 9 700
m back map 8 r ok 6 700
m back unmap 5
m back map 8 r ok 5 700",
        allowed: 4,
        asked: &[
            Asked::Made(5, true),
            Asked::Made(6, true),
            Asked::Made(9, true),
            Asked::Made(0, false),
            Asked::Made(7, false),
            Asked::Made(10, false),
        ],
    },
    Case {
        name: "a touch goes through a mapping that stands",
        pokes: &[],
        lines: "m back map 8 w ok 1 700
m job 1 write 1 700 3 00000004
m job 1 read 1 700 3 00000004
m back unmap 1
m job 1 read 1 700 3 00000004",
        allowed: 4,
        asked: &[],
    },
    Case {
        name: "a touch shows the frame of its mapping",
        pokes: &[],
        lines: "m back map 8 w ok 1 700",
        allowed: 1,
        asked: &[
            Asked::Touches("m job 1 read 1 700 0 00000000", true),
            Asked::Touches("m job 1 read 1 701 0 00000000", false),
            Asked::Touches("m job 1 write 1 701 0 00000000", false),
        ],
    },
    Case {
        name: "no write goes through a mapping for reading",
        pokes: &[],
        lines: "m back map 8 r ok 1 700",
        allowed: 1,
        asked: &[
            Asked::Touches("m job 1 read 1 700 0 00000000", true),
            Asked::Touches("m job 1 write 1 700 0 00000000", false),
        ],
    },
    Case {
        name: "the flags of an entry tell which mappings are left",
        pokes: &[],
        lines: "m back map 8 w ok 1 700
m back map 8 r ok 2 700
m front read 0 16 00000019
m back unmap 1
m front read 0 16 00000009
m back unmap 2
m back unmap 3
m front read 0 16 00000001",
        allowed: 8,
        asked: &[],
    },
    Case {
        name: "an epoch clears the table and ends all mappings",
        pokes: &[(1, 5000, 3)],
        lines: "m back map 8 w ok 1 700
m job 1 write 1 700 3 00000004
epoch
m front read 0 17 00000000
m front read 1 5000 00000000
m front read 700 3 00000004
m job 1 read 1 700 3 00000004",
        allowed: 7,
        asked: &[Asked::Made(1, true)],
    },
];

#[test]
fn a_mapping_goes_by_its_entry(rt: HostRuntime) {
    answer(&rt, rt.alloc(), GRANTED, MAPPINGS);
}
