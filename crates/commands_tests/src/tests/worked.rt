// Worked examples, line by line, and what they leave of an image of zeros.
use super::indirect::EFFECTS;
use std::alloc::Global;
use std::process::Abort;

/// A line of a schedule, and the lines of the report that it brings.
pub type Step = (&'static str, &'static str);

/// A request that is to change sectors: its number, the first sector, how many, and the word that fills the
/// first. Each later sector is filled with the next word; after a discard all are zeros.
pub struct Change {
    request: &'static str,
    sector: usize,
    count: usize,
    word: u32,
}

/// A command line, its schedule with its report, and its disk.
pub struct Worked {
    pub name: &'static str,
    pub line: &'static str,
    /// The disk has so many sectors of zeros.
    pub sectors: usize,
    pub begin: &'static str,
    pub steps: &'static [Step],
    pub changes: &'static [Change],
    /// How many calls of the disk there are: reads, writes, flushes and trims.
    pub calls: [u64; 4],
}

/// Examples of few calls.
pub const WORKED: &[Worked] = &[
    Worked {
        name: "a write and a read",
        line: "run disk",
        sectors: 8,
        begin: "begin 64 0 0 0 0 rw 8 lines\n",
        steps: &[
            ("settle\n", "ready\nquiet\n"),
            (
                "submit write 0 1 00000007\n",
                "submit 1 write 0 1 00000007\n",
            ),
            ("settle\n", "effect 1 0\nreply 1 ok\nanswer 1 ok\nquiet\n"),
            ("submit read 0 1\n", "submit 2 read 0 1\n"),
            (
                "settle\n",
                "effect 2 0 fill 00000007\nreply 2 ok\nanswer 2 ok\ndata 2 0 fill 00000007\nquiet\n",
            ),
        ],
        changes: &[Change {
            request: "1",
            sector: 0,
            count: 1,
            word: 7,
        }],
        calls: [1, 1, 0, 0],
    },
    Worked {
        name: "a barrier among writes",
        line: "run disk",
        sectors: 8,
        begin: "begin 64 0 0 0 0 rw 8 lines\n",
        steps: &[
            ("settle\n", "ready\nquiet\n"),
            (
                "submit write 0 1 00000001\n",
                "submit 1 write 0 1 00000001\n",
            ),
            (
                "submit barrier 1 1 00000002\n",
                "submit 2 barrier 1 1 00000002\n",
            ),
            (
                "submit write 2 1 00000003\n",
                "submit 3 write 2 1 00000003\n",
            ),
            ("front 1000\n", ""),
            ("back 1000\n", ""),
            ("job 3 1000\n", ""),
            ("job 2 1000\n", ""),
            ("job 1 1000\n", "effect 1 0\n"),
            ("job 3 1000\n", ""),
            ("job 2 1000\n", "effect 2 0\n"),
            ("job 3 1000\n", "effect 3 0\n"),
            ("back 1000\n", "reply 1 ok\nreply 2 ok\nreply 3 ok\n"),
            ("settle\n", "answer 1 ok\nanswer 2 ok\nanswer 3 ok\nquiet\n"),
        ],
        changes: &[
            Change {
                request: "1",
                sector: 0,
                count: 1,
                word: 1,
            },
            Change {
                request: "2",
                sector: 1,
                count: 1,
                word: 2,
            },
            Change {
                request: "3",
                sector: 2,
                count: 1,
                word: 3,
            },
        ],
        calls: [0, 3, 0, 0],
    },
    Worked {
        name: "a flush and a discard",
        line: "run disk",
        sectors: 8,
        begin: "begin 64 0 0 0 0 rw 8 lines\n",
        steps: &[
            ("settle\n", "ready\nquiet\n"),
            (
                "submit write 0 2 00000005\n",
                "submit 1 write 0 2 00000005\n",
            ),
            (
                "settle\n",
                "effect 1 0\neffect 1 1\nreply 1 ok\nanswer 1 ok\nquiet\n",
            ),
            ("submit flush\n", "submit 2 flush\n"),
            ("settle\n", "flushed 2\nreply 2 ok\nanswer 2 ok\nquiet\n"),
            ("submit discard 0 1\n", "submit 3 discard 0 1\n"),
            ("settle\n", "trimmed 3\nreply 3 ok\nanswer 3 ok\nquiet\n"),
        ],
        changes: &[
            Change {
                request: "1",
                sector: 0,
                count: 2,
                word: 5,
            },
            Change {
                request: "3",
                sector: 0,
                count: 1,
                word: 0,
            },
        ],
        calls: [0, 2, 1, 1],
    },
    Worked {
        name: "a suspend between an effect and its reply",
        line: "run disk",
        sectors: 8,
        begin: "begin 64 0 0 0 0 rw 8 lines\n",
        steps: &[
            ("settle\n", "ready\nquiet\n"),
            (
                "submit write 0 1 00000007\n",
                "submit 1 write 0 1 00000007\n",
            ),
            ("front 1000\n", ""),
            ("back 1000\n", ""),
            ("job 1 1000\n", "effect 1 0\n"),
            ("suspend\n", "epoch\n"),
            (
                "settle\n",
                "ready\neffect 1 0\nreply 1 ok\nanswer 1 ok\nquiet\n",
            ),
        ],
        changes: &[Change {
            request: "1",
            sector: 0,
            count: 1,
            word: 7,
        }],
        calls: [0, 2, 0, 0],
    },
];

/// An example of many.
pub const INDIRECT: &[Worked] = &[Worked {
    name: "an indirect request",
    line: "run disk --indirect 12",
    sectors: 89,
    begin: "begin 64 0 0 12 0 rw 89 lines\n",
    steps: &[
        ("settle\n", "ready\nquiet\n"),
        (
            "submit write 0 89 00000001\n",
            "submit 1 write 0 89 00000001\n",
        ),
        ("settle\n", EFFECTS),
    ],
    changes: &[Change {
        request: "1",
        sector: 0,
        count: 89,
        word: 1,
    }],
    calls: [0, 89, 0, 0],
}];

fn push(rt: &impl Abort, text: &mut String, part: &str) {
    text.push_str(part).expect(rt, "memory");
}

/// The whole schedule.
pub fn schedule_of(rt: &impl Abort, alloc: Global, worked: &Worked) -> String {
    let mut text = String::new(alloc);
    for (line, _) in worked.steps {
        push(rt, &mut text, line);
    }
    text
}

/// The report of the lines that end within so many bytes of the schedule.
pub fn report_of(rt: &impl Abort, alloc: Global, worked: &Worked, taken: usize) -> String {
    let mut text = String::new(alloc);
    push(rt, &mut text, worked.begin);
    let mut left = taken;
    for (line, lines) in worked.steps {
        if line.len() > left {
            return text;
        }
        left -= line.len();
        push(rt, &mut text, lines);
    }
    text
}

/// The whole report.
pub fn whole_of(rt: &impl Abort, alloc: Global, worked: &Worked) -> String {
    let mut text = report_of(rt, alloc, worked, usize::MAX);
    push(rt, &mut text, "end\n");
    text
}

fn fill(image: &mut Vec<u32>, sector: usize, word: u32) {
    if let Some(place) = image.get_mut(sector) {
        *place = word;
    }
}

fn has_effect(change: &Change, index: u32, image: &mut Vec<u32>) {
    let sector = change.sector.saturating_add(index as usize);
    fill(image, sector, change.word.wrapping_add(index));
}

fn has_trim(change: &Change, image: &mut Vec<u32>) {
    for i in 0..change.count {
        fill(image, change.sector.saturating_add(i), 0);
    }
}

// Whether a line of a report tells of a change of this request, which is made then.
fn makes(change: &Change, line: &str, image: &mut Vec<u32>) -> bool {
    let mut words = line.split(' ');
    let (kind, request) = (words.next(), words.next());
    let (index, more) = (words.next(), words.next());
    if request != Some(change.request) || more.is_some() {
        return false;
    }
    match (kind, index) {
        (Some("effect"), Some(index)) => has_effect(change, index.parse().unwrap_or(0), image),
        (Some("trimmed"), None) => has_trim(change, image),
        _ => return false,
    }
    true
}

fn any_makes(worked: &Worked, line: &str, image: &mut Vec<u32>) -> bool {
    for change in worked.changes {
        if makes(change, line, image) {
            return true;
        }
    }
    false
}

/// What the first so many lines of a report, and so many changes after them, make of the image: the word
/// that each sector is full of.
pub fn image_of(
    rt: &impl Abort,
    alloc: Global,
    worked: &Worked,
    report: &str,
    lines: usize,
    changes: usize,
) -> Vec<u32> {
    let mut image = vec![in alloc; 0; worked.sectors].expect(rt, "memory");
    let mut left = changes;
    for (number, line) in report.lines().enumerate() {
        if number >= lines && left == 0 {
            return image;
        }
        if any_makes(worked, line, &mut image) && number >= lines {
            left = left.saturating_sub(1);
        }
    }
    image
}
