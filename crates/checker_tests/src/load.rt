// Generated schedules, their events and their summaries.
use crate::expected::{holds_of, same_of};
use crate::given::line_of;
use bench_load::{BenchLoad, BenchSchedule, write_summary};
use blk_io::Source;
use line_text::LineText;
use schedule_text::{LineTally, Recorder, RoundsEnd, Tally, read_event, write_event};
use std::alloc::Global;
use std::process::Abort;

// A seed, a count, how many bytes are asked for at a time, and the whole text.
type Case = (u64, u64, usize, &'static str);

fn read_into(rt: &impl Abort, source: &mut BenchLoad, piece: &mut [u8]) -> usize {
    source.read(piece).expect(rt, "a source")
}

// What a source gives where there is room for so many bytes.
fn piece_of(rt: &impl Abort, alloc: Global, source: &mut BenchLoad, room: usize) -> Vec<u8> {
    let mut piece = vec![in alloc; 0u8; room].expect(rt, "memory");
    let count = read_into(rt, source, piece.as_mut_slice());
    piece.truncate(count);
    piece
}

// All that it gives, asked for up to so many bytes at a time.
fn all_of(rt: &impl Abort, alloc: Global, source: &mut BenchLoad, room: usize) -> Vec<u8> {
    let mut text = Vec::new(alloc);
    for _ in 0..10_000 {
        let piece = piece_of(rt, alloc, source, room);
        if piece.is_empty() {
            break;
        }
        text.extend_from_slice(piece.as_slice())
            .expect(rt, "memory");
    }
    text
}

const SEED_7: &str = "settle
submit write 2014 1 840d99ca
submit write 1685 4 fa13115f
turn 352
submit read 915 12
submit read 3773 8
submit read 1382 8
settle
submit write 2618 11 ce735401
submit write 2580 15 8230e943
submit write 735 3 a8635e5e
settle
";

const BEGINNING: &str = "settle
submit write 2014 1 840d99ca
settle
";

const LEAST_SEED: &str = "settle
turn 93
submit read 2697 4
submit write 2972 14 24d8217a
submit write 2468 14 e981425e
turn 159
job 6 157
settle
";

const GREATEST_SEED: &str = "settle
turn 70
turn 390
turn 100
submit write 1974 1 aa9871fa
settle
settle
settle
";

const CASES: &[Case] = &[
    // No lines are two settles.
    (7, 0, 64, "settle\nsettle\n"),
    (7, 10, 64, SEED_7),
    (0, 6, 64, LEAST_SEED),
    (u64::MAX, 6, 64, GREATEST_SEED),
    // A smaller count is a beginning but for the last line.
    (7, 1, 64, BEGINNING),
    // A byte at a time is the same text, and so are five.
    (7, 10, 1, SEED_7),
    (7, 10, 5, SEED_7),
];

fn give(rt: &impl Abort, alloc: Global, cases: &[Case]) {
    for (seed, count, room, wanted) in cases {
        let text = all_of(rt, alloc, &mut BenchLoad::new(*seed, *count), *room);
        assert_eq!(rt; text.as_slice(), wanted.as_bytes(), "{seed} {count} {room}");
    }
}

#[test]
fn a_seed_and_a_count_have_one_schedule(rt: HostRuntime) {
    give(&rt, rt.alloc(), CASES);
}

// A seed, a count, and what reads with so much room give one after the other.
type Reads = (u64, u64, &'static [(usize, &'static str)]);

const READS: &[Reads] = &[
    // A read without room takes nothing.
    (7, 10, &[(0, ""), (3, "set"), (0, ""), (3, "tle")]),
    // Nothing comes after the end.
    (
        7,
        0,
        &[(64, "settle\n"), (64, "settle\n"), (64, ""), (64, "")],
    ),
];

fn read(rt: &impl Abort, alloc: Global, all: &[Reads]) {
    for (seed, count, reads) in all {
        let mut source = BenchLoad::new(*seed, *count);
        for (room, wanted) in *reads {
            let piece = piece_of(rt, alloc, &mut source, *room);
            assert!(rt;
                piece.as_slice() == wanted.as_bytes(),
                "{seed} {count} {wanted}"
            );
        }
    }
}

#[test]
fn a_read_gives_what_has_room_up_to_the_end(rt: HostRuntime) {
    read(&rt, rt.alloc(), READS);
}

// A seed, a count, how many events come, and the first of them.
type Events = (u64, u64, usize, &'static str);

const EVENTS: &[Events] = &[
    (0, 2, 4, "settle\nturn 93\nsubmit read 2697 4\nsettle"),
    (42, 200, 202, ""),
];

// Writes the next event; whether there was one that is read as it is written.
fn is_spoken(events: &mut BenchSchedule, text: &mut LineText) -> bool {
    match events.next_event() {
        None => false,
        Some(event) => {
            write_event(&event, text);
            read_event(text.as_str().as_bytes()) == Ok(Some(event))
        }
    }
}

fn is_next(events: &mut BenchSchedule, text: &mut LineText, wanted: Option<&str>) -> bool {
    let spoken = is_spoken(events, text);
    match wanted {
        None => spoken,
        Some(wanted) => spoken && text.as_str() == wanted,
    }
}

fn has_ended(events: &mut BenchSchedule) -> bool {
    events.next_event().is_none()
}

// Goes on only where this is so; else it stops the test, and says of which seed and count.
fn holds_for(rt: &impl Abort, (seed, count): (u64, u64), condition: bool) {
    assert!(rt; condition, "{seed} {count}");
}

fn speak(rt: &impl Abort, cases: &[Events]) {
    let mut text = LineText::new();
    for (seed, count, number, first) in cases {
        let mut events = BenchSchedule::new(*seed, *count);
        let mut first = first.lines();
        for _ in 0..*number {
            holds_for(
                rt,
                (*seed, *count),
                is_next(&mut events, &mut text, first.next()),
            );
        }
        holds_for(
            rt,
            (*seed, *count),
            has_ended(&mut events) && has_ended(&mut events),
        );
    }
}

#[test]
fn the_events_come_in_order_and_are_read_as_they_are_written(rt: HostRuntime) {
    speak(&rt, EVENTS);
}

// Lines, and how many of each kind there are.
const TALLIES: &[(&str, Tally)] = &[
    // A refused request is tallied as refused alone.
    (
        "refuse full\nready",
        Tally {
            submitted: 0,
            refused: 1,
            effects: 0,
            answered: 0,
            last: None,
        },
    ),
    // Both forms of an effect are tallied, and the last word stands.
    (
        "unsettled
effect 1 0
effect 2 0 fill 00000000
data 2 0 fill 00000000
quiet
busy
end",
        Tally {
            submitted: 0,
            refused: 0,
            effects: 2,
            answered: 0,
            last: Some(RoundsEnd::Quiet),
        },
    ),
];

fn tallied(rt: &impl Abort, lines: &str) -> Tally {
    let mut recorder = LineTally::new();
    for text in lines.lines() {
        let _ = recorder.add(&line_of(rt, text));
    }
    recorder.tally
}

fn tally(rt: &impl Abort, cases: &[(&str, Tally)]) {
    for (lines, wanted) in cases {
        holds_of(rt, lines, tallied(rt, lines) == *wanted);
    }
}

#[test]
fn lines_are_tallied_by_kind(rt: HostRuntime) {
    tally(&rt, TALLIES);
}

fn sum_up(rt: &impl Abort, lines: &str, wanted: &str) {
    let mut text = LineText::new();
    write_summary(&tallied(rt, lines), &mut text);
    same_of(rt, lines, text.as_str(), wanted);
}

#[test]
fn a_summary_has_a_line_for_each_count_and_the_last_word(rt: HostRuntime) {
    let wanted = "submitted 0\nrefused 0\neffects 1\nanswered 0\nunsettled\n";
    sum_up(&rt, "effect 1 0\nunsettled", wanted);
}
