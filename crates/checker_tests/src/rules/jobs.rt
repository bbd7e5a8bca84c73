// Jobs: their requests, moves, steps and outcomes.
use super::ENTRIES;
use crate::expected::{holds_at, holds_of, same_at, same_of};
use crate::given::line_of;
use blk_base::{Abi, Mode, Move};
use report_rules::{
    DiskCall, Spot, Task, advanced, disk_move_of, entry_of, gref_of, id_of, is_step_at,
    is_unmapped_step, outcome_of, stepper, touched_by,
};
use schedule_text::Line;
use std::process::Abort;

const STORE: Task = Task::Store {
    gref: 24,
    mode: Mode::ReadOnly,
    sector: 5,
    first: 2,
    count: 2,
};

const LOAD: Task = Task::Load {
    gref: 25,
    sector: 5,
    first: 2,
    count: 2,
};

const PAGE: Task = Task::Page { gref: 30, words: 2 };

fn id_read(abi: Option<Abi>, words: &[u32]) -> Option<u64> {
    let request = entry_of(abi, words)?;
    Some(id_of(&request))
}

const STRETCHES: &[(Option<Abi>, usize, Option<u64>)] = &[
    (Some(Abi::X64), 28, Some(1)),
    (Some(Abi::X64), 27, None),
    (Some(Abi::X64), 29, None),
    // On x86_32 the number begins at word 1.
    (Some(Abi::X32), 27, Some(4294967296)),
    (Some(Abi::X32), 28, None),
    (None, 28, None),
];

fn have_entries(rt: &impl Abort, cases: &[(Option<Abi>, usize, Option<u64>)]) {
    for (abi, count, id) in cases {
        let found = id_read(*abi, &ENTRIES[..(*count).min(56)]);
        same_at(rt, *count as u64, found, *id);
    }
}

#[test]
fn words_are_an_entry_where_they_are_as_many_as_one_has(rt: HostRuntime) {
    have_entries(&rt, STRETCHES);
}

// What a line tells of jobs.
#[derive(Clone, Copy)]
enum Told {
    // The move of the disk: its job and its call.
    Moves(u64, DiskCall),
    MovesNothing,
    // The outcome of such a move: its call, its request and its index.
    Ends(Option<DiskCall>, u64, u32),
    EndsNothing,
    // The job whose step it is.
    Steps(Option<u64>),
    // The mapping that it touches.
    Touches(Option<u64>),
}

fn is_moved(line: &Line, job: u64, call: DiskCall) -> bool {
    match disk_move_of(line) {
        None => false,
        Some(moved) => moved.job == job && moved.call == call,
    }
}

fn is_ended(line: &Line, call: Option<DiskCall>, id: u64, index: u32) -> bool {
    match outcome_of(line) {
        None => false,
        Some(o) => o.call == call && o.id == id && o.index == index,
    }
}

fn touched(line: &Line) -> Option<u64> {
    match line {
        Line::Move(made) => touched_by(made),
        _ => None,
    }
}

fn is_told(line: &Line, told: Told) -> bool {
    match told {
        Told::Moves(job, call) => is_moved(line, job, call),
        Told::MovesNothing => disk_move_of(line).is_none(),
        Told::Ends(call, id, index) => is_ended(line, call, id, index),
        Told::EndsNothing => outcome_of(line).is_none(),
        Told::Steps(job) => stepper(line) == job,
        Told::Touches(mapping) => touched(line) == mapping,
    }
}

const LINES: &[(&str, Told)] = &[
    // A job moves the disk.
    ("m job 1 dread 0", Told::Moves(1, DiskCall::Read)),
    ("m job 2 dwrite 7", Told::Moves(2, DiskCall::Write)),
    ("m job 3 flush", Told::Moves(3, DiskCall::Flush)),
    ("m job 4 trim 0 8", Told::Moves(4, DiskCall::Trim)),
    ("m job 1 fence", Told::MovesNothing),
    ("effect 1 0", Told::MovesNothing),
    // A line tells the outcome of a move of the disk.
    (
        "effect 1 2 fill 00000007",
        Told::Ends(Some(DiskCall::Read), 1, 2),
    ),
    ("effect 1 2", Told::Ends(Some(DiskCall::Write), 1, 2)),
    ("flushed 3", Told::Ends(Some(DiskCall::Flush), 3, 0)),
    ("trimmed 3", Told::Ends(Some(DiskCall::Trim), 3, 0)),
    ("fault 1 2", Told::Ends(None, 1, 2)),
    ("reply 1 ok", Told::EndsNothing),
    // A move of a job is a step unless it unmaps.
    ("m job 1 map 24 r refused -1", Told::Steps(Some(1))),
    ("m job 2 read 2 18 5 00000007", Told::Steps(Some(2))),
    ("m job 3 trim 0 8", Told::Steps(Some(3))),
    ("m job 4 fence", Told::Steps(Some(4))),
    ("m job 1 unmap 2", Told::Steps(None)),
    ("m back read 1 2 0 00000001", Told::Steps(None)),
    ("m front fence", Told::Steps(None)),
    ("effect 1 0", Told::Steps(None)),
    // A read and a write touch a mapping.
    ("m job 1 read 2 18 5 00000007", Told::Touches(Some(2))),
    ("m job 1 write 3 18 5 00000007", Told::Touches(Some(3))),
    ("m job 1 map 24 r ok 2 18", Told::Touches(None)),
    ("m job 1 dread 0", Told::Touches(None)),
];

fn tell(rt: &impl Abort, cases: &[(&str, Told)]) {
    for (text, told) in cases {
        holds_of(rt, text, is_told(&line_of(rt, text), *told));
    }
}

#[test]
fn a_line_tells_what_a_job_does(rt: HostRuntime) {
    tell(&rt, LINES);
}

const FRAMES: &[(Task, u32)] = &[(STORE, 24), (LOAD, 25), (PAGE, 30), (Task::Flush, 0)];

fn have_frames(rt: &impl Abort, cases: &[(Task, u32)]) {
    for (task, gref) in cases {
        same_at(rt, u64::from(*gref), gref_of(task), *gref);
    }
}

#[test]
fn a_task_is_on_the_frame_of_its_reference(rt: HostRuntime) {
    have_frames(&rt, FRAMES);
}

fn move_of(rt: &impl Abort, text: &str) -> Move {
    match line_of(rt, text) {
        Line::Move(made) => made,
        _ => panic!(rt; "no move: {text}"),
    }
}

const STEPS: &[(Task, u64, &str, bool)] = &[
    (STORE, 0, "m job 1 map 24 r ok 2 18", true),
    (STORE, 0, "m job 1 map 24 w ok 2 18", false),
    (STORE, 1, "m job 1 read 2 18 256 00000000", true),
    (STORE, 128, "m job 1 read 2 18 383 00000000", true),
    (STORE, 129, "m job 1 dwrite 5", true),
    (STORE, 130, "m job 1 read 2 18 384 00000000", true),
    (STORE, 258, "m job 1 dwrite 6", true),
    (STORE, 259, "m job 1 dwrite 7", false),
    (LOAD, 0, "m job 1 map 25 w refused -1", true),
    (LOAD, 1, "m job 1 dread 5", true),
    (LOAD, 2, "m job 1 write 2 18 256 00000000", true),
    (LOAD, 130, "m job 1 dread 6", true),
    (PAGE, 2, "m job 1 read 2 18 1 00000000", true),
    (PAGE, 3, "m job 1 read 2 18 2 00000000", false),
    (Task::Flush, 0, "m job 1 flush", true),
];

fn step(rt: &impl Abort, cases: &[(Task, u64, &str, bool)]) {
    for (task, place, text, right) in cases {
        let found = is_step_at(task, *place, &move_of(rt, text));
        holds_at(rt, (text, *place), found == *right);
    }
}

#[test]
fn a_frame_is_mapped_and_its_words_are_moved(rt: HostRuntime) {
    step(&rt, STEPS);
}

const UNMAPPED: &[(bool, Task, u64, &str, bool)] = &[
    (true, LOAD, 0, "m job 1 dread 5", true),
    (false, LOAD, 0, "m job 1 dread 5", false),
    (true, LOAD, 1, "m job 1 dread 5", false),
    (true, LOAD, 0, "m job 1 dread 6", false),
    (true, STORE, 0, "m job 1 read 2 18 256 00000000", false),
    (true, PAGE, 0, "m job 1 read 2 18 0 00000000", false),
];

fn step_unmapped(rt: &impl Abort, cases: &[(bool, Task, u64, &str, bool)]) {
    for (persistent, task, place, text, may) in cases {
        let found = is_unmapped_step(*persistent, task, *place, &move_of(rt, text));
        assert!(rt; found == *may, "{persistent}, {place}, {text}");
    }
}

#[test]
fn the_map_of_a_frame_for_writing_may_be_missing(rt: HostRuntime) {
    step_unmapped(&rt, UNMAPPED);
}

// The tasks done, the place in the next, and whether a map was refused.
type Place = (usize, u64, bool);

// How far a job with a read of two sectors and a flush comes by a move, where grants are persistent,
// and its mapping.
fn comes(place: Place, made: &Move) -> Option<(Place, u64)> {
    let s = Spot {
        done: place.0,
        place: place.1,
        refused: place.2,
        mapping: None,
    };
    let s = advanced(true, &[LOAD, Task::Flush], made, s)?;
    Some(((s.done, s.place, s.refused), s.mapping.unwrap_or(0)))
}

const WAY: &[(Place, &str, Option<(Place, u64)>)] = &[
    (
        (0, 0, false),
        "m job 1 map 25 w ok 7 18",
        Some(((0, 1, false), 7)),
    ),
    (
        (0, 0, false),
        "m job 1 map 25 w refused -1",
        Some(((0, 1, true), 0)),
    ),
    ((0, 0, false), "m job 1 dread 5", Some(((0, 2, false), 0))),
    ((0, 1, false), "m job 1 map 25 w ok 7 18", None),
    ((0, 1, true), "m job 1 dread 5", None),
    (
        (0, 258, false),
        "m job 1 write 7 18 511 00000000",
        Some(((1, 0, false), 0)),
    ),
    ((1, 0, false), "m job 1 flush", Some(((2, 0, false), 0))),
    ((2, 0, false), "m job 1 flush", None),
];

fn come(rt: &impl Abort, cases: &[(Place, &str, Option<(Place, u64)>)]) {
    for (place, text, after) in cases {
        let found = comes(*place, &move_of(rt, text));
        same_of(rt, text, found, *after);
    }
}

#[test]
fn a_job_comes_on_step_by_step(rt: HostRuntime) {
    come(&rt, WAY);
}
