// What one line tells of the ring and the back, and whose line it is.
use crate::expected::holds_of;
use crate::given::line_of;
use blk_base::{Abi, Mode};
use report_rules::{
    Standing, abi_after, is_back_move, is_epoch, is_reply, is_service, page_made, start_told,
};
use schedule_text::Line;
use std::process::Abort;

#[derive(Clone, Copy)]
enum Told {
    // Whether an epoch begins.
    Epoch(bool),
    // Whether it tells of a reply.
    Reply(bool),
    // Whether it is a move of the back's own.
    BackMove(bool),
    // Whether the back serves.
    Serves(bool),
    // The page of the ring that it made.
    Page(Option<Standing>),
    // Where rings start, if they started at 7.
    Start(u32),
    // The layout, where another was told before.
    Layout(Option<Abi>, Option<Abi>),
}

fn is_told(line: &Line, told: Told) -> bool {
    match told {
        Told::Epoch(begins) => is_epoch(line) == begins,
        Told::Reply(tells) => is_reply(line) == tells,
        Told::BackMove(own) => is_back_move(line) == own,
        Told::Serves(serves) => is_service(line) == serves,
        Told::Page(made) => page_made(line) == made,
        Told::Start(start) => start_told(7, line) == start,
        Told::Layout(before, after) => abi_after(before, line) == after,
    }
}

fn tell(rt: &impl Abort, cases: &[(&str, Told)]) {
    for (text, told) in cases {
        holds_of(rt, text, is_told(&line_of(rt, text), *told));
    }
}

const EPOCHS: &[(&str, Told)] = &[
    ("epoch", Told::Epoch(true)),
    ("quiet", Told::Epoch(false)),
    ("m back event", Told::Epoch(false)),
];

#[test]
fn an_epoch_begins_at_its_line(rt: HostRuntime) {
    tell(&rt, EPOCHS);
}

const REPLIES: &[(&str, Told)] = &[
    ("reply 1 ok", Told::Reply(true)),
    ("answer 1 ok", Told::Reply(false)),
    ("effect 1 0", Told::Reply(false)),
];

#[test]
fn a_reply_is_told_by_its_line(rt: HostRuntime) {
    tell(&rt, REPLIES);
}

const BACK_MOVES: &[(&str, Told)] = &[
    // A move of the back's own is not one of its jobs.
    ("m back read 1 2 0 00000001", Told::BackMove(true)),
    ("m back unmap 1", Told::BackMove(true)),
    ("m back bind 1 ok", Told::BackMove(true)),
    ("m back fence", Told::BackMove(true)),
    ("m job 1 read 2 18 5 00000007", Told::BackMove(false)),
    ("m job 1 fence", Told::BackMove(false)),
    ("m job 1 dread 0", Told::BackMove(false)),
    ("m front fence", Told::BackMove(false)),
    ("halt gone 5", Told::BackMove(false)),
];

#[test]
fn the_moves_of_the_back_are_not_those_of_its_jobs(rt: HostRuntime) {
    tell(&rt, BACK_MOVES);
}

const SERVICES: &[(&str, Told)] = &[
    ("m back read 1 2 16 00000000", Told::Serves(true)),
    ("m job 1 write 2 18 0 00000000", Told::Serves(true)),
    ("m back map 8 w ok 2 2", Told::Serves(true)),
    ("m job 1 map 24 r refused -1", Told::Serves(true)),
    ("m job 1 dwrite 0", Told::Serves(true)),
    ("m job 1 trim 0 8", Told::Serves(true)),
    ("effect 1 0", Told::Serves(true)),
    ("fault 1 0", Told::Serves(true)),
    ("flushed 1", Told::Serves(true)),
    ("reply 1 error", Told::Serves(true)),
    ("m back unmap 1", Told::Serves(false)),
    ("m back fence", Told::Serves(false)),
    ("m front write 2 0 00000001", Told::Serves(false)),
    ("answer 1 error", Told::Serves(false)),
];

#[test]
fn the_back_serves_where_it_touches_maps_moves_or_replies(rt: HostRuntime) {
    tell(&rt, SERVICES);
}

const MADE: Standing = Standing {
    number: 1,
    gref: 8,
    mode: Mode::ReadWrite,
    frame: 2,
};

const RINGS: &[(&str, Told)] = &[
    // A page of the ring is a mapping of the back's own.
    ("m back map 8 w ok 1 2", Told::Page(Some(MADE))),
    ("m back map 8 w refused -1", Told::Page(None)),
    ("m job 1 map 8 w ok 1 2", Told::Page(None)),
    // Rings start where the options say.
    (
        "begin 64 0 0 0 4294967295 rw 8 moves",
        Told::Start(4294967295),
    ),
    ("begin 32 4 1 32 5 ro 8 lines", Told::Start(5)),
    ("epoch", Told::Start(7)),
    // The layout is the one that the back read last.
    (
        "m back getkey /local/domain/1/device/vbd/51712/protocol =x86_64-abi",
        Told::Layout(Some(Abi::X32), Some(Abi::X64)),
    ),
    (
        "m back getkey /local/domain/1/device/vbd/51712/protocol",
        Told::Layout(Some(Abi::X32), Some(Abi::X64)),
    ),
    (
        "m back getkey /local/domain/1/device/vbd/51712/protocol =arm-abi",
        Told::Layout(Some(Abi::X32), None),
    ),
    (
        "m front getkey /local/domain/1/device/vbd/51712/protocol =x86_64-abi",
        Told::Layout(Some(Abi::X32), Some(Abi::X32)),
    ),
    (
        "m back getkey /local/domain/1/device/vbd/51712/state =4",
        Told::Layout(Some(Abi::X32), Some(Abi::X32)),
    ),
    (
        "m back getkey /local/domain/1/device/vbd/51712/protocol =x86_32-abi",
        Told::Layout(None, Some(Abi::X32)),
    ),
];

#[test]
fn the_back_says_where_its_ring_is_and_how_it_is_laid(rt: HostRuntime) {
    tell(&rt, RINGS);
}
