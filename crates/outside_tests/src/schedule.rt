// Lines of reports and schedules as text.
use crate::expected::{holds, same};
use blk_base::{End, SectorWords};
use line_text::LineText;
use schedule_text::{BadLine, Event, Line, read_event, read_line, write_event, write_line};
use std::process::Abort;

// Lines of a report, or of a schedule.
#[derive(Clone, Copy)]
enum Kind {
    Report,
    Schedule,
}

// Reads a line, and writes what was read.
fn again(text: &mut LineText, kind: Kind, line: &str) {
    match kind {
        Kind::Report => {
            if let Ok(read) = read_line(line.as_bytes()) {
                write_line(&read, text);
            }
        }
        Kind::Schedule => {
            if let Ok(Some(read)) = read_event(line.as_bytes()) {
                write_event(&read, text);
            }
        }
    }
}

// Each line is read, and written as it was.
fn go_round(rt: &impl Abort, kind: Kind, lines: &[&str]) {
    for line in lines {
        let mut text = LineText::new();
        again(&mut text, kind, line);
        same(rt, text.as_str(), *line);
    }
}

fn is_refused(kind: Kind, line: &[u8]) -> bool {
    match kind {
        Kind::Report => read_line(line).is_err(),
        Kind::Schedule => read_event(line).is_err(),
    }
}

// No line is read.
fn are_refused(rt: &impl Abort, kind: Kind, lines: &[&str]) {
    for line in lines {
        assert!(rt; is_refused(kind, line.as_bytes()), "{line}");
    }
}

const LINES: &[&str] = &[
    "begin 64 0 0 0 0 rw 8 lines",
    "begin 32 4 1000 960 4294967295 ro 18446744073709551615 moves",
    "ready",
    "closing",
    "closed",
    "broken 00000020",
    "submit 1 write 0 1 00000007",
    "submit 2 read 7 1",
    "submit 3 barrier 1 1 0000000a",
    "submit 4 flush",
    "submit 5 discard 0 4294967295",
    "refuse notready",
    "refuse spent",
    "refuse buffers",
    "effect 1 0",
    "effect 2 0 fill 00000007",
    "flushed 4",
    "trimmed 2",
    "fault 2 0",
    "reply 1 ok",
    "reply 0 error",
    "answer 1 unsupported",
    "data 2 0 fill 00000007",
    "epoch",
    "poke 2 0 33",
    "poke 2 16 3388997888",
    "key state 7",
    "quiet",
    "busy",
    "unsettled",
    "word 2 0 00000002",
    "end",
];

#[test]
fn lines_of_a_report_go_round(rt: HostRuntime) {
    go_round(&rt, Kind::Report, LINES);
}

const HALTS: &[&str] = &[
    "halt overrun 33 0",
    "halt gone 5",
    "halt unplugged 5",
    "halt badkey ring-ref",
    "halt badorder 7",
    "halt badport 2",
    "halt refused 8 -1",
];

#[test]
fn halts_go_round(rt: HostRuntime) {
    go_round(&rt, Kind::Report, HALTS);
}

const MOVES: &[&str] = &[
    "m front read 2 1 00000001",
    "m front write 18 0 00000007",
    "m front cas 0 48 00000001 00000000 00000001",
    "m front port 1",
    "m front send",
    "m back read 1 2 0 00000001",
    "m job 1 write 18446744073709551615 18 127 ffffffff",
    "m job 1 map 24 w ok 2 18",
    "m job 1 map 24 w refused -1",
    "m back map 8 r refused -2147483648",
    "m job 1 unmap 2",
    "m back bind 1 ok",
    "m back bind 1 refused",
    "m job 1 dread 0",
    "m job 1 dwrite 7",
    "m job 1 flush",
    "m job 1 trim 0 8",
    "m back fence",
    "m job 1 closeport",
    "m back event",
    "m front watch /local/domain/0/backend/vbd/1/51712/state",
    "m back watched /local/domain/1/device/vbd/51712/state",
    "m back getkey /local/domain/1/device/vbd/51712/protocol",
    "m back getkey /local/domain/1/device/vbd/51712/protocol =x86_64-abi",
    "m front setkey /local/domain/1/device/vbd/51712/state =3",
];

#[test]
fn moves_go_round(rt: HostRuntime) {
    go_round(&rt, Kind::Report, MOVES);
}

fn written(line: &Line) -> LineText {
    let mut text = LineText::new();
    write_line(line, &mut text);
    text
}

fn shows(rt: &impl Abort, words: SectorWords, begin: &str) {
    let line = Line::Data {
        id: 1,
        index: 0,
        words,
    };
    let text = written(&line);
    holds(rt, text.as_str().starts_with(begin));
    same(rt, text.len(), 1033);
    same(rt, read_line(text.as_str().as_bytes()), Ok(line));
}

#[test]
fn a_sector_shows_its_bytes_in_order(rt: HostRuntime) {
    let mut words = [0; 128];
    words[0] = 1;
    words[1] = 0x0403_0201;
    shows(&rt, words, "data 1 0 01000000010203040000");
}

const NO_LINES: &[&str] = &[
    "",
    "hello",
    " ready",
    "ready ",
    "ready\n",
    "effect 1  0",
    "effect 01 0",
    "effect 1 4294967296",
    "effect 18446744073709551616 0",
    "effect 1 0 fill 0000000A",
    "effect 1 0 fill 000000007",
    "begin 64 5 0 0 0 rw 8 lines",
    "begin 64 0 1001 0 0 rw 8 lines",
    "begin 64 0 0 961 0 rw 8 lines",
    "submit 1 read 0 0",
    "submit 1 flush 0",
    "refuse busy",
    "poke 1024 0 0",
    "poke 2 1024 0",
    "key State 7",
    "halt refused 8 -0",
    "m job 0 fence",
    "m back watch local/domain/1",
    "m front setkey /local/domain/1 3",
    "m back map 24 x ok 1 18",
];

#[test]
fn other_lines_are_refused(rt: HostRuntime) {
    are_refused(&rt, Kind::Report, NO_LINES);
}

#[test]
fn a_filled_sector_has_one_spelling(rt: HostRuntime) {
    let mut text = LineText::new();
    let _ = text.try_push_str("data 1 0 ");
    for _ in 0..128 {
        let _ = text.try_push_str("07000000");
    }
    are_refused(&rt, Kind::Report, &[text.as_str()]);
}

fn asks_for(rt: &impl Abort, line: &[u8], wanted: Result<Option<Event>, BadLine>) {
    same(rt, read_event(line), wanted);
}

const EVENTS: &[&str] = &[
    "submit read 0 1",
    "submit write 18446744073709551615 4294967295 0000000a",
    "submit barrier 1 1 00000002",
    "submit flush",
    "submit discard 0 1",
    "front 163",
    "back 1000000",
    "job 2 1000",
    "turn 1",
    "settle",
    "look",
    "notify front",
    "notify back",
    "suspend",
    "close front",
    "close back",
    "poke 1023 1023 4294967295",
    "key ring-ref 8",
    "dump",
];

#[test]
fn lines_of_a_schedule_go_round(rt: HostRuntime) {
    go_round(&rt, Kind::Schedule, EVENTS);
    asks_for(&rt, b"notify back", Ok(Some(Event::Notify(End::Back))));
}

#[test]
fn silent_lines_ask_for_nothing(rt: HostRuntime) {
    asks_for(&rt, b"", Ok(None));
    asks_for(&rt, b"# 64 sectors\r", Ok(None));
    asks_for(&rt, &[b'#'; 128], Ok(None));
    asks_for(&rt, &[b'#'; 129], Err(BadLine));
}

const NO_EVENTS: &[&str] = &[
    "submit wri",
    " # no comment",
    "settle\r",
    "settle ",
    "front 0",
    "front 1000001",
    "front 00163",
    "job 0 1",
    "job 1 0",
    "turn +1",
    "submit write 0 1 0000000A",
    "submit write 0 1 7",
    "submit  flush",
    "submit read 0 4294967296",
    "poke 2 0 4294967296",
    "close both",
    "key a-name-of-more-than-thirty-two-bytes x",
    "key state two words",
];

#[test]
fn other_events_are_refused(rt: HostRuntime) {
    are_refused(&rt, Kind::Schedule, NO_EVENTS);
    holds(&rt, is_refused(Kind::Schedule, &[0xff, 0xfe]));
}
