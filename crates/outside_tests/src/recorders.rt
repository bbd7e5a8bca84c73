// Recorders that write lines to a sink, or count them.
ghost use Rattle.std.specs.Prelude.{◌≡◌, OnOk, codes};
ghost use Rattle.blk_io.specs.Outside.{written};
ghost use Rattle.schedule_text.specs.Recorders.{kept_back_of};

use crate::expected::same;
use blk_base::{Access, BackMover, Move};
use blk_io::{BufferedSink, MemorySink, Sink, WriterSink};
use line_text::LineText;
use schedule_text::{Detail, Line, LineSink, LineTally, RecordStop, Recorder, Shown, Tally};
use std::alloc::Global;
use std::io::Write;
use std::process::Abort;

/// What a sink holds after two lines, as a stranger says it.
fn two_lines<S: Sink>(out: &mut S) -> Result<(), RecordStop>
    ensures { OnOk result (let before = S.seen out.old in let after = S.seen out.new in
        after.held ≡ written (written before.held (codes "quiet\n")) (codes "end\n")) }
{
    let mut recorder = LineSink {
        sink: out,
        detail: Detail::Lines,
        room: LineText::new(),
    };
    recorder.add(&Line::Quiet)?;
    recorder.add(&Line::End)?;
    Ok(())
}

// A sink of so much room holds these bytes after the two lines, or those before the stop.
fn holds_lines(
    rt: &impl Abort,
    alloc: Global,
    room: usize,
    told: Result<(), RecordStop>,
    bytes: &[u8],
) {
    let mut sink = MemorySink::with_room(alloc, room).expect(rt, "memory");
    same(rt, two_lines(&mut sink), told);
    same(rt, sink.bytes(), bytes);
}

#[test]
fn a_sink_gets_the_lines(rt: HostRuntime) {
    holds_lines(&rt, rt.alloc(), 100, Ok(()), b"quiet\nend\n");
}

#[test]
fn a_full_sink_stops_the_recorder(rt: HostRuntime) {
    holds_lines(&rt, rt.alloc(), 8, Err(RecordStop::Failed), b"quiet\n");
}

/// What a sink keeps back after a change of the disk was told, as a stranger says it.
fn tells_a_change<S: Sink>(out: &mut S) -> Result<(), RecordStop>
    ensures { OnOk result (kept_back_of (S.seen out.new) ≡ 0) }
{
    let mut recorder = LineSink {
        sink: out,
        detail: Detail::Lines,
        room: LineText::new(),
    };
    recorder.add(&Line::Quiet)?;
    recorder.add(&Line::Trimmed { id: 7 })
}

// Lines go to a writer through a sink that keeps them back, and is never asked to hand them on.
fn writes_lines<W: Write + Drop>(rt: &impl Abort, writer: W, lines: &[Line]) {
    let mut sink = BufferedSink::new(WriterSink::new(writer));
    tells_a_change(&mut sink).expect(rt, "room");
    let mut recorder = LineSink {
        sink: &mut sink,
        detail: Detail::Lines,
        room: LineText::new(),
    };
    for line in lines {
        recorder.add(line).expect(rt, "room");
    }
}

#[test]
fn a_change_is_told_at_once_with_what_came_before_it(rt: HostRuntime) {
    let mut held: Vec<u8> = Vec::new(rt.alloc());
    let effect = Line::Effect { id: 1, index: 0 };
    let fault = Line::Fault { id: 2, index: 0 };
    writes_lines(&rt, &mut held, &[Line::Busy, effect, fault, Line::End]);
    same(
        &rt,
        held.as_slice(),
        b"quiet\ntrimmed 7\nbusy\neffect 1 0\nfault 2 0\n",
    );
}

// A move that makes a port.
#[derive(Drop)]
struct Port(u32);

impl Shown for Port {
    ghost use Rattle.blk_base.specs.declared.moves.Move.TheVariants as moves;

    ghost shown = { λ p. moves.FrontPort p.0 };

    fn access(&self) -> Option<Access> {
        None
    }

    fn shown(&self) -> Move {
        Move::FrontPort { port: self.0 }
    }
}

// A move of the second job that reads word 7 of frame 18 through mapping 5.
#[derive(Drop)]
struct Word(u32);

impl Shown for Word {
    ghost use Rattle.blk_base.specs.declared.moves.BackMover.TheVariants as back_mover;
    ghost use Rattle.blk_base.specs.declared.moves.Move.TheVariants as moves;

    ghost shown = { λ w. moves.Read (back_mover.Job 2) 5 18 7 w.0 };

    fn access(&self) -> Option<Access> {
        Some(Access::Read {
            who: BackMover::Job(2),
            mapping: 5,
            frame: 18,
            word: 7,
            value: self.0,
        })
    }

    fn shown(&self) -> Move {
        Move::Read {
            who: BackMover::Job(2),
            mapping: 5,
            frame: 18,
            word: 7,
            value: self.0,
        }
    }
}

fn adds_moves<S: Sink>(rt: &impl Abort, sink: &mut S, detail: Detail) {
    let mut recorder = LineSink {
        sink,
        detail,
        room: LineText::new(),
    };
    recorder.add_move(&Port(7)).expect(rt, "room");
    recorder.add_move(&Word(0xdead_beef)).expect(rt, "room");
}

// Moves are added where a recorder keeps none, and then where it keeps them.
fn keeps_moves(rt: &impl Abort, alloc: Global, wanted: &[u8]) {
    let mut sink = MemorySink::with_room(alloc, 100).expect(rt, "memory");
    adds_moves(rt, &mut sink, Detail::Lines);
    adds_moves(rt, &mut sink, Detail::Moves);
    same(rt, sink.bytes(), wanted);
}

#[test]
fn a_move_has_a_line_where_the_recorder_keeps_moves(rt: HostRuntime) {
    let wanted = b"m front port 7\nm job 2 read 5 18 7 deadbeef\n";
    keeps_moves(&rt, rt.alloc(), wanted);
}

fn tallied(rt: &impl Abort, lines: &[Line]) -> Tally {
    let mut recorder = LineTally::new();
    for line in lines {
        recorder.add(line).expect(rt, "a tally");
    }
    recorder.tally
}

#[test]
fn a_tally_counts_lines_of_requests(rt: HostRuntime) {
    let tally = tallied(
        &rt,
        &[
            Line::Ready,
            Line::Effect { id: 1, index: 0 },
            Line::Effect { id: 1, index: 1 },
            Line::Quiet,
        ],
    );
    same(&rt, tally.effects, 2);
    same(&rt, tally.submitted, 0);
}
