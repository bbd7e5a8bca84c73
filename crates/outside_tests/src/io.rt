// Sources and sinks, in memory, failing and over real streams, and what their calls answer.
use crate::expected::same;
use blk_io::{
    BufferedSink, Failed, FailsAt, MemorySink, MemorySource, ReaderSource, Sink, Source, WriterSink,
};
use std::alloc::Global;
use std::io::{self, Write};
use std::process::Abort;

// How many bytes a read into a buffer of four gives, and what the buffer holds then.
type Read = Result<(usize, [u8; 4]), Failed>;

fn next<S: Source>(source: &mut S) -> Read {
    let mut buf = [0u8; 4];
    let n = source.read(&mut buf)?;
    Ok((n, buf))
}

// Reads give these, one after the other.
fn gives<S: Source>(rt: &impl Abort, source: &mut S, reads: &[Read]) {
    for wanted in reads {
        same(rt, next(source), *wanted);
    }
}

// A call of a sink, which writes a piece, or flushes where there is none; and its answer.
type Call = (Option<&'static str>, Result<(), Failed>);

fn made<S: Sink>(sink: &mut S, piece: Option<&str>) -> Result<(), Failed> {
    match piece {
        Some(piece) => sink.write(piece.as_bytes()),
        None => sink.flush(),
    }
}

// The calls answer this, one after the other.
fn answers<S: Sink>(rt: &impl Abort, sink: &mut S, calls: &[Call]) {
    for (piece, wanted) in calls {
        same(rt, made(sink, *piece), *wanted);
    }
}

// A source of five bytes.
fn five(rt: &impl Abort, alloc: Global) -> MemorySource {
    MemorySource::new(Vec::from_slice(alloc, &[1, 2, 3, 4, 5]).expect(rt, "memory"))
}

const PIECES: &[Read] = &[
    Ok((4, [1, 2, 3, 4])),
    Ok((1, [5, 0, 0, 0])),
    Ok((0, [0; 4])),
];

#[test]
fn a_source_in_memory_gives_its_bytes_in_pieces(rt: HostRuntime) {
    gives(&rt, &mut five(&rt, rt.alloc()), PIECES);
}

const TAKEN: &[Call] = &[(Some("ring"), Ok(())), (Some(" full"), Ok(()))];

const TOO_LONG: &[Call] = &[(Some("!"), Err(Failed))];

fn takes_what_fits(rt: &impl Abort, alloc: Global) {
    let mut sink = MemorySink::with_room(alloc, 9).expect(rt, "memory");
    answers(rt, &mut sink, TAKEN);
    same(rt, sink.bytes(), b"ring full".as_slice());
    answers(rt, &mut sink, TOO_LONG);
    same(rt, sink.bytes(), b"ring full".as_slice());
}

#[test]
fn a_sink_in_memory_takes_what_fits(rt: HostRuntime) {
    takes_what_fits(&rt, rt.alloc());
}

// It fails at its second call.
fn failing<T>(rt: &impl Abort, alloc: Global, inside: T) -> FailsAt<T> {
    FailsAt::new(inside, Vec::from_slice(alloc, &[2]).expect(rt, "memory"))
}

fn room(rt: &impl Abort, alloc: Global) -> MemorySink {
    MemorySink::with_room(alloc, 90).expect(rt, "memory")
}

const HELD_UP: &[Read] = &[Ok((4, [1, 2, 3, 4])), Err(Failed), Ok((1, [5, 0, 0, 0]))];

fn fails_to_give(rt: &impl Abort, alloc: Global) {
    let mut source = failing(rt, alloc, five(rt, alloc));
    gives(rt, &mut source, HELD_UP);
    same(rt, source.faults, 1);
}

const STOPPED: &[Call] = &[(Some("ring"), Ok(())), (Some(" full"), Err(Failed))];

fn fails_to_take(rt: &impl Abort, alloc: Global) {
    let mut sink = failing(rt, alloc, room(rt, alloc));
    answers(rt, &mut sink, STOPPED);
    same(rt, sink.inside.bytes().len(), 4);
}

#[test]
fn listed_calls_fail_and_the_others_go_on(rt: HostRuntime) {
    fails_to_give(&rt, rt.alloc());
    fails_to_take(&rt, rt.alloc());
}

const TWO: &[Read] = &[Ok((2, [7, 8, 0, 0]))];

#[test]
fn real_streams_pass_their_bytes_on(rt: HostRuntime) {
    let bytes: &[u8] = &[7, 8];
    gives(&rt, &mut ReaderSource::new(bytes), TWO);
    let held: Vec<u8> = Vec::new(rt.alloc());
    answers(&rt, &mut WriterSink::new(held), TAKEN);
}

// A writer that keeps its bytes back until a flush, and can't flush more than eight.
#[derive(Drop)]
struct Lazy {
    taken: usize,
    flushed: usize,
}

impl Write for Lazy {
    fn write(&mut self, buf: &[u8]) -> io::Result<usize> {
        self.taken = self.taken.saturating_add(buf.len());
        Ok(buf.len())
    }

    fn flush(&mut self) -> io::Result<()> {
        if self.taken > 8 {
            return Err(io::Error::from(io::ErrorKind::WriteZero));
        }
        self.flushed = self.taken;
        Ok(())
    }
}

#[test]
fn a_line_is_never_left_in_a_writer(rt: HostRuntime) {
    let mut lazy = Lazy {
        taken: 0,
        flushed: 0,
    };
    answers(&rt, &mut WriterSink::new(&mut lazy), STOPPED);
    same(&rt, lazy.flushed, 4);
}

// A flush that goes well makes two calls of the sink inside.
const KEPT_BACK: &[Call] = &[
    (Some("two"), Ok(())),
    (None, Err(Failed)),
    (Some("more"), Ok(())),
    (None, Ok(())),
];

#[test]
fn what_was_kept_back_is_handed_on_at_a_flush(rt: HostRuntime) {
    let inside = failing(&rt, rt.alloc(), room(&rt, rt.alloc()));
    answers(&rt, &mut BufferedSink::new(inside), KEPT_BACK);
}
