// Three recorders: one keeps the lines, one writes their text to a sink, one counts.
ghost use Rattle.std.specs.Prelude.{◌≡◌, ◌<◌, ◌∷◌, [], None, OnOk, true};
ghost use Rattle.std.specs.Option.{option_to_list};
ghost use Rattle.arrayvec.specs.ArrayString.{array_string_len};
ghost use Rattle.blk_base.specs.Access.{move_of};
ghost use Rattle.schedule_text.specs.declared.line.Line.{Line};
ghost use Rattle.schedule_text.specs.Line.{text_of};
ghost use Rattle.schedule_text.specs.Recorder.{recorded, counted, line_bytes, Adds};
ghost use Rattle.schedule_text.specs.Recorders.{KeepsLine, WritesLine, kept_back_of, tells_of_change, writing};

use crate::access_line::end_with_access;
use crate::line::{Detail, Line};
use crate::recorder::{RecordStop, Recorder, RoundsEnd, Shown, Tally};
use crate::writing::{write_line, write_shown};
use blk_base::{Access, Config};
use blk_io::{Failed, Sink};
use line_text::LineText;
use std::alloc::Global;

/// A recorder that keeps the lines in memory. It never fails.
#[derive(Drop)]
pub struct LineList {
    pub lines: Vec<Line>,
    pub detail: Detail,
}

impl LineList {
    /// A recorder without lines.
    pub fn new(alloc: Global, detail: Detail) -> LineList
        ensures lines { result.lines.items ≡ [] }
        ensures detail { result.detail ≡ detail }
    {
        LineList {
            lines: Vec::new(alloc),
            detail,
        }
    }
}

impl Recorder for LineList {
    ghost use Rattle.schedule_text.specs.Recorders.{listing};

    ghost seen = { λ r. listing r.detail r.lines.items };

    #[inline(always)]
    fn detail(&self) -> Detail {
        self.detail
    }

    fn add(&mut self, line: &Line) -> Result<(), RecordStop> {
        match kept(self.detail, line) {
            Some(line) => push(&mut self.lines, line),
            None => Ok(()),
        }
    }

    #[inline(always)]
    fn add_move<S: Shown>(&mut self, made: &S) -> Result<(), RecordStop> {
        match self.detail {
            Detail::Lines => Ok(()),
            Detail::Moves => push_move(&mut self.lines, made),
        }
    }

    fn flush(&mut self) -> Result<(), Failed> {
        Ok(())
    }
}

fn push(lines: &mut Vec<Line>, line: Line) -> Result<(), RecordStop>
    ensures { KeepsLine line result lines.old.items lines.new.items }
{
    match lines.extend_from_slice(&[line]) {
        Ok(()) => Ok(()),
        Err(_) => Err(RecordStop::OutOfMemory),
    }
}

// Makes the line of a move, and keeps it.
#[inline(never)]
fn push_move<S: Shown>(lines: &mut Vec<Line>, made: &S) -> Result<(), RecordStop>
    requires { S.may made.now }
    ensures { KeepsLine (Line.Move (S.shown made.now)) result lines.old.items lines.new.items }
{
    push(lines, Line::Move(made.shown()))
}

/// The line that a recorder keeps of a line, if it keeps one.
fn kept(detail: Detail, line: &Line) -> Option<Line>
    ensures { option_to_list result ≡ recorded detail line.now }
{
    match line {
        Line::Begin { config, .. } => Some(Line::Begin {
            config: *config,
            detail,
        }),
        Line::Move(_) => match detail {
            Detail::Lines => None,
            Detail::Moves => Some(*line),
        },
        _ => Some(*line),
    }
}

/// A recorder that writes each line, with its line feed, to a sink by one call. A line that tells of a
/// change of the disk is handed on at once, with all that the sink kept back before it: so before the
/// disk is changed again, the former change is told. Each line is made in the same room.
#[derive(Drop)]
pub struct LineSink<'a, S> {
    pub sink: &'a mut S,
    pub detail: Detail,
    pub room: LineText,
}

impl<'a, S: Sink> Recorder for LineSink<'a, S> {
    ghost use Rattle.schedule_text.specs.Recorders.{writing};

    ghost seen = { λ r. writing r.detail r.sink.ghost_name (S.seen r.sink.now) };

    #[inline(always)]
    fn detail(&self) -> Detail {
        self.detail
    }

    fn add(&mut self, line: &Line) -> Result<(), RecordStop>
        ensures added { Adds (line.now ∷ []) result
            (writing self.old.detail self.old.sink.ghost_name (S.seen self.old.sink.now))
            (writing self.new.detail self.new.sink.ghost_name (S.seen self.new.sink.now)) }
        ensures at_once { tells_of_change line.now ≡ true → OnOk result (kept_back_of (S.seen self.new.sink.now) ≡ 0) }
    {
        match line {
            Line::Begin { config, .. } => write_begin(
                self.sink,
                &mut self.room,
                config,
                self.detail,
            ),
            Line::Move(_) => match self.detail {
                Detail::Lines => Ok(()),
                Detail::Moves => write(self.sink, &mut self.room, line),
            },
            Line::Effect { .. } | Line::Trimmed { .. } | Line::Fault { .. } => {
                write_at_once(self.sink, &mut self.room, line)
            }
            _ => write(self.sink, &mut self.room, line),
        }
    }

    #[inline(always)]
    fn add_move<M: Shown>(&mut self, made: &M) -> Result<(), RecordStop> {
        match self.detail {
            Detail::Lines => Ok(()),
            Detail::Moves => match made.access() {
                Some(access) => write_accessed(self.sink, &access),
                None => write_move(self.sink, &mut self.room, made),
            },
        }
    }

    fn flush(&mut self) -> Result<(), Failed> {
        self.sink.flush()
    }
}

// Writes a line and its line feed.
#[inline(never)]
fn write<S: Sink>(sink: &mut S, text: &mut LineText, line: &Line) -> Result<(), RecordStop>
    ensures { WritesLine line.now result (S.seen sink.old) (S.seen sink.new) }
{
    write_line(line, text);
    send(sink, text)
}

// Writes a line and its line feed, and hands it on with all that was kept back before it.
#[inline(never)]
fn write_at_once<S: Sink>(sink: &mut S, text: &mut LineText, line: &Line) -> Result<(), RecordStop>
    ensures written { WritesLine line.now result (S.seen sink.old) (S.seen sink.new) }
    ensures at_once { OnOk result (kept_back_of (S.seen sink.new) ≡ 0) }
{
    write(sink, text, line)?;
    match sink.flush() {
        Ok(()) => Ok(()),
        Err(Failed) => Err(RecordStop::Failed),
    }
}

// Writes a line's text and its line feed.
fn send<S: Sink>(sink: &mut S, text: &mut LineText) -> Result<(), RecordStop>
    requires { array_string_len text.old < 1152 }
    ensures { (line : Line) → text.old.bytes ≡ text_of line → WritesLine line result (S.seen sink.old) (S.seen sink.new) }
{
    text.push_str("\n");
    hand_over(sink, text.as_str().as_bytes())
}

// Writes a line's bytes.
fn hand_over<S: Sink>(sink: &mut S, bytes: &[u8]) -> Result<(), RecordStop>
    ensures { (line : Line) → bytes.now ≡ line_bytes line → WritesLine line result (S.seen sink.old) (S.seen sink.new) }
{
    match sink.write(bytes) {
        Ok(()) => Ok(()),
        Err(Failed) => Err(RecordStop::Failed),
    }
}

// Writes the line of an access and its line feed.
#[inline(never)]
fn write_accessed<S: Sink>(sink: &mut S, access: &Access) -> Result<(), RecordStop>
    ensures { WritesLine (Line.Move (move_of access.now)) result (S.seen sink.old) (S.seen sink.new) }
{
    let mut room = [0; 112];
    let start = end_with_access(&mut room, access);
    hand_over(sink, &room[start..])
}

// Makes the line of a move, and writes it.
#[inline(never)]
fn write_move<S: Sink, M: Shown>(
    sink: &mut S,
    text: &mut LineText,
    made: &M,
) -> Result<(), RecordStop>
    requires { M.may made.now }
    ensures { WritesLine (Line.Move (M.shown made.now)) result (S.seen sink.old) (S.seen sink.new) }
{
    write_shown(text, &made.shown());
    send(sink, text)
}

// A begin line says the word of the recorder that writes it.
#[inline(never)]
fn write_begin<S: Sink>(
    sink: &mut S,
    text: &mut LineText,
    config: &Config,
    detail: Detail,
) -> Result<(), RecordStop>
    ensures { WritesLine (Line.Begin config.now detail) result (S.seen sink.old) (S.seen sink.new) }
{
    write(
        sink,
        text,
        &Line::Begin {
            config: *config,
            detail,
        },
    )
}

/// A recorder that counts the lines of requests and keeps nothing else. It never fails.
#[derive(Clone, Copy)]
pub struct LineTally {
    pub tally: Tally,
}

impl LineTally {
    /// A recorder that has counted nothing.
    pub fn new() -> LineTally
        ensures { result.tally ≡ record { submitted = 0; refused = 0; effects = 0; answered = 0; last = None } }
    {
        LineTally {
            tally: Tally {
                submitted: 0,
                refused: 0,
                effects: 0,
                answered: 0,
                last: None,
            },
        }
    }
}

impl Recorder for LineTally {
    ghost use Rattle.schedule_text.specs.Recorders.{counting};

    ghost seen = { λ r. counting r.tally };

    #[inline(always)]
    fn detail(&self) -> Detail {
        Detail::Lines
    }

    fn add(&mut self, line: &Line) -> Result<(), RecordStop> {
        self.tally.count(line);
        Ok(())
    }

    // Moves aren't counted.
    #[inline(always)]
    fn add_move<S: Shown>(&mut self, _made: &S) -> Result<(), RecordStop> {
        Ok(())
    }

    fn flush(&mut self) -> Result<(), Failed> {
        Ok(())
    }
}

impl Tally {
    /// Counts a line.
    fn count(&mut self, line: &Line)
        ensures { self.new ≡ counted self.old line.now }
    {
        match line {
            Line::Submit { .. } => self.submitted = self.submitted.saturating_add(1),
            Line::Refuse(_) => self.refused = self.refused.saturating_add(1),
            Line::Effect { .. } | Line::EffectRead { .. } => {
                self.effects = self.effects.saturating_add(1);
            }
            Line::Answer { .. } => self.answered = self.answered.saturating_add(1),
            Line::Quiet => self.last = Some(RoundsEnd::Quiet),
            Line::Unsettled => self.last = Some(RoundsEnd::Unsettled),
            _ => {}
        }
    }
}
