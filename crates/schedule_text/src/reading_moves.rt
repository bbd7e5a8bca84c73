// What the words of a move's line say, if they are those of a move.
ghost use Rattle.std.specs.Prelude.{◌≡◌};
ghost use Rattle.schedule_text.specs.Parts.{IsReadAs};
ghost use Rattle.schedule_text.specs.Range.{MoverHasWidths, BackHasWidths};
ghost use Rattle.schedule_text.specs.Reading.{move_at, mover_at, after_mover, front_at, own_at, job_move_at, back_at, map_at, act_at, mode_at};

use crate::line::Line;
use blk_base::{BackMover, Mode, Move, Mover};
use line_text::{Words, is, short_text};

/// Reads the line of the move that words say.
pub fn movement(words: &mut Words, line: &mut Line)
    ensures { IsReadAs (Line.Move (move_at words.old)) line.new }
{
    match mover(words) {
        Mover::Front => front_move(words, line),
        Mover::Back => own_move(words, line),
        Mover::Job(k) => job_move(k, words, line),
    }
}

/// Who moves.
fn mover(words: &mut Words) -> Mover
    ensures value { result ≡ mover_at words.old }
    ensures widths { MoverHasWidths result }
    ensures rest { words.new ≡ after_mover words.old }
{
    let name = words.next();
    if is(name, "front") {
        Mover::Front
    } else if is(name, "back") {
        Mover::Back
    } else {
        Mover::Job(words.number())
    }
}

/// What the front does.
fn front_move(words: &mut Words, line: &mut Line)
    ensures { IsReadAs (Line.Move (front_at words.old)) line.new }
{
    let name = words.next();
    if is(name, "read") {
        let frame = words.small();
        let word = words.small();
        let value = words.hex();
        *line = Line::Move(Move::FrontRead { frame, word, value });
    } else if is(name, "write") {
        let frame = words.small();
        let word = words.small();
        let value = words.hex();
        *line = Line::Move(Move::FrontWrite { frame, word, value });
    } else if is(name, "cas") {
        let frame = words.small();
        let word = words.small();
        let old = words.hex();
        let new = words.hex();
        let seen = words.hex();
        *line = Line::Move(Move::FrontCas {
            frame,
            word,
            old,
            new,
            seen,
        });
    } else if is(name, "port") {
        *line = Line::Move(Move::FrontPort {
            port: words.small(),
        });
    } else {
        act(Mover::Front, name, words, line);
    }
}

/// What the back does.
fn own_move(words: &mut Words, line: &mut Line)
    ensures { IsReadAs (Line.Move (own_at words.old)) line.new }
{
    let name = words.next();
    if is(name, "bind") {
        let port = words.small();
        if is(words.next(), "ok") {
            *line = Line::Move(Move::Bind { port });
        } else {
            *line = Line::Move(Move::BindRefused { port });
        }
    } else {
        back_move(BackMover::Back, Mover::Back, name, words, line);
    }
}

/// What a job does.
fn job_move(job: u64, words: &mut Words, line: &mut Line)
    ensures { IsReadAs (Line.Move (job_move_at job words.old)) line.new }
{
    let name = words.next();
    if is(name, "dread") {
        let sector = words.number();
        *line = Line::Move(Move::DiskRead { job, sector });
    } else if is(name, "dwrite") {
        let sector = words.number();
        *line = Line::Move(Move::DiskWrite { job, sector });
    } else if is(name, "flush") {
        *line = Line::Move(Move::DiskFlush { job });
    } else if is(name, "trim") {
        let sector = words.number();
        let count = words.number();
        *line = Line::Move(Move::DiskTrim { job, sector, count });
    } else {
        back_move(BackMover::Job(job), Mover::Job(job), name, words, line);
    }
}

/// What the back and its jobs both do.
fn back_move(who: BackMover, mover: Mover, name: &[u8], words: &mut Words, line: &mut Line)
    requires who { BackHasWidths who }
    requires mover { MoverHasWidths mover }
    ensures { IsReadAs (Line.Move (back_at who mover name.now words.old)) line.new }
{
    if is(name, "read") {
        let mapping = words.number();
        let frame = words.small();
        let word = words.small();
        let value = words.hex();
        *line = Line::Move(Move::Read {
            who,
            mapping,
            frame,
            word,
            value,
        });
    } else if is(name, "write") {
        let mapping = words.number();
        let frame = words.small();
        let word = words.small();
        let value = words.hex();
        *line = Line::Move(Move::Write {
            who,
            mapping,
            frame,
            word,
            value,
        });
    } else if is(name, "map") {
        map(who, words, line);
    } else if is(name, "unmap") {
        *line = Line::Move(Move::Unmap {
            who,
            mapping: words.number(),
        });
    } else {
        act(mover, name, words, line);
    }
}

/// What a map gave.
fn map(who: BackMover, words: &mut Words, line: &mut Line)
    requires { BackHasWidths who }
    ensures { IsReadAs (Line.Move (map_at who words.old)) line.new }
{
    let gref = words.small();
    let mode = mode(words.next());
    if is(words.next(), "ok") {
        let mapping = words.number();
        let frame = words.small();
        *line = Line::Move(Move::Map {
            who,
            gref,
            mode,
            mapping,
            frame,
        });
    } else {
        *line = Line::Move(Move::MapRefused {
            who,
            gref,
            mode,
            status: words.signed(),
        });
    }
}

fn mode(word: &[u8]) -> Mode
    ensures { result ≡ mode_at word.now }
{
    if is(word, "w") {
        Mode::ReadWrite
    } else {
        Mode::ReadOnly
    }
}

/// What either end does.
fn act(who: Mover, name: &[u8], words: &mut Words, line: &mut Line)
    requires { MoverHasWidths who }
    ensures { IsReadAs (Line.Move (act_at who name.now words.old)) line.new }
{
    if is(name, "fence") {
        *line = Line::Move(Move::Fence(who));
    } else if is(name, "send") {
        *line = Line::Move(Move::Send(who));
    } else if is(name, "closeport") {
        *line = Line::Move(Move::ClosePort(who));
    } else if is(name, "event") {
        *line = Line::Move(Move::Event(who));
    } else if is(name, "watch") {
        *line = Line::Move(Move::Watch(who, short_text(words.next())));
    } else if is(name, "watched") {
        *line = Line::Move(Move::Watched(who, short_text(words.next())));
    } else if is(name, "getkey") {
        let path = short_text(words.next());
        match words.next() {
            [_, text @ ..] => *line = Line::Move(Move::GetKey(who, path, Some(short_text(text)))),
            [] => *line = Line::Move(Move::GetKey(who, path, None)),
        }
    } else {
        let path = short_text(words.next());
        match words.next() {
            [_, text @ ..] => *line = Line::Move(Move::SetKey(who, path, short_text(text))),
            [] => *line = Line::Move(Move::SetKey(who, path, short_text(&[]))),
        }
    }
}
