// Whether a line's numbers and texts are those that the grammar has.
ghost use Rattle.std.specs.Prelude.{◌≡◌};
ghost use Rattle.schedule_text.specs.Range.{is_allowed, is_move_allowed, is_halt_allowed, is_mover_allowed, is_back_allowed};

use crate::line::Line;
use blk_base::{BackMover, Halt, Move, Mover};
use line_text::{is_key_name, is_key_path, is_key_text};

/// Whether a line is one of the grammar: its texts, and the numbers that have bounds of their own.
pub fn is_allowed(line: &Line) -> bool
    ensures { result ≡ is_allowed line.now }
{
    match line {
        Line::Poke { frame, word, .. } => *frame < 1024 && *word < 1024,
        Line::Key { name, text } => {
            is_key_name(name.as_str().as_bytes()) && is_key_text(text.as_str().as_bytes())
        }
        Line::Halt(halt) => is_halt_allowed(halt),
        Line::Move(one) => is_move_allowed(one),
        Line::Begin { .. }
        | Line::Ready
        | Line::Closing
        | Line::Closed
        | Line::Broken(_)
        | Line::Submit { .. }
        | Line::Refuse(_)
        | Line::Effect { .. }
        | Line::EffectRead { .. }
        | Line::Flushed { .. }
        | Line::Trimmed { .. }
        | Line::Fault { .. }
        | Line::Reply { .. }
        | Line::Answer { .. }
        | Line::Data { .. }
        | Line::Epoch
        | Line::Quiet
        | Line::Busy
        | Line::Unsettled
        | Line::Word { .. }
        | Line::End => true,
    }
}

fn is_halt_allowed(halt: &Halt) -> bool
    ensures { result ≡ is_halt_allowed halt.now }
{
    match halt {
        Halt::BadKey(name) => is_key_name(name.as_str().as_bytes()),
        Halt::Overrun { .. }
        | Halt::Gone(_)
        | Halt::Unplugged(_)
        | Halt::BadOrder(_)
        | Halt::BadPort(_)
        | Halt::MapRefused { .. } => true,
    }
}

fn is_move_allowed(one: &Move) -> bool
    ensures { result ≡ is_move_allowed one.now }
{
    match one {
        Move::FrontRead { .. }
        | Move::FrontWrite { .. }
        | Move::FrontCas { .. }
        | Move::FrontPort { .. }
        | Move::Bind { .. }
        | Move::BindRefused { .. } => true,
        Move::Read { who, .. }
        | Move::Write { who, .. }
        | Move::Map { who, .. }
        | Move::MapRefused { who, .. }
        | Move::Unmap { who, .. } => is_back_allowed(*who),
        Move::DiskRead { job, .. }
        | Move::DiskWrite { job, .. }
        | Move::DiskFlush { job }
        | Move::DiskTrim { job, .. } => *job > 0,
        Move::Fence(who) | Move::Send(who) | Move::ClosePort(who) | Move::Event(who) => {
            is_mover_allowed(*who)
        }
        Move::Watch(who, path) | Move::Watched(who, path) | Move::GetKey(who, path, None) => {
            is_mover_allowed(*who) && is_key_path(path.as_str().as_bytes())
        }
        Move::GetKey(who, path, Some(text)) | Move::SetKey(who, path, text) => {
            is_mover_allowed(*who)
                && is_key_path(path.as_str().as_bytes())
                && is_key_text(text.as_str().as_bytes())
        }
    }
}

fn is_mover_allowed(who: Mover) -> bool
    ensures { result ≡ is_mover_allowed who }
{
    match who {
        Mover::Front | Mover::Back => true,
        Mover::Job(k) => k > 0,
    }
}

fn is_back_allowed(who: BackMover) -> bool
    ensures { result ≡ is_back_allowed who }
{
    match who {
        BackMover::Back => true,
        BackMover::Job(k) => k > 0,
    }
}
