// The words of entries, and the moves of the back's own.
ghost use Rattle.std.specs.Prelude.{◌≡◌};
ghost use Rattle.schedule_text.specs.declared.line.Line.TheVariants as lines;
ghost use Rattle.report_rules.specs.Stretch.{of_entries, is_back, is_mover_back, is_back_move};

use blk_base::{BackMover, Move, Mover};
use schedule_text::Line;

/// A word of the ring that belongs to its entries.
pub fn of_entries(word: Option<u128>) -> Option<u128>
    ensures { result ≡ of_entries word }
{
    match word {
        Some(word) if word >= 16 => Some(word),
        _ => None,
    }
}

// Whether the back itself moves, and not a job.
fn is_back(who: BackMover) -> bool
    ensures { result ≡ is_back who }
{
    matches!(who, BackMover::Back)
}

fn is_mover_back(who: Mover) -> bool
    ensures { result ≡ is_mover_back who }
{
    matches!(who, Mover::Back)
}

fn is_step_of_back(step: &Move) -> bool
    ensures { result ≡ is_back_move (lines.Move step.now) }
{
    match step {
        Move::Read { who, .. } => is_back(*who),
        Move::Write { who, .. } => is_back(*who),
        Move::Map { who, .. } => is_back(*who),
        Move::MapRefused { who, .. } => is_back(*who),
        Move::Unmap { who, .. } => is_back(*who),
        Move::Bind { .. } => true,
        Move::BindRefused { .. } => true,
        Move::Fence(who) => is_mover_back(*who),
        Move::Send(who) => is_mover_back(*who),
        Move::ClosePort(who) => is_mover_back(*who),
        Move::Event(who) => is_mover_back(*who),
        Move::Watch(who, _) => is_mover_back(*who),
        Move::Watched(who, _) => is_mover_back(*who),
        Move::GetKey(who, _, _) => is_mover_back(*who),
        Move::SetKey(who, _, _) => is_mover_back(*who),
        _ => false,
    }
}

/// Whether a line is a move of the back's own.
pub fn is_back_move(line: &Line) -> bool
    ensures { result ≡ is_back_move line.now }
{
    match line {
        Line::Move(step) => is_step_of_back(step),
        _ => false,
    }
}
