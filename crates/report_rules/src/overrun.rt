// A producer that overran, and what the back serves.
ghost use Rattle.std.specs.Prelude.{◌≡◌};
ghost use Rattle.schedule_text.specs.declared.line.Line.TheVariants as lines;
ghost use Rattle.report_rules.specs.Overrun.{is_service};

use blk_base::Move;
use schedule_text::Line;

/// A producer that overran, and the one that was last replied with.
#[derive(Clone, Copy)]
pub struct Overrun {
    pub produced: u32,
    pub replied: u32,
}

fn is_service_move(step: &Move) -> bool
    ensures { result ≡ is_service (lines.Move step.now) }
{
    matches!(
        *step,
        Move::Read { .. }
            | Move::Write { .. }
            | Move::Map { .. }
            | Move::MapRefused { .. }
            | Move::DiskRead { .. }
            | Move::DiskWrite { .. }
            | Move::DiskFlush { .. }
            | Move::DiskTrim { .. }
    )
}

/// Whether the back serves in a line: it touches memory, maps, moves the disk, or replies.
pub fn is_service(line: &Line) -> bool
    ensures { result ≡ is_service line.now }
{
    match *line {
        Line::Move(step) => is_service_move(&step),
        Line::Effect { .. } => true,
        Line::EffectRead { .. } => true,
        Line::Flushed { .. } => true,
        Line::Trimmed { .. } => true,
        Line::Fault { .. } => true,
        Line::Reply { .. } => true,
        _ => false,
    }
}
