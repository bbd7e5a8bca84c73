// The mappings that stand.
ghost use Rattle.std.specs.Prelude.{◌≡◌};
ghost use Rattle.report_rules.specs.Standing.{is_epoch};

use blk_base::Mode;
use schedule_text::Line;

/// A mapping that stands: its number, the grant reference that was mapped, the mode, and the frame
/// that it was given.
#[derive(Clone, Copy, PartialEq, Eq)]
pub struct Standing {
    pub number: u64,
    pub gref: u32,
    pub mode: Mode,
    pub frame: u32,
}

/// Whether a line begins an epoch.
pub fn is_epoch(line: &Line) -> bool
    ensures { result ≡ is_epoch line.now }
{
    matches!(*line, Line::Epoch)
}
