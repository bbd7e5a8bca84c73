// The disk of a run, and what both ends publish of persistent grants.
ghost use Rattle.std.specs.Prelude.{◌≡◌, ℕ, ◌==◌};
ghost use Rattle.std.specs.List.{list_all};
ghost use Rattle.blk_base.specs.declared.moves.Mover.TheVariants as mover;
ghost use Rattle.blk_base.specs.declared.moves.Move.TheVariants as moves;
ghost use Rattle.schedule_text.specs.declared.line.Line.TheVariants as lines;
ghost use Rattle.report_rules.specs.Published.{info_of, info_told, is_one, says_one, keeping_after};

use blk_base::{Config, Move, Mover, Path, Text};
use schedule_text::Line;
use segment_list::DiskInfo;

/// Whether both ends published persistent grants.
#[derive(Clone, Copy)]
pub struct Keeping {
    pub offered: bool,
    pub asked: bool,
}

// The disk of the options of a run.
fn info_of(config: &Config) -> DiskInfo
    ensures { result ≡ info_of config.now }
{
    DiskInfo {
        sectors: config.sectors,
        read_only: config.read_only,
        barrier: !config.read_only,
        flush: !config.read_only,
        discard: !config.read_only,
        max_indirect: config.indirect,
    }
}

/// The disk of the options of a run, after a line more.
pub fn info_told(info: DiskInfo, line: &Line) -> DiskInfo
    ensures { result ≡ info_told info line.now }
{
    match line {
        Line::Begin { config, .. } => info_of(config),
        _ => info,
    }
}

fn are_zeros(digits: &[u8]) -> bool
    ensures { result ≡ list_all (λ (d : ℕ). d == 48) digits.now }
{
    digits.iter().all(|d| *d == 48)
}

// Whether digits are the number 1.
fn is_one(digits: &[u8]) -> bool
    ensures { result ≡ is_one digits.now }
{
    let count = digits.len();
    if count == 0 || count > 10 {
        return false;
    }
    let zeros = are_zeros(&digits[..count - 1]);
    zeros && digits[count - 1] == 49
}

fn says_one(text: &Option<Text>) -> bool
    ensures { result ≡ says_one text.now }
{
    match text {
        None => false,
        Some(text) => is_one(text.as_str().as_bytes()),
    }
}

/// What both ends published of persistent grants, after a line more.
pub fn keeping_after(s: Keeping, line: &Line) -> Keeping
    ensures { result ≡ keeping_after s line.now }
{
    match line {
        Line::Move(Move::SetKey(Mover::Back, path, text))
            if path.as_str() == "/local/domain/0/backend/vbd/1/51712/feature-persistent" => {
            Keeping {
                offered: is_one(text.as_str().as_bytes()),
                asked: s.asked,
            }
        }
        Line::Move(Move::GetKey(Mover::Back, path, text))
            if path.as_str() == "/local/domain/1/device/vbd/51712/feature-persistent" => {
            Keeping {
                offered: s.offered,
                asked: says_one(text),
            }
        }
        _ => s,
    }
}
