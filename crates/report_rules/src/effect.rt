// The moves of the disk, and their outcomes.
ghost use Rattle.std.specs.Prelude.{◌≡◌};
ghost use Rattle.report_rules.specs.Effect.{disk_move_of, outcome_of};

use blk_base::Move;
use schedule_text::Line;

/// What a job asks of the disk.
#[derive(Clone, Copy, PartialEq, Eq)]
pub enum DiskCall {
    Read,
    Write,
    Flush,
    Trim,
}

/// A move of the disk, and the job that makes it.
#[derive(Clone, Copy)]
pub struct DiskMove {
    pub job: u64,
    pub call: DiskCall,
}

/// The outcome of a move of the disk: the call that was done, or none where it failed.
#[derive(Clone, Copy)]
pub struct Outcome {
    pub call: Option<DiskCall>,
    pub id: u64,
    pub index: u32,
}

/// The move of the disk that a line is.
pub fn disk_move_of(line: &Line) -> Option<DiskMove>
    ensures { result ≡ disk_move_of line.now }
{
    let (job, call) = match *line {
        Line::Move(Move::DiskRead { job, .. }) => (job, DiskCall::Read),
        Line::Move(Move::DiskWrite { job, .. }) => (job, DiskCall::Write),
        Line::Move(Move::DiskFlush { job }) => (job, DiskCall::Flush),
        Line::Move(Move::DiskTrim { job, .. }) => (job, DiskCall::Trim),
        _ => return None,
    };
    Some(DiskMove { job, call })
}

/// The outcome of a move of the disk that a line tells.
pub fn outcome_of(line: &Line) -> Option<Outcome>
    ensures { result ≡ outcome_of line.now }
{
    let (call, id, index) = match *line {
        Line::EffectRead { id, index, .. } => (Some(DiskCall::Read), id, index),
        Line::Effect { id, index } => (Some(DiskCall::Write), id, index),
        Line::Flushed { id } => (Some(DiskCall::Flush), id, 0),
        Line::Trimmed { id } => (Some(DiskCall::Trim), id, 0),
        Line::Fault { id, index } => (None, id, index),
        _ => return None,
    };
    Some(Outcome { call, id, index })
}
