// The job that moves in a line, and how far it came by its moves.
ghost use Rattle.std.specs.Prelude.{◌≡◌, ◌<◌, ◌^◌};
ghost use Rattle.schedule_text.specs.declared.line.Line.TheVariants as lines;
ghost use Rattle.report_rules.specs.Job.{back_mover_job, mover_job};
ghost use Rattle.report_rules.specs.Step.{is_refusal, stepper};
ghost use Rattle.report_rules.specs.Steps.{gref_of, touched_by};
ghost use Rattle.report_rules.specs.Walk.{is_on_data, mapping_after, spot_after, is_unmapped_step, advanced};

use crate::step::{is_step_at, later_step};
use crate::work::Task;
use blk_base::{BackMover, Mode, Move, Mover};
use schedule_text::Line;

/// How far a job came: so many tasks are done, and the next step is at that place of the next one.
/// `refused` says that a map of it was, and `mapping` which mapping this task goes through, as soon
/// as one is named.
#[derive(Clone, Copy)]
pub struct Spot {
    pub done: usize,
    pub place: u64,
    pub refused: bool,
    pub mapping: Option<u64>,
}

fn is_on_data(task: &Task) -> bool
    ensures { result ≡ is_on_data task.now }
{
    matches!(
        *task,
        Task::Store {
            mode: Mode::ReadWrite,
            ..
        } | Task::Load { .. }
    )
}

/// The reference whose frame a task touches.
pub fn gref_of(task: &Task) -> u32
    ensures { result ≡ gref_of task.now }
{
    match *task {
        Task::Page { gref, .. } => gref,
        Task::Store { gref, .. } => gref,
        Task::Load { gref, .. } => gref,
        Task::Flush => 0,
        Task::Trim { .. } => 0,
    }
}

/// The mapping that a move touches, if it touches one.
pub fn touched_by(made: &Move) -> Option<u64>
    ensures { result ≡ touched_by made.now }
{
    match *made {
        Move::Read { mapping, .. } => Some(mapping),
        Move::Write { mapping, .. } => Some(mapping),
        _ => None,
    }
}

// Whether a move is a map that was refused.
fn is_refusal(made: &Move) -> bool
    ensures { result ≡ is_refusal made.now }
{
    matches!(*made, Move::MapRefused { .. })
}

fn mapping_after(mapping: Option<u64>, made: &Move) -> Option<u64>
    ensures { result ≡ mapping_after mapping made.now }
{
    match *made {
        Move::Map {
            mapping: number,
            ..
        } => Some(number),
        Move::Read {
            mapping: number,
            ..
        } => Some(number),
        Move::Write {
            mapping: number,
            ..
        } => Some(number),
        _ => mapping,
    }
}

// How far a job came after the step at a place of a task.
fn spot_after(done: usize, task: &Task, place: u64, mapping: Option<u64>, made: &Move) -> Spot
    requires { done < 2 ^ 63 }
    ensures { result ≡ spot_after done task.now place mapping made.now }
{
    let refused = is_refusal(made);
    match later_step(task, place) {
        None => Spot {
            done: done + 1,
            place: 0,
            refused,
            mapping: None,
        },
        Some(_) => Spot {
            done,
            place: place + 1,
            refused,
            mapping: mapping_after(mapping, made),
        },
    }
}

/// Whether a move is the step after the map of a task, and that map may be missing.
pub fn is_unmapped_step(persistent: bool, task: &Task, place: u64, made: &Move) -> bool
    ensures { result ≡ is_unmapped_step persistent task.now place made.now }
{
    persistent && is_on_data(task) && place == 0 && is_step_at(task, 1, made)
}

/// How far a job came by one move more: none where it isn't its next step.
pub fn advanced(persistent: bool, work: &[Task], made: &Move, s: Spot) -> Option<Spot>
    ensures { result ≡ advanced persistent work.now made.now s }
{
    if s.refused || s.done >= work.len() {
        return None;
    }
    let task = &work[s.done];
    if is_step_at(task, s.place, made) {
        Some(spot_after(s.done, task, s.place, s.mapping, made))
    } else if is_unmapped_step(persistent, task, s.place, made) {
        Some(spot_after(s.done, task, 1, s.mapping, made))
    } else {
        None
    }
}

// The job that makes a move of the back.
fn back_mover_job(who: BackMover) -> Option<u64>
    ensures { result ≡ back_mover_job who }
{
    match who {
        BackMover::Back => None,
        BackMover::Job(k) => Some(k),
    }
}

// The job that makes a move, if one does.
fn mover_job(who: Mover) -> Option<u64>
    ensures { result ≡ mover_job who }
{
    match who {
        Mover::Job(k) => Some(k),
        _ => None,
    }
}

// The job whose move is made, apart from unmaps.
fn stepper_of(made: &Move) -> Option<u64>
    ensures { result ≡ stepper (lines.Move made.now) }
{
    match made {
        Move::Read { who, .. } => back_mover_job(*who),
        Move::Write { who, .. } => back_mover_job(*who),
        Move::Map { who, .. } => back_mover_job(*who),
        Move::MapRefused { who, .. } => back_mover_job(*who),
        Move::DiskRead { job, .. } => Some(*job),
        Move::DiskWrite { job, .. } => Some(*job),
        Move::DiskFlush { job } => Some(*job),
        Move::DiskTrim { job, .. } => Some(*job),
        Move::Fence(who) => mover_job(*who),
        Move::Send(who) => mover_job(*who),
        Move::ClosePort(who) => mover_job(*who),
        Move::Event(who) => mover_job(*who),
        Move::Watch(who, _) => mover_job(*who),
        Move::Watched(who, _) => mover_job(*who),
        Move::GetKey(who, _, _) => mover_job(*who),
        Move::SetKey(who, _, _) => mover_job(*who),
        _ => None,
    }
}

/// The job whose move a line is, apart from its unmaps.
pub fn stepper(line: &Line) -> Option<u64>
    ensures { result ≡ stepper line.now }
{
    match line {
        Line::Move(made) => stepper_of(made),
        _ => None,
    }
}
