// One step of a job.
ghost use Rattle.std.specs.Prelude.{◌≡◌, ◌+◌, ◌≤◌, ◌<◌, ◌^◌, IfSome, Some};
ghost use Rattle.report_rules.specs.declared.step.Step.TheVariants as steps;
ghost use Rattle.report_rules.specs.Step.{is_mode, is_step};
ghost use Rattle.report_rules.specs.Walk.{store_step, load_step, step_at, is_step_at};

use crate::work::Task;
use blk_base::{Mode, Move};

/// One step of a job, which is one move.
#[derive(Clone, Copy)]
pub enum Step {
    Map { gref: u32, mode: Mode },
    Read(u64),
    Write(u64),
    DiskRead(u128),
    DiskWrite(u128),
    Flush,
    Trim { sector: u64, count: u64 },
}

fn store_step(sector: u64, first: u8, count: u32, k: u64, j: u64) -> Option<Step>
    requires { j ≤ 128 }
    ensures value { result ≡ store_step sector first count k j }
    ensures bound { IfSome result (λ _. k < count) }
{
    if u64::from(count) <= k {
        None
    } else if j < 128 {
        Some(Step::Read(128 * (u64::from(first) + k) + j))
    } else {
        Some(Step::DiskWrite(u128::from(sector) + u128::from(k)))
    }
}

fn load_step(sector: u64, first: u8, count: u32, k: u64, j: u64) -> Option<Step>
    requires { j ≤ 128 }
    ensures value { result ≡ load_step sector first count k j }
    ensures bound { IfSome result (λ _. k < count) }
{
    if u64::from(count) <= k {
        None
    } else if j == 0 {
        Some(Step::DiskRead(u128::from(sector) + u128::from(k)))
    } else {
        Some(Step::Write(128 * (u64::from(first) + k) + (j - 1)))
    }
}

// The step at a place of a task after its map.
pub fn later_step(task: &Task, place: u64) -> Option<Step>
    ensures value { result ≡ step_at task.now (place + 1) }
    ensures bound { IfSome result (λ _. place < 2 ^ 40) }
{
    match *task {
        Task::Page { words, .. } => {
            if u64::from(words) <= place {
                None
            } else {
                Some(Step::Read(place))
            }
        }
        Task::Store {
            sector,
            first,
            count,
            ..
        } => store_step(sector, first, count, place / 129, place % 129),
        Task::Load {
            sector,
            first,
            count,
            ..
        } => load_step(sector, first, count, place / 129, place % 129),
        Task::Flush => None,
        Task::Trim { .. } => None,
    }
}

// The first step of a task.
fn first_step(task: &Task) -> Step
    ensures { Some result ≡ step_at task.now 0 }
{
    match *task {
        Task::Page { gref, .. } => Step::Map {
            gref,
            mode: Mode::ReadOnly,
        },
        Task::Store { gref, mode, .. } => Step::Map { gref, mode },
        Task::Load { gref, .. } => Step::Map {
            gref,
            mode: Mode::ReadWrite,
        },
        Task::Flush => Step::Flush,
        Task::Trim { sector, count } => Step::Trim { sector, count },
    }
}

// The step at a place of a task, from 0; none after its end.
fn step_at(task: &Task, place: u64) -> Option<Step>
    ensures { result ≡ step_at task.now place }
{
    if place == 0 {
        Some(first_step(task))
    } else {
        later_step(task, place - 1)
    }
}

fn is_mode(mode: Mode, asked: Mode) -> bool
    ensures { result ≡ is_mode mode asked }
{
    matches!(
        (mode, asked),
        (Mode::ReadOnly, Mode::ReadOnly) | (Mode::ReadWrite, Mode::ReadWrite)
    )
}

fn is_map(gref: u32, mode: Mode, step: &Move) -> bool
    ensures { result ≡ is_step (steps.Map gref mode) step.now }
{
    match *step {
        Move::Map {
            gref: other,
            mode: asked,
            ..
        } => other == gref && is_mode(mode, asked),
        Move::MapRefused {
            gref: other,
            mode: asked,
            ..
        } => other == gref && is_mode(mode, asked),
        _ => false,
    }
}

// Whether a move is that step.
fn is_step(step: &Step, made: &Move) -> bool
    ensures { result ≡ is_step step.now made.now }
{
    match (*step, *made) {
        (Step::Map { gref, mode }, _) => is_map(gref, mode, made),
        (Step::Read(word), Move::Read { word: other, .. }) => u64::from(other) == word,
        (Step::Write(word), Move::Write { word: other, .. }) => u64::from(other) == word,
        (Step::DiskRead(sector), Move::DiskRead { sector: other, .. }) => u128::from(other)
            == sector,
        (Step::DiskWrite(sector), Move::DiskWrite { sector: other, .. }) => u128::from(other)
            == sector,
        (Step::Flush, Move::DiskFlush { .. }) => true,
        (
            Step::Trim { sector, count },
            Move::DiskTrim {
                sector: other,
                count: many,
                ..
            },
        ) => other == sector && many == count,
        _ => false,
    }
}

/// Whether a move is the step at a place of a task, from 0.
pub fn is_step_at(task: &Task, place: u64, made: &Move) -> bool
    ensures { result ≡ is_step_at (step_at task.now place) made.now }
{
    match step_at(task, place) {
        None => false,
        Some(step) => is_step(&step, made),
    }
}
