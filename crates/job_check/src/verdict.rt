// Whether a line may come next.
ghost use Rattle.std.specs.Prelude.{◌≡◌, Some};
ghost use Rattle.std.specs.List.{list_any};
ghost use Rattle.std.specs.Map.{values_of};
ghost use Rattle.blk_layout.specs.Response.{response_of};
ghost use Rattle.job_check.specs.Open.{may_answer};
ghost use Rattle.job_check.specs.Replies.{is_next_value, is_place};
ghost use Rattle.job_check.specs.State.{job_at, value_seen};
ghost use Rattle.job_check.specs.Verdict.{may_step_of, allows_step, is_call, is_done_by, is_outcome_for, allows_effect, gives, allows_data, word_written_seen, allows_value, is_same_status, tells_of, is_told, allows_reply};

use crate::open::OpenJob;
use crate::replies::ReplyRow;
use crate::sight::{JobSight, value_written};
use blk_base::{BackMover, Move, SectorWords, Status};
use blk_layout::read_response;
use report_rules::{DiskCall, DiskMove, Outcome, is_reply, outcome_of, stepper};
use ring_check::RingSight;
use ring_words::RingShape;
use schedule_text::Line;
use std::collections::BTreeMap;

fn is_call(done: DiskCall, call: DiskCall) -> bool
    ensures { result ≡ is_call done call }
{
    matches!(
        (done, call),
        (DiskCall::Read, DiskCall::Read)
            | (DiskCall::Write, DiskCall::Write)
            | (DiskCall::Flush, DiskCall::Flush)
            | (DiskCall::Trim, DiskCall::Trim)
    )
}

fn is_done_by(done: Option<DiskCall>, call: DiskCall) -> bool
    ensures { result ≡ is_done_by done call }
{
    match done {
        None => true,
        Some(done) => is_call(done, call),
    }
}

// Whether an outcome is that of a move of the disk that this job made.
fn is_outcome_of(job: &OpenJob, moved: DiskMove, o: Outcome) -> bool
    ensures { result ≡ is_outcome_for (Some job.now) moved o }
{
    is_done_by(o.call, moved.call) && job.id() == o.id && u64::from(o.index) + 1 == job.moved()
}

fn gives(sector: &Option<SectorWords>, word: u32, value: u32) -> bool
    ensures { result ≡ gives sector.now word value }
{
    match sector {
        None => false,
        Some(words) => value == words[(word % 128) as usize],
    }
}

fn is_same_status(a: Status, b: Status) -> bool
    ensures { result ≡ is_same_status a b }
{
    matches!(
        (a, b),
        (Status::Okay, Status::Okay)
            | (Status::Error, Status::Error)
            | (Status::Unsupported, Status::Unsupported)
    )
}

// Whether a line tells of the response of these words.
fn tells_of(row: [u32; 3], line: &Line) -> bool
    ensures { result ≡ tells_of (response_of row) line.now }
{
    match (read_response(row), line) {
        (Ok(r), Line::Reply { id, status }) => r.id == *id && is_same_status(r.status, *status),
        _ => false,
    }
}

fn is_place(place: u32, word: Option<u128>) -> bool
    ensures { result ≡ is_place place word }
{
    match word {
        None => false,
        Some(word) => word == u128::from(place),
    }
}

// The word of the ring that the back writes in a line.
fn word_written(ring: &RingSight, line: &Line) -> Option<u128>
    ensures { result ≡ word_written_seen ring.now line.now }
{
    match *line {
        Line::Move(
            Move::Write {
                who: BackMover::Back,
                mapping,
                word,
                ..
            },
        ) => ring.word_of(mapping, word),
        _ => None,
    }
}

// Whether a row may answer one of these jobs, where the words up to the last one are looked at.
fn is_due(rows: u128, last: usize, row: &[u32; 3], jobs: &BTreeMap<u64, OpenJob>) -> bool
    ensures { result ≡ list_any (may_answer rows last row.now) (values_of jobs.now.entries) }
{
    jobs.values().any(|job| job.may_answer(rows, last, row))
}

// Whether a word is what the back writes next, where that producer was written last.
fn is_next_value(r: &ReplyRow, jobs: &BTreeMap<u64, OpenJob>, replied: u32, value: u32) -> bool
    ensures { result ≡ is_next_value r.now (values_of jobs.now.entries) replied value }
{
    let last = r.within();
    if last >= 3 {
        return value == replied.wrapping_add(1);
    }
    is_due(r.rows_with(), last, &r.row_with(value), jobs)
}

impl JobSight {
    /// Whether the rule on steps allows the line: each move of a job but an unmap is the next step of
    /// its work, through the mapping of its segment.
    pub fn allows_step(&self, line: &Line) -> bool
        ensures { result ≡ allows_step self.now line.now }
    {
        match (line, stepper(line)) {
            (Line::Move(made), Some(k)) => self.may_step(k, made),
            _ => true,
        }
    }

    // Whether a job is open and the move may be its next step.
    fn may_step(&self, k: u64, made: &Move) -> bool
        ensures { result ≡ may_step_of (job_at self.now.jobs k) self.now.kept made.now }
    {
        match self.jobs.get(&k) {
            None => false,
            Some(job) => job.may_step(&self.kept, made),
        }
    }

    /// Whether the rule on effects allows the line: each move of the disk is followed by its outcome,
    /// and no other line is one.
    #[inline(always)]
    pub fn allows_effect(&self, line: &Line) -> bool
        ensures { result ≡ allows_effect self.now line.now }
    {
        match (self.moved, line) {
            (None, Line::Move(_)) => true,
            (Some(_), Line::Move(_)) => false,
            _ => self.allows_outcome(line),
        }
    }

    // The same, whatever the line is. Most lines are moves, which are no outcomes.
    fn allows_outcome(&self, line: &Line) -> bool
        ensures { result ≡ allows_effect self.now line.now }
    {
        match (self.moved, outcome_of(line)) {
            (None, None) => true,
            (Some(moved), Some(o)) => match self.jobs.get(&moved.job) {
                None => false,
                Some(job) => is_outcome_of(job, moved, o),
            },
            _ => false,
        }
    }

    /// Whether the rule on data allows the line: a word that a job writes is the one that the disk
    /// gave.
    pub fn allows_data(&self, line: &Line) -> bool
        ensures { result ≡ allows_data self.now line.now }
    {
        match *line {
            Line::Move(
                Move::Write {
                    who: BackMover::Job(k),
                    word,
                    value,
                    ..
                },
            ) => match self.jobs.get(&k) {
                None => false,
                Some(job) => gives(job.sector(), word, value),
            },
            _ => true,
        }
    }

    // Whether what the back writes in a line, if it does, is what comes next.
    fn allows_value(&self, ring: &RingSight, line: &Line) -> bool
        ensures { result ≡ allows_value ring.now self.now line.now (value_seen ring.now line.now) }
    {
        let Some(value) = value_written(ring, line) else {
            return true;
        };
        let Some(shape) = ring.shape() else {
            return false;
        };
        let replied = ring.replied();
        let place = self.replies.next_place(replied, &shape);
        is_place(place, word_written(ring, line))
            && is_next_value(&self.replies, &self.jobs, replied, value)
    }

    // Whether a reply that was pushed is told, and no other is.
    #[inline(always)]
    fn is_told(&self, line: &Line) -> bool
        ensures { result ≡ is_told self.now line.now self.now.replies.pushed }
    {
        match self.replies.pushed() {
            None => !is_reply(line),
            Some(row) => self.is_row_told(row, line),
        }
    }

    // Whether the reply of these words, which was pushed, is told.
    fn is_row_told(&self, row: [u32; 3], line: &Line) -> bool
        ensures { result ≡ is_told self.now line.now (Some row) }
    {
        tells_of(row, line) && self.answered().is_some()
    }

    /// Whether the rule on replies allows the line: each reply has a job at its end of its own, whose
    /// response it is, in the slot of the next index; it is pushed and told at once, and the back
    /// writes nothing else into the ring but `req_event`.
    #[inline(always)]
    pub fn allows_reply(&self, ring: &RingSight, line: &Line) -> bool
        ensures { result ≡ allows_reply ring.now self.now line.now }
    {
        match line {
            Line::Move(Move::FrontRead { .. })
            | Line::Move(Move::FrontWrite { .. })
            | Line::Move(Move::Read { .. }) => self.is_told(line),
            _ => self.allows_value(ring, line) && self.is_told(line),
        }
    }
}
