// What is kept of the back's jobs, and one line further.
ghost use Rattle.std.specs.Prelude.{◌≡◌, find};
ghost use Rattle.std.specs.Option.{option_copied};
ghost use Rattle.std.specs.Map.{values_of};
ghost use Rattle.blk_base.specs.Becomes.{Becomes};
ghost use Rattle.schedule_text.specs.declared.line.Line.TheVariants as lines;
ghost use Rattle.job_check.specs.Open.{failed_by, with_sector};
ghost use Rattle.job_check.specs.Replies.{answers, after_other};
ghost use Rattle.job_check.specs.State.{JobState, begun_with, no_lines, job_changed, value_seen, job_answered, without_job, after_line, seen};

mod moves;

use crate::kept::KeptMappings;
use crate::open::OpenJob;
use crate::published::Publication;
use crate::replies::ReplyRow;
use blk_base::{BackMover, Move, OutOfMemory, SectorWords};
use report_rules::{DiskMove, disk_move_of, is_epoch, is_event};
use ring_check::RingSight;
use schedule_text::Line;
use std::alloc::Global;
use std::collections::BTreeMap;
use std::marker::Model;

/// What a reader of a report keeps of the back's jobs: what was published, the entry that is being
/// read, the jobs that had no reply, what they mapped, and the reply under way. No line is kept.
#[derive(Drop)]
pub struct JobSight {
    alloc: Global,
    pub(crate) published: Publication,
    pub(crate) kept: KeptMappings,
    pub(crate) jobs: BTreeMap<u64, OpenJob>,
    fetched: u64,
    entry: Vec<u32>,
    pub(crate) replies: ReplyRow,
    pub(crate) moved: Option<DiskMove>,
}

impl Model for JobSight {
    ghost use Rattle.job_check.specs.State.{JobState};

    ghost Value = { JobState };

    ghost view = { λ j. record {
      published = j.published;
      kept = j.kept;
      jobs = j.jobs.entries;
      fetched = j.fetched;
      entry = j.entry.items;
      replies = j.replies;
      moved = j.moved;
    } };
}

// The word that the back writes into the ring in a line, but to `req_event`.
pub(crate) fn value_written(ring: &RingSight, line: &Line) -> Option<u32>
    ensures { result ≡ value_seen ring.now line.now }
{
    match *line {
        Line::Move(
            Move::Write {
                who: BackMover::Back,
                mapping,
                word,
                value,
                ..
            },
        ) => {
            if is_event(ring.word_of(mapping, word)) {
                None
            } else {
                Some(value)
            }
        }
        _ => None,
    }
}

fn answers(kept: &KeptMappings, persistent: bool, rows: u128, row: &[u32; 3], job: &OpenJob) -> bool
    ensures { result ≡ answers kept.now persistent rows row.now job.now }
{
    job.may_answer(rows, 2, row) && kept.has_unmapped(persistent, job.number())
}

// The first of these jobs that a row answers and that unmapped what it mapped.
fn first_answer<'a>(
    kept: &KeptMappings,
    persistent: bool,
    rows: u128,
    row: &[u32; 3],
    jobs: &'a BTreeMap<u64, OpenJob>,
) -> Option<&'a OpenJob>
    ensures { option_copied result ≡ find (answers kept.now persistent rows row.now) (values_of jobs.now.entries) }
{
    jobs.values()
        .find(|job| answers(kept, persistent, rows, row, job))
}

impl JobSight {
    /// Before the first line.
    pub fn new(alloc: Global) -> JobSight
        ensures { result ≡ no_lines }
    {
        JobSight {
            alloc,
            published: Publication::new(),
            kept: KeptMappings::new(alloc),
            jobs: BTreeMap::new(alloc),
            fetched: 0,
            entry: Vec::new(alloc),
            replies: ReplyRow::new(),
            moved: None,
        }
    }

    // An epoch began: all but what the options say is anew.
    fn begin(&mut self)
        ensures { self.new ≡ begun_with self.old.published }
    {
        self.kept.clear();
        self.jobs.clear();
        self.fetched = 0;
        self.entry.clear();
        self.replies = ReplyRow::new();
        self.moved = None;
    }

    /// The job that the reply that the last line pushed answers: the lowest that came to its end
    /// before the reply began, whose response it is, and that unmapped what it mapped.
    pub fn answered(&self) -> Option<u64>
        ensures { result ≡ job_answered self.now }
    {
        let row = self.replies.pushed()?;
        let rows = u128::from(self.replies.rows());
        let persistent = self.published.is_persistent();
        match first_answer(&self.kept, persistent, rows, &row, &self.jobs) {
            None => None,
            Some(job) => Some(job.number()),
        }
    }

    // Takes in a line that tells of a reply.
    fn end_reply(&mut self)
        ensures { self.new ≡ without_job (record self.old { replies = after_other self.old.replies }) (job_answered self.old) }
    {
        let answered = self.answered();
        self.replies.pass();
        if let Some(k) = answered {
            self.jobs.remove(&k);
        }
    }

    // Takes in a line of an epoch, but for what was published and the move of the disk that it is.
    fn see_line(&mut self, ring: &RingSight, line: &Line) -> Result<(), OutOfMemory>
        ensures seen { Becomes (after_line ring.now self.old line.now) result self.old self.new }
    {
        match line {
            Line::Move(made) => return self.see_move(ring, line, made),
            Line::Reply { .. } => {
                self.end_reply();
                return Ok(());
            }
            _ => {}
        }
        self.replies.pass();
        if let Some(moved) = self.moved {
            match line {
                Line::EffectRead { words, .. } => self.give_job(moved.job, words),
                Line::Fault { .. } => self.fail_job(moved.job),
                _ => {}
            }
        }
        Ok(())
    }

    /// One line further, where this is kept of the ring before the line. After want of memory all is
    /// as before.
    pub fn see(&mut self, ring: &RingSight, line: &Line) -> Result<(), OutOfMemory>
        ensures seen { Becomes (seen ring.now self.old line.now) result self.old self.new }
    {
        match *line {
            Line::Move(
                Move::Read {
                    who: BackMover::Back,
                    value,
                    ..
                },
            ) => {
                if ring.entry_word(line).is_some() {
                    self.take_word(ring, value)?;
                }
                self.replies.pass();
                self.moved = None;
                Ok(())
            }
            _ => self.see_any(ring, line),
        }
    }

    // One line further, whatever it is. Many lines are words that the back reads, so `see` doesn't ask
    // of those what else they may be.
    fn see_any(&mut self, ring: &RingSight, line: &Line) -> Result<(), OutOfMemory>
        ensures seen { Becomes (seen ring.now self.old line.now) result self.old self.new }
    {
        if is_epoch(line) {
            self.begin();
            self.published.see(line);
            return Ok(());
        }
        self.see_line(ring, line)?;
        self.published.see(line);
        self.moved = disk_move_of(line);
        Ok(())
    }

    // Takes a fault of the disk at the last move of a job, if it is open.
    fn fail_job(&mut self, k: u64)
        ensures { self.new ≡ job_changed self.old k (failed_by self.old.replies.rows) }
    {
        let rows = self.replies.rows();
        if let Some(job) = self.jobs.get_mut(&k) {
            job.fail(rows);
        }
    }

    // Takes the words that the disk gave a job, if it is open.
    fn give_job(&mut self, k: u64, words: &SectorWords)
        ensures { self.new ≡ job_changed self.old k (λ o. with_sector o words.now) }
    {
        if let Some(job) = self.jobs.get_mut(&k) {
            job.give(words);
        }
    }
}
