// What a move changes of what is kept of the back's jobs.
ghost use Rattle.std.specs.Prelude.{◌≡◌, IfOk, OnOk, OnErr, false, true};
ghost use Rattle.blk_base.specs.Becomes.{Becomes};
ghost use Rattle.schedule_text.specs.declared.line.Line.TheVariants as lines;
ghost use Rattle.report_rules.specs.Stretch.{entry_of};
ghost use Rattle.report_rules.specs.Step.{stepper};
ghost use Rattle.job_check.specs.Open.{opened, is_word_read, is_disk_move, moved_by};
ghost use Rattle.job_check.specs.Verdict.{may_step_of};
ghost use Rattle.job_check.specs.State.{fetched_with, job_at, job_changed, after_word_read, fetched_by, after_entry_word, after_step, entry_value_seen, with_kept, after_line};

use super::{JobSight, value_written};
use crate::kept::Made;
use crate::open::OpenJob;
use blk_base::{BackMover, Mode, Move, OutOfMemory};
use blk_layout::RawRequest;
use report_rules::{Fetched, entry_of, stepper};
use ring_check::RingSight;
use schedule_text::Line;

// The word of an entry that a line shows.
fn entry_value(ring: &RingSight, line: &Line) -> Option<u32>
    ensures { result ≡ entry_value_seen ring.now line.now }
{
    match *line {
        Line::Move(
            Move::Read {
                who: BackMover::Back,
                value,
                ..
            },
        ) => {
            if ring.entry_word(line).is_some() {
                Some(value)
            } else {
                None
            }
        }
        _ => None,
    }
}

impl JobSight {
    // The job of an entry whose words were all read.
    fn opened_job(&self, number: u64, request: &RawRequest) -> Result<OpenJob, OutOfMemory>
        ensures { IfOk result (λ job. job ≡ opened self.now.replies.rows number (fetched_with self.now request.now)) }
    {
        let f = Fetched {
            request: *request,
            disk: self.published.disk(),
            persistent: self.published.is_persistent(),
        };
        OpenJob::open(self.alloc, self.replies.rows(), number, &f)
    }

    // Takes a move of a job that reads no word and doesn't move the disk, if the job is open.
    fn step_job(&mut self, k: u64, made: &Move)
        ensures { is_word_read made.now ≡ false → is_disk_move made.now ≡ false → self.new ≡ job_changed self.old k (moved_by self.old.replies.rows made.now) }
    {
        let rows = self.replies.rows();
        if let Some(job) = self.jobs.get_mut(&k) {
            job.go(rows, made);
        }
    }

    // Takes a word that a job read, if the job is open.
    pub(super) fn read_by_job(&mut self, k: u64, made: &Move, value: u32) -> Result<(), OutOfMemory>
        ensures read { OnOk result (self.new ≡ after_word_read self.old k made.now value) }
        ensures kept { OnErr result (self.new ≡ self.old) }
    {
        let rows = self.replies.rows();
        match self.jobs.get_mut(&k) {
            None => Ok(()),
            Some(job) => job.read(rows, made, value),
        }
    }

    // Takes a word that a job reads, where the job is open and the move may be its next step, and
    // whether that is so: else nothing changes.
    pub(crate) fn read_where_next(
        &mut self,
        k: u64,
        made: &Move,
        value: u32,
    ) -> Result<bool, OutOfMemory>
        ensures told { IfOk result (λ may. may ≡ may_step_of (job_at self.old.jobs k) self.old.kept made.now) }
        ensures read { IfOk result (λ may. may ≡ true → self.new ≡ after_word_read self.old k made.now value) }
    {
        let rows = self.replies.rows();
        match self.jobs.get_mut(&k) {
            None => Ok(false),
            Some(job) => job.read_where_next(&self.kept, rows, made, value),
        }
    }

    // Takes a move of the disk by a job, if the job is open.
    fn move_disk(&mut self, k: u64, made: &Move) -> Result<(), OutOfMemory>
        ensures moved { OnOk result (is_disk_move made.now ≡ true → self.new ≡ job_changed self.old k (moved_by self.old.replies.rows made.now)) }
        ensures kept { OnErr result (self.new ≡ self.old) }
    {
        let rows = self.replies.rows();
        match self.jobs.get_mut(&k) {
            None => Ok(()),
            Some(job) => job.move_disk(rows, made),
        }
    }

    // Takes a move that is none of the back's on its ring; `line` is its line.
    fn act(&mut self, line: &Line, made: &Move) -> Result<(), OutOfMemory>
        requires { line.now ≡ lines.Move made.now }
        ensures acted { OnOk result (self.new ≡ after_step (with_kept self.old made.now) (stepper line.now) made.now) }
        ensures kept { OnErr result (self.new ≡ self.old) }
    {
        match *made {
            Move::Read { who, value, .. } => match who {
                BackMover::Back => Ok(()),
                BackMover::Job(k) => self.read_by_job(k, made, value),
            },
            Move::DiskRead { job, .. }
            | Move::DiskWrite { job, .. }
            | Move::DiskFlush { job }
            | Move::DiskTrim { job, .. } => self.move_disk(job, made),
            _ => {
                self.keep(made)?;
                if let Some(k) = stepper(line) {
                    self.step_job(k, made);
                }
                Ok(())
            }
        }
    }

    // Takes a move in.
    pub(super) fn see_move(
        &mut self,
        ring: &RingSight,
        line: &Line,
        made: &Move,
    ) -> Result<(), OutOfMemory>
        requires { line.now ≡ lines.Move made.now }
        ensures seen { Becomes (after_line ring.now self.old line.now) result self.old self.new }
    {
        if let Some(value) = value_written(ring, line) {
            return self.replies.write(value);
        }
        match entry_value(ring, line) {
            None => self.act(line, made)?,
            Some(value) => self.take_word(ring, value)?,
        }
        self.replies.pass();
        Ok(())
    }

    // Takes in a word of the entry that is being read: with its last one its job is opened.
    pub(super) fn take_word(&mut self, ring: &RingSight, value: u32) -> Result<(), OutOfMemory>
        ensures taken { Becomes (after_entry_word ring.now self.old value) result self.old self.new }
    {
        self.entry.push(value)?;
        match self.fetch(ring) {
            Ok(()) => Ok(()),
            Err(lack) => {
                self.entry.pop();
                Err(lack)
            }
        }
    }

    // Opens the job of the entry, where all its words were read.
    fn fetch(&mut self, ring: &RingSight) -> Result<(), OutOfMemory>
        ensures fetched { Becomes (fetched_by self.old self.old.entry (entry_of ring.now.abi self.old.entry)) result self.old self.new }
    {
        let Some(request) = entry_of(ring.abi(), self.entry.as_slice()) else {
            return Ok(());
        };
        let Some(number) = self.fetched.checked_add(1) else {
            return Err(OutOfMemory);
        };
        let job = self.opened_job(number, &request)?;
        match self.jobs.insert(number, job) {
            Ok(_) => {
                self.fetched = number;
                self.entry.clear();
                Ok(())
            }
            Err(_) => Err(OutOfMemory),
        }
    }

    // Keeps what a job maps, and forgets what is unmapped.
    fn keep(&mut self, made: &Move) -> Result<(), OutOfMemory>
        ensures kept { Becomes (with_kept self.old made.now) result self.old self.new }
    {
        match *made {
            Move::Map {
                who: BackMover::Job(job),
                gref,
                mode,
                mapping,
                ..
            } => {
                let writes = mode == Mode::ReadWrite;
                self.kept.add(mapping, Made { job, gref, writes })
            }
            Move::Unmap { mapping, .. } => {
                self.kept.remove(mapping);
                Ok(())
            }
            _ => Ok(()),
        }
    }
}
