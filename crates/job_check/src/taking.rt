// A line that may come next is taken in.
ghost use Rattle.std.specs.Prelude.{◌≡◌, ◌&&◌, IfOk, true};
ghost use Rattle.job_check.specs.State.{job_at, after_word_read, passed, seen};
ghost use Rattle.job_check.specs.Verdict.{may_step_of, owes_none, allows};

use crate::sight::JobSight;
use blk_base::{BackMover, Move, OutOfMemory};
use ring_check::RingSight;
use schedule_text::Line;

impl JobSight {
    /// Whether the rules on jobs allow the line, where this is kept of the ring before it; where they
    /// do, one line further. Else, and after want of memory, nothing more can be told of the report.
    #[inline(always)]
    pub fn take(&mut self, ring: &RingSight, line: &Line) -> Result<bool, OutOfMemory>
        ensures told { IfOk result (λ may. may ≡ allows ring.now self.old line.now) }
        ensures taken { IfOk result (λ may. may ≡ true → self.new ≡ seen ring.now self.old line.now) }
    {
        match line {
            Line::Move(Move::FrontRead { .. }) | Line::Move(Move::FrontWrite { .. }) => {
                Ok(self.pass())
            }
            Line::Move(made) => match *made {
                Move::Read {
                    who: BackMover::Job(k),
                    value,
                    ..
                } => self.take_read(k, made, value),
                _ => self.take_any(ring, line),
            },
            _ => self.take_any(ring, line),
        }
    }

    // Takes in a line that tells nothing of jobs, and whether nothing is due after the line before.
    #[inline(always)]
    fn pass(&mut self) -> bool
        ensures told { result ≡ owes_none self.old }
        ensures taken { self.new ≡ passed self.old }
    {
        let may = self.moved.is_none() && self.replies.pushed().is_none();
        self.replies.pass();
        self.moved = None;
        may
    }

    // Takes in a line in which a job reads a word. Most moves of jobs are reads, so the job is looked
    // for once, and its step worked out once.
    fn take_read(&mut self, k: u64, made: &Move, value: u32) -> Result<bool, OutOfMemory>
        ensures told { IfOk result (λ may. may ≡ (owes_none self.old && may_step_of (job_at self.old.jobs k) self.old.kept made.now)) }
        ensures taken { IfOk result (λ may. may ≡ true → self.new ≡ passed (after_word_read self.old k made.now value)) }
    {
        if !self.pass() {
            return Ok(false);
        }
        self.read_where_next(k, made, value)
    }

    // Takes in a line, whatever it is.
    fn take_any(&mut self, ring: &RingSight, line: &Line) -> Result<bool, OutOfMemory>
        ensures told { IfOk result (λ may. may ≡ allows ring.now self.old line.now) }
        ensures taken { IfOk result (λ may. may ≡ true → self.new ≡ seen ring.now self.old line.now) }
    {
        let may = self.allows_step(line)
            && self.allows_effect(line)
            && self.allows_data(line)
            && self.allows_reply(ring, line);
        if !may {
            return Ok(false);
        }
        self.see(ring, line)?;
        Ok(true)
    }
}
