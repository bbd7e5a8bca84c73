// The state after some lines of a report.
ghost use Rattle.std.specs.Prelude.{◌≡◌, option_map};
ghost use Rattle.blk_base.specs.Becomes.{Becomes};
ghost use Rattle.request_check.specs.State.{Open, start, open_of, barriers_of, submitted_to, without, told_by, answered, told, stepped, shown_by, seen};

use crate::open::OpenRequest;
use crate::progress::EpochDoings;
use crate::words::KnownWords;
use blk_base::{OutOfMemory, Status, Submission};
use plain_disk::{RequestStage, Sight, frames_of, is_barrier, is_finished, next_stage, told_stage};
use schedule_text::Line;
use std::alloc::Global;
use std::collections::BTreeMap;
use std::marker::Model;

/// What the lines of a report tell of requests: what was seen of the front, the requests that aren't
/// finished, what was done of them in this epoch, and what sectors hold. A finished request is
/// forgotten; each sector that was written or read, and each discard, is kept to the end.
#[derive(Drop)]
pub struct RequestCheck {
    alloc: Global,
    pub(crate) sight: Sight,
    pub(crate) closed: bool,
    pub(crate) submitted: u64,
    pub(crate) frames: u64,
    pub(crate) barriers: u64,
    pub(crate) requests: BTreeMap<u64, OpenRequest>,
    pub(crate) progress: EpochDoings,
    pub(crate) sectors: KnownWords,
}

impl Model for RequestCheck {
    ghost use Rattle.request_check.specs.State.{State};

    ghost Value = { State };

    ghost view = { λ c. record {
      sight = c.sight;
      closed = c.closed;
      submitted = c.submitted;
      frames = c.frames;
      barriers = c.barriers;
      requests = c.requests.entries;
      progress = c.progress;
      sectors = c.sectors;
    } };
}

// How many barriers a submission is.
fn barriers_of(submission: &Submission) -> u64
    ensures { result ≡ barriers_of submission.now }
{
    if is_barrier(submission) { 1 } else { 0 }
}

impl RequestCheck {
    /// No line was seen yet.
    pub fn new(alloc: Global) -> RequestCheck
        ensures { result ≡ start }
    {
        RequestCheck {
            alloc,
            sight: Sight::new(),
            closed: false,
            submitted: 0,
            frames: 0,
            barriers: 0,
            requests: BTreeMap::new(alloc),
            progress: EpochDoings::new(alloc),
            sectors: KnownWords::new(alloc),
        }
    }

    // What an open request asks for.
    pub(crate) fn job_of(&self, id: u64) -> Option<Submission>
        ensures { result ≡ option_map (λ (o : Open). o.submission) (open_of self.now.requests id) }
    {
        match self.requests.get(&id) {
            None => None,
            Some(o) => Some(o.submission()),
        }
    }

    fn submit(&mut self, id: u64, submission: &Submission) -> Result<(), OutOfMemory>
        ensures done { Becomes (submitted_to self.old id submission.now) result self.old self.new }
    {
        let open = OpenRequest::new(self.alloc, id, *submission);
        match self.requests.insert(id, open) {
            Ok(_) => {}
            Err(_) => return Err(OutOfMemory),
        }
        self.submitted = id;
        self.frames = self.frames.saturating_add(u64::from(frames_of(submission)));
        self.barriers = self.barriers.saturating_add(barriers_of(submission));
        Ok(())
    }

    // Nothing is kept of a request that is finished.
    fn forget(&mut self, id: u64, submission: &Submission)
        ensures { self.new ≡ without self.old id submission.now }
    {
        self.frames = self.frames.saturating_sub(u64::from(frames_of(submission)));
        self.barriers = self.barriers.saturating_sub(barriers_of(submission));
        self.requests.remove(&id);
        self.progress.remove(id);
    }

    // Takes in how far a request is told.
    fn tell(&mut self, id: u64, stage: RequestStage)
        ensures { self.new ≡ told_by self.old id stage (open_of self.old.requests id) }
    {
        let Some(submission) = self.job_of(id) else {
            return;
        };
        if is_finished(stage) {
            self.forget(id, &submission);
        } else if let Some(open) = self.requests.get_mut(&id) {
            open.tell(stage);
        }
    }

    fn answer(&mut self, id: u64, status: Status)
        ensures { self.new ≡ answered self.old id status (open_of self.old.requests id) }
    {
        if let Some(submission) = self.job_of(id) {
            self.tell(id, told_stage(&submission, status));
        }
    }

    fn tell_sector(&mut self, id: u64, index: u32)
        ensures { self.new ≡ told self.old id index (open_of self.old.requests id) }
    {
        if let Some(submission) = self.job_of(id) {
            self.tell(id, next_stage(&submission, index));
        }
    }

    // Takes in the next line, but for what it shows of the front.
    fn step(&mut self, line: &Line) -> Result<(), OutOfMemory>
        ensures done { Becomes (stepped self.old line.now) result self.old self.new }
    {
        match line {
            Line::Submit { id, submission } => self.submit(*id, submission),
            Line::Effect { id, index } => self.fill(*id, *index),
            Line::EffectRead { id, index, words } => self.show(*id, *index, words),
            Line::Flushed { id } => self.flush(*id),
            Line::Trimmed { id } => self.trim(*id),
            Line::Fault { id, index } => self.fail(*id, *index),
            Line::Reply { id, status } => self.reply(*id, *status),
            Line::Answer { id, status } => {
                self.answer(*id, *status);
                Ok(())
            }
            Line::Data { id, index, .. } => {
                self.tell_sector(*id, *index);
                Ok(())
            }
            Line::Epoch => {
                self.progress.clear();
                Ok(())
            }
            _ => Ok(()),
        }
    }

    // Takes in what a line shows of the front.
    fn look(&mut self, line: &Line)
        ensures { self.new ≡ shown_by self.old line.now }
    {
        self.sight.see(line);
        if matches!(*line, Line::Closed) {
            self.closed = true;
        }
    }

    /// Takes in the next line. `OutOfMemory` leaves the state as it was.
    pub fn see(&mut self, line: &Line) -> Result<(), OutOfMemory>
        ensures seen { Becomes (seen self.old line.now) result self.old self.new }
    {
        self.step(line)?;
        self.look(line);
        Ok(())
    }
}
