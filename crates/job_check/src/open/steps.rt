// The steps of one open job.
ghost use Rattle.std.specs.Prelude.{◌≡◌, ◌*◌, false, true, IfOk, OnErr, OnOk};
ghost use Rattle.blk_base.specs.Becomes.{Becomes};
ghost use Rattle.job_check.specs.Open.{with_end, moved_by, lacks_words, tasks_by, served_by, after_word, walked_by, is_word_read, is_disk_move, is_same, is_taken, is_through, is_next, may_step};

use super::OpenJob;
use crate::kept::KeptMappings;
use blk_base::{Move, OutOfMemory, Status};
use blk_layout::RawRequest;
use report_rules::{
    Spot, Task, advanced, gref_of, is_step_at, is_unmapped_step, status_by, touched_by, work_tasks,
    work_verdict,
};

// Whether words of a request's indirect pages are still to be read, where so many were.
fn lacks_words(request: &RawRequest, read: usize) -> bool
    ensures { result ≡ lacks_words request.now read }
{
    match *request {
        RawRequest::Indirect { count, .. } => (read as u64) < 2 * u64::from(count),
        _ => false,
    }
}

impl OpenJob {
    /// Takes a word that the job read, where so many rows of replies had begun; `made` is the move.
    /// After want of memory the job is as before.
    pub fn read(&mut self, rows: u64, made: &Move, value: u32) -> Result<(), OutOfMemory>
        ensures moved { OnOk result (self.new ≡ with_end rows (after_word (walked_by self.old made.now) value)) }
        ensures kept { OnErr result (self.new ≡ self.old) }
    {
        let spot = self.next_spot(made);
        self.read_to(spot, rows, value)
    }

    /// The same where the move may come now, and whether it may: else nothing changes. How far the job
    /// comes by it is worked out once for both.
    pub fn read_where_next(
        &mut self,
        kept: &KeptMappings,
        rows: u64,
        made: &Move,
        value: u32,
    ) -> Result<bool, OutOfMemory>
        ensures told { IfOk result (λ may. may ≡ may_step self.old kept.now made.now) }
        ensures moved { IfOk result (λ may. may ≡ true → self.new ≡ with_end rows (after_word (walked_by self.old made.now) value)) }
    {
        let spot = self.next_spot(made);
        if !self.may_come_to(spot, kept, made) {
            return Ok(false);
        }
        self.read_to(spot, rows, value)?;
        Ok(true)
    }

    // Takes a word that the job read, and the place that it comes to.
    fn read_to(&mut self, spot: Option<Spot>, rows: u64, value: u32) -> Result<(), OutOfMemory>
        ensures moved { OnOk result (self.new ≡ with_end rows (after_word (record self.old { spot = spot }) value)) }
        ensures kept { OnErr result (self.new ≡ self.old) }
    {
        self.take_word(value)?;
        self.spot = spot;
        self.note_end(rows);
        Ok(())
    }

    // Whether a move of the job's own may come now, where it takes the job to this place.
    fn may_come_to(&self, next: Option<Spot>, kept: &KeptMappings, made: &Move) -> bool
        requires { next ≡ (walked_by self.now made.now).spot }
        ensures { result ≡ may_step self.now kept.now made.now }
    {
        let Some(_) = next else {
            return false;
        };
        let Some(s) = self.spot else {
            return false;
        };
        match self.tasks.get(s.done) {
            None => false,
            Some(task) => !self.failed && is_through(kept, task, s, made),
        }
    }

    /// Takes a move of the job's own that reads no word and doesn't move the disk, where so many rows
    /// of replies had begun.
    pub fn go(&mut self, rows: u64, made: &Move)
        ensures { is_word_read made.now ≡ false → is_disk_move made.now ≡ false → self.new ≡ moved_by rows made.now self.old }
    {
        self.spot = self.next_spot(made);
        self.note_end(rows);
    }

    /// Takes a move of the disk that the job made, where so many rows of replies had begun.
    /// `OutOfMemory`, and nothing changed, where it made 2^64 - 1 before.
    pub fn move_disk(&mut self, rows: u64, made: &Move) -> Result<(), OutOfMemory>
        ensures moved { OnOk result (is_disk_move made.now ≡ true → self.new ≡ moved_by rows made.now self.old) }
        ensures kept { OnErr result (self.new ≡ self.old) }
    {
        let Some(moved) = self.moved.checked_add(1) else {
            return Err(OutOfMemory);
        };
        self.moved = moved;
        self.spot = self.next_spot(made);
        self.sector = None;
        self.note_end(rows);
        Ok(())
    }

    // How far the job came by a move more.
    fn next_spot(&self, made: &Move) -> Option<Spot>
        ensures { result ≡ (walked_by self.now made.now).spot }
    {
        let spot = self.spot?;
        advanced(self.persistent, self.tasks.as_slice(), made, spot)
    }

    // Takes in a word that the job read, as long as one of its indirect pages is to be read.
    fn take_word(&mut self, value: u32) -> Result<(), OutOfMemory>
        ensures taken { Becomes (after_word self.old value) result self.old self.new }
    {
        if !lacks_words(&self.request, self.read.len()) {
            return Ok(());
        }
        self.read.push(value)?;
        if lacks_words(&self.request, self.read.len()) {
            return Ok(());
        }
        match self.known_work() {
            Ok((tasks, served)) => {
                self.tasks = tasks;
                self.served = served;
                Ok(())
            }
            Err(lack) => {
                self.read.pop();
                Err(lack)
            }
        }
    }

    // The tasks, and the status once they are done, by the words that were read.
    fn known_work(&self) -> Result<(Vec<Task>, Status), OutOfMemory>
        ensures tasks { IfOk result (λ known. known.0.items ≡ tasks_by self.now self.now.read) }
        ensures served { IfOk result (λ known. known.1 ≡ served_by self.now self.now.read) }
    {
        let read = self.read.as_slice();
        let tasks = work_tasks(self.alloc, &self.request, &self.disk, self.persistent, read)?;
        let verdict = work_verdict(self.alloc, &self.request, &self.disk, read)?;
        Ok((tasks, status_by(&verdict)))
    }

    /// Whether a move of the job's own may come now: the disk didn't fail, and the move is the next
    /// step of its work, through the mapping of its task.
    pub fn may_step(&self, kept: &KeptMappings, made: &Move) -> bool
        ensures { result ≡ may_step self.now kept.now made.now }
    {
        let Some(s) = self.spot else {
            return false;
        };
        !self.failed
            && s.done < self.tasks.len()
            && is_next(self.persistent, kept, s, &self.tasks[s.done], made)
    }
}

// Whether a task is gone on with through the mapping that was named, if both are.
fn is_taken(kept: &KeptMappings, gref: u32, mapping: Option<u64>, touched: Option<u64>) -> bool
    ensures { result ≡ is_taken kept.now gref mapping touched }
{
    match (mapping, touched) {
        (None, Some(number)) => kept.is_kept_of(gref, number),
        _ => true,
    }
}

fn is_same(mapping: Option<u64>, touched: Option<u64>) -> bool
    ensures { result ≡ is_same mapping touched }
{
    match (mapping, touched) {
        (Some(mine), Some(number)) => number == mine,
        _ => true,
    }
}

fn is_through(kept: &KeptMappings, task: &Task, s: Spot, made: &Move) -> bool
    ensures { result ≡ is_through kept.now task.now s made.now }
{
    let gref = gref_of(task);
    let touched = touched_by(made);
    is_same(s.mapping, touched)
        && is_taken(kept, gref, s.mapping, touched)
        && (s.place != 0 || is_step_at(task, 0, made) || kept.is_kept_for(gref))
}

fn is_next(persistent: bool, kept: &KeptMappings, s: Spot, task: &Task, made: &Move) -> bool
    ensures { result ≡ is_next persistent kept.now s task.now made.now }
{
    let step = is_step_at(task, s.place, made) || is_unmapped_step(persistent, task, s.place, made);
    !s.refused && step && is_through(kept, task, s, made)
}
