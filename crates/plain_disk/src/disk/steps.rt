// The step of each kind of line.
ghost use Rattle.std.specs.Prelude.{◌≡◌, ◌≤◌, ◌-◌, Option, Some, length, map, filter};
ghost use Rattle.blk_base.specs.Becomes.{Becomes};
ghost use Rattle.plain_disk.specs.Disk.{request_of};
ghost use Rattle.plain_disk.specs.Step.{submitted_of, effect_of, read_of, flushed_of, trimmed_of, fault_of, replied_of, answered_of, data_of, epoch_of, quiet_of, is_in_order, may_reply, reopened, served, one_sector, all_sectors, lost_of, with_request};
ghost use Rattle.plain_disk.specs.Stands.{Steps};

use super::{PlainDisk, Stand};
use crate::request::{Change, DiskRequest, Extent, Noted, Place, RequestStage};
use crate::{looking, sectors};
use blk_base::{OutOfMemory, SectorWords, Status, Submission};

impl PlainDisk {
    pub(super) fn submit(&mut self, id: u64, submission: Submission) -> Result<Stand, OutOfMemory>
        ensures stands { Steps (submitted_of self.old id submission) result self.old self.new }
    {
        if id == 0 || id - 1 != self.requests.len() as u64 {
            return Ok(Stand::Falls);
        }
        self.requests.push(DiskRequest {
            submission,
            faulted: false,
            reply: None,
            stage: RequestStage::Open,
        })?;
        Ok(Stand::Stands)
    }

    // Whether the requests before this one that a barrier orders with it are settled.
    fn is_in_order(&self, id: u64, r: &DiskRequest) -> bool
        requires { id - 1 ≤ length self.now.requests }
        ensures { result ≡ is_in_order self.now id r.now }
    {
        let before = id.saturating_sub(1) as usize;
        looking::are_settled(
            self.done.as_slice(),
            &self.requests[..before],
            looking::is_barrier(&r.submission),
        )
    }

    // Notes a place as done, and what happened to sectors.
    fn serve(&mut self, place: Place, change: Change) -> Result<(), OutOfMemory>
        ensures served { Becomes (served self.old place change) result self.old self.new }
    {
        self.done.push(place)?;
        match self.changes.push(change) {
            Ok(()) => Ok(()),
            Err(_) => {
                let _ = self.done.pop();
                Err(OutOfMemory)
            }
        }
    }

    pub(super) fn effect(&mut self, id: u64, index: u32) -> Result<Stand, OutOfMemory>
        ensures stands { Steps (effect_of self.old id index (request_of self.old.requests id)) result self.old self.new }
    {
        let Some(r) = looking::request_of(self.requests.as_slice(), id) else {
            return Ok(Stand::Falls);
        };
        if !looking::is_write(&r.submission)
            || !looking::may_serve(self.done.as_slice(), id, &r, index)
            || !self.is_in_order(id, &r)
        {
            return Ok(Stand::Falls);
        }
        let words = looking::filling(&r.submission, index);
        let at = one_sector(&r.submission, index);
        self.serve(Place { id, index }, Change::Filled { at, words })?;
        Ok(Stand::Stands)
    }

    pub(super) fn effect_read(
        &mut self,
        id: u64,
        index: u32,
        words: SectorWords,
    ) -> Result<Stand, OutOfMemory>
        ensures stands { Steps (read_of self.old id index words (request_of self.old.requests id)) result self.old self.new }
    {
        let Some(r) = looking::request_of(self.requests.as_slice(), id) else {
            return Ok(Stand::Falls);
        };
        let known = sectors::place_words(
            self.first.as_slice(),
            self.changes.as_slice(),
            &r.submission,
            index,
        );
        if !looking::is_read(&r.submission)
            || !looking::may_serve(self.done.as_slice(), id, &r, index)
            || !sectors::may_hold(&known, &words)
        {
            return Ok(Stand::Falls);
        }
        self.noted.push(Noted { id, index, words })?;
        let at = one_sector(&r.submission, index);
        match self.serve(Place { id, index }, Change::Showed { at, words }) {
            Ok(()) => Ok(Stand::Stands),
            Err(OutOfMemory) => {
                let _ = self.noted.pop();
                Err(OutOfMemory)
            }
        }
    }

    pub(super) fn flushed(&mut self, id: u64) -> Result<Stand, OutOfMemory>
        ensures stands { Steps (flushed_of self.old id (request_of self.old.requests id)) result self.old self.new }
    {
        let Some(r) = looking::request_of(self.requests.as_slice(), id) else {
            return Ok(Stand::Falls);
        };
        if !looking::is_flush(&r.submission)
            || !looking::may_serve(self.done.as_slice(), id, &r, 0)
        {
            return Ok(Stand::Falls);
        }
        self.serve(Place { id, index: 0 }, Change::Flushed)?;
        Ok(Stand::Stands)
    }

    pub(super) fn trimmed(&mut self, id: u64) -> Result<Stand, OutOfMemory>
        ensures stands { Steps (trimmed_of self.old id (request_of self.old.requests id)) result self.old self.new }
    {
        let Some(r) = looking::request_of(self.requests.as_slice(), id) else {
            return Ok(Stand::Falls);
        };
        if !looking::is_discard(&r.submission)
            || !looking::may_serve(self.done.as_slice(), id, &r, 0)
            || !self.is_in_order(id, &r)
        {
            return Ok(Stand::Falls);
        }
        let words = looking::filling(&r.submission, 0);
        let at = all_sectors(&r.submission);
        self.serve(Place { id, index: 0 }, Change::Filled { at, words })?;
        Ok(Stand::Stands)
    }

    pub(super) fn fault(&mut self, id: u64, index: u32) -> Result<Stand, OutOfMemory>
        ensures stands { Steps (fault_of self.old id index (request_of self.old.requests id)) result self.old self.new }
    {
        let Some(r) = looking::request_of(self.requests.as_slice(), id) else {
            return Ok(Stand::Falls);
        };
        if !looking::may_serve(self.done.as_slice(), id, &r, index)
            || (looking::is_ordered(&r.submission) && !self.is_in_order(id, &r))
        {
            return Ok(Stand::Falls);
        }
        if looking::is_write(&r.submission) {
            let at = one_sector(&r.submission, index);
            self.changes.push(Change::Spoiled { at })?;
        } else if looking::is_discard(&r.submission) {
            let at = all_sectors(&r.submission);
            self.changes.push(Change::Spoiled { at })?;
        }
        self.requests[(id - 1) as usize].faulted = true;
        Ok(Stand::Stands)
    }

    pub(super) fn reply(&mut self, id: u64, status: Status) -> Result<Stand, OutOfMemory>
        ensures stands { Steps (replied_of self.old id status (request_of self.old.requests id)) result self.old self.new }
    {
        let Some(r) = looking::request_of(self.requests.as_slice(), id) else {
            return Ok(Stand::Falls);
        };
        if !looking::is_open(r.stage) || r.reply.is_some() || !self.may_reply(id, &r, status) {
            return Ok(Stand::Falls);
        }
        self.requests[(id - 1) as usize].reply = Some(status);
        Ok(Stand::Stands)
    }

    // Whether a reply may say this.
    fn may_reply(&self, id: u64, r: &DiskRequest, status: Status) -> bool
        ensures { result ≡ may_reply self.now id r.now status }
    {
        match status {
            Status::Okay => {
                looking::done_count(self.done.as_slice(), id)
                    == looking::places_of(&r.submission) as usize
            }
            Status::Error => r.faulted,
            Status::Unsupported => false,
        }
    }

    pub(super) fn answer(&mut self, id: u64, status: Status) -> Result<Stand, OutOfMemory>
        ensures stands { Steps (answered_of self.old id status (request_of self.old.requests id)) result self.old self.new }
    {
        let Some(r) = looking::request_of(self.requests.as_slice(), id) else {
            return Ok(Stand::Falls);
        };
        if !looking::is_open(r.stage) || !looking::is_status(r.reply, status) {
            return Ok(Stand::Falls);
        }
        self.requests[(id - 1) as usize].stage = looking::told_stage(&r.submission, status);
        Ok(Stand::Stands)
    }

    pub(super) fn tell(
        &mut self,
        id: u64,
        index: u32,
        words: SectorWords,
    ) -> Result<Stand, OutOfMemory>
        ensures stands { Steps (data_of self.old id index words (request_of self.old.requests id)) result self.old self.new }
    {
        let Some(r) = looking::request_of(self.requests.as_slice(), id) else {
            return Ok(Stand::Falls);
        };
        let noted = looking::noted_at(self.noted.as_slice(), id, index);
        if !looking::is_next(r.stage, index) || !looking::are_noted(&noted, &words) {
            return Ok(Stand::Falls);
        }
        self.requests[(id - 1) as usize].stage = looking::next_stage(&r.submission, index);
        Ok(Stand::Stands)
    }

    pub(super) fn epoch(&mut self) -> Result<Stand, OutOfMemory>
        ensures stands { Steps (Some (epoch_of self.old)) result self.old self.new }
    {
        reopen(&mut self.requests);
        self.done.clear();
        Ok(Stand::Stands)
    }

    pub(super) fn quiet(&mut self) -> Result<Stand, OutOfMemory>
        ensures stands { Steps (quiet_of self.old) result self.old self.new }
    {
        if !looking::are_finished(self.requests.as_slice()) {
            return Ok(Stand::Falls);
        }
        Ok(Stand::Stands)
    }
}

// The sector of a request's place.
fn one_sector(submission: &Submission, index: u32) -> Extent
    ensures { result ≡ one_sector submission.now index }
{
    Extent {
        sector: looking::sector_of(submission),
        from: index,
        count: 1,
    }
}

// All sectors of a request.
fn all_sectors(submission: &Submission) -> Extent
    ensures { result ≡ all_sectors submission.now }
{
    Extent {
        sector: looking::sector_of(submission),
        from: 0,
        count: looking::count_of(submission),
    }
}

// Forgets what this epoch's faults and replies were.
fn reopen(requests: &mut [DiskRequest])
    ensures { requests.new ≡ map reopened requests.old }
{
    for i in 0..requests.len() {
        requests[i] = looking::reopened(&requests[i]);
    }
}
