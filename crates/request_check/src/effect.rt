// What the disk's doings make of the state.
ghost use Rattle.std.specs.Prelude.{◌≡◌, ◌+◌};
ghost use Rattle.blk_base.specs.Becomes.{Becomes};
ghost use Rattle.plain_disk.specs.Request.{sector_of};
ghost use Rattle.request_check.specs.Words.{with_single, with_range};
ghost use Rattle.request_check.specs.Progress.{with_doing, with_done, changed};
ghost use Rattle.request_check.specs.State.{open_of, with_note, discarded, filled, shown, flushed, trimmed, failed, replied};

use crate::open::OpenRequest;
use crate::progress::{Doing, EpochDoings};
use crate::state::RequestCheck;
use crate::words::{Discarded, KnownWords};
use blk_base::{OutOfMemory, SectorWords, Status, Submission};
use plain_disk::{count_of, filling, is_discard, is_write, sector_of};

// The sector of a request's place.
pub(crate) fn place_sector(submission: &Submission, index: u32) -> u128
    ensures { result ≡ sector_of submission.now + index }
{
    u128::from(sector_of(submission)) + u128::from(index)
}

// The sectors of a discard, of which the disk failed or not.
fn discarded(submission: &Submission, failed: bool) -> Discarded
    ensures { result ≡ discarded submission.now failed }
{
    Discarded {
        sector: sector_of(submission),
        count: count_of(submission),
        failed,
    }
}

// Takes in what was done of a request, and what a sector holds from now on.
#[tactic(auto, using(crate::proofs::Undone::single_undone))]
fn set_sector(
    progress: &mut EpochDoings,
    sectors: &mut KnownWords,
    id: u64,
    doing: Doing,
    sector: u128,
    words: Option<SectorWords>,
) -> Result<(), OutOfMemory>
    ensures noted { Becomes (changed (with_doing doing) progress.old id) result progress.old progress.new }
    ensures set { Becomes (with_single sectors.old sector words) result sectors.old sectors.new }
{
    let old = sectors.single(sector);
    sectors.set(sector, words)?;
    let noted = progress.note(id, doing);
    if noted.is_err() {
        sectors.restore(sector, &old);
    }
    noted
}

// Takes in what was done of a request, and which sectors a discard changed.
#[tactic(auto, using(crate::proofs::Undone::range_undone))]
fn set_range(
    progress: &mut EpochDoings,
    sectors: &mut KnownWords,
    id: u64,
    doing: Doing,
    range: Discarded,
) -> Result<(), OutOfMemory>
    ensures noted { Becomes (changed (with_doing doing) progress.old id) result progress.old progress.new }
    ensures set { Becomes (with_range sectors.old range) result sectors.old sectors.new }
{
    sectors.set_range(range)?;
    let noted = progress.note(id, doing);
    if noted.is_err() {
        sectors.remove_range();
    }
    noted
}

// Takes in that a sector of a read showed these words.
#[tactic(auto, using(crate::proofs::Undone::note_undone))]
fn show_sector(
    request: &mut OpenRequest,
    progress: &mut EpochDoings,
    sectors: &mut KnownWords,
    id: u64,
    index: u32,
    words: &SectorWords,
) -> Result<(), OutOfMemory>
    ensures told { Becomes (with_note request.old index words.now) result request.old request.new }
    ensures noted { Becomes (changed (with_done index) progress.old id) result progress.old progress.new }
    ensures set { Becomes (with_single sectors.old (sector_of request.old.submission + index) (Some words.now)) result sectors.old sectors.new }
{
    let sector = place_sector(&request.submission(), index);
    let old = request.noted(index);
    request.note(index, words)?;
    let shown = set_sector(
        progress,
        sectors,
        id,
        Doing::Done(index),
        sector,
        Some(*words),
    );
    if shown.is_err() {
        request.restore_note(index, &old);
    }
    shown
}

impl RequestCheck {
    pub(crate) fn fill(&mut self, id: u64, index: u32) -> Result<(), OutOfMemory>
        ensures done { Becomes (filled self.old id index (open_of self.old.requests id)) result self.old self.new }
    {
        let Some(submission) = self.job_of(id) else {
            return Ok(());
        };
        let sector = place_sector(&submission, index);
        let words = Some(filling(&submission, index));
        let doing = Doing::Done(index);
        set_sector(
            &mut self.progress,
            &mut self.sectors,
            id,
            doing,
            sector,
            words,
        )
    }

    pub(crate) fn show(
        &mut self,
        id: u64,
        index: u32,
        words: &SectorWords,
    ) -> Result<(), OutOfMemory>
        ensures done { Becomes (shown self.old id index words.now (open_of self.old.requests id)) result self.old self.new }
    {
        let Some(request) = self.requests.get_mut(&id) else {
            return Ok(());
        };
        show_sector(
            request,
            &mut self.progress,
            &mut self.sectors,
            id,
            index,
            words,
        )
    }

    pub(crate) fn flush(&mut self, id: u64) -> Result<(), OutOfMemory>
        ensures done { Becomes (flushed self.old id (open_of self.old.requests id)) result self.old self.new }
    {
        if self.job_of(id).is_none() {
            return Ok(());
        }
        self.progress.note(id, Doing::Done(0))
    }

    pub(crate) fn trim(&mut self, id: u64) -> Result<(), OutOfMemory>
        ensures done { Becomes (trimmed self.old id (open_of self.old.requests id)) result self.old self.new }
    {
        let Some(submission) = self.job_of(id) else {
            return Ok(());
        };
        let range = discarded(&submission, false);
        set_range(
            &mut self.progress,
            &mut self.sectors,
            id,
            Doing::Done(0),
            range,
        )
    }

    pub(crate) fn fail(&mut self, id: u64, index: u32) -> Result<(), OutOfMemory>
        ensures done { Becomes (failed self.old id index (open_of self.old.requests id)) result self.old self.new }
    {
        let Some(submission) = self.job_of(id) else {
            return Ok(());
        };
        let doing = Doing::Failed;
        if is_write(&submission) {
            let sector = place_sector(&submission, index);
            let unknown = None;
            set_sector(
                &mut self.progress,
                &mut self.sectors,
                id,
                doing,
                sector,
                unknown,
            )
        } else if is_discard(&submission) {
            let range = discarded(&submission, true);
            set_range(&mut self.progress, &mut self.sectors, id, doing, range)
        } else {
            self.progress.note(id, doing)
        }
    }

    pub(crate) fn reply(&mut self, id: u64, status: Status) -> Result<(), OutOfMemory>
        ensures done { Becomes (replied self.old id status (open_of self.old.requests id)) result self.old self.new }
    {
        if self.job_of(id).is_none() {
            return Ok(());
        }
        self.progress.note(id, Doing::Replied(status))
    }
}
