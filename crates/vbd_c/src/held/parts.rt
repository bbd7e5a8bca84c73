// Words of a sector that a job of a held back moves many at once.
ghost use Rattle.std.specs.Prelude.{◌≡◌, true, false, None, IfSome, length};
ghost use Rattle.back_jobs.specs.Part.{words_read, words_written, AsksEach, IsWithinPage, NamesPart, IsReadPart, IsWrittenPart};
ghost use Rattle.blk_back.specs.Hands.{hands_of};
ghost use Rattle.vbd_c.specs.Part.{part_of, values_of, asked_after, part_answered, part_status, ArePartAnswered};

use super::HeldBack;
use crate::part::takes;
use crate::status::Status;
use back_jobs::SectorPart;

impl HeldBack {
    /// The words of a sector that a job has read or written next, one after another; `None` where it doesn't ask for a
    /// word.
    pub fn part(&self, job: u64) -> Option<SectorPart>
        ensures value { result ≡ part_of self.now job }
        ensures each { self.now.told ≡ None → IfSome result (λ part. AsksEach part (values_of self.now job) (asked_after self.now job)) }
        ensures within { IfSome result (λ part. IsWithinPage part) }
        ensures names { IfSome result (λ part. NamesPart (hands_of self.now.back.ends.ring) part) }
    {
        if job == 0 {
            return None;
        }
        self.back.sector_part(job)
    }

    /// What is to be written to them.
    pub fn part_values(&self, job: u64) -> &[u32]
        ensures { result.now ≡ values_of self.now job }
    {
        if job == 0 {
            return &[];
        }
        self.back.part_values(job)
    }

    /// Answers that these words were read, the first ones of the part that a job asks for: so many single answers.
    /// `NotAllowed` exactly where it has no such part, and `Untold` where what the last move told wasn't taken yet: then
    /// nothing changes.
    pub fn read_part(&mut self, job: u64, words: &[u32]) -> Status
        ensures held { self.new ≡ part_answered self.old job false (length words.now) (words_read words.now) }
        ensures status { result ≡ part_status self.old job false (length words.now) }
        ensures answered { ArePartAnswered self.old job (λ part. IsReadPart part (length words.now)) (words_read words.now) self.new }
    {
        if self.told.is_some() {
            return Status::Untold;
        }
        if !takes(self.part(job), false, words.len()) {
            return Status::NotAllowed;
        }
        self.back.job_tell_read(job, words);
        Status::Done
    }

    /// Answers that so many words were written, likewise.
    pub fn wrote_part(&mut self, job: u64, count: usize) -> Status
        ensures held { self.new ≡ part_answered self.old job true count (words_written count) }
        ensures status { result ≡ part_status self.old job true count }
        ensures answered { ArePartAnswered self.old job (λ part. IsWrittenPart part count) (words_written count) self.new }
    {
        if self.told.is_some() {
            return Status::Untold;
        }
        if !takes(self.part(job), true, count) {
            return Status::NotAllowed;
        }
        self.back.job_tell_written(job, count as u32);
        Status::Done
    }
}
