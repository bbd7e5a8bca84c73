// Words that are moved many at once: of a sector by a job, of an entry by the ring's end.
ghost use Rattle.std.specs.Prelude.{◌≡◌, [], true, None, IfSome, IsPermutation, length};
ghost use Rattle.std.specs.Option.{IsSomeAnd};
ghost use Rattle.back_jobs.specs.Part.{words_read, words_written, AsksEach, IsWithinPage, NamesPart, IsReadPart, IsWrittenPart};
ghost use Rattle.blk_back.specs.Hands.{hands_of, all_hands_of};
ghost use Rattle.vbd_back.specs.Part.{job_part, job_values, entry_part};
ghost use Rattle.vbd_back.specs.Keeping.{job_steps_keeping, job_asked_keeping, JobMovesEachKeeping};
ghost use Rattle.vbd_back.specs.Keeping.{with_ring, steps_keeping, asked_keeping, BackMovesEachKeeping};

use super::KeepingBackend;
use crate::turn::Turn;
use back_jobs::SectorPart;

impl KeepingBackend {
    /// The words of a sector that the job of a number has read or written next, as single asks would
    /// name them one after another; `None` exactly where it doesn't ask for a word, and so for every job
    /// after a halt.
    #[inline(always)]
    pub fn sector_part(&self, number: u64) -> Option<SectorPart>
        ensures value { result ≡ job_part self.now.ends number }
        ensures each { IfSome result (λ part. AsksEach part (job_values self.now.ends number) (job_asked_keeping self.now number)) }
        ensures within { IfSome result (λ part. IsWithinPage part) }
        ensures names { IfSome result (λ part. NamesPart (hands_of self.now.ends.ring) part) }
    {
        self.ring.sector_part(number)
    }

    /// The words that are to be written to a part that is written, in their order; none where the job
    /// of a number doesn't ask for a word to be written.
    #[inline(always)]
    pub fn part_values(&self, number: u64) -> &[u32]
        ensures value { result.now ≡ job_values self.now.ends number }
        ensures count { IfSome (job_part self.now.ends number) (λ part. part.writes ≡ true → length result.now ≡ part.count) }
    {
        self.ring.part_values(number)
    }

    /// These words were read, the first ones of the part that the job of a number asks for: as if each
    /// had been told by itself.
    #[inline(always)]
    pub fn job_tell_read(&mut self, number: u64, words: &[u32])
        requires part { IsSomeAnd (job_part self.old.ends number) (λ part. IsReadPart part (length words.now)) }
        requires told { self.old.ends.ring.told ≡ None }
        ensures stepped { self.new ≡ job_steps_keeping self.old number (words_read words.now) }
        ensures each { JobMovesEachKeeping self.old number (words_read words.now) }
        ensures told { self.new.ends.ring.told ≡ None }
        ensures hands { IsPermutation (all_hands_of self.old.ends.ring) (all_hands_of self.new.ends.ring) }
    {
        self.ring.job_tell_read(number, words);
    }

    /// So many words were written, the first ones of the part that the job of a number asks for: as if
    /// each had been told by itself.
    #[inline(always)]
    pub fn job_tell_written(&mut self, number: u64, count: u32)
        requires part { IsSomeAnd (job_part self.old.ends number) (λ part. IsWrittenPart part count) }
        requires told { self.old.ends.ring.told ≡ None }
        ensures stepped { self.new ≡ job_steps_keeping self.old number (words_written count) }
        ensures each { JobMovesEachKeeping self.old number (words_written count) }
        ensures told { self.new.ends.ring.told ≡ None }
        ensures hands { IsPermutation (all_hands_of self.old.ends.ring) (all_hands_of self.new.ends.ring) }
    {
        self.ring.job_tell_written(number, count);
    }
}

impl KeepingBackend {
    /// The words of the entry that its end of the ring copies, as single asks would name them one after another from the
    /// next one on: up to the entry's last word, or to the last one of their page where the entry goes on in the next.
    /// `None` where it copies no entry, or hasn't its first word yet, which it asks for alone, after a halt, and while
    /// the negotiation asks for something.
    #[inline(always)]
    pub fn entry_part(&self) -> Option<SectorPart>
        ensures value { result ≡ entry_part self.now.ends }
        ensures each { IfSome result (λ part. AsksEach part [] (asked_keeping self.now)) }
        ensures within { IfSome result (λ part. IsWithinPage part) }
        ensures names { IfSome result (λ part. NamesPart (hands_of self.now.ends.ring) part) }
    {
        match self.turn {
            Turn::Ring => self.ring.entry_part(),
            _ => None,
        }
    }

    /// These words were read, the first ones of the part of an entry that it asks for: as if each had been told by
    /// itself. With the entry's last word its job begins.
    #[inline(always)]
    pub fn tell_entry(&mut self, words: &[u32])
        requires part { IsSomeAnd (entry_part self.old.ends) (λ part. IsReadPart part (length words.now)) }
        requires told { self.old.ends.ring.told ≡ None }
        ensures stepped { self.new ≡ steps_keeping self.old (words_read words.now) }
        ensures each { BackMovesEachKeeping self.old (words_read words.now) }
        ensures told { self.new.ends.ring.told ≡ None }
        ensures ring { self.new ≡ with_ring self.old self.new.ends.ring }
        ensures hands { IsPermutation (all_hands_of self.old.ends.ring) (all_hands_of self.new.ends.ring) }
    {
        self.ring.tell_entry(words);
    }
}
