// Words that are moved many at once: of a sector by a job, of an entry by the back itself.
ghost use Rattle.std.specs.Prelude.{◌≡◌, ◌+◌, ◌<◌, [], true, None, IfSome, IsPermutation, length};
ghost use Rattle.std.specs.Option.{IsSomeAnd};
ghost use Rattle.back_jobs.specs.Part.{words_read, words_written, AsksEach, IsWithinPage, NamesPart, IsReadPart, IsWrittenPart};
ghost use Rattle.blk_back.specs.Hands.{hands_of, all_hands_of};
ghost use Rattle.blk_back.specs.Part.{job_part, job_values, job_steps_keeping, job_asked_keeping, MovesEachKeeping};
ghost use Rattle.blk_back.specs.Part.{entry_from, entry_part_at, entry_part, copied, steps_keeping, asked_keeping, BackMovesEachKeeping};
ghost use Rattle.blk_back.specs.declared.stage.BackStage.TheVariants as stage;
ghost use Rattle.ring_words.specs.Shape.{entry_words_of};

use super::Back;
use crate::stage::BackStage;
use back_jobs::SectorPart;

impl Back {
    /// The words of a sector that the job of a number has read or written next, as single asks would
    /// name them one after another; `None` exactly where it doesn't ask for a word, and so for every job
    /// after a halt.
    #[inline(always)]
    pub fn sector_part(&self, number: u64) -> Option<SectorPart>
        ensures value { result ≡ job_part self.now number }
        ensures each { IfSome result (λ part. AsksEach part (job_values self.now number) (job_asked_keeping self.now number)) }
        ensures within { IfSome result (λ part. IsWithinPage part) }
        ensures names { IfSome result (λ part. NamesPart (hands_of self.now) part) }
    {
        match self.halted {
            Some(_) => None,
            None => self.jobs.sector_part(number),
        }
    }

    /// The words that are to be written to a part that is written, in their order; none where the job
    /// of a number doesn't ask for a word to be written.
    #[inline(always)]
    pub fn part_values(&self, number: u64) -> &[u32]
        ensures value { result.now ≡ job_values self.now number }
        ensures count { IfSome (job_part self.now number) (λ part. part.writes ≡ true → length result.now ≡ part.count) }
    {
        match self.halted {
            Some(_) => &[],
            None => self.jobs.part_values(number),
        }
    }

    /// These words were read, the first ones of the part that the job of a number asks for: as if each
    /// had been told by itself.
    #[inline(always)]
    pub fn job_tell_read(&mut self, number: u64, words: &[u32])
        requires part { IsSomeAnd (job_part self.old number) (λ part. IsReadPart part (length words.now)) }
        requires told { self.old.told ≡ None }
        ensures stepped { self.new ≡ job_steps_keeping self.old number (words_read words.now) }
        ensures each { MovesEachKeeping self.old number (words_read words.now) }
        ensures rest { self.new ≡ record self.old { jobs = self.new.jobs } }
        ensures hands { IsPermutation (all_hands_of self.old) (all_hands_of self.new) }
    {
        self.jobs.tell_read(number, words);
    }

    /// So many words were written, the first ones of the part that the job of a number asks for: as if
    /// each had been told by itself.
    #[inline(always)]
    pub fn job_tell_written(&mut self, number: u64, count: u32)
        requires part { IsSomeAnd (job_part self.old number) (λ part. IsWrittenPart part count) }
        requires told { self.old.told ≡ None }
        ensures stepped { self.new ≡ job_steps_keeping self.old number (words_written count) }
        ensures each { MovesEachKeeping self.old number (words_written count) }
        ensures rest { self.new ≡ record self.old { jobs = self.new.jobs } }
        ensures hands { IsPermutation (all_hands_of self.old) (all_hands_of self.new) }
    {
        self.jobs.tell_written(number, count);
    }
}

impl Back {
    /// The words of the entry that it copies, as single asks would name them one after another from the next one on: up
    /// to the entry's last word, or to the last one of their page where the entry goes on in the next. `None` exactly
    /// where it copies no entry, or hasn't its first word yet, which it asks for alone, and after a halt.
    #[inline(always)]
    pub fn entry_part(&self) -> Option<SectorPart>
        ensures value { result ≡ entry_part self.now }
        ensures each { IfSome result (λ part. AsksEach part [] (asked_keeping self.now)) }
        ensures within { IfSome result (λ part. IsWithinPage part) }
        ensures names { IfSome result (λ part. NamesPart (hands_of self.now) part) }
    {
        match self.halted {
            Some(_) => None,
            None => self.entry_words(),
        }
    }

    // The same of a back that hasn't halted.
    #[inline(always)]
    fn entry_words(&self) -> Option<SectorPart>
        ensures value { result ≡ entry_part_at self.now.stage self.now }
        ensures within { IfSome result (λ part. IsWithinPage part) }
    {
        match self.stage {
            BackStage::Fetch(k) => Some(self.entry_from(k)),
            _ => None,
        }
    }

    // The words of the next entry from word `k` on.
    #[inline(always)]
    fn entry_from(&self, k: u32) -> SectorPart
        requires { k < entry_words_of self.now.shape.abi }
        ensures value { result ≡ entry_from self.now k }
        ensures within { IsWithinPage result }
    {
        let shape = self.shape();
        let (page, word) = shape.slot_word(self.ring.indices.cons(), k);
        SectorPart {
            mapping: self.page(page),
            word,
            count: (shape.entry_words() - k).min(1024 - word),
            writes: false,
        }
    }

    /// These words were read, the first ones of the part of an entry that it asks for: as if each had been told by
    /// itself. With the entry's last word its job begins.
    #[inline(always)]
    pub fn tell_entry(&mut self, words: &[u32])
        requires part { IsSomeAnd (entry_part self.old) (λ part. IsReadPart part (length words.now)) }
        requires told { self.old.told ≡ None }
        ensures stepped { self.new ≡ steps_keeping self.old (words_read words.now) }
        ensures each { BackMovesEachKeeping self.old (words_read words.now) }
        ensures told { self.new.told ≡ None }
        ensures hands { IsPermutation (all_hands_of self.old) (all_hands_of self.new) }
    {
        let Some((last, rest)) = words.split_last() else {
            return;
        };
        if let BackStage::Fetch(k) = self.stage {
            self.copy(k, rest);
            self.fetch(k + rest.len() as u32, *last);
        }
    }

    // Words of an entry were read, and its last one wasn't.
    #[inline(always)]
    fn copy(&mut self, k: u32, words: &[u32])
        requires stage { self.old.stage ≡ stage.Fetch k }
        requires placed { k + length words.now < entry_words_of self.old.shape.abi }
        ensures { self.new ≡ copied self.old k words.now }
    {
        let _ = self.ring.entry.try_extend_from_slice(words);
        self.stage = BackStage::Fetch(k + words.len() as u32);
    }
}
