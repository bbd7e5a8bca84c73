// Words of a sector that the job of a number moves many at once.
ghost use Rattle.std.specs.Prelude.{◌≡◌, ◌-◌, true, IfSome, IsPermutation, length};
ghost use Rattle.std.specs.Option.{IsSomeAnd};
ghost use Rattle.back_jobs.specs.Hands.{hands_in};
ghost use Rattle.back_jobs.specs.Keeping.{all_hands};
ghost use Rattle.back_jobs.specs.Part.{part_of, part_values, told_each, asked_after, words_read, words_written, AsksEach, IsWithinPage, NamesPart, IsReadPart, IsWrittenPart, IsPassedPart, JobMovesEach, HaveNoEffect};

use super::Jobs;
use crate::part::SectorPart;
use blk_base::BackAnswer;

impl Jobs {
    /// The words of a sector that the job of a number has read or written next, as single asks would
    /// name them one after another; `None` exactly where it doesn't ask for a word, and so also where it
    /// waits for another job.
    pub fn sector_part(&self, number: u64) -> Option<SectorPart>
        ensures value { result ≡ part_of self.now number }
        ensures each { IfSome result (λ part. AsksEach part (part_values self.now number) (asked_after self.now number)) }
        ensures within { IfSome result (λ part. IsWithinPage part) }
        ensures names { IfSome result (λ part. NamesPart (hands_in self.now.works) part) }
    {
        let place = self.place(number)?;
        if self.waits(place) {
            return None;
        }
        self.held[place].part()
    }

    /// The words that are to be written to a part that is written, in their order; none where the job
    /// of a number doesn't ask for a word to be written.
    pub fn part_values(&self, number: u64) -> &[u32]
        ensures value { result.now ≡ part_values self.now number }
        ensures count { IfSome (part_of self.now number) (λ part. part.writes ≡ true → length result.now ≡ part.count) }
    {
        match self.place(number) {
            None => &[],
            Some(place) => self.held[place].values(),
        }
    }

    /// These words were read, the first ones of the part that the job of a number asks for: as if each
    /// had been told by itself.
    pub fn tell_read(&mut self, number: u64, words: &[u32])
        requires { IsSomeAnd (part_of self.old number) (λ part. IsReadPart part (length words.now)) }
        ensures completed { self.new ≡ told_each self.old number (words_read words.now) }
        ensures each { JobMovesEach self.old number (words_read words.now) }
        ensures effects { HaveNoEffect self.old number (words_read words.now) }
        ensures hands { all_hands self.new ≡ all_hands self.old }
    {
        if let Some(place) = self.place(number) {
            self.held[place].read_words(words);
        }
    }

    /// So many words were written, the first ones of the part that the job of a number asks for: as if
    /// each had been told by itself. After a sector's last word the job goes on as after any.
    pub fn tell_written(&mut self, number: u64, count: u32)
        requires { IsSomeAnd (part_of self.old number) (λ part. IsWrittenPart part count) }
        ensures completed { self.new ≡ told_each self.old number (words_written count) }
        ensures each { JobMovesEach self.old number (words_written count) }
        ensures effects { HaveNoEffect self.old number (words_written count) }
        ensures hands { IsPermutation (all_hands self.old) (all_hands self.new) }
    {
        if count > 0 {
            self.pass_words(number, count - 1);
            let _ = self.tell(number, &BackAnswer::Done);
        }
    }

    // So many words were written, and the sector's last one wasn't.
    fn pass_words(&mut self, number: u64, count: u32)
        requires { IsSomeAnd (part_of self.old number) (λ part. IsPassedPart part count) }
        ensures completed { self.new ≡ told_each self.old number (words_written count) }
        ensures hands { all_hands self.new ≡ all_hands self.old }
    {
        if let Some(place) = self.place(number) {
            self.held[place].pass_words(count);
        }
    }
}
