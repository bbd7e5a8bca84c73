// Words of a sector that a job moves many at once.
ghost use Rattle.std.specs.Prelude.{◌≡◌, ◌+◌, ◌≤◌, ◌++◌, true, IfSome, length, take, drop};
ghost use Rattle.std.specs.Option.{IsSomeAnd};
ghost use Rattle.back_jobs.specs.Hands.{hand_of};
ghost use Rattle.back_jobs.specs.Part.{part_at, values_at, steps_of, words_read, words_written, IsWithinPage, NamesPart, IsReadPart, IsPassedPart};

use super::HeldJob;
use super::steps::next_word;
use crate::part::SectorPart;
use crate::stage::JobStage;
use blk_base::SectorWords;

impl HeldJob {
    /// The words of its sector that it asks for next.
    #[inline(always)]
    pub(crate) fn part(&self) -> Option<SectorPart>
        ensures value { result ≡ part_at self.now.stage self.now }
        ensures within { IfSome result (λ part. IsWithinPage part) }
        ensures names { IfSome result (λ part. NamesPart (hand_of self.now) part) }
    {
        let (mapping, k, writes) = match self.stage {
            JobStage::ReadWord(mapping, k) => (mapping, k, false),
            JobStage::WriteWord(mapping, k) => (mapping, k, true),
            _ => return None,
        };
        Some(SectorPart {
            mapping,
            word: self.within * 128 + k,
            count: 128 - k,
            writes,
        })
    }

    /// What is to be written to them.
    #[inline(always)]
    pub(crate) fn values(&self) -> &[u32]
        ensures value { result.now ≡ values_at self.now.stage self.now.words }
        ensures count { IfSome (part_at self.now.stage self.now) (λ part. part.writes ≡ true → length result.now ≡ part.count) }
    {
        let words: &[u32] = &self.words;
        match self.stage {
            JobStage::WriteWord(_, k) => &words[k as usize..],
            _ => &[],
        }
    }

    /// These words were read from the frame.
    #[inline(always)]
    pub(crate) fn read_words(&mut self, words: &[u32])
        requires { IsSomeAnd (part_at self.old.stage self.old) (λ part. IsReadPart part (length words.now)) }
        ensures { self.new ≡ steps_of self.old (words_read words.now) }
    {
        if let JobStage::ReadWord(mapping, k) = self.stage {
            let end = k + words.len() as u32;
            self.stage = if end == 128 {
                JobStage::DiskWrite(mapping)
            } else {
                JobStage::ReadWord(mapping, end)
            };
            put_words(&mut self.words, k as usize, words);
        }
    }

    /// So many words were written to the frame, and the sector's last one wasn't.
    #[inline(always)]
    pub(crate) fn pass_words(&mut self, count: u32)
        requires { IsSomeAnd (part_at self.old.stage self.old) (λ part. IsPassedPart part count) }
        ensures { self.new ≡ steps_of self.old (words_written count) }
    {
        if let JobStage::WriteWord(_, k) = self.stage {
            next_word(&mut self.stage, k + count);
        }
    }
}

// Puts these words into those of a sector, from the k-th on.
#[inline(always)]
fn put_words(sector: &mut SectorWords, k: usize, words: &[u32])
    requires { k + length words.now ≤ 128 }
    ensures { sector.new ≡ take k sector.old ++ (words.now ++ drop (k + length words.now) sector.old) }
{
    sector[k..k + words.len()].copy_from_slice(words);
}
