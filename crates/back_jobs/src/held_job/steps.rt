// What an answer makes of a job.
ghost use Rattle.std.specs.Prelude.{◌≡◌, ◌<◌, ◌++◌, [], ◌∷◌, true, length};
ghost use Rattle.back_jobs.specs.Work.{at_word, step_at, next_sector, next_segment, copied, page_done, passes, counted, sector_stage, rest_of, last_of, IsUnmap};
ghost use Rattle.back_jobs.specs.Segments.{IsUnmapPage};
ghost use Rattle.back_jobs.specs.Sound.{IsInMode, AreMovable};
ghost use Rattle.blk_layout.specs.Entry.{segment_of};
ghost use Rattle.back_jobs.specs.declared.stage.JobStage.TheVariants as stage;
ghost use Rattle.blk_base.specs.declared.ask.BackAnswer.TheVariants.{Word, Done};

use super::begun::first_of;
use super::{HeldJob, PAGE_SEGMENTS};
use crate::stage::JobStage;
use blk_base::{Mapping, SectorWords, Status};
use blk_layout::{Segment, read_segment};
use segment_list::{DiskInfo, Kind, Plan, Verdict, finish_indirect};

impl HeldJob {
    // Both words of a segment are read from an indirect page.
    #[inline(never)]
    pub(super) fn copied(&mut self, mapping: Mapping, gref: u32, sectors: u32)
        requires { self.old.stage ≡ stage.PageSectors mapping gref }
        ensures { self.new ≡ copied self.old mapping (self.old.rest ++ segment_of gref sectors ∷ []) }
    {
        self.rest.push(read_segment([gref, sectors]));
        let count = self.rest.as_slice().len();
        if count == self.named as usize || count % PAGE_SEGMENTS == 0 {
            self.stage = JobStage::UnmapPage(mapping);
        } else {
            self.stage = JobStage::PageReference(mapping);
        }
    }

    // An indirect page is unmapped; after the last one all segments are copied, and only then tested.
    #[inline(never)]
    pub(super) fn page_done(&mut self)
        requires { IsUnmapPage self.old.stage }
        ensures { self.new ≡ page_done self.old }
    {
        if self.rest.as_slice().len() != self.named as usize {
            if !self.pages.is_empty() {
                self.pages.remove(0);
            }
            self.stage = JobStage::MapPage;
        } else if self.passes() {
            self.within = first_of(self.rest.as_slice());
            self.stage = JobStage::Map;
        } else {
            self.stage = JobStage::Done(Status::Error);
        }
    }

    // Whether the copied segments pass the last tests of a read or a write.
    fn passes(&self) -> bool
        ensures value { result ≡ passes self.now }
        ensures movable { result ≡ true → 0 < length self.now.rest → AreMovable self.now.size self.now.disk self.now.rest }
    {
        let kind = if self.writes {
            Kind::IndirectWrite
        } else {
            Kind::IndirectRead
        };
        let plan = Plan {
            kind,
            sector: self.disk,
            count: u64::from(self.named),
        };
        let info = DiskInfo {
            sectors: self.size,
            read_only: false,
            barrier: false,
            flush: false,
            discard: false,
            max_indirect: self.named,
        };
        matches!(
            finish_indirect(&plan, self.rest.as_slice(), &info),
            Verdict::Serve(_)
        )
    }

    // The present segment's frame is mapped.
    pub(super) fn begin_sector(&mut self, mapping: Mapping)
        requires stage { self.old.stage ≡ stage.Map }
        requires mode { IsInMode mapping self.old }
        ensures { self.new ≡ record self.old { stage = sector_stage self.old.writes mapping } }
    {
        self.stage = sector_stage(self.writes, mapping);
    }

    #[inline(always)]
    pub(super) fn read_word(&mut self, mapping: Mapping, k: u32, word: u32)
        requires stage { self.old.stage ≡ stage.ReadWord mapping k }
        requires placed { k < 128 }
        ensures { self.new ≡ step_at (stage.ReadWord mapping k) self.old (Word word) }
    {
        // The stage comes first: after a write at some place of the words the built code would look at it anew.
        if k == 127 {
            self.stage = JobStage::DiskWrite(mapping);
        } else {
            next_word(&mut self.stage, k + 1);
        }
        self.words[k as usize] = word;
    }

    pub(super) fn wrote_sector(&mut self, mapping: Mapping)
        requires { self.old.stage ≡ stage.DiskWrite mapping }
        ensures { self.new ≡ next_sector (counted self.old) mapping }
    {
        let last = last_of(self.rest.as_slice());
        self.disk += 1;
        self.moved = self.moved.wrapping_add(1);
        if self.within == last {
            self.stage = JobStage::Unmap(mapping);
        } else {
            self.within += 1;
            self.stage = sector_stage(self.writes, mapping);
        }
    }

    pub(super) fn got_sector(&mut self, mapping: Mapping, words: &SectorWords)
        requires { self.old.stage ≡ stage.DiskRead mapping }
        ensures { self.new ≡ record (counted self.old) { words = words.now; stage = stage.WriteWord mapping 0 } }
    {
        self.disk += 1;
        self.moved = self.moved.wrapping_add(1);
        self.words = *words;
        self.stage = JobStage::WriteWord(mapping, 0);
    }

    #[inline(always)]
    pub(super) fn wrote_word(&mut self, mapping: Mapping, k: u32)
        requires stage { self.old.stage ≡ stage.WriteWord mapping k }
        requires placed { k < 128 }
        ensures { self.new ≡ step_at (stage.WriteWord mapping k) self.old Done }
    {
        if k != 127 {
            next_word(&mut self.stage, k + 1);
        } else if self.within == last_of(self.rest.as_slice()) {
            self.stage = JobStage::Unmap(mapping);
        } else {
            self.within += 1;
            self.stage = sector_stage(self.writes, mapping);
        }
    }

    // The present segment is done, and its frame unmapped.
    pub(super) fn next_segment(&mut self)
        requires { IsUnmap self.old.stage }
        ensures { self.new ≡ next_segment self.old (rest_of self.old.rest) }
    {
        self.rest.remove_first();
        match self.rest.as_slice().first() {
            None => self.stage = JobStage::Done(Status::Okay),
            Some(segment) => {
                self.within = u32::from(segment.first);
                self.stage = JobStage::Map;
            }
        }
    }
}

// The word of this number is read or written next, through the same mapping: the mapping stays where it
// is, and only the number is written.
#[inline(always)]
pub(super) fn next_word(stage: &mut JobStage, k: u32)
    ensures { stage.new ≡ at_word k stage.old }
{
    match stage {
        JobStage::ReadWord(_, word) => *word = k,
        JobStage::WriteWord(_, word) => *word = k,
        _ => {}
    }
}

// The last sector of the present segment.
fn last_of(rest: &[Segment]) -> u32
    ensures { result ≡ last_of rest.now }
{
    match rest.first() {
        None => 0,
        Some(segment) => u32::from(segment.last),
    }
}

// A sector is begun.
fn sector_stage(writes: bool, mapping: Mapping) -> JobStage
    ensures { result ≡ sector_stage writes mapping }
{
    if writes {
        JobStage::ReadWord(mapping, 0)
    } else {
        JobStage::DiskRead(mapping)
    }
}
