// One job.
ghost use Rattle.std.specs.Prelude.{◌≡◌, ◌≢◌, ◌<◌, ◌+◌, ◌++◌, Bool, true, cond, length, is_some, vec_capacity, IsPermutation};
ghost use Rattle.back_jobs.specs.Work.{page_ask, page_word, step_of, IsAnswer, begun};
ghost use Rattle.back_jobs.specs.Keeping.{ask_in, ask_with, is_fresh_in, settled, AreKeepable, IsWritableAt, MapsUnkept};
ghost use Rattle.persist_grants.specs.KeptMappings.{may_keep, mappings_of};
ghost use Rattle.back_jobs.specs.Segments.{is_paged};
ghost use Rattle.back_jobs.specs.Order.{holds};
ghost use Rattle.back_jobs.specs.Sound.{StaysInPageAndDisk};
ghost use Rattle.back_jobs.specs.Hands.{hand_of, Names};
ghost use Rattle.back_jobs.specs.Jobs.{is_done, is_fresh_at, is_ordered, is_barrier, response_of, mapping_at, effect_at};
ghost use Rattle.segment_list.specs.Verdict.{verdict_of};
ghost use Rattle.blk_base.specs.declared.ask.BackAsk.TheVariants as ask;
ghost use Rattle.back_jobs.specs.declared.stage.JobStage.TheVariants as stage;

mod begun;
mod keeping;
mod parts;
mod steps;

use crate::effect::Effect;
use crate::segments::{SegmentList, SegmentVec};
use crate::stage::JobStage;
use arrayvec::ArrayVec;
use begun::{ended, served};
use blk_base::{BackAnswer, BackAsk, Lent, Mapping, Mode, SectorWords, Status};
use blk_layout::RawRequest;
use persist_grants::Kept;
use segment_list::{DiskInfo, Verdict, check};
use std::marker::Model;

/// Segments that an indirect page names, two words each (`struct blkif_request_segment`).
const PAGE_SEGMENTS: usize = 512;

/// A request that the back fetched, being served. Of an indirect one `pages` are the references of the
/// pages that it isn't done with, and `named` is how many segments they name; `rest` are the segments
/// that it isn't done with, or while they are copied those that were.
#[derive(Drop)]
pub struct HeldJob {
    number: u64,
    id: u64,
    op: u8,
    writes: bool,
    size: u64,
    disk: u64,
    moved: u32,
    rest: SegmentList,
    pages: ArrayVec<u32, 8>,
    named: u32,
    within: u32,
    words: SectorWords,
    stage: JobStage,
}

impl Model for HeldJob {
    ghost use Rattle.std.specs.Prelude.{◌≡◌};
    ghost use Rattle.back_jobs.specs.Work.{Work};
    ghost use Rattle.back_jobs.specs.Segments.{is_paged};
    ghost use Rattle.back_jobs.specs.Inside.{view_of};
    ghost use Rattle.back_jobs.specs.Sound.{IsPlaced};

    ghost Value = { Work };

    ghost view = { view_of };

    ghost invariant = { λ t. IsPlaced t.stage (view_of t) × (t.rest.is_long ≡ is_paged (view_of t)) };
}

impl HeldJob {
    /// The job of a request that was fetched as the `number`-th, on a disk of this kind: by the
    /// verdict on it, it moves the request's sectors, flushes or trims the disk, or is done at once.
    /// One that copies segments takes one of these vectors for them. It takes the mapping that is kept
    /// of its first segment's reference.
    pub(crate) fn begin(
        number: u64,
        request: &RawRequest,
        info: &DiskInfo,
        spare: &mut Vec<SegmentVec>,
        kept: &mut Kept,
    ) -> HeldJob
        requires has_spare { info.now.max_indirect ≢ 0 → 0 < length spare.old.items }
        requires keepable { AreKeepable kept.old }
        ensures value { result ≡ (settled kept.old (begun number request.now info.now.sectors (verdict_of request.now info.now))).job }
        ensures kept { kept.new ≡ (settled kept.old (begun number request.now info.now.sectors (verdict_of request.now info.now))).kept }
        ensures hands { IsPermutation (mappings_of kept.old) (hand_of result ++ mappings_of kept.new) }
        ensures spare { length spare.new.items + cond (is_paged result) 1 0 ≡ length spare.old.items }
        ensures capacity { vec_capacity spare.new ≡ vec_capacity spare.old }
    {
        let mut job = HeldJob::judged(number, request, info, spare);
        job.settle(kept);
        job
    }

    // By the verdict on its request.
    fn judged(
        number: u64,
        request: &RawRequest,
        info: &DiskInfo,
        spare: &mut Vec<SegmentVec>,
    ) -> HeldJob
        requires { info.now.max_indirect ≢ 0 → 0 < length spare.old.items }
        ensures value { result ≡ begun number request.now info.now.sectors (verdict_of request.now info.now) }
        ensures spare { length spare.new.items + cond (is_paged result) 1 0 ≡ length spare.old.items }
        ensures capacity { vec_capacity spare.new ≡ vec_capacity spare.old }
    {
        match check(request, info) {
            Verdict::Serve(_) => served(number, request, info, spare),
            Verdict::Error(_) => ended(
                number,
                request,
                info.sectors,
                JobStage::Done(Status::Error),
            ),
            Verdict::Unsupported => {
                ended(
                    number,
                    request,
                    info.sectors,
                    JobStage::Done(Status::Unsupported),
                )
            }
        }
    }

    /// The job's number.
    pub fn number(&self) -> u64
        ensures { result ≡ self.now.number }
    {
        self.number
    }

    /// The id of its request.
    pub fn id(&self) -> u64
        ensures { result ≡ self.now.id }
    {
        self.id
    }

    /// How many of its sectors were read from or written to the disk.
    pub fn moved(&self) -> u32
        ensures { result ≡ self.now.moved }
    {
        self.moved
    }

    /// Whether it is done.
    pub fn is_done(&self) -> bool
        ensures { result ≡ is_done self.now }
    {
        matches!(self.stage, JobStage::Done(_))
    }

    /// The vector that its segments were copied into.
    pub(crate) fn into_vec(self) -> Option<SegmentVec>
        ensures { is_some result ≡ is_paged self }
    {
        self.rest.into_vec()
    }

    /// Whether it is at its beginning: before its first map, that of a page or of a segment, or before
    /// its trim; where grants are persistent (`keeps`) also with a kept mapping that it took for its
    /// first segment and did nothing with yet.
    #[inline(always)]
    pub fn is_fresh(&self, keeps: bool) -> bool
        ensures { result ≡ is_fresh_in keeps self.now }
    {
        match self.stage {
            JobStage::MapPage => true,
            JobStage::Map => self.moved == 0,
            JobStage::Trim(_) => true,
            JobStage::ReadWord(_, k) => keeps && k == 0 && self.moved == 0,
            JobStage::DiskRead(_) => keeps && self.moved == 0,
            _ => false,
        }
    }

    /// Whether barriers order it: a write, a barrier or a discard (`BLKIF_OP_WRITE`,
    /// `BLKIF_OP_WRITE_BARRIER`, `BLKIF_OP_DISCARD`).
    pub fn is_ordered(&self) -> bool
        ensures { result ≡ is_ordered self.now }
    {
        self.op == 1 || self.op == 2 || self.op == 5
    }

    /// Whether it is a barrier (`BLKIF_OP_WRITE_BARRIER`).
    pub fn is_barrier(&self) -> bool
        ensures { result ≡ is_barrier self.now }
    {
        self.op == 2
    }

    /// Whether a barrier after it waits for it: it is a write, a barrier or a discard, and not done. With
    /// `all`, whether each write, barrier and discard after it does: it is a barrier, and not done.
    pub fn holds(&self, all: bool) -> bool
        ensures { result ≡ holds all self.now }
    {
        let orders = if all {
            self.is_barrier()
        } else {
            self.is_ordered()
        };
        orders && !self.is_done()
    }

    /// Number, id, operation and status where it is done.
    pub fn response(&self) -> Option<(u64, u64, u8, Status)>
        ensures { result ≡ response_of self.now }
    {
        match self.stage {
            JobStage::Done(status) => Some((self.number, self.id, self.op, status)),
            _ => None,
        }
    }

    /// What the answer to its ask does to its request.
    #[inline(always)]
    pub fn effect(&self, answer: &BackAnswer) -> Option<Effect>
        ensures { result ≡ effect_at self.now.stage self.now answer.now }
    {
        let (id, index) = (self.id, self.moved);
        match (self.stage, answer) {
            (JobStage::DiskWrite(_), BackAnswer::Done) => Some(Effect::Moved { id, index }),
            (JobStage::DiskWrite(_), BackAnswer::DiskFailed) => Some(Effect::Failed { id, index }),
            (JobStage::DiskRead(_), BackAnswer::Sector(_)) => Some(Effect::Moved { id, index }),
            (JobStage::DiskRead(_), BackAnswer::DiskFailed) => Some(Effect::Failed { id, index }),
            (JobStage::Flush, BackAnswer::Done) => Some(Effect::Flushed { id }),
            (JobStage::Flush, BackAnswer::DiskFailed) => Some(Effect::Failed { id, index }),
            (JobStage::Trim(_), BackAnswer::Done) => Some(Effect::Trimmed { id }),
            (JobStage::Trim(_), BackAnswer::DiskFailed) => Some(Effect::Failed { id, index }),
            _ => None,
        }
    }

    /// The mapping in its hand.
    pub fn mapping(&self) -> Option<Mapping>
        ensures { result ≡ mapping_at self.now.stage }
    {
        match self.stage {
            JobStage::PageReference(mapping) => Some(mapping),
            JobStage::PageSectors(mapping, _) => Some(mapping),
            JobStage::UnmapPage(mapping) => Some(mapping),
            JobStage::ReadWord(mapping, _) => Some(mapping),
            JobStage::DiskWrite(mapping) => Some(mapping),
            JobStage::DiskRead(mapping) => Some(mapping),
            JobStage::WriteWord(mapping, _) => Some(mapping),
            JobStage::Unmap(mapping) => Some(mapping),
            JobStage::Abort(mapping) => Some(mapping),
            JobStage::MapPage
            | JobStage::Map
            | JobStage::Flush
            | JobStage::Trim(_)
            | JobStage::Done(_) => None,
        }
    }

    /// What the job asks next. Where grants are persistent (`keeps`) it maps each frame of data for
    /// writing too.
    #[inline(always)]
    pub fn ask(&self, keeps: bool) -> BackAsk<'_>
        ensures value { result ≡ ask_in keeps self.now }
        ensures within { StaysInPageAndDisk self.now.size result }
        ensures names { Names (hand_of self.now) result }
    {
        match self.stage {
            JobStage::MapPage => self.map_page(),
            JobStage::PageReference(mapping) => self.read_page(mapping, 0),
            JobStage::PageSectors(mapping, _) => self.read_page(mapping, 1),
            JobStage::UnmapPage(mapping) => BackAsk::Unmap(mapping),
            JobStage::Map => self.map(keeps),
            JobStage::ReadWord(mapping, k) => BackAsk::Read {
                mapping,
                word: self.within * 128 + k,
            },
            JobStage::DiskWrite(_) => BackAsk::DiskWrite(self.disk, Lent::at(&self.words)),
            JobStage::DiskRead(_) => BackAsk::DiskRead(self.disk),
            JobStage::WriteWord(mapping, k) => BackAsk::Write {
                mapping,
                word: self.within * 128 + k,
                value: self.words[k as usize],
            },
            JobStage::Unmap(mapping) => BackAsk::Unmap(mapping),
            JobStage::Abort(mapping) => BackAsk::Unmap(mapping),
            JobStage::Flush => BackAsk::Flush,
            JobStage::Trim(count) => BackAsk::Trim(self.disk, count),
            JobStage::Done(_) => BackAsk::Wait,
        }
    }

    // Maps the indirect page that it comes to next, which is only read.
    #[inline(always)]
    fn map_page(&self) -> BackAsk<'_>
        ensures value { result ≡ page_ask self.now.pages }
        ensures within { StaysInPageAndDisk self.now.size result }
    {
        match self.pages.as_slice().first() {
            None => BackAsk::Wait,
            Some(gref) => BackAsk::Map {
                gref: *gref,
                mode: Mode::ReadOnly,
            },
        }
    }

    // Reads the first or the second word of the segment that it copies next.
    #[inline(always)]
    fn read_page(&self, mapping: Mapping, k: u32) -> BackAsk<'_>
        requires { k < 2 }
        ensures value { result ≡ ask.Read mapping (page_word self.now k) }
        ensures within { page_word self.now k < 1024 }
    {
        let place = (self.rest.as_slice().len() % PAGE_SEGMENTS) as u32;
        BackAsk::Read {
            mapping,
            word: 2 * place + k,
        }
    }

    // Maps the frame of the present segment.
    #[inline(always)]
    fn map(&self, keeps: bool) -> BackAsk<'_>
        ensures value { result ≡ ask_with keeps stage.Map self.now }
        ensures within { StaysInPageAndDisk self.now.size result }
    {
        let mode = if self.writes && !keeps {
            Mode::ReadOnly
        } else {
            Mode::ReadWrite
        };
        match self.rest.as_slice().first() {
            None => BackAsk::Wait,
            Some(segment) => BackAsk::Map {
                gref: segment.gref,
                mode,
            },
        }
    }

    /// Answers what the job asks. A job that comes to a segment takes the mapping that is kept of its
    /// reference; one that is done with a segment, or whose disk call failed, puts the mapping back.
    #[inline(always)]
    pub fn tell(&mut self, answer: &BackAnswer, kept: &mut Kept)
        requires answer { IsAnswer (ask_in (may_keep kept.old) self.old) answer.now }
        requires keepable { AreKeepable kept.old }
        requires writable { may_keep kept.old ≡ true → IsWritableAt self.old.stage }
        ensures job { self.new ≡ (settled kept.old (step_of self.old answer.now)).job }
        ensures kept { kept.new ≡ (settled kept.old (step_of self.old answer.now)).kept }
        ensures hands { IsPermutation (hand_of (step_of self.old answer.now) ++ mappings_of kept.old) (hand_of self.new ++ mappings_of kept.new) }
        ensures unkept { MapsUnkept kept.new self.new }
    {
        self.advance(answer);
        self.settle(kept);
    }

    // What an answer makes of the job by itself.
    #[inline(always)]
    fn advance(&mut self, answer: &BackAnswer)
        requires { (keeps : Bool) × IsAnswer (ask_in keeps self.old) answer.now }
        ensures { self.new ≡ step_of self.old answer.now }
    {
        match (self.stage, answer) {
            (JobStage::MapPage, BackAnswer::Mapped(mapping)) => {
                self.stage = JobStage::PageReference(*mapping);
            }
            (JobStage::MapPage | JobStage::Map, BackAnswer::MapRefused(_)) => {
                self.stage = JobStage::Done(Status::Error);
            }
            (JobStage::PageReference(mapping), BackAnswer::Word(word)) => {
                self.stage = JobStage::PageSectors(mapping, *word);
            }
            (JobStage::PageSectors(mapping, gref), BackAnswer::Word(word)) => self.copied(
                mapping, gref, *word,
            ),
            (JobStage::UnmapPage(_), BackAnswer::Done) => self.page_done(),
            (JobStage::Map, BackAnswer::Mapped(mapping)) => self.begin_sector(*mapping),
            (JobStage::ReadWord(mapping, k), BackAnswer::Word(word)) => self.read_word(
                mapping, k, *word,
            ),
            (JobStage::DiskWrite(mapping), BackAnswer::Done) => self.wrote_sector(mapping),
            (JobStage::DiskWrite(mapping), BackAnswer::DiskFailed) => self.stage = JobStage::Abort(
                mapping,
            ),
            (JobStage::DiskRead(mapping), BackAnswer::Sector(words)) => self.got_sector(
                mapping,
                words.get(),
            ),
            (JobStage::DiskRead(mapping), BackAnswer::DiskFailed) => self.stage = JobStage::Abort(
                mapping,
            ),
            (JobStage::WriteWord(mapping, k), BackAnswer::Done) => self.wrote_word(mapping, k),
            (JobStage::Unmap(_), BackAnswer::Done) => self.next_segment(),
            (JobStage::Abort(_), BackAnswer::Done) => self.stage = JobStage::Done(Status::Error),
            (JobStage::Flush | JobStage::Trim(_), BackAnswer::Done) => {
                self.stage = JobStage::Done(Status::Okay);
            }
            (JobStage::Flush | JobStage::Trim(_), BackAnswer::DiskFailed) => {
                self.stage = JobStage::Done(Status::Error);
            }
            _ => {}
        }
    }
}
