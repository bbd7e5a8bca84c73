// All jobs of the back.
ghost use Rattle.std.specs.Prelude.{◌≡◌, ◌<◌, ◌≤◌, ◌+◌, ◌++◌, ◌↔◌, Some, IfOk, IfSome, IsSome, IsTrue, IsPermutation, length, take, slice_get, vec_capacity, option_and_then, option_to_list};
ghost use Rattle.std.specs.List.{count_by};
ghost use Rattle.std.specs.Option.{option_map};
ghost use Rattle.back_jobs.specs.Work.{IsAnswer, Work};
ghost use Rattle.back_jobs.specs.Sound.{StaysInPageAndDisk};
ghost use Rattle.back_jobs.specs.Hands.{hands_in, Names, HandsKeep};
ghost use Rattle.back_jobs.specs.Segments.{is_paged};
ghost use Rattle.back_jobs.specs.Jobs.{none_held, place_of, work_of, is_held, is_held_by, without_done, first_mapping, after_mapping, effect_of, done_of, response_of, next_after};
ghost use Rattle.back_jobs.specs.Keeping.{waits_in, ask_keeping, complete_keeping, start_keeping, first_given, after_given, all_hands, MapsUnkept};
ghost use Rattle.persist_grants.specs.KeptMappings.{none_kept, may_keep, IsBounded};
ghost use Rattle.ring_words.specs.Shape.{entries_of};

mod finding;
mod finished;
mod order;
mod parts;
mod spare;

use crate::effect::Effect;
use crate::held_job::HeldJob;
use crate::segments::SegmentVec;
use blk_base::{BackAnswer, BackAsk, Mapping, OutOfMemory, Status};
use blk_layout::RawRequest;
use finding::{
    by_halves, first_above, goes_on_ascending, guess, is_first, next_in, number_at, place_in,
};
use finished::{done_with, drop_first, first_done, lowest_done, note};
use order::{first_holding, holding_after, without};
use persist_grants::Kept;
use ring_words::RingShape;
use segment_list::DiskInfo;
use spare::{give_back, reserve_spare, vecs_for};
use std::alloc::Global;
use std::marker::Model;

/// The jobs of a back, in order of number: the `number`-th request that it fetched in this epoch; and
/// the mappings that they keep for later requests. After `reserve` no call takes memory.
#[derive(Drop)]
pub struct Jobs {
    held: Vec<HeldJob>,
    room: u32,
    info: DiskInfo,
    kept: Box<Kept>,
    // Whether any mapping may be kept.
    keeps: bool,
    // Whether the numbers ascend, as they do where each was above those that were held. Jobs are then
    // found without a walk.
    ascending: bool,
    // The numbers of the jobs that are done, where numbers ascend, in their order.
    finished: Vec<u64>,
    // The place of the lowest job that is done; how many are held where none is.
    done_place: usize,
    // The place of the first write, barrier or discard that isn't done, and that of the first barrier;
    // how many jobs are held where there is none.
    ordered: usize,
    barrier: usize,
    // The vectors for copied segments that no job has: where requests may be indirect there is one for
    // each job that there is room for.
    spare: Vec<SegmentVec>,
}

impl Model for Jobs {
    ghost use Rattle.std.specs.Prelude.{◌≡◌, length, vec_capacity};
    ghost use Rattle.back_jobs.specs.Jobs.{HeldJobs};
    ghost use Rattle.back_jobs.specs.Segments.{AreShared};
    ghost use Rattle.back_jobs.specs.Sound.{IsKept, AreFirst};
    ghost use Rattle.back_jobs.specs.Keeping.{IsKeeping};
    ghost use Rattle.persist_grants.specs.KeptMappings.{may_keep};

    ghost Value = { HeldJobs };

    ghost view = { λ j. record { works = j.held.items; room = j.room; info = j.info; kept = j.kept.value } };

    ghost invariant = { λ j. IsKept j.ascending j.finished.items j.done_place j.room (vec_capacity j.held) (vec_capacity j.finished) j.info.sectors j.held.items
        × AreFirst j.ordered j.barrier j.held.items
        × AreShared (length j.spare.items) (vec_capacity j.spare) j.room j.info.max_indirect j.held.items
        × IsKeeping j.kept.value j.held.items
        × (j.keeps ≡ may_keep j.kept.value) };
}

impl Jobs {
    /// No job, and room for as many as a ring of this shape has entries, on a disk of this kind, which
    /// keep at most `cap` mappings, 0 to 1000; 0 where grants aren't persistent. It fails only where
    /// there is not enough memory.
    pub fn reserve(
        alloc: Global,
        shape: RingShape,
        info: DiskInfo,
        cap: u32,
    ) -> Result<Jobs, OutOfMemory>
        requires { cap ≤ 1000 }
        ensures { IfOk result (λ jobs. jobs ≡ record (none_held (entries_of shape.order) info) { kept = none_kept cap }) }
    {
        let room = shape.entries();
        let spare = reserve_spare(alloc, vecs_for(info.max_indirect, room))?;
        let held = Vec::with_capacity(alloc, room as usize)?;
        let finished = Vec::with_capacity(alloc, room as usize)?;
        let kept = Box::new(alloc, Kept::new(cap))?;
        Ok(Jobs {
            held,
            room,
            info,
            kept,
            keeps: cap != 0,
            ascending: true,
            finished,
            done_place: 0,
            ordered: 0,
            barrier: 0,
            spare,
        })
    }

    /// The disk that its jobs move sectors of.
    pub fn info(&self) -> DiskInfo
        ensures { result ≡ self.now.info }
    {
        self.info
    }

    /// From here on at most `cap` mappings are kept, 0 to 1000; 0 where grants aren't persistent. No job is
    /// held, and no mapping is kept. It takes no memory.
    pub fn keep_at_most(&mut self, cap: u32)
        requires range { cap ≤ 1000 }
        requires none_held { length self.old.works ≡ 0 }
        requires none_kept { length self.old.kept.entries ≡ 0 }
        ensures { self.new ≡ record self.old { kept = none_kept cap } }
    {
        *self.kept = Kept::new(cap);
        self.keeps = cap != 0;
    }

    // Where the job of a number stands.
    #[inline(always)]
    fn place(&self, number: u64) -> Option<usize>
        ensures place { result ≡ place_of self.now.works number }
        ensures within { IfSome result (λ place. place < length self.now.works) }
    {
        let held = self.held.as_slice();
        // Mostly few jobs are held, and the first one needs no search.
        if is_first(held, number) {
            return Some(0);
        }
        if !self.ascending {
            return place_in(held, number);
        }
        if let Some(place) = guess(held, number) {
            return Some(place);
        }
        let place = by_halves(held, number);
        match number_at(held, place) {
            Some(found) if found == number => Some(place),
            _ => None,
        }
    }

    /// Begins a request that was fetched as the `number`-th: by the verdict on it its job moves its
    /// sectors, or is done at once. A mapping that is kept of its first segment's reference is its job's
    /// from here on. `has_room()` holds.
    pub fn start(&mut self, number: u64, request: &RawRequest)
        requires { length self.old.works < self.old.room }
        ensures started { self.new ≡ start_keeping self.old number request.now }
        ensures hands { IsPermutation (all_hands self.old) (all_hands self.new) }
    {
        let job = HeldJob::begin(number, request, &self.info, &mut self.spare, &mut self.kept);
        let is_done = job.is_done();
        let count = self.held.len();
        self.done_place = done_with(self.done_place, count, is_done);
        self.ordered = done_with(self.ordered, count, job.holds(false));
        self.barrier = done_with(self.barrier, count, job.holds(true));
        self.ascending = goes_on_ascending(self.ascending, self.held.as_slice(), number);
        let _ = self.held.push(job);
        if is_done {
            note(&mut self.finished, number, self.ascending);
        }
    }

    /// What the job of a number asks next; `Wait` also where none has it, and where it is at its
    /// beginning and held: a barrier by a write, a barrier or a discard that was fetched before it and
    /// isn't done, and each of these by such a barrier (`BLKIF_OP_WRITE_BARRIER`).
    ///
    /// Where mappings may be kept each frame of data is mapped for writing too.
    #[inline(always)]
    pub fn ask(&self, number: u64) -> BackAsk<'_>
        ensures value { result ≡ ask_keeping self.now number }
        ensures within { StaysInPageAndDisk self.now.info.sectors result }
        ensures names { Names (hands_in self.now.works) result }
    {
        match self.place(number) {
            None => BackAsk::Wait,
            Some(place) if self.waits(place) => BackAsk::Wait,
            Some(place) => self.held[place].ask(self.keeps),
        }
    }

    // Whether the job at this place waits for one that was fetched before it (BLKIF_OP_WRITE_BARRIER).
    #[inline(always)]
    fn waits(&self, place: usize) -> bool
        requires { place < length self.now.works }
        ensures { result ≡ waits_in (may_keep self.now.kept) self.now.works (Some place) (slice_get self.now.works place) }
    {
        let job = &self.held[place];
        job.is_fresh(self.keeps) && self.is_held_by(place, job)
    }

    // Whether jobs before this place hold up this one, at its beginning.
    #[inline(never)]
    fn is_held_by(&self, place: usize, job: &HeldJob) -> bool
        requires { place ≤ length self.now.works }
        ensures { result ≡ is_held_by (take place self.now.works) job.now }
    {
        let (ordered, barrier) = (self.ordered < place, self.barrier < place);
        is_held(job, ordered, barrier)
    }

    /// Answers what the job of a number asks, and gives what that does to its request;
    /// `None` also where none has that number.
    ///
    /// A job that comes to a segment takes the mapping that is kept of its reference, and maps the frame
    /// only where none is. One that is done with a segment, or whose disk call failed, puts the mapping
    /// back: it is kept, and what is handed out for it is unmapped next.
    #[inline(always)]
    pub fn tell(&mut self, number: u64, answer: &BackAnswer) -> Option<Effect>
        requires { IsAnswer (ask_keeping self.old number) answer.now }
        ensures completed { self.new ≡ complete_keeping self.old number answer.now }
        ensures effect { result ≡ effect_of (work_of self.old.works number) answer.now }
        ensures hands { HandsKeep (ask_keeping self.old number) answer.now (all_hands self.old) (all_hands self.new) }
        ensures unkept { IfSome (place_of self.old.works number) (λ place. IfSome (slice_get self.new.works place) (MapsUnkept self.new.kept)) }
    {
        let place = self.place(number)?;
        let job = &mut self.held[place];
        let effect = job.effect(answer);
        job.tell(answer, &mut self.kept);
        if job.is_done() {
            self.done_place = self.done_place.min(place);
            note(&mut self.finished, job.number(), self.ascending);
            self.ordered = holding_after(self.held.as_slice(), false, self.ordered, place);
            self.barrier = holding_after(self.held.as_slice(), true, self.barrier, place);
        }
        effect
    }

    /// The id and the place of the next sector of the job of a number: how many of its sectors were
    /// read from or written to the disk. `None` exactly where none has that number.
    pub fn at(&self, number: u64) -> Option<(u64, u32)>
        ensures { result ≡ option_map (λ (t : Work). (t.id, t.moved)) (work_of self.now.works number) }
    {
        match self.place(number) {
            None => None,
            Some(place) => Some((self.held[place].id(), self.held[place].moved())),
        }
    }

    /// The least number above this one; `None` exactly where there is none.
    #[inline(always)]
    pub fn next_after(&self, number: u64) -> Option<u64>
        ensures { result ≡ next_after self.now number }
    {
        let held = self.held.as_slice();
        if !self.ascending {
            return next_in(held, number);
        }
        number_at(held, first_above(held, number))
    }

    /// Number, id, operation and status of the lowest job that is done; `None` exactly where none is.
    pub fn done(&self) -> Option<(u64, u64, u8, Status)>
        ensures { result ≡ option_and_then response_of (done_of self.now) }
    {
        match self.held.get(self.done_place) {
            None => None,
            Some(job) => job.response(),
        }
    }

    /// Removes the lowest job that is done, and gives its number, id, operation and status; `None`
    /// exactly where none is.
    pub fn take_done(&mut self) -> Option<(u64, u64, u8, Status)>
        ensures taken { result ≡ option_and_then response_of (done_of self.old) }
        ensures rest { self.new ≡ without_done self.old }
        ensures one_less { IsSome result → length self.new.works + 1 ≡ length self.old.works }
    {
        if self.done_place >= self.held.len() {
            return None;
        }
        let job = self.held.remove(self.done_place);
        self.ordered = without(self.ordered, self.done_place);
        self.barrier = without(self.barrier, self.done_place);
        drop_first(&mut self.finished);
        self.done_place = lowest_done(
            self.held.as_slice(),
            self.ascending,
            self.finished.as_slice(),
        );
        let response = job.response();
        give_back(&mut self.spare, job);
        response
    }

    /// Whether another job may be started: fewer are held than there is room for.
    pub fn has_room(&self) -> bool
        ensures { IsTrue result ↔ (length self.now.works < self.now.room) }
    {
        self.held.len() < self.room as usize
    }

    /// How many jobs are held.
    pub fn count(&self) -> usize
        ensures { result ≡ length self.now.works }
    {
        self.held.len()
    }

    /// Abandons the jobs up to the lowest that has a mapping in its hand, and gives that mapping; where
    /// no job is left that has one, a mapping that is kept, the least recently used first. `None` exactly
    /// where none is kept either. No job goes on after that.
    pub fn give_up(&mut self) -> Option<Mapping>
        ensures mapping { result ≡ first_given self.old }
        ensures rest { self.new ≡ after_given self.old }
        ensures hands { IsPermutation (all_hands self.old) (option_to_list result ++ all_hands self.new) }
        ensures no_more { length self.new.works ≤ length self.old.works }
    {
        let mapping = abort_first(&mut self.held, &mut self.spare);
        let held = self.held.as_slice();
        // Those that are left no more go on, and are found by a walk.
        self.ascending = held.is_empty();
        self.done_place = first_done(held);
        self.ordered = first_holding(held, false);
        self.barrier = first_holding(held, true);
        self.finished.clear();
        if mapping.is_none() {
            return self.kept.drain();
        }
        mapping
    }
}

// Whether a job waits where one that a barrier waits for stands before it, or a barrier does.
fn is_held(job: &HeldJob, ordered: bool, barrier: bool) -> bool
    ensures { result ≡ is_held job.now ordered barrier }
{
    (job.is_barrier() && ordered) || (job.is_ordered() && barrier)
}

// Drops the jobs up to the lowest that has a mapping in its hand, and gives that mapping; their vectors
// are spare again.
fn abort_first(held: &mut Vec<HeldJob>, spare: &mut Vec<SegmentVec>) -> Option<Mapping>
    requires { length spare.old.items + count_by is_paged held.old.items ≤ vec_capacity spare.old }
    ensures mapping { result ≡ first_mapping held.old.items }
    ensures rest { held.new.items ≡ after_mapping held.old.items }
    ensures capacity { vec_capacity held.new ≡ vec_capacity held.old }
    ensures spare { length spare.new.items + count_by is_paged held.new.items ≡ length spare.old.items + count_by is_paged held.old.items }
    ensures kept { vec_capacity spare.new ≡ vec_capacity spare.old }
{
    while !held.is_empty() {
        let job = held.remove(0);
        let mapping = job.mapping();
        give_back(spare, job);
        if mapping.is_some() {
            return mapping;
        }
    }
    None
}
