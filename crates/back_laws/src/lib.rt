//! Laws of the back's end of a ring and its jobs alone (`io/ring.h`, `io/blkif.h`), over any answers:
//! `blk_back`'s machine, told whatever its asks allow, by a hostile guest, a failing disk or another
//! machine below it. They are for authors of other backends: nothing of the machine between both
//! domains is in them. Where nothing else is said they are of a back that is attached with no mapping to
//! keep.
#![tactic(auto)]

ghost use Rattle.std.specs.Prelude.{ℕ, ℤ, ◌≡◌, ◌+◌, ◌*◌, ◌^◌, ◌<◌, ◌≤◌, Bool, false, true, List, [], ◌∷◌, ◌++◌, length, not, position, Some, slice_set, slice_index_or};
ghost use Rattle.std.specs.List.{list_any};
ghost use Rattle.blk_base.specs.declared.ask.BackAnswer.{BackAnswer};
ghost use Rattle.blk_layout.specs.declared.segment.Segment.{Segment};
ghost use Rattle.blk_layout.specs.declared.request.RawRequest.{RawRequest};
ghost use Rattle.segment_list.specs.Segments.{fails_test};
ghost use Rattle.back_jobs.specs.Work as job;
ghost use Rattle.back_jobs.specs.Work.{Work, moving, paging};
ghost use Rattle.back_jobs.specs.Jobs.{is_done, waits_at};
ghost use Rattle.back_jobs.specs.Sound.{IsPlaced};
ghost use Rattle.blk_back.specs.View.{View};
ghost use Rattle.blk_back.specs.Ask.{ask_of, IsAnswer};
ghost use Rattle.blk_back.specs.Step.{step_of};
ghost use Rattle.blk_back.specs.Sound.{IsSound};
ghost use Rattle.back_laws.specs.JobLeft as job_left;
ghost use Rattle.back_laws.specs.JobLeft.{all_left};
ghost use Rattle.back_laws.specs.BackLeft.{left_of, gained, IsShown, IsSeen};
ghost use Rattle.blk_base.specs.declared.operation.Abi.{Abi};
ghost use Rattle.ring_words.specs.Ring.{overruns};
ghost use Rattle.ring_words.specs.Shape.{Shape};
ghost use Rattle.segment_list.specs.declared.verdict.DiskInfo.{DiskInfo};
ghost use Rattle.blk_base.specs.declared.halt.Halt.{Halt};
ghost use Rattle.blk_back.specs.declared.stage.Reply.{Reply};
ghost use Rattle.back_laws.specs.Activity.{Asked, Reach, Looks, Fetches, read, slot_page, slot_word, indices, IsRight, IsBegun};
ghost use Rattle.back_laws.specs.Ledger.{JobAsked, Ledger};
ghost use Rattle.back_laws.specs.Life.{HasHalted, IsClosing};
ghost use Rattle.back_laws.specs.JobSteps.{JobsDoTheirWork, RequestsAreWorked, RepliesComeLast, AreSteps, words_read, map_refused, map_made, disk_read, disk_write};
ghost use Rattle.blk_base.specs.declared.parts.Mapping.{Mapping};
ghost use Rattle.blk_base.specs.declared.parts.Mode.{Mode};
ghost use Rattle.blk_base.specs.declared.parts.Mode.TheVariants.{ReadOnly};
ghost use Rattle.blk_layout.specs.declared.request.RawRequest.TheVariants.{Indirect};
ghost use Rattle.report_rules.specs.Step.{steps_of};
ghost use Rattle.report_rules.specs.Work.{are_read, work_tasks};
ghost use Rattle.report_rules.specs.declared.step.Step.{Step};
ghost use Rattle.report_rules.specs.declared.step.Step.TheVariants as steps;
ghost use Rattle.back_laws.specs.Run.{BackRun};
ghost use Rattle.back_laws.specs.Kept as kept;
ghost use Rattle.back_laws.specs.Kept.{KeepsFew, LosesNone, LeavesNone};
ghost use Rattle.back_laws.specs.Laws.{LivesSo, StaysHalted, NoJobGoesOn, HoldsFewJobs, NamesWhatItHolds, JobsNameWhatIsHeld, HoldsWhatItWasGiven, EachAnswerLowers};

/// All that the back itself asks is one life: it maps its ring's pages and binds its port, then does one
/// activity after another, and after a halt only unmaps, closes its port and waits. Its reads of ring words
/// are those of the shared words and of entries: each entry is copied whole, in the order of indices,
/// each word once and ascending, after a producer that showed it; each response is written in the slot
/// of the next index, and pushed. It halts for an overrun exactly where a read of the producer shows it
/// further than the ring's entries beyond the responses' producer that it wrote last; and else only
/// where a map or its port was refused, or `halt` was called with that reason.
///
/// Its jobs are those of the entries that it fetched and hasn't replied to: each is made of the words of
/// its entry as they were read, and was told what the run told the job of its number. Each reply is that
/// of a job that is done, and no entry has two. A halt abandons the others.
pub fn a_back_lives_so()
    ensures { (r : BackRun) → LivesSo r }
{}

/// Apart from unmaps, what a job asks is, one by one, the steps of the work of its entry, whatever it is
/// answered: so it touches each data word once. That of an indirect request reads each word of its
/// segments once first, and its work is that of the segments that these words tell, if they pass the
/// tests. A refused map and a failure of the disk leave no step. Where a job is done no step is left, and
/// its response is ERROR where a map was refused or the disk failed, and else what the verdict on its
/// entry, or on the segments that it read, says; and then it holds no mapping. So each request of a run
/// is served. Of indirect requests it is so where the back publishes at most 960 segments.
pub fn the_jobs_do_the_work_of_their_entries()
    ensures work { JobsDoTheirWork }
    ensures requests { RequestsAreWorked }
    ensures last { RepliesComeLast }
{}

/// A back that has halted stays so, for the cause that it had, and no job of it asks for anything.
pub fn a_halted_back_stays_halted()
    ensures stays { StaysHalted }
    ensures jobs { NoJobGoesOn }
{}

/// No more jobs are held than the ring has entries.
pub fn no_more_jobs_than_entries()
    ensures { HoldsFewJobs }
{}

/// The back and its jobs name only mappings that were given to them and that they haven't given up,
/// touch only words below 1024, and write only through a mapping that was made for writing. A call of
/// the negotiation maps and unmaps nothing.
pub fn the_asks_go_through_what_is_held()
    ensures back { NamesWhatItHolds }
    ensures jobs { JobsNameWhatIsHeld }
    ensures held { HoldsWhatItWasGiven }
{}

/// A back keeps as many mappings as its terms allow, at most 1000, and loses none: with those that are kept,
/// it holds what was given to it and what it hasn't unmapped, whatever it and its jobs are answered and
/// its negotiation calls for. One that has halted stays so, for the cause that it had, and no job of it asks
/// for anything; once it is to do nothing more it holds and keeps none.
pub fn a_back_that_keeps_mappings_loses_none()
    ensures few { KeepsFew }
    ensures loses_none { LosesNone }
    ensures stays { kept.StaysHalted }
    ensures jobs { kept.NoJobGoesOn }
    ensures leaves_none { LeavesNone }
{}

/// Such a back and its jobs name only mappings that are in their hands, a job's own or one that it took of
/// those that are kept, touch only words below 1024, and write only through a mapping that was made for
/// writing.
pub fn the_asks_go_through_what_is_held_where_mappings_are_kept()
    ensures back { kept.NamesWhatItHolds }
    ensures jobs { kept.JobsNameWhatIsHeld }
{}

/// Each answer to a job's ask lowers what is left to it, whatever the disk, the grants and the words
/// are; and so what all the jobs have left, if it is one of theirs.
pub fn each_answer_lowers_what_is_left_to_a_job()
    ensures lowers { (t : Work) (a : BackAnswer) → IsPlaced t.stage t → job.IsAnswer (job.ask_of t) a
        → job_left.left_of (job.step_of t a) < job_left.left_of t }
    ensures all { (works : List Work) (place : ℕ) (t d : Work) (a : BackAnswer) → place < length works → slice_index_or works place d ≡ t → IsPlaced t.stage t
        → job.IsAnswer (job.ask_of t) a → all_left (slice_set works place (job.step_of t a)) < all_left works }
{}

/// What is left to a job at its beginning: 1034 moves for each segment of a read or a write, and 1036
/// for each of an indirect one, with two for each of its pages.
pub fn a_job_begins_with_so_much_left()
    ensures moving { (number : ℕ) (request : RawRequest) (size : ℕ) (writes : Bool) (sector : ℕ) (segments : List Segment)
        → 1 ≤ length segments → list_any fails_test segments ≡ false
        → job_left.left_of (moving number request size writes sector segments) ≤ 1034 * length segments }
    ensures paging { (number : ℕ) (request : RawRequest) (size : ℕ) (writes : Bool) (sector count : ℕ) (pages : List ℕ)
        → job_left.left_of (paging number request size writes sector count pages) ≡ 2 * length pages + 1036 * count }
{}

/// Of the jobs that aren't done the first is held up by none (`BLKIF_OP_WRITE_BARRIER`).
pub fn the_first_job_that_is_not_done_goes_on()
    ensures { (works : List Work) (place : ℕ) (t : Work) → position (λ (u : Work). not (is_done u)) works ≡ Some place
        → waits_at works (Some place) (Some t) ≡ false }
{}

/// Each answer to the back's ask lowers what is left to it, but for an event, a watch and a producer
/// that shows requests, which raise it by their prices; and so in every run, whatever came before.
pub fn each_answer_lowers_what_is_left_to_the_back()
    ensures lowers { (v : View) (a : BackAnswer) → IsSound v → v.ring.indices.cons < 2 ^ 32 → IsSeen v.stage v → IsShown v.stage v a → IsAnswer (ask_of v) a
        → left_of (step_of v a) < left_of v + gained v.stage v a }
    ensures runs { EachAnswerLowers }
{}

/// The definitions refuse a fetch that reads a word twice, one of a part of an entry, one that no
/// producer showed, a back that goes on after an overrun, one that reads a word or maps after a halt,
/// one that halts though nothing was asked or called for, a reply to no request, two replies to one, a
/// job that reads a word twice, one that goes on after a refused map, one that reads a word of an
/// indirect page twice, and one that moves a sector before all words of its pages are read.
pub fn wrong_traces_are_refused()
    ensures twice { (r : Reach) (word again : ℕ)
        → ¬ IsBegun r (read (slot_page r r.cons 0) (slot_word r r.cons 0) word ∷ read (slot_page r r.cons 0) (slot_word r r.cons 0) again ∷ []) }
    ensures short { (r : Reach) (words : List ℕ) → length words < 27 → ¬ IsRight r (Fetches words) }
    ensures unshown { (r : Reach) (words : List ℕ) → r.cons < 2 ^ 32 → r.seen ≡ r.cons → ¬ IsRight r (Fetches words) }
    ensures goes_on { (r : Reach) (produced : ℕ) → overruns (indices r) produced ≡ true → ¬ IsRight r (Looks produced) }
    ensures reads_on { (page : Mapping) (word value : ℕ) → ¬ IsClosing (read page word value) }
    ensures maps_on { (gref : ℕ) (mode : Mode) (status : ℤ) → ¬ IsClosing (map_refused gref mode status) }
    ensures uncaused { (start : ℕ) (shape : Shape) (why : Halt) → ¬ HasHalted start shape [] [] (Some why) }
    ensures no_request { (info : DiskInfo) (abi : Abi) (trace : List JobAsked) (works : List Work) (reply : Reply)
        → ¬ Ledger info abi trace [] (reply ∷ []) works }
    ensures replied_twice { (info : DiskInfo) (abi : Abi) (trace : List JobAsked) (works : List Work) (words : List ℕ) (reply other : Reply)
        → ¬ Ledger info abi trace (words ∷ []) (reply ∷ other ∷ []) works }
    ensures again { (m : Mapping) (word one other : ℕ) (left : List Step)
        → ¬ AreSteps (read m word one ∷ read m word other ∷ []) (steps.Read word ∷ steps.Read (word + 1) ∷ left) }
    ensures refused { (gref word value : ℕ) (mode : Mode) (status : ℤ) (m : Mapping) (left : List Step)
        → ¬ AreSteps (map_refused gref mode status ∷ read m word value ∷ []) (steps.Map gref mode ∷ left) }
    ensures page_again { (info : DiskInfo) (op count device id sector gref : ℕ) (pages words : List ℕ) (m : Mapping) (one other : ℕ) → 0 < count
        → ¬ AreSteps (map_made ReadOnly m ∷ read m 0 one ∷ read m 0 other ∷ [])
        (steps_of (work_tasks (Indirect op count device id sector (gref ∷ pages)) info false words)) }
    ensures reads_early { (info : DiskInfo) (op count device id sector : ℕ) (pages : List ℕ) (asked : List Asked) (disk : ℕ) (given : BackAnswer)
        → are_read count (words_read asked) ≡ false
        → ¬ AreSteps (asked ++ disk_read disk given ∷ [])
        (steps_of (work_tasks (Indirect op count device id sector pages) info false (words_read asked))) }
    ensures writes_early { (info : DiskInfo) (op count device id sector : ℕ) (pages : List ℕ) (asked : List Asked) (disk : ℕ) (words : List ℕ)
        (given : BackAnswer) → are_read count (words_read asked) ≡ false
        → ¬ AreSteps (asked ++ disk_write disk words given ∷ [])
        (steps_of (work_tasks (Indirect op count device id sector pages) info false (words_read asked))) }
{}
