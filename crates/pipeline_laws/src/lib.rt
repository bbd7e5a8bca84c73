//! The pipeline: requests on their way to the disk and back, without a word of memory, and that its
//! lines are a run of the plain disk (`plain_disk`), whatever it does: every kind and length of
//! request, barriers (`io/blkif.h`), faults, suspends, a front that closes (`io/xenbus.h`). It
//! stands between the machine of shared words and the plain disk: a machine whose moves are steps
//! of the pipeline has all that is promised here.
//!
//! The laws are over every run (`PipelineRun`): any steps that the pipeline allows from its start,
//! with any options, over a disk whose calls are consistent with some content; with what it tells,
//! where it tells.
#![tactic(auto)]

ghost use Rattle.std.specs.Prelude.{◌≡◌, ℕ, false, List, [], ◌∷◌, ◌++◌, length, Option, Some, None};
ghost use Rattle.blk_base.specs.Options.{Options};
ghost use Rattle.blk_base.specs.declared.operation.Status.{Status};
ghost use Rattle.blk_base.specs.declared.operation.Status.TheVariants.{Okay};
ghost use Rattle.schedule_text.specs.declared.line.Detail.{Detail};
ghost use Rattle.schedule_text.specs.declared.line.Line.{Line};
ghost use Rattle.blk_base.specs.declared.refusal.Refusal.{Refusal};
ghost use Rattle.plain_disk.specs.Request.{filling};
ghost use Rattle.plain_disk.specs.Disk.{Disk, disk_of};
ghost use Rattle.plain_disk.specs.Step.{after};
ghost use Rattle.pipeline_laws.specs.Station.{PipelineRequest};
ghost use Rattle.pipeline_laws.specs.Move.{Pushes, Fills, Ends, Answers};
ghost use Rattle.pipeline_laws.specs.Pipeline.{Step, Submits, Refuses, Moves, Connects, StartsToClose, Closes, Rests, pipeline_of, after_steps, lines_of};
ghost use Rattle.pipeline_laws.specs.Allowed.{IsAllowed, AreAllowed};
ghost use Rattle.pipeline_laws.specs.Disk.{DiskRuns};
ghost use Rattle.pipeline_laws.specs.Run.{PipelineRun, run_report, BeginsWithin, IsRun, IsRunOf};
ghost use Rattle.pipeline_laws.specs.Submissions.{submitted_of, AreAnswered};
ghost use Rattle.pipeline_laws.specs.Answered.{AreAnsweredOnce, IsQuietAnswered};
ghost use Rattle.pipeline_laws.specs.Unbroken.{IsUnbroken};
ghost use Rattle.pipeline_laws.specs.States.{AreStates};
ghost use Rattle.pipeline_laws.specs.Recorded.{IsKeptRun};
ghost use Rattle.pipeline_laws.specs.Effects.{LinesDo};
ghost use Rattle.pipeline_laws.specs.Samples.{two_sectors, write, barrier, other_write, long_write, past_end, barrier_steps, barrier_lines, order_steps, order_lines, read_steps, read_lines, fault_steps, fault_lines, second_begun, second_fetched, two_jobs, half_done, two_reads};

/// The report of the pipeline is a run of the plain disk, from what the disk held to what its calls
/// left; where the disk doesn't expose it, from sectors that nobody knows. So it is from any sectors that
/// the content has (`within`): the plain disk then has the pipeline's requests, each as its station
/// says, and knows of each sector what the content holds.
pub fn every_run_of_the_pipeline_is_a_run_of_the_plain_disk()
    ensures run { (r : PipelineRun) → IsRun r.options.sectors r.before r.now (run_report r) }
    ensures within { (r : PipelineRun) (first : List (List ℕ)) → BeginsWithin first r.disk.content → IsRunOf first r (run_report r) }
{}

/// The effects and faults that it shows are the calls of its disk, line by line: a report shows what a
/// disk that doesn't expose what it holds was asked, and what it gave.
pub fn the_effects_of_a_report_are_the_calls_of_its_disk()
    ensures { (r : PipelineRun) → LinesDo [] (run_report r) r.disk.content r.disk.later }
{}

/// It answers the submissions, one line each, in order: accepted or refused as the lines before say.
pub fn every_submission_is_answered_by_the_rule()
    ensures { (r : PipelineRun) → AreAnswered (submitted_of r.steps) (run_report r) }
{}

/// A run of the plain disk answers each request at most once, and none that wasn't submitted
/// before; and where it is quiet, each request that was submitted has its answer.
pub fn a_run_answers_each_request_once()
    ensures once { (report : List Line) (first : List (List ℕ)) (disk : Disk) → after report (disk_of first) ≡ Some disk → AreAnsweredOnce report }
    ensures quiet { (report : List Line) (first : List (List ℕ)) (disk : Disk) → after report (disk_of first) ≡ Some disk → IsQuietAnswered report }
{}

/// So does every report of the pipeline.
pub fn the_pipeline_answers_each_request_once()
    ensures once { (r : PipelineRun) → AreAnsweredOnce (run_report r) }
    ensures quiet { (r : PipelineRun) → IsQuietAnswered (run_report r) }
{}

/// Its front connects once an epoch, begins to close once, and is closed only when all that was
/// submitted is served; only then does the back leave it.
pub fn the_front_closes_when_all_is_served()
    ensures { (r : PipelineRun) → AreStates (run_report r) }
{}

/// No line says that the front was broken, that the back halted but where its front was gone, or that
/// a request wasn't supported.
pub fn no_end_breaks_the_protocol()
    ensures { (r : PipelineRun) → IsUnbroken (run_report r) }
{}

/// What a recorder keeps of a report, without the moves where its word is `lines`, is the report of a
/// run too, of the same submissions over the same disk.
pub fn a_recorder_keeps_the_report_of_a_run()
    ensures { (r : PipelineRun) (detail : Detail) → IsKeptRun detail r }
{}

/// A write is done before a suspend and again after it, before a barrier that follows it.
pub fn a_barrier_waits_for_a_write()
    ensures allowed { AreAllowed barrier_steps (pipeline_of two_sectors) }
    ensures disk { (a b : List ℕ) → DiskRuns barrier_steps (a ∷ b ∷ []) (filling barrier.submission 0 ∷ b ∷ []) }
    ensures shown { lines_of barrier_steps (pipeline_of two_sectors) ≡ barrier_lines }
{}

/// Of two submissions the second is done and answered first.
pub fn a_later_job_may_be_done_first()
    ensures allowed { AreAllowed order_steps (pipeline_of two_sectors) }
    ensures disk { (a b : List ℕ) → DiskRuns order_steps (a ∷ b ∷ []) (filling write.submission 0 ∷ filling other_write.submission 0 ∷ []) }
    ensures shown { lines_of order_steps (pipeline_of two_sectors) ≡ order_lines }
{}

/// The reply to a read is lost in a suspend: the read is done again, answered once and told once.
pub fn a_read_whose_reply_is_lost_is_done_again()
    ensures allowed { (words : List ℕ) → AreAllowed (read_steps words) (pipeline_of two_sectors) }
    ensures disk { (a words : List ℕ) → DiskRuns (read_steps words) (a ∷ words ∷ []) (a ∷ words ∷ []) }
    ensures shown { (words : List ℕ) → lines_of (read_steps words) (pipeline_of two_sectors) ≡ read_lines words }
{}

/// The disk fails at the second sector of a write, which is answered `error`; then the front closes.
pub fn a_fault_is_answered_error()
    ensures allowed { AreAllowed fault_steps (pipeline_of two_sectors) }
    ensures disk { (a b c : List ℕ) → DiskRuns fault_steps (a ∷ b ∷ []) (filling long_write.submission 0 ∷ c ∷ []) }
    ensures shown { lines_of fault_steps (pipeline_of two_sectors) ≡ fault_lines }
{}

/// What the pipeline doesn't allow: a barrier that works before an earlier write is done, or fetched; an
/// entry pushed before one of a lower number; a submission that ends `ok` with a sector left; a second answer; `quiet`, or a closed front, before all is told; a refusal that no rule
/// gives, and a request past the end of the disk that is accepted.
pub fn a_wrong_step_is_no_step_of_the_pipeline()
    ensures barrier { (x : PipelineRequest) → IsAllowed (after_steps two_jobs (pipeline_of two_sectors)) (Moves 1 x (Fills 0)) → ⊥ }
    ensures push { (x : PipelineRequest) → IsAllowed (after_steps second_begun (pipeline_of two_sectors)) (Moves 1 x Pushes) → ⊥ }
    ensures fetch { (x : PipelineRequest) → IsAllowed (after_steps second_fetched (pipeline_of two_sectors)) (Moves 1 x (Fills 0)) → ⊥ }
    ensures end { (x : PipelineRequest) → IsAllowed (after_steps half_done (pipeline_of two_sectors)) (Moves 0 x (Ends Okay)) → ⊥ }
    ensures again { (x : PipelineRequest) (status : Status) → IsAllowed (after_steps order_steps (pipeline_of two_sectors)) (Moves 0 x (Answers status)) → ⊥ }
    ensures quiet { IsAllowed (after_steps two_jobs (pipeline_of two_sectors)) Rests → ⊥ }
    ensures closed { IsAllowed (after_steps (two_jobs ++ StartsToClose ∷ []) (pipeline_of two_sectors)) Closes → ⊥ }
    ensures refused { (refusal : Refusal) → IsAllowed (after_steps (Connects ∷ []) (pipeline_of two_sectors)) (Refuses write.submission refusal) → ⊥ }
    ensures accepted { IsAllowed (after_steps (Connects ∷ []) (pipeline_of two_sectors)) (Submits past_end.submission) → ⊥ }
{}

/// Two reads of one sector that show different words are no run of the plain disk, even from sectors
/// that nobody knows: so the laws ask of a disk that doesn't expose its content that its calls are consistent.
pub fn reads_that_differ_are_no_run()
    ensures { after two_reads (disk_of []) ≡ None }
{}
