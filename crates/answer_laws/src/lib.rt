//! How a run of the plain disk (`plain_disk`) answers: each request by whether the disk failed at it
//! (BLKIF_RSP_OKAY, BLKIF_RSP_ERROR of `io/blkif.h`), and as many requests as were submitted, where
//! settling ended in `quiet`. The laws are over lines alone; every report of the pipeline
//! (`pipeline_laws`), and of a machine that stands for it, is such a run.
#![tactic(auto)]

ghost use Rattle.std.specs.Prelude.{◌≡◌, ℕ, List, [], ◌∷◌, ◌++◌, Some};
ghost use Rattle.std.specs.List.{list_all};
ghost use Rattle.schedule_text.specs.declared.event.Event.{Event};
ghost use Rattle.schedule_text.specs.declared.event.Event.TheVariants.{Settle};
ghost use Rattle.schedule_text.specs.declared.line.Detail.{Detail};
ghost use Rattle.schedule_text.specs.declared.line.Line.{Line};
ghost use Rattle.schedule_text.specs.declared.line.Line.TheVariants.{Quiet};
ghost use Rattle.blk_base.specs.Options.{Options};
ghost use Rattle.plain_disk.specs.Disk.{Disk, disk_of};
ghost use Rattle.plain_disk.specs.Step.{after};
ghost use Rattle.plain_disk.specs.Echo.{Echoes};
ghost use Rattle.plain_disk.specs.Honest.{is_honest};
ghost use Rattle.pipeline_laws.specs.Answered.{AreAnsweredOnce, IsQuietAnswered};
ghost use Rattle.report_laws.specs.Settled.{IsSettled};
ghost use Rattle.answer_laws.specs.Honest.{is_honest_schedule};
ghost use Rattle.answer_laws.specs.Okay.{AreAnsweredByFaults};
ghost use Rattle.answer_laws.specs.Counts.{submissions_in, answers_in, counts_of, CountsThemAll, AreAllAnswered};
ghost use Rattle.answer_laws.specs.Wrong.{failed_alone, failed_at_another, okay_after_fault, failed_before, unsupported};

/// A reply, and the answer that the front takes, is `error` where a `fault` line of its request stands
/// before it in its epoch, and `ok` where none does; it is never `unsupported`.
pub fn a_request_is_answered_by_its_faults()
    ensures run { (report : List Line) (first : List (List ℕ)) (disk : Disk) → after report (disk_of first) ≡ Some disk → AreAnsweredByFaults report }
    ensures before { (first more : List Line) → AreAnsweredByFaults (first ++ more) → AreAnsweredByFaults first }
{}

/// A tally has the numbers of the lines of each kind: a refused request is among the refused alone,
/// and both forms of an effect are effects.
pub fn the_counts_are_those_of_the_lines()
    ensures { CountsThemAll }
{}

/// A report that says `quiet`, and has no submission after that, has as many answers as submissions: each
/// request was submitted once, and has its one answer.
pub fn a_quiet_report_has_an_answer_for_each_submission()
    ensures { (before rest : List Line) → (let report : List Line = before ++ Quiet ∷ rest in
        AreAnsweredOnce report → IsQuietAnswered report → submissions_in rest ≡ 0 → answers_in report ≡ submissions_in report) }
{}

/// So have its counts, where it echoes a schedule that ends with `settle`, and no line says `unsettled`:
/// and the last word is `quiet`.
pub fn a_settled_schedule_is_counted_as_answered()
    ensures { (options : Options) (detail : Detail) (events : List Event) (report : List Line)
        → Echoes options detail (events ++ Settle ∷ []) report → AreAnsweredOnce report → IsQuietAnswered report → IsSettled report
        → AreAllAnswered (counts_of report) }
{}

/// A report is honest exactly where the schedule that it echoes has no hostile line.
pub fn a_report_is_as_honest_as_its_schedule()
    ensures { (options : Options) (detail : Detail) (schedule : List Event) (report : List Line)
        → Echoes options detail schedule report → list_all is_honest report ≡ is_honest_schedule schedule }
{}

/// The rule refuses `error` where the disk didn't fail, or failed at another request or in the epoch before,
/// `ok` after it failed, and `unsupported`.
pub fn wrong_answers_are_refused()
    ensures alone { ¬ AreAnsweredByFaults failed_alone }
    ensures another { ¬ AreAnsweredByFaults failed_at_another }
    ensures okay { ¬ AreAnsweredByFaults okay_after_fault }
    ensures earlier { ¬ AreAnsweredByFaults failed_before }
    ensures unsupported { ¬ AreAnsweredByFaults unsupported }
{}
