//! What every report of the machine tells of its requests: it is a run of the plain disk
//! (`plain_disk`), answers each submission by the rule, and shows no breach of the protocol
//! (`io/blkif.h`, `io/ring.h`). Every history of the machine is a run of the pipeline
//! (`machine_pipeline`), whatever happens, in any order, with what any disk answers; and these are the
//! laws of every run of the pipeline (`pipeline_laws`).
//!
//! The premises: a ring of 1 to 16 pages, under either layout of entries (`IsPlain`); the order that is
//! agreed and the terms that the back takes are those of the front's ring; the back moves only once the
//! front made its ring and its port, and halts only where the front closes, has no request left and is
//! at nothing; the front leaves after the back, and finds nothing that breaks it; as it connects it
//! knows what the back published; what is submitted moves or discards some sectors, or is a flush, keys
//! are spelled as the grammar has them, and all is quiet where it is found so (`AreServed`).
//! What a schedule makes happen (`vbd_model`) is such until a word is overwritten. Where the disk
//! doesn't tell what it holds, the laws speak of a report whose effects are the calls of some disk
//! (`IsOfADisk`): two reads of a sector with no write between them give the same words.
#![tactic(auto)]

ghost use Rattle.std.specs.Prelude.{List};
ghost use Rattle.blk_base.specs.Options.{Options};
ghost use Rattle.blk_io.specs.Disk.{DiskSeen, HasLength};
ghost use Rattle.schedule_text.specs.declared.line.Detail.{Detail};
ghost use Rattle.split_model.specs.World.{World, start_of};
ghost use Rattle.split_model.specs.Happening.{Happening, DiskRuns};
ghost use Rattle.schedule_text.specs.Recorder.{kept_of};
ghost use Rattle.split_model.specs.Report.{report_of, ended_report_of};
ghost use Rattle.machine_pipeline.specs.Plain.{IsPlain};
ghost use Rattle.machine_pipeline.specs.Allowed.{AreServed};
ghost use Rattle.machine_pipeline.specs.Submissions.{submitted_of};
ghost use Rattle.pipeline_laws.specs.Effects.{IsOfADisk};
ghost use Rattle.pipeline_laws.specs.Run.{IsRun};
ghost use Rattle.pipeline_laws.specs.Submissions.{AreAnswered};
ghost use Rattle.pipeline_laws.specs.Unbroken.{IsUnbroken};
ghost use Rattle.pipeline_laws.specs.States.{AreStates};

/// What a recorder keeps of the report of a history is a run of the plain disk, from what the disk
/// held to what it holds; where the disk doesn't expose it, from sectors that nobody knows. So too with
/// the report's last line.
pub fn every_report_is_a_run_of_the_plain_disk()
    ensures report { (config : Options) (detail : Detail) (history : List Happening) (before now : DiskSeen)
        → IsPlain config → AreServed history (start_of config) → HasLength before.content config.sectors
        → DiskRuns history (start_of config) before now
        → IsOfADisk config.sectors before.content (kept_of detail (report_of config detail history))
        → IsRun config.sectors before.content now.content (kept_of detail (report_of config detail history)) }
    ensures ended { (config : Options) (detail : Detail) (history : List Happening) (before now : DiskSeen)
        → IsPlain config → AreServed history (start_of config) → HasLength before.content config.sectors
        → DiskRuns history (start_of config) before now
        → IsOfADisk config.sectors before.content (kept_of detail (ended_report_of config detail history))
        → IsRun config.sectors before.content now.content (kept_of detail (ended_report_of config detail history)) }
{}

/// It answers the submissions of the history, one line each, in order: accepted or refused as the
/// lines before say.
pub fn every_submission_is_answered_by_the_rule()
    ensures report { (config : Options) (detail : Detail) (history : List Happening) (before now : DiskSeen)
        → IsPlain config → AreServed history (start_of config) → HasLength before.content config.sectors
        → DiskRuns history (start_of config) before now
        → IsOfADisk config.sectors before.content (kept_of detail (report_of config detail history))
        → AreAnswered (submitted_of history) (kept_of detail (report_of config detail history)) }
    ensures ended { (config : Options) (detail : Detail) (history : List Happening) (before now : DiskSeen)
        → IsPlain config → AreServed history (start_of config) → HasLength before.content config.sectors
        → DiskRuns history (start_of config) before now
        → IsOfADisk config.sectors before.content (kept_of detail (ended_report_of config detail history))
        → AreAnswered (submitted_of history) (kept_of detail (ended_report_of config detail history)) }
{}

/// No line of it says that the front was broken, that the back halted but where its front was gone, or
/// that a request wasn't supported.
pub fn no_end_breaks_the_protocol()
    ensures report { (config : Options) (detail : Detail) (history : List Happening) (before now : DiskSeen)
        → IsPlain config → AreServed history (start_of config) → HasLength before.content config.sectors
        → DiskRuns history (start_of config) before now
        → IsOfADisk config.sectors before.content (kept_of detail (report_of config detail history))
        → IsUnbroken (kept_of detail (report_of config detail history)) }
    ensures ended { (config : Options) (detail : Detail) (history : List Happening) (before now : DiskSeen)
        → IsPlain config → AreServed history (start_of config) → HasLength before.content config.sectors
        → DiskRuns history (start_of config) before now
        → IsOfADisk config.sectors before.content (kept_of detail (ended_report_of config detail history))
        → IsUnbroken (kept_of detail (ended_report_of config detail history)) }
{}

/// The front connects once, and nothing is closed, left or broken out of turn (the states of
/// `io/xenbus.h`).
pub fn the_front_connects_and_closes_in_order()
    ensures report { (config : Options) (detail : Detail) (history : List Happening) (before now : DiskSeen)
        → IsPlain config → AreServed history (start_of config) → HasLength before.content config.sectors
        → DiskRuns history (start_of config) before now
        → IsOfADisk config.sectors before.content (kept_of detail (report_of config detail history))
        → AreStates (kept_of detail (report_of config detail history)) }
    ensures ended { (config : Options) (detail : Detail) (history : List Happening) (before now : DiskSeen)
        → IsPlain config → AreServed history (start_of config) → HasLength before.content config.sectors
        → DiskRuns history (start_of config) before now
        → IsOfADisk config.sectors before.content (kept_of detail (ended_report_of config detail history))
        → AreStates (kept_of detail (ended_report_of config detail history)) }
{}
