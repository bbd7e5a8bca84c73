//! What every report of the machine tells of the ring and of each request, whatever happens to it
//! (`io/ring.h`, `io/blkif.h`): it obeys the rules of `report_rules` on a producer that overran, on
//! how entries are fetched, on the steps of each job, on the data that they move, on what comes of
//! each move of the disk and on replies. The machine is the pure function of `split_model`; each law is over
//! every list of happenings, with any options, but that laws which name jobs have at most 960 segments in
//! indirect pages.
#![tactic(auto)]

mod keeping;

ghost use Rattle.std.specs.Prelude.{◌<◌, ◌≤◌, ◌^◌, List, length};
ghost use Rattle.blk_base.specs.Options.{Options};
ghost use Rattle.schedule_text.specs.declared.line.Detail.{Detail};
ghost use Rattle.report_rules.specs.Overrun.{IsOverrunRule};
ghost use Rattle.report_rules.specs.Stretch.{AreStretches};
ghost use Rattle.report_rules.specs.Steps.{AreSteps};
ghost use Rattle.report_rules.specs.Data.{AreData};
ghost use Rattle.report_rules.specs.Effect.{AreEffects};
ghost use Rattle.report_rules.specs.Reply.{AreReplies};
ghost use Rattle.ring_laws.specs.Unmaps.{AreUnmaps};
ghost use Rattle.ring_laws.specs.Own.{AreOwn};
ghost use Rattle.ring_laws.specs.Layout.{IsNamedFirst};
ghost use Rattle.split_model.specs.Happening.{Happening};
ghost use Rattle.split_model.specs.Report.{report_of, ended_report_of};

pub use keeping::{
    the_entries_are_fetched_in_stretches_where_mappings_are_kept,
    the_jobs_touch_and_unmap_what_they_made_or_what_is_kept,
    the_layout_is_named_before_the_ring_is_mapped_where_mappings_are_kept,
    the_overruns_halt_the_back_where_mappings_are_kept,
};

/// A back that reads a producer further ahead of its own than the ring has entries halts, in the
/// very next line; it halts for an overrun nowhere else, and from there on nothing is served.
pub fn the_overruns_halt_the_back()
    ensures report { (config : Options) (detail : Detail) (history : List Happening) → IsOverrunRule (report_of config detail history) }
    ensures ended { (config : Options) (detail : Detail) (history : List Happening) → IsOverrunRule (ended_report_of config detail history) }
{}

/// Each entry is fetched in one stretch, each of its words read once, in order; a stretch begins
/// only where a request is unconsumed, and the back makes no other move before its end, and touches
/// only the 1024 words of each of the ring's pages. An index has 32 bits (`RING_IDX`), so a ring
/// starts at one below 2^32: that is the one premise.
pub fn the_entries_are_fetched_in_stretches()
    ensures report { (config : Options) (detail : Detail) (history : List Happening) → config.start < 2 ^ 32
        → AreStretches (report_of config detail history) }
    ensures ended { (config : Options) (detail : Detail) (history : List Happening) → config.start < 2 ^ 32
        → AreStretches (ended_report_of config detail history) }
{}

/// The moves of the job of the k-th entry, apart from unmaps, are the first steps of the work of that
/// entry as its words were read, in order; the words of each segment are touched through the mapping
/// that the job's own map of it gave, and no step follows a failure of the disk. The numbers of jobs
/// have 64 bits and begin anew past the last, so the report has fewer than 2^64 lines; and the back
/// takes at most 960 segments in indirect pages, as many as a job has room for: these are the
/// premises here and in the laws below.
pub fn the_jobs_do_the_work_of_their_entries()
    ensures report { (config : Options) (detail : Detail) (history : List Happening) → config.indirect ≤ 960
        → length (report_of config detail history) < 2 ^ 64
        → AreSteps (report_of config detail history) }
    ensures ended { (config : Options) (detail : Detail) (history : List Happening) → config.indirect ≤ 960
        → length (report_of config detail history) < 2 ^ 64
        → AreSteps (ended_report_of config detail history) }
{}

/// Each word that a job writes to the guest is the one that the disk gave for that place.
pub fn the_data_are_what_the_disk_gave()
    ensures report { (config : Options) (detail : Detail) (history : List Happening) → config.indirect ≤ 960
        → length (report_of config detail history) < 2 ^ 64
        → AreData (report_of config detail history) }
    ensures ended { (config : Options) (detail : Detail) (history : List Happening) → config.indirect ≤ 960
        → length (report_of config detail history) < 2 ^ 64
        → AreData (ended_report_of config detail history) }
{}

/// After each move of the disk stands its outcome, by the request's id and the place in it, and
/// nowhere else does such a line stand.
pub fn the_effects_stand_after_their_moves()
    ensures report { (config : Options) (detail : Detail) (history : List Happening) → config.indirect ≤ 960
        → length (report_of config detail history) < 2 ^ 64
        → AreEffects (report_of config detail history) }
    ensures ended { (config : Options) (detail : Detail) (history : List Happening) → config.indirect ≤ 960
        → length (report_of config detail history) < 2 ^ 64
        → AreEffects (ended_report_of config detail history) }
{}

/// A fact about this machine that no rule asks for: a job unmaps only what stands and what it mapped
/// itself.
pub fn the_jobs_unmap_what_they_mapped()
    ensures report { (config : Options) (detail : Detail) (history : List Happening) → config.indirect ≤ 960
        → length (report_of config detail history) < 2 ^ 64
        → AreUnmaps (report_of config detail history) }
    ensures ended { (config : Options) (detail : Detail) (history : List Happening) → config.indirect ≤ 960
        → length (report_of config detail history) < 2 ^ 64
        → AreUnmaps (ended_report_of config detail history) }
{}

/// Another such fact: a job reads and writes the guest's memory only through mappings that it made
/// itself.
pub fn the_jobs_touch_what_they_mapped()
    ensures report { (config : Options) (detail : Detail) (history : List Happening) → config.indirect ≤ 960
        → length (report_of config detail history) < 2 ^ 64
        → AreOwn (report_of config detail history) }
    ensures ended { (config : Options) (detail : Detail) (history : List Happening) → config.indirect ≤ 960
        → length (report_of config detail history) < 2 ^ 64
        → AreOwn (ended_report_of config detail history) }
{}

/// There is a job for each reply, no two the same, that was at its end before the first word of the
/// reply was written and whose response its words are; the reply is written word by word into the
/// next slot, pushed, and told at once, and then nothing that the job mapped stands.
pub fn the_replies_are_those_of_the_work()
    ensures report { (config : Options) (detail : Detail) (history : List Happening) → config.indirect ≤ 960
        → length (report_of config detail history) < 2 ^ 64
        → AreReplies (report_of config detail history) }
    ensures ended { (config : Options) (detail : Detail) (history : List Happening) → config.indirect ≤ 960
        → length (report_of config detail history) < 2 ^ 64
        → AreReplies (ended_report_of config detail history) }
{}

/// The back reads the front's key `protocol`, which names the layout of entries (`io/blkif.h`,
/// XEN_IO_PROTO_ABI_*), only before it maps a page of the ring in the epoch: the layout stays while
/// entries are read.
pub fn the_layout_is_named_before_the_ring_is_mapped()
    ensures report { (config : Options) (detail : Detail) (history : List Happening) → IsNamedFirst (report_of config detail history) }
    ensures ended { (config : Options) (detail : Detail) (history : List Happening) → IsNamedFirst (ended_report_of config detail history) }
{}
