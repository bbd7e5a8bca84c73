//! What every report tells of the ring where the back may keep mappings for later requests
//! (`feature-persistent` of `io/blkif.h`). A machine that keeps none is one of these
//! (`split_model::a_machine_that_keeps_none_goes_as_without`).
ghost use Rattle.std.specs.Prelude.{◌<◌, ◌^◌, List};
ghost use Rattle.blk_base.specs.Options.{Options};
ghost use Rattle.schedule_text.specs.declared.line.Detail.{Detail};
ghost use Rattle.report_rules.specs.Overrun.{IsOverrunRule};
ghost use Rattle.report_rules.specs.Stretch.{AreStretches};
ghost use Rattle.ring_laws.specs.Handed.{AreHanded};
ghost use Rattle.ring_laws.specs.Layout.{IsNamedFirst};
ghost use Rattle.move_laws.specs.Kept.{report_keeping, ended_report_keeping};
ghost use Rattle.split_model.specs.Kept.{KeepingHappening};

/// A back that reads a producer further ahead of its own than the ring has entries halts, in the very
/// next line, and for an overrun nowhere else, also where it has kept mappings to unmap.
pub fn the_overruns_halt_the_back_where_mappings_are_kept()
    ensures report { (config : Options) (detail : Detail) (history : List KeepingHappening) → IsOverrunRule (report_keeping config detail history) }
    ensures ended { (config : Options) (detail : Detail) (history : List KeepingHappening) → IsOverrunRule (ended_report_keeping config detail history) }
{}

/// Each entry is fetched in one stretch of reads, with no other move of the back in it. A ring starts
/// at an index below 2^32.
pub fn the_entries_are_fetched_in_stretches_where_mappings_are_kept()
    ensures report { (config : Options) (detail : Detail) (history : List KeepingHappening) → config.start < 2 ^ 32
        → AreStretches (report_keeping config detail history) }
    ensures ended { (config : Options) (detail : Detail) (history : List KeepingHappening) → config.start < 2 ^ 32
        → AreStretches (ended_report_keeping config detail history) }
{}

/// The back reads the front's key `protocol` only before it maps a page of the ring in the epoch.
pub fn the_layout_is_named_before_the_ring_is_mapped_where_mappings_are_kept()
    ensures report { (config : Options) (detail : Detail) (history : List KeepingHappening) → IsNamedFirst (report_keeping config detail history) }
    ensures ended { (config : Options) (detail : Detail) (history : List KeepingHappening) → IsNamedFirst (ended_report_keeping config detail history) }
{}

/// A fact about this machine that no rule asks for: a job touches and unmaps only what stands, and what
/// it made itself in this epoch or, once both ends said in it that they keep grants, what some job made
/// for writing.
pub fn the_jobs_touch_and_unmap_what_they_made_or_what_is_kept()
    ensures report { (config : Options) (detail : Detail) (history : List KeepingHappening) → AreHanded (report_keeping config detail history) }
    ensures ended { (config : Options) (detail : Detail) (history : List KeepingHappening) → AreHanded (ended_report_keeping config detail history) }
{}
