//! The same laws of the machine whose back may keep mappings for later requests (`feature-persistent` of
//! `io/blkif.h`), over every list of its happenings. Those of a quiet machine and of its ring's words
//! stand on `machine_pipeline`, and are of the machine that keeps none alone.

ghost use Rattle.std.specs.Prelude.{List};
ghost use Rattle.blk_base.specs.Options.{Options};
ghost use Rattle.schedule_text.specs.declared.line.Detail.{Detail};
ghost use Rattle.schedule_text.specs.Recorder.{kept_of};
ghost use Rattle.split_model.specs.Kept.{KeepingHappening};
ghost use Rattle.move_laws.specs.Kept.{report_keeping, ended_report_keeping};
ghost use Rattle.report_laws.specs.Begun.{IsBegun};
ghost use Rattle.report_laws.specs.Grammar.{IsInGrammar};
ghost use Rattle.report_laws.specs.Ready.{IsReadyFirst};
ghost use Rattle.report_laws.specs.States.{AreStatesAgreed};
ghost use Rattle.report_laws.specs.Ports.{AreFewPorts};
ghost use Rattle.report_laws.specs.Settled.{IsSettled};
ghost use Rattle.report_laws.specs.Kept.{OfEachReportKeeping, OfEachEndedKeeping, OfFoundReportsKeeping, OfFoundEndedKeeping, AreSettledKeeping};
ghost use Rattle.report_laws.specs.Kept.{OfShortReportsKeeping, OfShortEndedKeeping, OfAgreedReportsKeeping, OfAgreedEndedKeeping};

/// `begin` is its first line and stands nowhere else, and lines of moves stand only where it says
/// `moves`.
pub fn every_report_begins_once_where_mappings_are_kept()
    ensures report { OfEachReportKeeping IsBegun }
    ensures ended { OfEachEndedKeeping IsBegun }
{}

/// A `ready` line of the same epoch, or a `closed` or a `broken` line, stands before each `quiet` line,
/// whatever a hostile hand overwrites. The premise (`IsFoundQuiet`) is that where all is found quiet
/// it is.
pub fn no_report_is_quiet_before_it_is_ready_where_mappings_are_kept()
    ensures report { OfFoundReportsKeeping IsReadyFirst }
    ensures ended { OfFoundEndedKeeping IsReadyFirst }
{}

/// Where a report with moves says `quiet`, both ends have said last in this epoch that they are connected
/// (4), or that they are closed (6) after a `closing` line, where the directory says so
/// (`IsAgreedKeeping`).
pub fn the_states_agree_where_a_report_is_quiet_where_mappings_are_kept()
    ensures report { OfAgreedReportsKeeping AreStatesAgreed }
    ensures ended { OfAgreedEndedKeeping AreStatesAgreed }
{}

/// The front makes at most 4 ports in an epoch (`event_channel.h`), whatever happens.
pub fn no_front_makes_more_than_four_ports_where_mappings_are_kept()
    ensures report { OfEachReportKeeping (λ config detail report. AreFewPorts report) }
    ensures ended { OfEachEndedKeeping (λ config detail report. AreFewPorts report) }
{}

/// Each line is one of the grammar, and the report's text gives back exactly its lines, whatever words
/// of memory are overwritten, and however often the domain is suspended.
pub fn every_report_is_in_the_grammar_where_mappings_are_kept()
    ensures report { OfShortReportsKeeping IsInGrammar }
    ensures ended { OfShortEndedKeeping IsInGrammar }
{}

/// No line says that a `settle` ran out of rounds, where each settling ended in quiet.
pub fn no_report_is_unsettled_where_settling_ends_where_mappings_are_kept()
    ensures report { (config : Options) (detail : Detail) (history : List KeepingHappening) → AreSettledKeeping history
        → IsSettled (kept_of detail (report_keeping config detail history)) }
    ensures ended { (config : Options) (detail : Detail) (history : List KeepingHappening) → AreSettledKeeping history
        → IsSettled (kept_of detail (ended_report_keeping config detail history)) }
{}
