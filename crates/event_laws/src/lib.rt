//! What each event of a schedule leaves in the report, in every report of the machine whose ends
//! negotiate: the report falls into the lines of its events, each of which answers its event, and a
//! dump shows every word of the ring that isn't 0 (`io/ring.h`); and each fault that a report tells
//! is one of its disk. The runner stands on it.
#![tactic(auto)]

ghost use Rattle.std.specs.Prelude.{◌≡◌, ◌≢◌, ℕ, ◌<◌, ◌-◌, ◌^◌};
ghost use Rattle.blk_base.specs.Options.{Options};
ghost use Rattle.schedule_text.specs.declared.line.Detail.{Detail};
ghost use Rattle.schedule_text.specs.declared.line.Detail.TheVariants.{Moves};
ghost use Rattle.event_laws.specs.Parts.{IsByEvents};
ghost use Rattle.event_laws.specs.Faults.{faults_in, IsRaised};
ghost use Rattle.event_laws.specs.Laws.{EachReportIsByEvents, EachEndedIsByEvents, TheFaultsAreTold, TheEndedFaultsAreTold};
ghost use Rattle.event_laws.specs.Wrong.{a_dump, empty_dump, one_fault, a_move, unplugged_unasked, a_close, gone_though_asked, a_job, closing_alone, a_front_close, asked_in_silence, a_front_move};

/// A report falls into the lines of the events of its schedule, in order: those of each that echo
/// answer it, and with moves a dump is exactly the words of the ring that aren't 0, as the lines before
/// tell them. So a dump that shows nothing says that all are 0. A halt for a front that is gone is
/// `unplugged` exactly where an event of this epoch asked the back to close, whatever a hostile hand
/// overwrites. `closing` stands once, where an event asks the front to close or where it moves and reads
/// that the back closes; and, before a hostile hand overwrites anything, only where an event asked an
/// end to close.
pub fn every_report_falls_into_its_events()
    ensures report { EachReportIsByEvents }
    ensures ended { EachEndedIsByEvents }
{}

/// The faults that a report tells are the calls of the disk that failed, one for one, whatever the
/// disk does: each raised its count, and where none is told the count is as before.
pub fn the_faults_are_those_of_the_disk()
    ensures report { TheFaultsAreTold }
    ensures ended { TheEndedFaultsAreTold }
{}

/// The rules refuse a dump that shows nothing of a ring whose first word was written, a fault of a
/// disk that counted none, each word of a halt for a front that is gone where the other is due, and a
/// front that begins to close in a move of a job, or in its own though nobody asked an end to close, or
/// that is asked to and doesn't begin.
pub fn wrong_reports_of_events_are_refused()
    ensures dumped { (config : Options) → ¬ IsByEvents config Moves a_dump (empty_dump config) }
    ensures unplugged { (config : Options) (detail : Detail) → ¬ IsByEvents config detail a_move (unplugged_unasked config detail) }
    ensures gone { (config : Options) (detail : Detail) → ¬ IsByEvents config detail a_close (gone_though_asked config detail) }
    ensures jobs { (config : Options) (detail : Detail) → ¬ IsByEvents config detail a_job (closing_alone config detail) }
    ensures silent { (config : Options) (detail : Detail) → ¬ IsByEvents config detail a_front_close (asked_in_silence config detail) }
    ensures unasked { (config : Options) (detail : Detail) → ¬ IsByEvents config detail a_front_move (closing_alone config detail) }
    ensures faultless { (count : ℕ) → count < 2 ^ 64 - 1 → ¬ IsRaised (faults_in one_fault) count count }
{}
