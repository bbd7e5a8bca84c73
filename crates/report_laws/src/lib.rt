//! What every report of the machine is, as a list of lines: it begins with `begin` and nowhere
//! else, says `quiet` only of a front that was connected in this epoch, is closed or is broken, of a
//! ring that is served and read (`io/ring.h`), and of two ends that have both said last that they are
//! connected, or that they are closed after a `closing` line, where the directory of keys says so
//! (`AreAgreed`), shows at most 4 ports that the front makes in an epoch (`event_channel.h`), and its text gives
//! back exactly its lines. The machine is the pure function of `split_model`; each law is over every
//! list of happenings, of what a recorder keeps of the report, so with and without the lines of moves
//! (`OfEachReport`), and where it says `OfPlain` the premises are those of `machine_pipeline`: reads,
//! of which the disk gives 128 words of 32 bits, writes, barriers, flushes and discards, and a machine
//! that is quiet where it is found so. `OfServed` has the same without those of its options.
//! `OfShort`, of reports of fewer than 2^64 lines, lets a hostile hand overwrite words and keys too,
//! and the domain be suspended.
//! What obeys a rule obeys it up to each of its lines.
//! The laws here are of the machine whose back keeps no mappings; where `keeping` has one too they
//! follow from it.
#![tactic(auto)]

ghost use Rattle.std.specs.Prelude.{◌≡◌, ℕ, ◌≤◌, ◌^◌, List, [], ◌∷◌, ◌++◌, Contains};
ghost use Rattle.blk_base.specs.Options.{Options};
ghost use Rattle.blk_base.specs.declared.operation.Status.{Status};
ghost use Rattle.blk_base.specs.declared.moves.Move.{Move};
ghost use Rattle.schedule_text.specs.declared.line.Detail.{Detail};
ghost use Rattle.schedule_text.specs.declared.line.Detail.TheVariants.{Lines, Moves};
ghost use Rattle.schedule_text.specs.declared.line.Line.{Line};
ghost use Rattle.schedule_text.specs.declared.line.Line.TheVariants.{Quiet, Answer};
ghost use Rattle.schedule_text.specs.Recorder.{kept_of, report_text};
ghost use Rattle.split_model.specs.Happening.{Happening, lines_at};
ghost use Rattle.machine_pipeline.specs.Allowed.{IsServed};
ghost use Rattle.report_laws.specs.Begun.{IsBegun, IsBegunSoFar};
ghost use Rattle.report_laws.specs.Ready.{IsReadyFirst};
ghost use Rattle.report_laws.specs.AtRest.{IsAtRest};
ghost use Rattle.report_laws.specs.QuietRing.{IsQuietRing};
ghost use Rattle.report_laws.specs.States.{AreStatesAgreed};
ghost use Rattle.report_laws.specs.Ports.{AreFewPorts};
ghost use Rattle.report_laws.specs.Settled.{IsSettled, AreSettled};
ghost use Rattle.split_model.specs.Report.{report_of, ended_report_of};
ghost use Rattle.report_laws.specs.Grammar.{AreInGrammar, IsInGrammar};
ghost use Rattle.report_laws.specs.Reports.{OfEachReport, OfEachEnded, OfServedReports, OfServedEnded, OfShortReports, OfShortEnded, OfPlainReports, OfPlainEnded, OfPlainMachines, OfAgreedReports, OfAgreedEnded};
ghost use Rattle.report_laws.specs.Wrong.{begun_twice, moved, ready_late, unserved, unread, connected_alone, closed_unsaid, ready_before, answered_before, connected_before, five_ports};

pub mod keeping;

/// `begin` is its first line and stands nowhere else, and lines of moves stand only where it says
/// `moves`.
pub fn every_report_begins_once()
    ensures report { OfEachReport IsBegun }
    ensures ended { OfEachEnded IsBegun }
    ensures before { (config : Options) (detail : Detail) (first more : List Line) → IsBegun config detail (first ++ more)
        → IsBegunSoFar config detail first }
{}

/// A `ready` line of the same epoch, or a `closed` or a `broken` line, stands before each `quiet` line,
/// where no hostile hand overwrites a word or a key. The premise (`AreServed`) is that where all is
/// found quiet it is.
pub fn no_report_is_quiet_before_it_is_ready()
    ensures report { OfServedReports (λ config detail report. IsReadyFirst report) }
    ensures ended { OfServedEnded (λ config detail report. IsReadyFirst report) }
    ensures before { (first more : List Line) → IsReadyFirst (first ++ more) → IsReadyFirst first }
{}

/// Wherever the machine shows `quiet`, for a `settle` or a `look`, its ring, if one was made in this
/// epoch, holds no request that isn't served and no response that isn't read, and nothing is left at
/// either end. What happens next is one of the happenings that may (`IsServed`), so `quiet` is shown
/// only of a quiet machine.
pub fn a_quiet_machine_is_at_rest()
    ensures { OfPlainMachines (λ w. (next : Happening) → IsServed w next → Contains (lines_at w next) Quiet → IsAtRest w) }
{}

/// So the ring's words say, by the moves before each `quiet` line that a `ready` line of its epoch stands
/// before, with the answers of that epoch.
pub fn a_quiet_ring_is_served_and_read()
    ensures report { OfPlainReports (λ config detail report. detail ≡ Moves → IsQuietRing report) }
    ensures ended { OfPlainEnded (λ config detail report. detail ≡ Moves → IsQuietRing report) }
    ensures before { (first more : List Line) → IsQuietRing (first ++ more) → IsQuietRing first }
{}

/// Where a report with moves says `quiet`, both ends have said last in this epoch that they are connected
/// (4), or that they are closed (6), by the keys that its lines set (`io/xenbus.h`), and closed only
/// after a `closing` line. After an `epoch` line both states are 1 again, but 6 where the front was
/// closed or broken. The premise (`AreAgreed`) is that the directory says so wherever all is found quiet,
/// and that the front closes where it says closed.
pub fn the_states_agree_where_a_report_is_quiet()
    ensures report { OfAgreedReports AreStatesAgreed }
    ensures ended { OfAgreedEnded AreStatesAgreed }
    ensures before { (first more : List Line) → AreStatesAgreed (first ++ more) → AreStatesAgreed first }
{}

/// The front makes at most 4 ports in an epoch (`event_channel.h`), whatever happens: it makes one, and
/// no other once that is made.
pub fn no_front_makes_more_than_four_ports()
    ensures report { OfEachReport (λ config detail report. AreFewPorts report) }
    ensures ended { OfEachEnded (λ config detail report. AreFewPorts report) }
    ensures before { (first more : List Line) → AreFewPorts (first ++ more) → AreFewPorts first }
{}

/// No line says that a `settle` ran out of rounds, where each settling ended in quiet (`AreSettled`).
pub fn no_report_is_unsettled_where_settling_ends()
    ensures report { (config : Options) (detail : Detail) (history : List Happening) → AreSettled history
        → IsSettled (kept_of detail (report_of config detail history)) }
    ensures ended { (config : Options) (detail : Detail) (history : List Happening) → AreSettled history
        → IsSettled (kept_of detail (ended_report_of config detail history)) }
    ensures before { (first more : List Line) → IsSettled (first ++ more) → IsSettled first }
{}

/// Each line is one of the grammar, and the report's text gives back exactly its lines, whatever
/// words of memory are overwritten, and however often the domain is suspended.
pub fn every_report_is_in_the_grammar()
    ensures report { OfShortReports (λ config detail report. IsInGrammar report) }
    ensures ended { OfShortEnded (λ config detail report. IsInGrammar report) }
    ensures before { (first more : List Line) → IsInGrammar (first ++ more) → IsInGrammar first }
{}

/// Two lists of lines of the grammar that have one text are the same.
pub fn one_text_has_one_reading()
    ensures { (one other : List Line) → AreInGrammar one → AreInGrammar other → report_text one ≡ report_text other → one ≡ other }
{}

/// The rules refuse a second `begin`, a move where none is shown, `quiet` before `ready`, `quiet`
/// over a request without a response, over a response that wasn't read, over one end that alone is
/// connected or over two that are closed without a `closing` line, `quiet` that rests on a `ready`
/// line, an answer or states of the epoch before, a fifth port in one epoch, and a number that has
/// more than 64 bits.
pub fn wrong_reports_are_refused()
    ensures begun_twice { (config : Options) (detail : Detail) → ¬ IsBegun config detail (begun_twice config detail) }
    ensures moved { (config : Options) (move : Move) → ¬ IsBegun config Lines (moved config move) }
    ensures ready_late { (config : Options) (detail : Detail) → ¬ IsReadyFirst (ready_late config detail) }
    ensures unserved { (config : Options) → ¬ IsQuietRing (unserved config) }
    ensures unread { (config : Options) → config.start ≡ 0 → ¬ IsQuietRing (unread config) }
    ensures connected_alone { (config : Options) → ¬ AreStatesAgreed (connected_alone config) }
    ensures closed_unsaid { (config : Options) → ¬ AreStatesAgreed (closed_unsaid config) }
    ensures ready_before { (config : Options) (detail : Detail) → ¬ IsReadyFirst (ready_before config detail) }
    ensures answered_before { (config : Options) (status : Status) → config.start ≡ 0 → ¬ IsQuietRing (answered_before config status) }
    ensures connected_before { (config : Options) → ¬ AreStatesAgreed (connected_before config) }
    ensures five_ports { (config : Options) → ¬ AreFewPorts (five_ports config) }
    ensures out_of_range { (id : ℕ) (status : Status) → 2 ^ 64 ≤ id → ¬ AreInGrammar (Answer id status ∷ []) }
{}
