//! What every report of the machine tells of memory and mappings, whatever happens to it: it obeys
//! the rules of `report_rules` on them (`grant_table.h`). The machine is the pure function of
//! `split_model`; each law is over every list of happenings, with any options of a ring of 1 to 16
//! pages. That each ask keeps to what its end may touch is a law too. The rules are those on reads,
//! on maps and on touches; what the moves say of the ring and of each request is no part of them.
//! The laws here are of the machine whose back keeps no mappings; all but the last follow from those
//! of `keeping`.
#![tactic(auto)]

ghost use Rattle.std.specs.Prelude.{◌≡◌, ◌≤◌, List, true};
ghost use Rattle.blk_base.specs.Options.{Options};
ghost use Rattle.schedule_text.specs.declared.line.Detail.{Detail};
ghost use Rattle.schedule_text.specs.declared.line.Detail.TheVariants.{Moves};
ghost use Rattle.report_rules.specs.Coherent.{IsCoherent};
ghost use Rattle.report_rules.specs.Mapped.{AreMapAnswers};
ghost use Rattle.report_rules.specs.Touch.{AreTouches};
ghost use Rattle.split_model.specs.World.{World, start_of};
ghost use Rattle.split_model.specs.Happening.{Happening, after, lines_of, DiskRuns};
ghost use Rattle.blk_io.specs.Disk.{DiskSeen};
ghost use Rattle.schedule_text.specs.Recorder.{kept_of};
ghost use Rattle.move_laws.specs.Permitted.{ArePermitted};
ghost use Rattle.move_laws.specs.Grantable.{AreGrantable};
ghost use Rattle.move_laws.specs.Dumped.{AreWholeDumps, AreWished};
ghost use Rattle.move_laws.specs.Numbers.{AreNumbered};
ghost use Rattle.move_laws.specs.Tells.{Tells};
ghost use Rattle.move_laws.specs.Reports.{OfLines, OfReports, OfEnded};
ghost use Rattle.split_model.specs.Report.{report_of, ended_report_of};

pub mod keeping;

/// Each ask of the front touches a word of the frames that both ends share; each of the back or a
/// job a word of a page whose mapping they hold, and writes only where that is for writing; and a
/// dump shows words of 16 pages at most.
pub fn every_ask_is_within()
    ensures { (config : Options) (history : List Happening) → config.order ≤ 4 → ArePermitted history (start_of config) }
{}

/// What the lines of a report tell is what is there: each word of memory, the mappings that live,
/// with their references, modes and frames, and the number of the last one made.
pub fn the_report_tells_the_memory()
    ensures { (config : Options) (detail : Detail) (history : List Happening) → config.order ≤ 4
        → (let w : World = after history (start_of config) in Tells (report_of config detail history) w.under.pages w.under.grants) }
{}

/// Each read, and each word that a compare and exchange saw, shows what the lines before it left
/// in that word: in the lines of a history, in its report, and in the report with its last line.
pub fn the_reads_are_coherent()
    ensures lines { OfLines IsCoherent }
    ensures report { OfReports IsCoherent }
    ensures ended { OfEnded IsCoherent }
{}

/// Each map is answered as the two words of its grant entry stand by the lines before it, and each
/// new mapping has a number that none had before.
pub fn the_maps_are_answered_by_their_entries()
    ensures lines { OfLines AreMapAnswers }
    ensures report { OfReports AreMapAnswers }
    ensures ended { OfEnded AreMapAnswers }
{}

/// A fact about this machine that no rule asks for: the numbers of mappings ascend by one.
pub fn the_numbers_of_mappings_ascend()
    ensures lines { OfLines AreNumbered }
    ensures report { OfReports AreNumbered }
    ensures ended { OfEnded AreNumbered }
{}

/// Each read and write of the back or a job goes through a mapping that stands by the lines before
/// it, shows its frame, and writes only where it is for writing.
pub fn the_touches_go_through_standing_mappings()
    ensures lines { OfLines AreTouches }
    ensures report { OfReports AreTouches }
    ensures ended { OfEnded AreTouches }
{}

/// And the frame is one of 2 to 1023.
pub fn the_touches_are_in_grantable_frames()
    ensures lines { OfLines AreGrantable }
    ensures report { OfReports AreGrantable }
    ensures ended { OfEnded AreGrantable }
{}

/// A dump of the ring shows each of its words that isn't 0, ascending, and no line comes after it
/// before it has shown them all, where the ring has as many pages as the front wished.
pub fn the_dumps_show_every_word()
    ensures report { (config : Options) (detail : Detail) (history : List Happening) → config.order ≤ 4 → AreWished config.order history
        → AreWholeDumps config.order (report_of config detail history) }
    ensures ended { (config : Options) (detail : Detail) (history : List Happening) → config.order ≤ 4 → AreWished config.order history
        → AreWholeDumps config.order (ended_report_of config detail history) }
{}

/// A disk that the options say to be read-only holds what it held, whatever happens, hostile words too.
pub fn a_read_only_disk_keeps_its_content()
    ensures { (config : Options) (history : List Happening) (before now : DiskSeen) → config.read_only ≡ true
        → DiskRuns history (start_of config) before now → now.content ≡ before.content }
{}

/// A recorder that shows moves keeps each of these lines.
pub fn a_recorder_of_moves_keeps_all()
    ensures lines { (history : List Happening) (w : World) → kept_of Moves (lines_of history w) ≡ lines_of history w }
    ensures report { (config : Options) (history : List Happening) → kept_of Moves (report_of config Moves history) ≡ report_of config Moves history }
    ensures ended { (config : Options) (history : List Happening)
        → kept_of Moves (ended_report_of config Moves history) ≡ ended_report_of config Moves history }
{}
