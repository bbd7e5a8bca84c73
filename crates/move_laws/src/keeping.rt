//! The same laws of the machine whose back may keep mappings for later requests (`feature-persistent` of
//! `io/blkif.h`), over every list of its happenings. A touch goes then through a mapping that stands,
//! one that its mover mapped or one that was kept.

ghost use Rattle.std.specs.Prelude.{◌≡◌, ◌≤◌, List, true};
ghost use Rattle.blk_base.specs.Options.{Options};
ghost use Rattle.blk_io.specs.Disk.{DiskSeen};
ghost use Rattle.schedule_text.specs.declared.line.Detail.{Detail};
ghost use Rattle.schedule_text.specs.declared.line.Detail.TheVariants.{Moves};
ghost use Rattle.schedule_text.specs.Recorder.{kept_of};
ghost use Rattle.report_rules.specs.Coherent.{IsCoherent};
ghost use Rattle.report_rules.specs.Mapped.{AreMapAnswers};
ghost use Rattle.report_rules.specs.Touch.{AreTouches};
ghost use Rattle.split_model.specs.World.{World, start_of};
ghost use Rattle.split_model.specs.Kept.{KeepingHappening, after_keeping, lines_keeping};
ghost use Rattle.move_laws.specs.Grantable.{AreGrantable};
ghost use Rattle.move_laws.specs.Dumped.{AreWholeDumps};
ghost use Rattle.move_laws.specs.Numbers.{AreNumbered};
ghost use Rattle.move_laws.specs.Tells.{Tells};
ghost use Rattle.move_laws.specs.Kept.{ArePermittedKeeping, AreWishedKeeping, DiskRunsKeeping, OfLinesKeeping, OfReportsKeeping, OfEndedKeeping, report_keeping, ended_report_keeping};

/// Each ask of the front touches a word of the frames that both ends share; each of the back or a job a
/// word of a page whose mapping is in their hands, mapped or taken of those that are kept, and writes
/// only where that is for writing; and a dump shows words of 16 pages at most.
pub fn every_ask_is_within_where_mappings_are_kept()
    ensures { (config : Options) (history : List KeepingHappening) → config.order ≤ 4 → ArePermittedKeeping history (start_of config) }
{}

/// What the lines of a report tell is what is there: each word of memory, the mappings that live,
/// with their references, modes and frames, and the number of the last one made.
pub fn the_report_tells_the_memory_where_mappings_are_kept()
    ensures { (config : Options) (detail : Detail) (history : List KeepingHappening) → config.order ≤ 4
        → (let w : World = after_keeping history (start_of config) in Tells (report_keeping config detail history) w.under.pages w.under.grants) }
{}

/// Each read, and each word that a compare and exchange saw, shows what the lines before it left in
/// that word.
pub fn the_reads_are_coherent_where_mappings_are_kept()
    ensures lines { OfLinesKeeping IsCoherent }
    ensures report { OfReportsKeeping IsCoherent }
    ensures ended { OfEndedKeeping IsCoherent }
{}

/// Each map is answered as the two words of its grant entry stand by the lines before it, and each
/// new mapping has a number that none had before.
pub fn the_maps_are_answered_by_their_entries_where_mappings_are_kept()
    ensures lines { OfLinesKeeping AreMapAnswers }
    ensures report { OfReportsKeeping AreMapAnswers }
    ensures ended { OfEndedKeeping AreMapAnswers }
{}

/// The numbers of mappings ascend by one.
pub fn the_numbers_of_mappings_ascend_where_mappings_are_kept()
    ensures lines { OfLinesKeeping AreNumbered }
    ensures report { OfReportsKeeping AreNumbered }
    ensures ended { OfEndedKeeping AreNumbered }
{}

/// Each read and write of the back or a job goes through a mapping that stands by the lines before
/// it, shows its frame, and writes only where it is for writing.
pub fn the_touches_go_through_standing_mappings_where_mappings_are_kept()
    ensures lines { OfLinesKeeping AreTouches }
    ensures report { OfReportsKeeping AreTouches }
    ensures ended { OfEndedKeeping AreTouches }
{}

/// And the frame is one of 2 to 1023.
pub fn the_touches_are_in_grantable_frames_where_mappings_are_kept()
    ensures lines { OfLinesKeeping AreGrantable }
    ensures report { OfReportsKeeping AreGrantable }
    ensures ended { OfEndedKeeping AreGrantable }
{}

/// A dump of the ring shows each of its words that isn't 0, ascending, and no line comes after it
/// before it has shown them all, where the ring has as many pages as the front wished.
pub fn the_dumps_show_every_word_where_mappings_are_kept()
    ensures report { (config : Options) (detail : Detail) (history : List KeepingHappening) → config.order ≤ 4 → AreWishedKeeping config.order history
        → AreWholeDumps config.order (report_keeping config detail history) }
    ensures ended { (config : Options) (detail : Detail) (history : List KeepingHappening) → config.order ≤ 4 → AreWishedKeeping config.order history
        → AreWholeDumps config.order (ended_report_keeping config detail history) }
{}

/// A disk that the options say to be read-only holds what it held, whatever happens, hostile words too.
pub fn a_read_only_disk_keeps_its_content_where_mappings_are_kept()
    ensures { (config : Options) (history : List KeepingHappening) (before now : DiskSeen) → config.read_only ≡ true
        → DiskRunsKeeping history (start_of config) before now → now.content ≡ before.content }
{}

/// A recorder that shows moves keeps each of these lines.
pub fn a_recorder_of_moves_keeps_all_where_mappings_are_kept()
    ensures lines { (history : List KeepingHappening) (w : World) → kept_of Moves (lines_keeping history w) ≡ lines_keeping history w }
    ensures report { (config : Options) (history : List KeepingHappening)
        → kept_of Moves (report_keeping config Moves history) ≡ report_keeping config Moves history }
    ensures ended { (config : Options) (history : List KeepingHappening)
        → kept_of Moves (ended_report_keeping config Moves history) ≡ ended_report_keeping config Moves history }
{}
