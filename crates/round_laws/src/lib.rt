//! Rounds of words of sectors and of entries lead where the words of both ends and of all jobs at once
//! lead.
#![tactic(auto)]

ghost use Rattle.round_laws.specs.Laws.{RoundsLeadThere, RoundsGoUnseen, EachIsVisited, EachGoesOn, TellsAtOnce};

/// Where the front is in the middle of a sector's words or of an entry's, or waits, each job is in the
/// middle of a sector's or waits, the back is in the middle of an entry's or waits, and they move words of
/// different frames, so many rounds lead where so many words of both ends and of each job at once lead:
/// each reads what memory held at first. Nothing is told, moves alone are shown, and no disk is called; and
/// where not all was quiet at first it isn't in between.
pub fn rounds_of_words_lead_where_all_words_at_once_lead()
    ensures { RoundsLeadThere }
{}

/// A recorder that keeps no lines of moves is left by these rounds as it was, and so is the disk; no
/// mapping more is made, nor may come, but those that are counted for each word of an entry.
pub fn rounds_of_words_go_unseen_without_lines_of_moves()
    ensures { RoundsGoUnseen }
{}

/// Where as many jobs come one after another by number as the back holds, they stand in order of number,
/// as these laws ask, and each of them comes.
pub fn jobs_that_all_come_stand_in_order()
    ensures { EachIsVisited }
{}

/// Where the calls of a back say of each of them that it is in the middle of a sector's words with more
/// than n left, or waits, so it is as these laws ask.
pub fn jobs_go_on_as_the_calls_say()
    ensures { EachGoesOn }
{}

/// A back whose job is told many words of a sector, one after another, is the one of these laws: that job
/// is moved, and all else is as it was.
pub fn a_job_that_is_told_many_words_is_moved()
    ensures { TellsAtOnce }
{}
