//! Settling ends: before a hostile hand first overwrites a word or a key, each `settle` of a schedule
//! finds all quiet within its bound of rounds, whatever the disk does and at any moment of connecting,
//! serving and closing (`io/ring.h`, `io/blkif.h`, `io/xenbus.h`).
#![tactic(auto)]

ghost use Rattle.settle_laws.specs.Laws.{EachSettlingEnds, EachScheduleSettles, EachBeginningSettles};

/// After whatever happened that no hostile hand touched, at any moment of connecting, serving and
/// closing, and after any suspends, rounds until all is quiet end in quiet: within 20,000 rounds, 2,000
/// for each request that is unfinished then and 2,000 for each of its sectors, whatever the disk
/// answers. So does each settling of a schedule, up to the first word or key that a hostile hand
/// overwrites.
pub fn settling_ends()
    ensures each { EachSettlingEnds }
    ensures schedules { EachScheduleSettles }
    ensures beginnings { EachBeginningSettles }
{}
