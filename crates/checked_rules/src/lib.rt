//! The rules of a report that `check` tests, as one list in their order (`io/ring.h`, `io/blkif.h`,
//! `io/xenbus.h`, `grant_table.h`): `specs/Rules.antt` has them, each over all lines before a line. The
//! checker (`trace_check`) finds the first that a line breaks; each report of the runner
//! (`schedule_run`) keeps those on moves, and each of a whole run keeps all (`legal_laws`).
#![tactic(auto)]

mod laws;
mod rule;

pub use laws::a_report_that_shows_its_moves_obeys_the_rules_on_them;
pub use rule::Rule;
