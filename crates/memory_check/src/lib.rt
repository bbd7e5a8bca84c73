//! What the lines of a report tell of memory and mappings, kept as a state that takes one step a
//! line: it tells whether the next line shows what is there, whether a map is answered as its grant
//! entry stands, and whether a touch goes through a mapping that stands (`grant_table.h`). The
//! checker of reports stands on it.
#![tactic(auto)]

mod laws;
mod mappings;
mod numbers;
mod state;
mod verdicts;
mod words;

pub use laws::{
    the_mappings_are_told, the_numbers_are_told, the_value_is_told,
    the_verdict_on_coherence_is_the_rule, the_verdict_on_map_answers_is_the_rule,
    the_verdict_on_touches_is_the_rule,
};
pub use state::Memory;
