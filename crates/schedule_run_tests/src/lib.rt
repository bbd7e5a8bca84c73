//! Tests of the runner (`schedule_run`), by its public calls.
#![tactic(auto)]

#[cfg(test)]
mod expected;
#[cfg(test)]
mod tests;
