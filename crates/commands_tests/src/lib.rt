//! Tests of the program (`commands`), by its public calls.
#![tactic(auto)]

#[cfg(test)]
mod tests;
