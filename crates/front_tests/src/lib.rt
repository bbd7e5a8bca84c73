//! Tests of the front's end of the ring (`blk_front`), by its public calls.
#![tactic(auto)]

#[cfg(test)]
mod expected;
#[cfg(test)]
mod ring;
