//! Tests of sources, sinks and disks, and of the text of schedules and reports, by their public calls.
#![tactic(auto)]

#[cfg(test)]
mod disks;
#[cfg(test)]
mod expected;
#[cfg(test)]
mod io;
#[cfg(test)]
mod recorders;
#[cfg(test)]
mod schedule;
#[cfg(test)]
mod text;
