//! Tests of the inspector, the checker, its rules and the generated load, by their public calls.
#![tactic(auto)]

#[cfg(test)]
mod checker;
#[cfg(test)]
mod disk;
#[cfg(test)]
mod expected;
#[cfg(test)]
mod given;
#[cfg(test)]
mod inspector;
#[cfg(test)]
mod jobs;
#[cfg(test)]
mod lines;
#[cfg(test)]
mod load;
#[cfg(test)]
mod memory;
#[cfg(test)]
mod requests;
#[cfg(test)]
mod ring;
#[cfg(test)]
mod rules;
