//! Tests of what lies under both ends (`hypervisor`), by its public calls.
#![tactic(auto)]

#[cfg(test)]
mod expected;
#[cfg(test)]
mod under;
