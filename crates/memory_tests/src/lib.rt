//! Tests of pages, grants, ports and keys, by their public calls.
#![tactic(auto)]

#[cfg(test)]
mod events;
#[cfg(test)]
mod expected;
#[cfg(test)]
mod grants;
#[cfg(test)]
mod keys;
#[cfg(test)]
mod pages;
