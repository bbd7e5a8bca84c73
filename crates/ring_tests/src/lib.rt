//! Tests, by their public calls, of what a ring and its entries are: numbers, indices, layouts, segments, kept
//! mappings and unfinished requests.
#![tactic(auto)]

#[cfg(test)]
mod base;
#[cfg(test)]
mod expected;
#[cfg(test)]
mod kept_grants;
#[cfg(test)]
mod layout;
#[cfg(test)]
mod ring;
#[cfg(test)]
mod segments;
#[cfg(test)]
mod shadow;
