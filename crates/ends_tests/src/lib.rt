//! Tests of the back's end of the ring and its jobs, of the negotiation, of the frontend, of the
//! backend and of a host's rounds, by their public calls.
#![tactic(auto)]

#[cfg(test)]
mod asks;
#[cfg(test)]
mod back;
#[cfg(test)]
mod backend;
#[cfg(test)]
mod bus;
#[cfg(test)]
mod expected;
#[cfg(test)]
mod frontend;
#[cfg(test)]
mod host;
#[cfg(test)]
mod jobs;
