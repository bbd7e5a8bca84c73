// What each end is doing.
use crate::keys::{BackKey, FrontKey};
use crate::state::BusState;

/// What the front is doing. Each has exactly one thing to ask next.
#[derive(Clone, Copy)]
pub enum FrontBusStage {
    /// Sets its watch on the back's state.
    Start,
    /// Has begun nothing: it waits, or closes.
    Rest,
    /// Its watch fired: it reads the back's state.
    ReadState,
    /// Reads what the back offers.
    ReadFeature(BackKey),
    /// Makes the ring: its words of this number, 0 to 15, then the grant of this page.
    RingWord(u32),
    Grant(u32),
    NewPort,
    /// Publishes the ring.
    Publish(FrontKey),
    /// Reads what the disk is.
    ReadFact(BackKey),
    /// Writes its own state.
    WriteState(BusState),
    /// Leaves: ends the grant of this page, then all other grants, then closes its port.
    EndGrant(u32),
    EndOtherGrants,
    ClosePort,
    /// Has written Closed.
    Closed,
    /// Has met this word, which no honest back leaves, and does nothing more.
    Broken(u32),
}

/// What the back is doing. Each has exactly one thing to ask next.
#[derive(Clone, Copy)]
pub enum BackBusStage {
    /// Publishes what it offers.
    Publish(BackKey),
    /// Writes its own state.
    WriteState(BusState),
    /// Sets its watch on the front's state.
    Watch,
    /// Has begun nothing.
    Rest,
    /// Its watch fired: it reads the front's state.
    ReadState,
    /// Connects: reads the front's keys, maps the pages of the ring, binds the port, and publishes
    /// what the disk is.
    ReadKey(FrontKey),
    MapPage,
    Bind,
    PublishFact(BackKey),
    /// Has halted: unmaps all mappings but the ring's, and then the ring's pages, and closes its port.
    UnmapOthers,
    UnmapPage,
    ClosePort,
    /// Has halted and written Closed.
    Halted,
}
