// Why the back halts.
use crate::ask::KeyName;

/// Why the back halts. It serves nothing more then, until it is made anew.
#[derive(Clone, Copy, PartialEq, Eq)]
pub enum Halt {
    /// The front's producer was this, further ahead of the back's own producer than the ring has
    /// entries (`RING_REQUEST_PROD_OVERFLOW` of `io/ring.h`).
    Overrun { prod: u32, rsp_prod: u32 },
    /// The front is gone: its state (`io/xenbus.h`).
    Gone(u32),
    /// The front is gone after the back was asked to close: its state.
    Unplugged(u32),
    /// This key of the front's is missing or malformed.
    BadKey(KeyName),
    /// A state of the front's that may not come now.
    BadOrder(u32),
    /// The front's port can't be bound.
    BadPort(u32),
    /// A page of the ring can't be mapped: the reference and the status (`GNTST_*` of `grant_table.h`).
    MapRefused { gref: u32, status: i32 },
}
