// The states that the negotiation has the front enter.
ghost use Rattle.std.specs.Prelude.{◌≡◌};
ghost use Rattle.blk_front.specs.View.{no_offers};

/// What the back published, as it was read (`io/blkif.h`): its disk's sectors of 512 bytes (`sectors`)
/// and whether it is read-only (`info`), what it serves beside reads and writes (`feature-barrier`,
/// `feature-flush-cache` and `feature-discard`), how many segments it takes in indirect pages, 0 where it takes none
/// (`feature-max-indirect-segments`), and whether grants are kept, since both ends published so
/// (`feature-persistent`).
#[derive(Clone, Copy)]
pub struct Offers {
    pub sectors: u64,
    pub read_only: bool,
    pub barrier: bool,
    pub flush: bool,
    pub discard: bool,
    pub indirect: u32,
    pub persistent: bool,
}

impl Offers {
    /// Nothing is read yet: a disk of no sectors, reads and writes alone, and no grant is kept.
    pub fn none() -> Offers
        ensures { result ≡ no_offers }
    {
        Offers {
            sectors: 0,
            read_only: false,
            barrier: false,
            flush: false,
            discard: false,
            indirect: 0,
            persistent: false,
        }
    }
}

/// A state that the front enters as its negotiation with the back goes (`io/xenbus.h`).
#[derive(Clone, Copy)]
pub enum FrontState {
    /// Its ring has this order, 0 to 4, no greater than it wished: the order is agreed with the back.
    Agreed(u32),
    /// Its ring and its port are used from now on (XenbusStateConnected), over a back that published
    /// this of its disk and of what it serves.
    Connected(Offers),
    /// It takes no more requests (XenbusStateClosing is written once it has none left).
    Closing,
    /// The back is gone: the front ends the grants of its ring and those that it kept, and closes its
    /// port.
    Leaving,
    /// It is closed (XenbusStateClosed).
    Closed,
    /// Its negotiation found this word, which no honest back leaves.
    Broken(u32),
}
