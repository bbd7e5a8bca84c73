// What the back offers and what its disk is.
ghost use Rattle.std.specs.Prelude.{◌≡◌};
ghost use Rattle.xenbus_state.specs.Offer.{offer_of, facts_of};

use blk_base::Config;

/// The greatest order of a ring that a back takes.
const MAX_ORDER: u32 = 4;

/// What a back offers (`feature-*` and `max-ring-page-order` of `io/blkif.h`). A back publishes it,
/// and a front has what it read: a feature is there where its key isn't 0, persistent grants where
/// it is 1.
#[derive(Clone, Copy, Default, PartialEq, Eq)]
pub struct Features {
    pub barrier: bool,
    pub flush: bool,
    pub discard: bool,
    pub persistent: bool,
    /// How many segments an indirect request may have; 0 turns them off.
    pub indirect: u32,
    /// The greatest order of the ring: it has up to `2^order` pages.
    pub order: u32,
}

/// What the disk is (`sectors` and `info` of `io/blkif.h`): its number of 512-byte sectors, and
/// whether it is read-only (`VDISK_READONLY`).
#[derive(Clone, Copy, Default, PartialEq, Eq)]
pub struct DiskFacts {
    pub sectors: u64,
    pub read_only: bool,
}

impl Features {
    /// All that a back offers under these options: barriers, flushes and discards where the disk is
    /// not read-only, and rings of up to 16 pages.
    pub fn of(config: &Config) -> Features
        ensures { result ≡ offer_of config.now }
    {
        let writable = !config.read_only;
        Features {
            barrier: writable,
            flush: writable,
            discard: writable,
            persistent: config.persistent != 0,
            indirect: config.indirect,
            order: MAX_ORDER,
        }
    }
}

impl DiskFacts {
    /// The disk of these options.
    pub fn of(config: &Config) -> DiskFacts
        ensures { result ≡ facts_of config.now }
    {
        DiskFacts {
            sectors: config.sectors,
            read_only: config.read_only,
        }
    }
}
