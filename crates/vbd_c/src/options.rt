// The options of an end, as the numbers that C writes.
ghost use Rattle.std.specs.Prelude.{◌≡◌};
ghost use Rattle.vbd_c.specs.Held.{options_of};
ghost use Rattle.vbd_c.specs.FrontHeld.{options_of as front_options_of, abi_of, kept_of};

use blk_base::{Abi, Config};

/// The disk's number of 512-byte sectors, the most segments that an indirect request may have (0 to 960; 0 turns them
/// off), the first ring index, whether the disk is for reading alone, and how many mappings may be kept for later requests
/// (0 to 1000; 0 turns that off). Layout and order come from the front's keys.
#[repr(C)]
#[derive(Clone, Copy)]
pub struct BackOptions {
    pub sectors: u64,
    pub indirect: u32,
    pub start: u32,
    pub read_only: bool,
    pub persistent: u32,
}

impl BackOptions {
    /// The options; `None` exactly where an indirect request might have more than 960 segments, or more than 1000 mappings
    /// might be kept.
    pub fn config(&self) -> Option<Config>
        ensures { result ≡ options_of self.now }
    {
        if self.indirect > 960 || self.persistent > 1000 {
            return None;
        }
        Some(Config {
            abi: Abi::X64,
            order: 0,
            persistent: self.persistent,
            indirect: self.indirect,
            start: self.start,
            read_only: self.read_only,
            sectors: self.sectors,
        })
    }
}

/// The order of the ring that the front wishes (0 to 4, the ring has `2^order` pages), the first ring index, whether entries
/// have the layout of `x86_32-abi` in place of `x86_64-abi`, and whether grants are kept for later requests where the back
/// keeps mappings. What the back serves comes from the back's keys.
#[repr(C)]
#[derive(Clone, Copy)]
pub struct FrontOptions {
    pub order: u32,
    pub start: u32,
    pub x86_32: bool,
    pub persistent: bool,
}

impl FrontOptions {
    /// The options; `None` exactly where the order is above 4.
    pub fn config(&self) -> Option<Config>
        ensures { result ≡ front_options_of self.now }
    {
        if self.order > 4 {
            return None;
        }
        Some(Config {
            abi: if self.x86_32 { Abi::X32 } else { Abi::X64 },
            order: self.order,
            persistent: u32::from(self.persistent),
            indirect: 0,
            start: self.start,
            read_only: false,
            sectors: 0,
        })
    }
}
