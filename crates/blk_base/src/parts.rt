// What an end holds of the other.

/// An end of the ring: the front is domain 1's, the back is domain 0's.
#[derive(Clone, Copy, PartialEq, Eq)]
pub enum End {
    Front,
    Back,
}

/// How a granted frame is mapped: for reading alone, or for writing too
/// (`GNTMAP_readonly` set or not, `grant_table.h`).
#[derive(Clone, Copy, Default, PartialEq, Eq)]
pub enum Mode {
    #[default]
    ReadOnly,
    ReadWrite,
}

/// A granted frame that the back has mapped. Numbers ascend from 1 over a whole run and are never
/// used again; `gref` is the grant reference that was mapped.
#[derive(Clone, Copy, Default, PartialEq, Eq)]
pub struct Mapping {
    pub number: u64,
    pub gref: u32,
    pub mode: Mode,
}

/// A sector of 512 bytes as 128 words of 32 bits, little endian.
pub type SectorWords = [u32; 128];
