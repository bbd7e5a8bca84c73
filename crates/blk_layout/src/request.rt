// What a front asks of the back.

use crate::segment::Segment;

/// What a request with segments of its own asks for (`BLKIF_OP_READ`, `_WRITE`, `_WRITE_BARRIER`
/// and `_FLUSH_DISKCACHE` of `io/blkif.h`).
#[derive(Clone, Copy)]
pub enum DirectOp {
    Read,
    Write,
    Barrier,
    Flush,
}

/// What a request with segments in other frames asks for.
#[derive(Clone, Copy)]
pub enum IndirectOp {
    Read,
    Write,
}

/// A request as a front writes it (`io/blkif.h`), one variant for each form of an entry. `device`
/// is the header's `handle`, `sector` the first sector on the disk, `id` the front's own number.
#[derive(Clone, Copy)]
pub enum WrittenRequest {
    /// `struct blkif_request`: the first `count` of the segments are meant; all are written.
    Direct {
        op: DirectOp,
        count: u8,
        device: u16,
        id: u64,
        sector: u64,
        segments: [Segment; 11],
    },
    /// `struct blkif_request_discard`: `count` sectors. Bit 0 of `flag` wants a secure discard.
    Discard {
        flag: u8,
        device: u16,
        id: u64,
        sector: u64,
        count: u64,
    },
    /// `struct blkif_request_indirect`: `count` segments, 512 in each frame that `pages` grants.
    Indirect {
        op: IndirectOp,
        count: u16,
        device: u16,
        id: u64,
        sector: u64,
        pages: [u32; 8],
    },
}

/// What any words of an entry are read as. Nothing is refused: a byte that names no operation is
/// read as the `op` of the direct form, and a count may be above what the entry has room for.
#[derive(Clone, Copy, PartialEq, Eq)]
pub enum RawRequest {
    /// Any operation byte but 5 (DISCARD) and 6 (INDIRECT).
    Direct {
        op: u8,
        count: u8,
        device: u16,
        id: u64,
        sector: u64,
        segments: [Segment; 11],
    },
    /// Operation byte 5.
    Discard {
        flag: u8,
        device: u16,
        id: u64,
        sector: u64,
        count: u64,
    },
    /// Operation byte 6. `op` is the inner operation, any byte.
    Indirect {
        op: u8,
        count: u16,
        device: u16,
        id: u64,
        sector: u64,
        pages: [u32; 8],
    },
}
