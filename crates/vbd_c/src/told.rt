// What a move told, as the numbers that C reads.
ghost use Rattle.std.specs.Prelude.{◌≡◌};
ghost use Rattle.vbd_c.specs.Told.{numbers_told};

use blk_back::BackTold;

/// What a move told: its kind, by the order of `BackTold` from 1 on; the id of the request; which of its sectors; and
/// the status of a reply (`BLKIF_RSP_*`).
#[repr(C)]
#[derive(Clone, Copy)]
pub struct ToldNumbers {
    pub kind: u32,
    pub index: u32,
    pub status: i32,
    pub id: u64,
}

/// The numbers of what was told.
pub fn numbers_told(told: BackTold) -> ToldNumbers
    ensures { result ≡ numbers_told told }
{
    let (kind, id, index, status) = match told {
        BackTold::Effect { id, index } => (1, id, index, 0),
        BackTold::Flushed { id } => (2, id, 0, 0),
        BackTold::Trimmed { id } => (3, id, 0, 0),
        BackTold::Fault { id, index } => (4, id, index, 0),
        BackTold::Reply { id, status } => (5, id, 0, i32::from(status.code())),
    };
    ToldNumbers {
        kind,
        index,
        status,
        id,
    }
}
