// Why the back halted, as the numbers that C reads.
ghost use Rattle.std.specs.Prelude.{◌≡◌};
ghost use Rattle.vbd_c.specs.Told.{numbers_halted, key_of};

use blk_base::{Halt, KeyName};

/// Why the back halted: the kind, by the order of `Halt` from 1 on; the front's producer, its state, its port or a
/// grant reference; the back's own producer at an overrun; and the status of a map that was refused (`GNTST_*`).
#[repr(C)]
#[derive(Clone, Copy)]
pub struct HaltNumbers {
    pub kind: u32,
    pub number: u32,
    pub rsp_prod: u32,
    pub status: i32,
}

/// The numbers of a halt.
pub fn numbers_halted(why: Halt) -> HaltNumbers
    ensures { result ≡ numbers_halted why }
{
    let (kind, number, rsp_prod, status) = match why {
        Halt::Overrun { prod, rsp_prod } => (1, prod, rsp_prod, 0),
        Halt::Gone(state) => (2, state, 0, 0),
        Halt::Unplugged(state) => (3, state, 0, 0),
        Halt::BadKey(_) => (4, 0, 0, 0),
        Halt::BadOrder(state) => (5, state, 0, 0),
        Halt::BadPort(port) => (6, port, 0, 0),
        Halt::MapRefused { gref, status } => (7, gref, 0, status),
    };
    HaltNumbers {
        kind,
        number,
        rsp_prod,
        status,
    }
}

/// The name of the key that is missing or malformed; no bytes where the back halted for another reason.
pub fn key_of(why: Halt) -> KeyName
    ensures { result ≡ key_of why }
{
    match why {
        Halt::BadKey(key) => key,
        _ => KeyName::new(),
    }
}
