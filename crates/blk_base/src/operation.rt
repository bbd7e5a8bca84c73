// What a request may ask for, and how it may end.
ghost use Rattle.std.specs.Prelude.{◌≡◌, ◌≢◌, IfSome, IfNone};
ghost use Rattle.blk_base.specs.Operation.{op_code, status_code};

/// The layout of a ring's entries, by the guest's processor mode (`BLKIF` protocols
/// `x86_64-abi` and `x86_32-abi`).
#[derive(Clone, Copy, PartialEq, Eq)]
pub enum Abi {
    X64,
    X32,
}

/// An operation that `io/blkif.h` names (`BLKIF_OP_*`); number 4 is reserved there.
#[derive(Clone, Copy, PartialEq, Eq)]
pub enum Op {
    Read,
    Write,
    Barrier,
    Flush,
    Discard,
    Indirect,
}

/// How a request ended (`BLKIF_RSP_*` of `io/blkif.h`).
#[derive(Clone, Copy, PartialEq, Eq)]
pub enum Status {
    Okay,
    Error,
    Unsupported,
}

impl Op {
    /// The operation's number, 0 to 6.
    pub fn code(self) -> u8
        ensures { result ≡ op_code self }
    {
        match self {
            Op::Read => 0,
            Op::Write => 1,
            Op::Barrier => 2,
            Op::Flush => 3,
            Op::Discard => 5,
            Op::Indirect => 6,
        }
    }

    /// The operation of a number; `None` exactly where no operation has it.
    pub fn from_code(code: u8) -> Option<Op>
        ensures known { IfSome result (λ op. op_code op ≡ code) }
        ensures unknown { IfNone result ((op : Op) → op_code op ≢ code) }
    {
        match code {
            0 => Some(Op::Read),
            1 => Some(Op::Write),
            2 => Some(Op::Barrier),
            3 => Some(Op::Flush),
            5 => Some(Op::Discard),
            6 => Some(Op::Indirect),
            _ => None,
        }
    }
}

impl Status {
    /// The status's number, 0, -1 or -2.
    pub fn code(self) -> i16
        ensures { result ≡ status_code self }
    {
        match self {
            Status::Okay => 0,
            Status::Error => -1,
            Status::Unsupported => -2,
        }
    }

    /// The status of a number; `None` exactly where no status has it.
    pub fn from_code(code: i16) -> Option<Status>
        ensures known { IfSome result (λ status. status_code status ≡ code) }
        ensures unknown { IfNone result ((status : Status) → status_code status ≢ code) }
    {
        match code {
            0 => Some(Status::Okay),
            -1 => Some(Status::Error),
            -2 => Some(Status::Unsupported),
            _ => None,
        }
    }
}
