// What a call says of itself.
ghost use Rattle.std.specs.Prelude.{◌≡◌};
ghost use Rattle.vbd_c.specs.Status.{refusal_code, code_of};

use blk_base::Refusal;

/// What became of a call. But for `Done` and `Told` it changed nothing.
#[derive(Clone, Copy)]
pub enum Status {
    Done,
    /// It is done, and the move told something, which is to be taken before the next answer.
    Told,
    /// The ask doesn't allow this answer.
    NotAllowed,
    /// What the last move told wasn't taken yet.
    Untold,
    /// The handle has no end.
    Empty,
    /// The handle has an end already.
    InUse,
    /// There is not enough memory.
    NoMemory,
    /// An option is out of range, a text is too long or no UTF-8, or numbers say no submission.
    OutOfRange,
    /// The front refuses a submission.
    Refused(Refusal),
}

impl Status {
    /// The number that C reads, 0 to 16.
    pub fn code(self) -> u32
        ensures { result ≡ code_of self }
    {
        match self {
            Status::Done => 0,
            Status::Told => 1,
            Status::NotAllowed => 2,
            Status::Untold => 3,
            Status::Empty => 4,
            Status::InUse => 5,
            Status::NoMemory => 6,
            Status::OutOfRange => 7,
            Status::Refused(why) => refusal_code(why),
        }
    }
}

// The numbers of refusals come behind those of the others, by the order of `Refusal`.
fn refusal_code(why: Refusal) -> u32
    ensures { result ≡ refusal_code why }
{
    match why {
        Refusal::Spent => 8,
        Refusal::NotReady => 9,
        Refusal::Closing => 10,
        Refusal::Unsupported => 11,
        Refusal::ReadOnly => 12,
        Refusal::Range => 13,
        Refusal::Long => 14,
        Refusal::Full => 15,
        Refusal::Buffers => 16,
    }
}
