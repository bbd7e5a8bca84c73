// What every end of a ring is.
ghost use Rattle.std.specs.Prelude.{◌≡◌, IsOk};

use std::alloc::{AllocError, AllocFailed};
use std::error::Error;
use std::fmt;

/// There is not enough memory. It is never given for another reason.
#[derive(Clone, Copy, Debug, PartialEq, Eq)]
pub struct OutOfMemory;

impl fmt::Display for OutOfMemory {
    fn fmt<W: fmt::Write>(&self, f: &mut fmt::Formatter<W>) -> fmt::Result {
        write!(f, "out of memory")
    }
}

impl Error for OutOfMemory {}

impl From<AllocError> for OutOfMemory {
    fn from(_e: AllocError) -> OutOfMemory {
        OutOfMemory
    }
}

impl<T: Drop> From<AllocFailed<T>> for OutOfMemory {
    fn from(_e: AllocFailed<T>) -> OutOfMemory {
        OutOfMemory
    }
}

/// An end of a ring, moved one step at a time: it asks for one thing (a shared word, a hypercall, a
/// key, an event or a call of the disk), and is told what became of that. What it asks may borrow from it.
pub trait Endpoint<'a> {
    type Ask;

    type Answer;

    /// What an end asks: a function of its value alone.
    ghost asked: { Self → Self.Ask };

    /// What it may be told now.
    ghost MayTell: { Self → Self.Answer → Type 0 };

    /// What the end asks next. It changes nothing.
    fn ask(&'a self) -> Self::Ask
        ensures { result ≡ asked self.now };

    /// Tells the end what became of its ask. That takes no memory, so none is missing.
    fn tell(&mut self, answer: &Self::Answer) -> Result<(), OutOfMemory>
        requires { MayTell self.old answer.now }
        ensures takes_no_memory { IsOk result };
}
