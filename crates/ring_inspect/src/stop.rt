// Why an inspection stops.
ghost use Rattle.std.specs.Prelude.{◌≡◌};

use std::alloc::AllocError;
use std::error::Error;
use std::fmt;

/// Why a ring wasn't shown whole.
#[derive(Clone, Copy, Debug, PartialEq, Eq)]
pub enum InspectStop {
    /// The source had this many bytes, and not as many as the ring has; more than one too many
    /// count as one too many. Nothing was written.
    Length(u64),
    /// The source failed. Nothing was written.
    Source,
    /// The sink failed. A beginning of the text may have been written.
    Sink,
    /// There was no memory for the ring's bytes. Nothing was written.
    OutOfMemory,
}

impl fmt::Display for InspectStop {
    fn fmt<W: fmt::Write>(&self, f: &mut fmt::Formatter<W>) -> fmt::Result {
        match self {
            InspectStop::Length(count) => write!(f, "{count} bytes"),
            InspectStop::Source => write!(f, "the input failed"),
            InspectStop::Sink => write!(f, "the output failed"),
            InspectStop::OutOfMemory => write!(f, "out of memory"),
        }
    }
}

impl Error for InspectStop {}

impl From<AllocError> for InspectStop {
    ghost use Rattle.ring_inspect.specs.declared.stop.InspectStop.TheVariants.{OutOfMemory};

    ghost from_gives = { λ _ stop. stop ≡ OutOfMemory };

    fn from(_e: AllocError) -> InspectStop {
        InspectStop::OutOfMemory
    }
}
