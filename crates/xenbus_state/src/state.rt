// The states of both ends.
ghost use Rattle.std.specs.Prelude.{◌≡◌, decimal};
ghost use Rattle.xenbus_state.specs.States.{state_number, state_of, state_read};

use crate::numbers::read_number;
use crate::values::KeyValue;
use blk_base::{Lent, Text};

/// What an end's key `state` says (`enum xenbus_state` of `io/xenbus.h`).
#[derive(Clone, Copy, PartialEq, Eq)]
pub enum BusState {
    Unknown,
    Initialising,
    InitWait,
    Initialised,
    Connected,
    Closing,
    Closed,
    Reconfiguring,
    Reconfigured,
}

impl BusState {
    /// The state's number in the header, 0 to 8.
    pub fn number(self) -> u32
        ensures { result ≡ state_number self }
    {
        match self {
            BusState::Unknown => 0,
            BusState::Initialising => 1,
            BusState::InitWait => 2,
            BusState::Initialised => 3,
            BusState::Connected => 4,
            BusState::Closing => 5,
            BusState::Closed => 6,
            BusState::Reconfiguring => 7,
            BusState::Reconfigured => 8,
        }
    }

    /// The text of a state's key.
    pub fn text(self) -> Text
        ensures { result ≡ decimal (state_number self) }
    {
        KeyValue::Number(u64::from(self.number())).text()
    }

    /// The state of a number; `None` exactly above 8.
    pub fn of(number: u32) -> Option<BusState>
        ensures { result ≡ state_of number }
    {
        match number {
            0 => Some(BusState::Unknown),
            1 => Some(BusState::Initialising),
            2 => Some(BusState::InitWait),
            3 => Some(BusState::Initialised),
            4 => Some(BusState::Connected),
            5 => Some(BusState::Closing),
            6 => Some(BusState::Closed),
            7 => Some(BusState::Reconfiguring),
            8 => Some(BusState::Reconfigured),
            _ => None,
        }
    }
}

/// What the text of a key `state` says: an absent key counts as Unknown, and `None` comes exactly
/// where the text is no number or one above 8.
pub fn read_state(text: &Option<Lent<'_, Text>>) -> Option<BusState>
    ensures { result ≡ state_read text.now }
{
    match text {
        None => Some(BusState::Unknown),
        Some(text) => BusState::of(read_number(text.get())?),
    }
}
