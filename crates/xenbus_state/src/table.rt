// What each end does on reading the other's state.
ghost use Rattle.std.specs.Prelude.{◌≡◌};
ghost use Rattle.xenbus_state.specs.Tables.{front_action, back_action, is_connected, SuitsFront, SuitsBack};

use crate::keys::FrontKey;
use crate::state::BusState;

/// What the front does on reading the back's state.
#[derive(Clone, Copy, PartialEq, Eq)]
pub enum FrontAction {
    Nothing,
    /// Reads the back's features, makes the ring, publishes it, and is Initialised.
    Publish,
    /// Reads the disk's facts, and is Connected.
    Connect,
    /// Is closing from now on.
    Close,
    /// Is closing from now on, and connects for its unfinished requests.
    CloseAndConnect,
    /// Is closing from now on, and need not wait for the back any more.
    Leave,
    /// Is broken, with this word.
    Break(u32),
}

/// Why the back halts by what it reads of the front. States are the front's.
#[derive(Clone, Copy, PartialEq, Eq)]
pub enum BackHalt {
    /// The front is gone.
    Gone(BusState),
    /// The front is gone after the back was asked to close.
    Unplugged(BusState),
    /// The front's key `state` says no state.
    BadState,
    /// This key is missing or malformed.
    BadKey(FrontKey),
    /// A state that may not come now.
    BadOrder(BusState),
    /// This port can't be bound.
    BadPort(u32),
    /// A page of the ring can't be mapped: the reference and the status (`GNTST_*`).
    MapRefused { gref: u32, status: i32 },
}

/// What the back does on reading the front's state.
#[derive(Clone, Copy, PartialEq, Eq)]
pub enum BackAction {
    Nothing,
    /// Reads the front's keys, maps the ring, binds the port, and is Connected.
    Connect,
    Halt(BackHalt),
}

/// What a front whose own state is `own` does on reading `back`, where `None` is a text that says
/// no state. `closing`: it began to close. `idle`: no request is unfinished.
pub fn front_action(own: BusState, closing: bool, idle: bool, back: Option<BusState>) -> FrontAction
    ensures value { result ≡ front_action own closing idle back }
    ensures suits { SuitsFront own result }
{
    let negotiates = !(closing && idle);
    match (back, own) {
        (None, _) => FrontAction::Break(9),
        (Some(BusState::InitWait), BusState::Initialising) if negotiates => FrontAction::Publish,
        (Some(BusState::Connected), BusState::Initialised) if negotiates => FrontAction::Connect,
        (Some(BusState::Closing), BusState::Initialised) if !idle => FrontAction::CloseAndConnect,
        (Some(BusState::Closing), _) => FrontAction::Close,
        (Some(BusState::Closed | BusState::Unknown), _) if idle => FrontAction::Leave,
        (Some(state @ (BusState::Closed | BusState::Unknown)), _) => FrontAction::Break(
            state.number(),
        ),
        _ => FrontAction::Nothing,
    }
}

/// Whether a back whose own state is this one was connected in this epoch: it is Closing after
/// that where it was asked to close.
pub fn is_connected(own: BusState) -> bool
    ensures { result ≡ is_connected own }
{
    matches!(own, BusState::Connected | BusState::Closing)
}

/// What a back whose own state is `own` does on reading `front`, where `None` is a text that says no
/// state. `unplugged`: it was asked to close.
pub fn back_action(own: BusState, unplugged: bool, front: Option<BusState>) -> BackAction
    ensures value { result ≡ back_action own unplugged front }
    ensures suits { SuitsBack own result }
{
    let Some(state) = front else {
        return BackAction::Halt(BackHalt::BadState);
    };
    match state {
        BusState::InitWait | BusState::Reconfiguring | BusState::Reconfigured => {
            BackAction::Halt(BackHalt::BadOrder(state))
        }
        BusState::Initialising if is_connected(own) => BackAction::Halt(BackHalt::BadOrder(state)),
        BusState::Initialising => BackAction::Nothing,
        BusState::Initialised | BusState::Connected if is_connected(own) => BackAction::Nothing,
        BusState::Initialised | BusState::Connected => BackAction::Connect,
        _ if unplugged => BackAction::Halt(BackHalt::Unplugged(state)),
        _ => BackAction::Halt(BackHalt::Gone(state)),
    }
}
