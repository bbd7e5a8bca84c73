// Whose turn it is at the front.
ghost use Rattle.std.specs.Prelude.{◌≡◌};
ghost use Rattle.blk_front.specs.Submit.{is_connected};
ghost use Rattle.vbd_front.specs.Turn.{turn_at};

use blk_front::Front;
use xenbus_state::{FrontBus, FrontBusAsk};

/// Whose turn it is.
#[derive(Clone, Copy)]
pub enum Turn {
    /// The negotiation's, which asks for a key or a watch.
    Keys,
    /// The ring's end has the move: the ring is made, and the negotiation neither asks for anything
    /// nor closes, so that no move of the ring's end but one that takes a watch changes that.
    Ring,
    /// Either's, as it is found at each move.
    Either,
}

/// Whose turn it is where the negotiation asks for this.
pub fn turn_of(ask: &FrontBusAsk, bus: &FrontBus, ring: &Front) -> Turn
    ensures { result ≡ turn_at ask.now bus.now.closing (is_connected ring.now.stage) }
{
    match ask {
        FrontBusAsk::Watch
        | FrontBusAsk::GetState
        | FrontBusAsk::GetKey(_)
        | FrontBusAsk::SetState(_)
        | FrontBusAsk::SetKey(_, _) => Turn::Keys,
        FrontBusAsk::Wait if !bus.is_closing() && ring.is_connected() => Turn::Ring,
        _ => Turn::Either,
    }
}
