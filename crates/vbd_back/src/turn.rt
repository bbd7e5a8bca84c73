// Whose turn it is at the back.
ghost use Rattle.std.specs.Prelude.{◌≡◌};
ghost use Rattle.xenbus_state.specs.BackAsk.{ask_of};
ghost use Rattle.vbd_back.specs.Ask.{speaks, is_between, bus_moves};
ghost use Rattle.vbd_back.specs.Turn.{turn_at};

use blk_back::{Back, BackStage};
use xenbus_state::{BackBus, BackBusAsk};

/// Whose turn it is.
#[derive(Clone, Copy)]
pub enum Turn {
    /// The negotiation's, which asks for a key or a watch, between two steps of the ring's end.
    Keys,
    /// The ring's end has the move: its port is bound, and the negotiation asks for nothing, so that
    /// no move of the ring's end but one that takes a watch or halts it changes that.
    Ring,
    /// Either's, as it is found at each move.
    Either,
}

/// Whose turn it is.
pub fn turn_of(bus: &BackBus, ring: &Back) -> Turn
    ensures { result ≡ turn_at (ask_of bus.now) ring.now.stage }
{
    let ask = bus.ask();
    if bus_moves(&ask, ring.stage()) {
        return Turn::Keys;
    }
    match (ask, ring.stage()) {
        (BackBusAsk::Wait, BackStage::InitWait | BackStage::MapRing | BackStage::Bind) =>
            Turn::Either,
        (BackBusAsk::Wait, _) => Turn::Ring,
        _ => Turn::Either,
    }
}

// Whether the negotiation has the move where it asks for this.
fn bus_moves(ask: &BackBusAsk, stage: BackStage) -> bool
    ensures { result ≡ bus_moves ask.now stage }
{
    speaks(ask) && is_between(stage)
}

// Whether a key or a watch is asked for.
fn speaks(ask: &BackBusAsk) -> bool
    ensures { result ≡ speaks ask.now }
{
    matches!(
        ask,
        BackBusAsk::Watch
            | BackBusAsk::GetState
            | BackBusAsk::GetKey(_)
            | BackBusAsk::SetState(_)
            | BackBusAsk::SetKey(..)
    )
}

// Whether the ring's end is between two entries and two replies.
fn is_between(stage: BackStage) -> bool
    ensures { result ≡ is_between stage }
{
    !matches!(
        stage,
        BackStage::Fetch(_)
            | BackStage::ReplyHigh(_)
            | BackStage::ReplyLast(_)
            | BackStage::Producer(_)
            | BackStage::ProducerFence(_)
            | BackStage::ResponseEvent(_)
            | BackStage::Send
    )
}
