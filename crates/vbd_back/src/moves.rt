// What an answer makes of the negotiation and of the end of the ring.
ghost use Rattle.std.specs.Prelude.{◌≡◌, None, true, false};
ghost use Rattle.blk_back.specs.Ask.{ask_of as ring_ask_of, IsAnswer as IsRingAnswer};
ghost use Rattle.xenbus_state.specs.BackAsk.{ask_of as bus_ask, IsAnswer as IsBusAnswer};
ghost use Rattle.vbd_back.specs.View.{both};
ghost use Rattle.vbd_back.specs.Ask.{ask_of, bus_ask_of, IsAnswer, ring_moves};
ghost use Rattle.vbd_back.specs.Turn.{turn_of};
ghost use Rattle.vbd_back.specs.Step.{ring_halt, IsHeard, followed, waited, settled, caught_up};
ghost use Rattle.vbd_back.specs.Keeping.{ring_told, spoken_keeping, ring_step_keeping, step_keeping_at};

use crate::turn::Turn;
use blk_back::{Back, BackStage};
use blk_base::{BackAnswer, Endpoint, Halt, ShortText};
use xenbus_state::{BackBus, BackBusAsk, BackHalt, FrontKey};

/// Answers what is asked, whosever turn it is, of a backend that is to keep so many mappings at most.
pub fn tell(turn: Turn, ring: &mut Back, bus: &mut BackBus, most: u32, answer: &BackAnswer)
    requires turn { turn ≡ turn_of (both ring.old bus.old) }
    requires kind { IsAnswer (ask_of (both ring.old bus.old)) answer.now }
    requires heard { ring.old.told ≡ None }
    ensures stepped { both ring.new bus.new ≡ step_keeping_at most (bus_ask_of (both ring.old bus.old)) (both ring.old bus.old) answer.now }
{
    match turn {
        Turn::Keys => take_key(ring, bus, most, answer),
        _ if ring_moves(ring, bus) => move_ring(ring, bus, answer),
        _ => wake(bus, answer),
    }
}

/// Whether the ring's end has the move, where the negotiation leaves it.
pub fn ring_moves(ring: &Back, bus: &BackBus) -> bool
    ensures { result ≡ ring_moves (bus_ask bus.now) ring.now.stage }
{
    match (bus.ask(), ring.stage()) {
        (BackBusAsk::Map(_), stage) => matches!(stage, BackStage::MapRing),
        (BackBusAsk::Bind(_), stage) => matches!(stage, BackStage::Bind),
        (BackBusAsk::UnmapOthers, stage) => matches!(stage, BackStage::Abort(_)),
        (BackBusAsk::Unmap(_), stage) => matches!(
            stage,
            BackStage::UnmapRing | BackStage::UnmapUnbound
        ),
        (BackBusAsk::ClosePort, stage) => matches!(stage, BackStage::ClosePort),
        (_, stage) => !matches!(
            stage,
            BackStage::InitWait | BackStage::MapRing | BackStage::Bind
        ),
    }
}

// The negotiation was answered: where it halts, so does the ring's end, and else that is told what was
// read.
fn take_key(ring: &mut Back, bus: &mut BackBus, most: u32, answer: &BackAnswer)
    requires kind { IsBusAnswer (bus_ask bus.old) answer.now }
    ensures spoken { both ring.new bus.new ≡ spoken_keeping most (both ring.old bus.old) answer.now }
{
    let ask = bus.ask();
    match bus.tell(answer) {
        Some(why) => ring.halt(ring_halt(why)),
        None => tell_ring(ring, bus, most, &ask),
    }
    settle(bus, ring.stage());
}

// What the ring's end is told where the negotiation was answered this: the terms of the front with the
// layout, and how many mappings it may keep with whether the front keeps grants.
fn tell_ring(ring: &mut Back, bus: &BackBus, most: u32, ask: &BackBusAsk)
    ensures { ring.new ≡ ring_told most ask.now bus.now ring.old }
{
    match ask {
        BackBusAsk::GetKey(FrontKey::Protocol) => {
            let terms = bus.terms();
            ring.attach(terms.abi, terms.order, bus.grefs(), terms.port);
        }
        BackBusAsk::GetKey(FrontKey::FeaturePersistent) => {
            if bus.keeps_grants() {
                ring.keep_at_most(most);
            }
        }
        _ => {}
    }
}

/// Why the ring's end halts where the negotiation does.
pub fn ring_halt(why: BackHalt) -> Halt
    ensures { result ≡ ring_halt why }
{
    match why {
        BackHalt::Gone(state) => Halt::Gone(state.number()),
        BackHalt::Unplugged(state) => Halt::Unplugged(state.number()),
        BackHalt::BadState => Halt::BadKey(ShortText::of("state")),
        BackHalt::BadKey(key) => Halt::BadKey(key.name()),
        BackHalt::BadOrder(state) => Halt::BadOrder(state.number()),
        BackHalt::BadPort(port) => Halt::BadPort(port),
        BackHalt::MapRefused { gref, status } => Halt::MapRefused { gref, status },
    }
}

// The ring's end has moved. The negotiation learns it where it asked for what is done now, or where a
// watch was taken.
#[tactic(auto, using(crate::proofs::Turns::heard))]
fn move_ring(ring: &mut Back, bus: &mut BackBus, answer: &BackAnswer)
    requires moves { ring_moves (bus_ask bus.old) ring.old.stage ≡ true }
    requires kind { IsRingAnswer (ring_ask_of ring.old) answer.now }
    requires heard { ring.old.told ≡ None }
    ensures stepped { both ring.new bus.new ≡ ring_step_keeping true (bus_ask bus.old) (both ring.old bus.old) answer.now }
{
    let _ = ring.tell(answer);
    follow(bus, answer);
    catch_up(ring, bus);
}

// What the negotiation learns of a move of the ring's end.
fn follow(bus: &mut BackBus, answer: &BackAnswer)
    requires { IsHeard (bus_ask bus.old) answer.now }
    ensures { bus.new ≡ followed (bus_ask bus.old) bus.old answer.now }
{
    match bus.ask() {
        BackBusAsk::Map(_) | BackBusAsk::Bind(_) | BackBusAsk::ClosePort => {
            let _ = bus.tell(answer);
        }
        BackBusAsk::Unmap(_) => {
            let _ = bus.tell(&BackAnswer::Done);
        }
        _ => wake(bus, answer),
    }
}

// A waiting negotiation takes its watch.
fn wake(bus: &mut BackBus, answer: &BackAnswer)
    ensures { bus.new ≡ waited (bus_ask bus.old) bus.old answer.now }
{
    if let (BackBusAsk::Wait, BackAnswer::Watched(_)) = (bus.ask(), answer) {
        let _ = bus.tell(answer);
    }
}

/// Where the ring's end has halted, so does the negotiation.
pub fn catch_up(ring: &Back, bus: &mut BackBus)
    ensures { bus.new ≡ caught_up ring.now bus.old }
{
    if ring.halted().is_some() {
        bus.stop();
    }
    settle(bus, ring.stage());
}

// A negotiation that has all other mappings unmapped goes on where there is none.
#[tactic(auto, using(crate::proofs::Settling::settled_asked))]
fn settle(bus: &mut BackBus, stage: BackStage)
    ensures { bus.new ≡ settled stage bus.old }
{
    match (bus.ask(), stage) {
        (BackBusAsk::UnmapOthers, BackStage::Abort(_)) => {}
        (BackBusAsk::UnmapOthers, _) => {
            let _ = bus.tell(&BackAnswer::Done);
        }
        _ => {}
    }
}
