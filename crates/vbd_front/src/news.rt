// What passes between the negotiation and the end of the ring.
ghost use Rattle.std.specs.Prelude.{◌≡◌};
ghost use Rattle.xenbus_state.specs.FrontAsk.{ask_of, IsAnswer};
ghost use Rattle.xenbus_state.specs.FrontStep.{news_of};
ghost use Rattle.xenbus_state.specs.FrontView.{ring_order};
ghost use Rattle.vbd_front.specs.Step.{bus_told, state_of_news, states_entered, all_entered, news_told, followed, waited, IsHeard};
ghost use Rattle.vbd_front.specs.Keep.{offers_as, followed_as};

use blk_base::FrontAnswer;
use blk_front::{Front, FrontStage, FrontState, Offers};
use xenbus_state::{FrontBus, FrontBusAsk, FrontNews};

/// Answers what the negotiation asks, and says that there are no grants to end beside those
/// of the ring; what that makes happen.
pub fn tell(bus: &mut FrontBus, idle: bool, answer: &FrontAnswer) -> Option<FrontNews>
    requires { IsAnswer (ask_of bus.old idle) answer.now }
    ensures told { bus.new ≡ bus_told idle bus.old answer.now }
    ensures news { result ≡ news_of bus.old idle answer.now }
{
    let news = bus.tell(idle, answer);
    if let FrontBusAsk::EndOtherGrants = bus.ask(idle) {
        let _ = bus.tell(idle, &FrontAnswer::Done);
    }
    news
}

/// The disk's sectors and whether it is read-only, what the back serves beside reads and writes, and
/// how many segments it takes in indirect pages, as the negotiation read it; and whether grants are kept,
/// by a front that is to keep them.
pub fn offers(bus: &FrontBus, keeps: bool) -> Offers
    ensures { result ≡ offers_as keeps bus.now }
{
    let disk = bus.disk();
    let features = bus.features();
    Offers {
        sectors: disk.sectors,
        read_only: disk.read_only,
        barrier: features.barrier,
        flush: features.flush,
        discard: features.discard,
        indirect: features.indirect,
        persistent: keeps && bus.keeps_grants(),
    }
}

/// The ring's end enters the state that the negotiation comes to, with what it read of the back; where
/// the negotiation has the ring made next the order is agreed, and where it ends the ring's grants next
/// the ring's end leaves. What of it is to be told.
pub fn enter(
    ring: &mut Front,
    news: Option<FrontNews>,
    next: &FrontBusAsk,
    bus: &FrontBus,
    offers: Offers,
) -> Option<FrontNews>
    ensures ring { ring.new ≡ all_entered (states_entered offers news next.now (ring_order bus.now)) ring.old }
    ensures told { result ≡ news_told offers news ring.old }
{
    let told = match news {
        Some(news) if ring.enter(state_of(offers, news)) => Some(news),
        _ => None,
    };
    match next {
        FrontBusAsk::WriteRingWord(_) => {
            ring.enter(FrontState::Agreed(bus.ring_order()));
        }
        FrontBusAsk::EndGrant(_) => {
            ring.enter(FrontState::Leaving);
        }
        _ => {}
    }
    told
}

/// The state that the ring's end enters where this happens.
pub fn state_of(offers: Offers, news: FrontNews) -> FrontState
    ensures { result ≡ state_of_news offers news }
{
    match news {
        FrontNews::Ready => FrontState::Connected(offers),
        FrontNews::Closing => FrontState::Closing,
        FrontNews::Closed => FrontState::Closed,
        FrontNews::Broken(word) => FrontState::Broken(word),
    }
}

/// The ring's end has moved from the first of these stages to the second. A front that keeps grants ends
/// them after the ring's, and the negotiation learns once the last of them is ended.
pub fn follow(
    bus: &mut FrontBus,
    idle: bool,
    keeps: bool,
    stages: (FrontStage, FrontStage),
    answer: &FrontAnswer,
)
    requires { IsHeard (ask_of bus.old idle) answer.now }
    ensures { bus.new ≡ followed_as (ask_of bus.old idle) stages.0 keeps stages.1 idle bus.old answer.now }
{
    match (bus.ask(idle), stages.0, keeps, stages.1) {
        (FrontBusAsk::EndGrant(_), FrontStage::RingEnd(..), true, FrontStage::KeptRead(_))
        | (FrontBusAsk::EndOtherGrants, FrontStage::KeptEnd(..), true, FrontStage::ClosePort) => {
            let _ = bus.tell(idle, &FrontAnswer::Done);
        }
        (_, _, _, later) => learn(bus, idle, later, answer),
    }
}

// The ring's end has moved to this stage. The negotiation learns it where it asked for what is done
// now, or where a watch was taken and the ring isn't broken.
fn learn(bus: &mut FrontBus, idle: bool, later: FrontStage, answer: &FrontAnswer)
    requires { IsHeard (ask_of bus.old idle) answer.now }
    ensures { bus.new ≡ followed (ask_of bus.old idle) later idle bus.old answer.now }
{
    match (bus.ask(idle), later) {
        (FrontBusAsk::WriteRingWord(_) | FrontBusAsk::NewPort | FrontBusAsk::ClosePort, _)
        | (FrontBusAsk::Grant(_), FrontStage::RingFrame(_) | FrontStage::NewPort) => {
            tell(bus, idle, answer);
        }
        (FrontBusAsk::EndGrant(_), FrontStage::RingRead(_) | FrontStage::ClosePort) => {
            tell(bus, idle, &FrontAnswer::Done);
        }
        (FrontBusAsk::Wait, FrontStage::Broken(_)) => {}
        (FrontBusAsk::Wait, _) => wake(bus, idle, answer),
        _ => {}
    }
}

/// A waiting negotiation takes its watch.
pub fn wake(bus: &mut FrontBus, idle: bool, answer: &FrontAnswer)
    ensures { bus.new ≡ waited (ask_of bus.old idle) idle bus.old answer.now }
{
    if let (FrontBusAsk::Wait, FrontAnswer::Watched(_)) = (bus.ask(idle), answer) {
        tell(bus, idle, answer);
    }
}
