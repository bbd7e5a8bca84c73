// The front's end of the negotiation.
ghost use Rattle.std.specs.Prelude.{◌≡◌, ◌≤◌, unwrap_or};
ghost use Rattle.blk_base.specs.declared.ask.FrontAnswer.{FrontAnswer};
ghost use Rattle.xenbus_state.specs.FrontView.{start_of, ring_order, pages_of, terms_of, suspended, closed, close_news, is_broken, keeps_grants};
ghost use Rattle.xenbus_state.specs.FrontAsk.{due, leaving, ask_at, ask_of, IsAnswer};
ghost use Rattle.xenbus_state.specs.FrontStep.{step_of, news_of};
ghost use Rattle.xenbus_state.specs.FrontSound.{Rises, IsPage, IsSound};

mod steps;

use crate::keys::{BackKey, FrontKey};
use crate::offer::{DiskFacts, Features};
use crate::stage::FrontBusStage;
use crate::state::BusState;
use crate::values::{FrontTerms, KeyValue, front_value};
use blk_base::{Abi, Config, FrontAnswer};
use std::marker::Model;

/// What the front's end asks. Pages of the ring count from 0.
#[derive(Clone, Copy)]
pub enum FrontBusAsk {
    /// Nothing is begun: answered by `Event` or `Watched`.
    Wait,
    /// Sets a watch on the back's state, answered by `Done`.
    Watch,
    /// Reads the back's state, answered by `Key`.
    GetState,
    /// Reads a key of the back, answered by `Key`.
    GetKey(BackKey),
    /// Writes the front's state, answered by `Done`.
    SetState(BusState),
    /// Writes a key of the front, answered by `Done`.
    SetKey(FrontKey, KeyValue),
    /// Writes this word of a fresh ring, 0 to 15, answered by `Done`.
    WriteRingWord(u32),
    /// Grants a page of the ring to the back, answered by `Done`.
    Grant(u32),
    /// Makes an event port for the back to bind, answered by `Port`.
    NewPort,
    /// Ends the grant of a page of the ring, answered by `Done`.
    EndGrant(u32),
    /// Ends all other grants that are in force, answered by `Done` once there is none.
    EndOtherGrants,
    /// Closes the port, answered by `Done`.
    ClosePort,
}

/// What the front tells of itself after an answer.
#[derive(Clone, Copy, PartialEq, Eq)]
pub enum FrontNews {
    /// Connected was written.
    Ready,
    /// The front is closing from now on.
    Closing,
    /// Closed was written.
    Closed,
    /// This word was met, which no honest back leaves. States count by their numbers, and a state
    /// or key that can't be read as 9.
    Broken(u32),
}

/// The front's end of the negotiation, over any texts that it reads. It takes no memory. Whether the
/// front is idle, that is, has no unfinished request, is said at each call.
#[derive(Drop)]
pub struct FrontBus {
    abi: Abi,
    order: u32,
    persistent: bool,
    stage: FrontBusStage,
    state: BusState,
    closing: bool,
    gone: bool,
    port: Option<u32>,
    features: Features,
    disk: DiskFacts,
}

impl Model for FrontBus {
    ghost use Rattle.xenbus_state.specs.FrontView.{FrontView};
    ghost use Rattle.xenbus_state.specs.FrontInside.{view_of};
    ghost use Rattle.xenbus_state.specs.FrontSound.{IsSound};

    ghost Value = { FrontView };

    ghost view = { view_of };

    ghost invariant = { λ f. IsSound (view_of f) };
}

impl FrontBus {
    /// An end that sets its watch first.
    pub fn new(config: &Config) -> FrontBus
        ensures { result ≡ start_of config.now }
    {
        FrontBus {
            abi: config.abi,
            order: config.order,
            persistent: config.persistent != 0,
            stage: FrontBusStage::Start,
            state: BusState::Initialising,
            closing: false,
            gone: false,
            port: None,
            features: Features::default(),
            disk: DiskFacts::default(),
        }
    }

    /// What is asked next. A state that is written is above the one that was written before.
    pub fn ask(&self, idle: bool) -> FrontBusAsk
        ensures value { result ≡ ask_of self.now idle }
        ensures rises { Rises self.now.state result }
        ensures sound { IsSound self.now }
        ensures page { IsPage self.now result }
    {
        match self.due(idle) {
            FrontBusStage::Start => FrontBusAsk::Watch,
            FrontBusStage::Rest => FrontBusAsk::Wait,
            FrontBusStage::ReadState => FrontBusAsk::GetState,
            FrontBusStage::ReadFeature(key) => FrontBusAsk::GetKey(key),
            FrontBusStage::RingWord(word) => FrontBusAsk::WriteRingWord(word),
            FrontBusStage::Grant(page) => FrontBusAsk::Grant(page),
            FrontBusStage::NewPort => FrontBusAsk::NewPort,
            FrontBusStage::Publish(key) => FrontBusAsk::SetKey(
                key,
                front_value(&self.terms(), key),
            ),
            FrontBusStage::ReadFact(key) => FrontBusAsk::GetKey(key),
            FrontBusStage::WriteState(state) => FrontBusAsk::SetState(state),
            FrontBusStage::EndGrant(page) => FrontBusAsk::EndGrant(page),
            FrontBusStage::EndOtherGrants => FrontBusAsk::EndOtherGrants,
            FrontBusStage::ClosePort => FrontBusAsk::ClosePort,
            FrontBusStage::Closed | FrontBusStage::Broken(_) => FrontBusAsk::Wait,
        }
    }

    /// Answers what is asked.
    pub fn tell(&mut self, idle: bool, answer: &FrontAnswer) -> Option<FrontNews>
        requires { IsAnswer (ask_of self.old idle) answer.now }
        ensures completed { self.new ≡ step_of self.old idle answer.now }
        ensures news { result ≡ news_of self.old idle answer.now }
    {
        self.stage = self.due(idle);
        self.step(idle, answer)
    }

    /// The front is closing from now on. Where it was closing, closed or broken, nothing happens.
    pub fn close(&mut self) -> Option<FrontNews>
        ensures closing { self.new ≡ closed self.old }
        ensures news { result ≡ close_news self.old }
    {
        if self.closing || self.is_broken() {
            return None;
        }
        self.closing = true;
        Some(FrontNews::Closing)
    }

    /// A new epoch begins: all is negotiated anew, unless the front is closed or broken.
    pub fn suspend(&mut self)
        ensures { self.new ≡ suspended self.old }
    {
        if matches!(self.stage, FrontBusStage::Closed | FrontBusStage::Broken(_)) {
            return;
        }
        self.stage = FrontBusStage::Start;
        self.state = BusState::Initialising;
        self.gone = false;
        self.port = None;
    }
}

impl FrontBus {
    /// The state that the front wrote last in this epoch, at first Initialising.
    pub fn state(&self) -> BusState
        ensures { result ≡ self.now.state }
    {
        self.state
    }

    /// Whether the front has begun to close.
    pub fn is_closing(&self) -> bool
        ensures { result ≡ self.now.closing }
    {
        self.closing
    }

    /// Whether the front met a word that no honest back leaves.
    pub fn is_broken(&self) -> bool
        ensures { result ≡ is_broken self.now.stage }
    {
        matches!(self.stage, FrontBusStage::Broken(_))
    }

    /// What the back offered, as last read.
    pub fn features(&self) -> Features
        ensures { result ≡ self.now.features }
    {
        self.features
    }

    /// What the disk is, as last read.
    pub fn disk(&self) -> DiskFacts
        ensures { result ≡ self.now.disk }
    {
        self.disk
    }

    /// The order of the ring, 0 to 4: the lesser of what the front wishes and what the back takes.
    pub fn ring_order(&self) -> u32
        ensures value { result ≡ ring_order self.now }
        ensures within { result ≤ 4 }
    {
        self.order.min(self.features.order)
    }

    /// Whether both ends keep grants.
    pub fn keeps_grants(&self) -> bool
        ensures { result ≡ keeps_grants self.now }
    {
        self.persistent && self.features.persistent
    }

    // What the front has to say.
    fn terms(&self) -> FrontTerms
        ensures { result ≡ terms_of self.now }
    {
        FrontTerms {
            abi: self.abi,
            order: self.ring_order(),
            persistent: self.persistent,
            port: self.port.unwrap_or(0),
        }
    }

    // The pages of the ring.
    fn pages(&self) -> u32
        ensures value { result ≡ pages_of self.now }
        ensures within { result ≤ 16 }
    {
        1 << self.ring_order()
    }

    // What is begun, or due where nothing is.
    fn due(&self, idle: bool) -> FrontBusStage
        ensures value { result ≡ due self.now idle }
        ensures sound { IsSound (record self.now { stage = result }) }
    {
        if !matches!(self.stage, FrontBusStage::Rest) || !self.closing || !idle {
            return self.stage;
        }
        if self.state != BusState::Closing {
            return FrontBusStage::WriteState(BusState::Closing);
        }
        match (self.gone, self.port) {
            (false, _) => FrontBusStage::Rest,
            (true, Some(_)) => FrontBusStage::EndGrant(0),
            (true, None) => FrontBusStage::EndOtherGrants,
        }
    }
}
