// The back's end of the negotiation.
ghost use Rattle.std.specs.Prelude.{◌≡◌, ◌≤◌, ◌&&◌};
ghost use Rattle.blk_base.specs.declared.ask.BackAnswer.{BackAnswer};
ghost use Rattle.xenbus_state.specs.declared.back.BackBusAsk.{BackBusAsk};
ghost use Rattle.xenbus_state.specs.Values.{back_value};
ghost use Rattle.xenbus_state.specs.BackView.{start_of, halted_of, is_halting, unplugged, halted, stopped};
ghost use Rattle.xenbus_state.specs.BackAsk.{says_closing, next_gref, unmap_ask, ask_at, ask_of, IsAnswer};
ghost use Rattle.xenbus_state.specs.BackStep.{step_of, halt_of};
ghost use Rattle.xenbus_state.specs.BackSound.{Rises, IsDue, IsSound};

mod reading;
mod steps;

use crate::keys::{BackKey, FrontKey};
use crate::offer::{DiskFacts, Features};
use crate::stage::BackBusStage;
use crate::state::BusState;
use crate::table::BackHalt;
use crate::values::{FrontTerms, KeyValue, back_value};
use arrayvec::ArrayVec;
use blk_base::{Abi, BackAnswer, Mapping};
use std::marker::Model;

/// What the back's end asks.
#[derive(Clone, Copy)]
pub enum BackBusAsk {
    /// Nothing is begun: answered by `Event` or `Watched`.
    Wait,
    /// Sets a watch on the front's state, answered by `Done`.
    Watch,
    /// Reads the front's state, answered by `Key`.
    GetState,
    /// Reads a key of the front, answered by `Key`.
    GetKey(FrontKey),
    /// Writes the back's state, answered by `Done`.
    SetState(BusState),
    /// Writes a key of the back, answered by `Done`.
    SetKey(BackKey, KeyValue),
    /// Maps the next page of the ring for reading and writing, by its reference, answered by
    /// `Mapped` or `MapRefused`.
    Map(u32),
    /// Binds the front's port, answered by `Done` or `BindRefused`.
    Bind(u32),
    /// Unmaps all mappings but those of the ring's pages, answered by `Done` once there is none.
    UnmapOthers,
    /// Unmaps a page of the ring, answered by `Done`.
    Unmap(Mapping),
    /// Closes the port, answered by `Done`.
    ClosePort,
}

/// The back's end of the negotiation, over any texts that it reads. It takes no memory. A new one is
/// made for each epoch.
#[derive(Drop)]
pub struct BackBus {
    features: Features,
    disk: DiskFacts,
    stage: BackBusStage,
    state: BusState,
    unplugged: bool,
    terms: FrontTerms,
    grefs: ArrayVec<u32, 16>,
    pages: ArrayVec<Mapping, 16>,
    bound: bool,
}

impl Model for BackBus {
    ghost use Rattle.xenbus_state.specs.BackView.{BackView};
    ghost use Rattle.xenbus_state.specs.BackInside.{view_of};
    ghost use Rattle.xenbus_state.specs.BackSound.{IsSound};

    ghost Value = { BackView };

    ghost view = { view_of };

    ghost invariant = { λ b. IsSound (view_of b) };
}

impl BackBus {
    /// An end that publishes what it offers first.
    pub fn new(features: Features, disk: DiskFacts) -> BackBus
        ensures { result ≡ start_of features disk }
    {
        BackBus {
            features,
            disk,
            stage: BackBusStage::Publish(BackKey::FeatureBarrier),
            state: BusState::Initialising,
            unplugged: false,
            terms: FrontTerms {
                abi: Abi::X64,
                order: 0,
                persistent: false,
                port: 0,
            },
            grefs: ArrayVec::new(),
            pages: ArrayVec::new(),
            bound: false,
        }
    }

    /// An end that has halted already: its front was closed or broken when the epoch began.
    pub fn halted(features: Features, disk: DiskFacts) -> BackBus
        ensures { result ≡ halted_of features disk }
    {
        let mut back = BackBus::new(features, disk);
        back.stage = BackBusStage::Halted;
        back.state = BusState::Closed;
        back
    }

    /// What it offers.
    pub fn features(&self) -> Features
        ensures { result ≡ self.now.features }
    {
        self.features
    }

    /// The disk as it publishes it.
    pub fn disk(&self) -> DiskFacts
        ensures { result ≡ self.now.disk }
    {
        self.disk
    }

    /// What is asked next. A state that is written is above the one that was written before; it is
    /// Connected where the ring is mapped and the port bound, and Closed where nothing is.
    pub fn ask(&self) -> BackBusAsk
        ensures value { result ≡ ask_of self.now }
        ensures rises { Rises self.now.state result }
        ensures sound { IsSound self.now }
        ensures due { IsDue self.now result }
    {
        // Opens the back, for what is true of it at every moment.
        let _ = &self.stage;
        if self.says_closing() {
            return BackBusAsk::SetState(BusState::Closing);
        }
        match self.stage {
            BackBusStage::Publish(key) => self.set(key),
            BackBusStage::WriteState(state) => BackBusAsk::SetState(state),
            BackBusStage::Watch => BackBusAsk::Watch,
            BackBusStage::Rest => BackBusAsk::Wait,
            BackBusStage::ReadState => BackBusAsk::GetState,
            BackBusStage::ReadKey(key) => BackBusAsk::GetKey(key),
            BackBusStage::MapPage => BackBusAsk::Map(self.next_gref()),
            BackBusStage::Bind => BackBusAsk::Bind(self.terms.port),
            BackBusStage::PublishFact(key) => self.set(key),
            BackBusStage::UnmapOthers => BackBusAsk::UnmapOthers,
            BackBusStage::UnmapPage => self.unmap(),
            BackBusStage::ClosePort => BackBusAsk::ClosePort,
            BackBusStage::Halted => BackBusAsk::Wait,
        }
    }

    /// Answers what is asked. The end halts exactly where it says why.
    pub fn tell(&mut self, answer: &BackAnswer) -> Option<BackHalt>
        requires { IsAnswer (ask_of self.old) answer.now }
        ensures completed { self.new ≡ step_of self.old answer.now }
        ensures halt { result ≡ halt_of self.old answer.now }
    {
        if self.says_closing() {
            self.state = BusState::Closing;
            return None;
        }
        self.step(answer)
    }

    /// The back is to close: it says so once it is connected, and serves on until the front is gone.
    /// On a halted back nothing happens.
    pub fn close(&mut self)
        ensures { self.new ≡ unplugged self.old }
    {
        if !self.is_halted() {
            self.unplugged = true;
        }
    }

    /// The back halts for a reason of its own. Where it has halted already, nothing happens.
    pub fn stop(&mut self)
        ensures { self.new ≡ stopped self.old }
    {
        if !self.is_halted() {
            self.stage = BackBusStage::UnmapOthers;
        }
    }
}

impl BackBus {
    /// The state that the back wrote last in this epoch, at first Initialising.
    pub fn state(&self) -> BusState
        ensures { result ≡ self.now.state }
    {
        self.state
    }

    /// Whether the back has halted.
    pub fn is_halted(&self) -> bool
        ensures { result ≡ is_halting self.now.stage }
    {
        match self.stage {
            BackBusStage::WriteState(state) => matches!(
                state,
                BusState::Closing | BusState::Closed
            ),
            BackBusStage::UnmapOthers
            | BackBusStage::UnmapPage
            | BackBusStage::ClosePort
            | BackBusStage::Halted => true,
            _ => false,
        }
    }

    /// What the front said, as read.
    pub fn terms(&self) -> FrontTerms
        ensures value { result ≡ self.now.terms }
        ensures within { result.order ≤ 4 }
    {
        self.terms
    }

    /// Whether both ends keep grants.
    pub fn keeps_grants(&self) -> bool
        ensures { result ≡ (self.now.features.persistent && self.now.terms.persistent) }
    {
        self.features.persistent && self.terms.persistent
    }

    /// The references of the ring's pages, in order, as far as they were read.
    pub fn grefs(&self) -> &[u32]
        ensures { result.now ≡ self.now.grefs }
    {
        self.grefs.as_slice()
    }

    /// The pages of the ring that are mapped, in order.
    pub fn pages(&self) -> &[Mapping]
        ensures { result.now ≡ self.now.pages }
    {
        self.pages.as_slice()
    }

    // What a key says.
    fn set(&self, key: BackKey) -> BackBusAsk
        ensures { result ≡ BackBusAsk.SetKey key (back_value self.now.features self.now.disk key) }
    {
        BackBusAsk::SetKey(key, back_value(&self.features, &self.disk, key))
    }

    // Whether the back says now that it closes.
    fn says_closing(&self) -> bool
        ensures { result ≡ says_closing self.now }
    {
        self.unplugged
            && self.state == BusState::Connected
            && matches!(self.stage, BackBusStage::Rest | BackBusStage::ReadState)
    }

    // The reference of the page that is mapped next.
    fn next_gref(&self) -> u32
        ensures { result ≡ next_gref self.now }
    {
        let next = self.grefs.as_slice().get(self.pages.len());
        next.copied().unwrap_or(0)
    }

    // Unmaps the first page of the ring that is still mapped.
    fn unmap(&self) -> BackBusAsk
        ensures { result ≡ unmap_ask self.now.pages }
    {
        match self.pages.as_slice().first() {
            Some(page) => BackBusAsk::Unmap(*page),
            None => BackBusAsk::Wait,
        }
    }
}
