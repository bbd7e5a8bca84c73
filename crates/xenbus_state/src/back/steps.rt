// What the back's end makes of each answer.
ghost use Rattle.std.specs.Prelude.{◌≡◌, ◌<◌, Some};
ghost use Rattle.blk_base.specs.declared.ask.BackAnswer.{BackAnswer};
ghost use Rattle.xenbus_state.specs.declared.stage.BackBusStage.TheVariants as stage;
ghost use Rattle.xenbus_state.specs.States.{state_number};
ghost use Rattle.xenbus_state.specs.Tables.{SuitsBack};
ghost use Rattle.xenbus_state.specs.BackView.{halted};
ghost use Rattle.xenbus_state.specs.BackAsk.{ask_at, IsAnswer, next_gref};
ghost use Rattle.xenbus_state.specs.BackReading.{key_read};
ghost use Rattle.xenbus_state.specs.BackStep.{step_at, halt_at, acted, action_halt, kept_or_halted, key_halt, mapped, after_state, unmapping_next, other_pages, last_state};

use super::BackBus;
use crate::keys::{BackKey, FrontKey};
use crate::programs::{next_fact, next_feature};
use crate::stage::BackBusStage;
use crate::state::{BusState, read_state};
use crate::table::{BackAction, BackHalt, back_action};
use blk_base::{BackAnswer, Lent, Mapping, Text};

impl BackBus {
    #[tactic(auto, using(crate::proofs::Early::resting_early))]
    // What an answer makes of what is being done.
    pub(super) fn step(&mut self, answer: &BackAnswer) -> Option<BackHalt>
        requires { IsAnswer (ask_at self.old.stage self.old) answer.now }
        ensures completed { self.new ≡ step_at self.old.stage self.old answer.now }
        ensures halt { result ≡ halt_at self.old.stage self.old answer.now }
    {
        match (self.stage, answer) {
            (BackBusStage::ReadState, BackAnswer::Key(text)) => {
                self.act(back_action(self.state, self.unplugged, read_state(text)))
            }
            (BackBusStage::ReadKey(key), BackAnswer::Key(text)) => self.take_key(key, text),
            (BackBusStage::MapPage, BackAnswer::MapRefused(status)) => {
                let gref = self.next_gref();
                self.halt(BackHalt::MapRefused {
                    gref,
                    status: *status,
                })
            }
            (BackBusStage::Bind, BackAnswer::BindRefused) => {
                self.halt(BackHalt::BadPort(self.terms.port))
            }
            (BackBusStage::Rest, BackAnswer::Watched(_)) => {
                self.stage = BackBusStage::ReadState;
                None
            }
            (BackBusStage::MapPage, BackAnswer::Mapped(page)) => {
                self.mapped(*page);
                None
            }
            (_, BackAnswer::Done) => {
                self.done();
                None
            }
            _ => None,
        }
    }

    // What was asked was done.
    fn done(&mut self)
        requires { IsAnswer (ask_at self.old.stage self.old) BackAnswer.Done }
        ensures { self.new ≡ step_at self.old.stage self.old BackAnswer.Done }
    {
        match self.stage {
            BackBusStage::Publish(key) => {
                self.stage = match next_feature(key) {
                    Some(key) => BackBusStage::Publish(key),
                    None => BackBusStage::WriteState(BusState::InitWait),
                }
            }
            BackBusStage::WriteState(state) => self.wrote(state),
            BackBusStage::Watch => self.stage = BackBusStage::Rest,
            BackBusStage::Bind => {
                self.bound = true;
                self.stage = BackBusStage::PublishFact(BackKey::Sectors);
            }
            BackBusStage::PublishFact(key) => {
                self.stage = match next_fact(key) {
                    Some(key) => BackBusStage::PublishFact(key),
                    None => BackBusStage::WriteState(BusState::Connected),
                }
            }
            BackBusStage::UnmapOthers => {
                self.stage = unmapping_next(self.pages.as_slice(), self.bound, self.state);
            }
            BackBusStage::UnmapPage => self.unmapped(),
            BackBusStage::ClosePort => {
                self.bound = false;
                self.stage = BackBusStage::WriteState(last_state(self.state));
            }
            _ => {}
        }
    }

    // The front's state was read, and this is to be done.
    fn act(&mut self, action: BackAction) -> Option<BackHalt>
        requires stage { self.old.stage ≡ stage.ReadState }
        requires suits { SuitsBack self.old.state action }
        requires early { state_number self.old.state < 6 }
        ensures completed { self.new ≡ acted action self.old }
        ensures halt { result ≡ action_halt action }
    {
        match action {
            BackAction::Nothing => self.stage = BackBusStage::Rest,
            BackAction::Connect => self.stage = BackBusStage::ReadKey(FrontKey::RingPageOrder),
            BackAction::Halt(reason) => return self.halt(reason),
        }
        None
    }

    // A key of the front was read.
    fn take_key(&mut self, key: FrontKey, text: &Option<Lent<'_, Text>>) -> Option<BackHalt>
        requires stage { self.old.stage ≡ stage.ReadKey key }
        requires early { state_number self.old.state < 6 }
        ensures completed { self.new ≡ kept_or_halted (key_read key text.now self.old) self.old }
        ensures halt { result ≡ key_halt key (key_read key text.now self.old) }
    {
        if self.read_key(key, text) {
            None
        } else {
            self.halt(BackHalt::BadKey(key))
        }
    }

    // The back halts, for this reason.
    fn halt(&mut self, reason: BackHalt) -> Option<BackHalt>
        requires { state_number self.old.state < 6 }
        ensures halted { self.new ≡ halted self.old }
        ensures reason { result ≡ Some reason }
    {
        self.stage = BackBusStage::UnmapOthers;
        Some(reason)
    }

    #[tactic(auto, using(crate::proofs::Powers::few_pages))]
    // A page of the ring was mapped.
    fn mapped(&mut self, page: Mapping)
        requires { self.old.stage ≡ stage.MapPage }
        ensures { self.new ≡ mapped page self.old }
    {
        self.pages.push(page);
        self.stage = if self.pages.len() < self.grefs.len() {
            BackBusStage::MapPage
        } else {
            BackBusStage::Bind
        };
    }

    // Its own state was written.
    fn wrote(&mut self, state: BusState)
        requires { self.old.stage ≡ stage.WriteState state }
        ensures { self.new ≡ record self.old { state = state; stage = after_state state } }
    {
        self.state = state;
        self.stage = match state {
            BusState::InitWait => BackBusStage::Watch,
            BusState::Closing => BackBusStage::WriteState(BusState::Closed),
            BusState::Closed => BackBusStage::Halted,
            _ => BackBusStage::Rest,
        };
    }

    // A page of the ring was unmapped.
    fn unmapped(&mut self)
        requires { self.old.stage ≡ stage.UnmapPage }
        ensures { self.new ≡ step_at stage.UnmapPage self.old BackAnswer.Done }
    {
        self.pages.remove(0);
        self.stage = unmapping_next(self.pages.as_slice(), self.bound, self.state);
    }
}

// The state that a halted back writes next, whose own state is this one.
fn last_state(own: BusState) -> BusState
    ensures { result ≡ last_state own }
{
    match own {
        BusState::Closing => BusState::Closed,
        _ => BusState::Closing,
    }
}

// What a halted back does next that has these pages mapped.
fn unmapping_next(pages: &[Mapping], bound: bool, own: BusState) -> BackBusStage
    ensures { result ≡ unmapping_next pages.now bound own }
{
    if !pages.is_empty() {
        BackBusStage::UnmapPage
    } else if bound {
        BackBusStage::ClosePort
    } else {
        BackBusStage::WriteState(last_state(own))
    }
}
