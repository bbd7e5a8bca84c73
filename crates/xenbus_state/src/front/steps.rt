// What the front's end makes of each answer.
ghost use Rattle.std.specs.Prelude.{◌≡◌, ◌<◌};
ghost use Rattle.blk_base.specs.declared.ask.FrontAnswer.TheVariants as told;
ghost use Rattle.xenbus_state.specs.declared.stage.FrontBusStage.TheVariants as stage;
ghost use Rattle.xenbus_state.specs.FrontAsk.{ask_at, IsAnswer};
ghost use Rattle.xenbus_state.specs.FrontSound.{IsSound};
ghost use Rattle.xenbus_state.specs.FrontStep.{step_at, news_at, acted, action_news, feature_step, read_news, fact_step, written, written_news, after};
ghost use Rattle.xenbus_state.specs.Reading.{count_read, fact_read};
ghost use Rattle.xenbus_state.specs.Tables.{SuitsFront};

use super::{FrontBus, FrontNews};
use crate::keys::BackKey;
use crate::programs::{first_published, next_fact, next_feature, next_published};
use crate::reading::{read_count, read_fact};
use crate::stage::FrontBusStage;
use crate::state::{BusState, read_state};
use crate::table::{FrontAction, front_action};
use blk_base::{FrontAnswer, Lent, Text};

impl FrontBus {
    // What an answer makes of what is being done.
    pub(super) fn step(&mut self, idle: bool, answer: &FrontAnswer) -> Option<FrontNews>
        requires { IsAnswer (ask_at self.old.stage self.old) answer.now }
        ensures completed { self.new ≡ step_at self.old.stage self.old idle answer.now }
        ensures news { result ≡ news_at self.old.stage self.old idle answer.now }
    {
        match (self.stage, answer) {
            (FrontBusStage::Rest, FrontAnswer::Watched(_)) => {
                self.stage = FrontBusStage::ReadState;
                None
            }
            (FrontBusStage::ReadState, FrontAnswer::Key(text)) => {
                self.act(front_action(self.state, self.closing, idle, read_state(text)))
            }
            (FrontBusStage::ReadFeature(key), FrontAnswer::Key(text)) => self.read_feature(
                key, text,
            ),
            (FrontBusStage::NewPort, FrontAnswer::Port(port)) => {
                self.port = Some(*port);
                self.stage = FrontBusStage::Publish(first_published(self.ring_order()));
                None
            }
            (FrontBusStage::ReadFact(key), FrontAnswer::Key(text)) => self.read_fact(key, text),
            (FrontBusStage::WriteState(state), FrontAnswer::Done) => self.wrote(state),
            (FrontBusStage::ClosePort, FrontAnswer::Done) => {
                self.port = None;
                self.stage = FrontBusStage::WriteState(BusState::Closed);
                None
            }
            (_, FrontAnswer::Done) => {
                self.stage = self.after();
                None
            }
            _ => None,
        }
    }

    // What is done after what was done.
    fn after(&self) -> FrontBusStage
        ensures value { result ≡ after self.now.stage self.now }
        ensures sound { IsSound (record self.now { stage = result }) }
    {
        match self.stage {
            FrontBusStage::Start => FrontBusStage::Rest,
            FrontBusStage::RingWord(15) => FrontBusStage::Grant(0),
            FrontBusStage::RingWord(word) => FrontBusStage::RingWord(word + 1),
            FrontBusStage::Grant(page) if page + 1 < self.pages() => FrontBusStage::Grant(page + 1),
            FrontBusStage::Grant(_) => FrontBusStage::NewPort,
            FrontBusStage::Publish(key) => match next_published(self.ring_order(), key) {
                Some(key) => FrontBusStage::Publish(key),
                None => FrontBusStage::WriteState(BusState::Initialised),
            },
            FrontBusStage::EndGrant(page) if page + 1 < self.pages() => FrontBusStage::EndGrant(
                page + 1,
            ),
            FrontBusStage::EndGrant(_) => FrontBusStage::EndOtherGrants,
            FrontBusStage::EndOtherGrants if self.port.is_some() => FrontBusStage::ClosePort,
            FrontBusStage::EndOtherGrants => FrontBusStage::WriteState(BusState::Closed),
            stage => stage,
        }
    }

    // The back's state was read, and this is to be done.
    fn act(&mut self, action: FrontAction) -> Option<FrontNews>
        requires stage { self.old.stage ≡ stage.ReadState }
        requires suits { SuitsFront self.old.state action }
        ensures completed { self.new ≡ acted action self.old }
        ensures news { result ≡ action_news action self.old.closing }
    {
        self.stage = match action {
            FrontAction::Nothing | FrontAction::Close | FrontAction::Leave => FrontBusStage::Rest,
            FrontAction::Publish => FrontBusStage::ReadFeature(BackKey::FeatureBarrier),
            FrontAction::Connect | FrontAction::CloseAndConnect => {
                FrontBusStage::ReadFact(BackKey::Sectors)
            }
            FrontAction::Break(word) => FrontBusStage::Broken(word),
        };
        match action {
            FrontAction::Nothing | FrontAction::Publish | FrontAction::Connect => None,
            FrontAction::Close | FrontAction::CloseAndConnect => self.close(),
            FrontAction::Leave => {
                self.gone = true;
                self.close()
            }
            FrontAction::Break(word) => Some(FrontNews::Broken(word)),
        }
    }

    // The key of a feature was read.
    fn read_feature(&mut self, key: BackKey, text: &Option<Lent<'_, Text>>) -> Option<FrontNews>
        requires { self.old.stage ≡ stage.ReadFeature key }
        ensures completed { self.new ≡ feature_step key (count_read text.now) self.old }
        ensures news { result ≡ read_news (count_read text.now) }
    {
        let Some(number) = read_count(text) else {
            self.stage = FrontBusStage::Broken(9);
            return Some(FrontNews::Broken(9));
        };
        self.features.read(key, number);
        self.stage = match next_feature(key) {
            Some(key) => FrontBusStage::ReadFeature(key),
            None => FrontBusStage::RingWord(0),
        };
        None
    }

    // The key of a fact of the disk was read.
    fn read_fact(&mut self, key: BackKey, text: &Option<Lent<'_, Text>>) -> Option<FrontNews>
        requires { self.old.stage ≡ stage.ReadFact key }
        ensures completed { self.new ≡ fact_step key (fact_read key text.now) self.old }
        ensures news { result ≡ read_news (fact_read key text.now) }
    {
        let Some(number) = read_fact(key, text) else {
            self.stage = FrontBusStage::Broken(9);
            return Some(FrontNews::Broken(9));
        };
        self.disk.read(key, number);
        self.stage = match next_fact(key) {
            Some(key) => FrontBusStage::ReadFact(key),
            None => FrontBusStage::WriteState(BusState::Connected),
        };
        None
    }

    // Its own state was written.
    fn wrote(&mut self, state: BusState) -> Option<FrontNews>
        requires { self.old.stage ≡ stage.WriteState state }
        ensures completed { self.new ≡ written state self.old }
        ensures news { result ≡ written_news state }
    {
        self.state = state;
        self.stage = match state {
            BusState::Closed => FrontBusStage::Closed,
            _ => FrontBusStage::Rest,
        };
        match state {
            BusState::Connected => Some(FrontNews::Ready),
            BusState::Closed => Some(FrontNews::Closed),
            _ => None,
        }
    }
}
