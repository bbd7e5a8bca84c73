// What the front's negotiation has it enter.
ghost use Rattle.std.specs.Prelude.{◌≡◌, ◌≤◌, ◌&&◌, nat_le, length};
ghost use Rattle.ring_words.specs.Shape.{entries_of};
ghost use Rattle.blk_front.specs.declared.stage.FrontStage.TheVariants as stage;
ghost use Rattle.blk_front.specs.declared.state.FrontState.TheVariants as state;
ghost use Rattle.blk_front.specs.State.{may_enter, in_state, enters};

use super::Front;
use crate::stage::FrontStage;
use crate::state::FrontState;
use ring_words::{FrontRing, RingShape};

impl Front {
    /// Enters a state where it may, and says whether it did; no other front changes. An order no
    /// greater than it wished, of a ring with an entry for each request, is agreed before its ring is
    /// begun. It connects where it waits for that, and begins to close once. It leaves, and is closed,
    /// only while it closes with no request left, and is closed only without a ring. A closed or broken
    /// front enters none. It takes no memory.
    pub fn enter(&mut self, state: FrontState) -> bool
        ensures front { self.new ≡ enters state self.old }
        ensures done { result ≡ may_enter state self.old }
    {
        let may = self.may_enter(state);
        if may {
            match state {
                FrontState::Agreed(order) => self.agree(order),
                FrontState::Connected(offers) => {
                    self.offers = offers;
                    self.stage = FrontStage::Loop;
                }
                FrontState::Closing => self.closing = true,
                FrontState::Leaving => self.stage = FrontStage::RingRead(0),
                FrontState::Closed => self.stage = FrontStage::Closed,
                FrontState::Broken(word) => self.stage = FrontStage::Broken(word),
            }
        }
        may
    }

    // Its ring has this order, no greater than it wished.
    #[tactic(auto, using(crate::proofs::Shapes::few_pages))]
    fn agree(&mut self, order: u32)
        requires unmade { self.old.stage ≡ stage.RingWord 0 }
        requires within { order ≤ self.old.shape.order }
        requires room { length self.old.requests ≤ entries_of order }
        ensures { self.new ≡ in_state (state.Agreed order) self.old }
    {
        self.ring.indices = FrontRing::attach(RingShape::of(self.abi, order), self.start);
        self.order = order;
        self.ring.seen = self.start;
    }

    // Whether a ring of this order is no greater than it wished, and has an entry for each request.
    fn may_have(&self, order: u32) -> bool
        ensures { result ≡ (nat_le order self.now.shape.order && nat_le (length self.now.requests) (entries_of order)) }
    {
        order <= self.order
            && self.requests.len() <= RingShape::of(self.abi, order).entries() as usize
    }

    // Whether it may enter this state.
    fn may_enter(&self, state: FrontState) -> bool
        ensures { result ≡ may_enter state self.now }
    {
        let open = !matches!(self.stage, FrontStage::Closed | FrontStage::Broken(_));
        match state {
            FrontState::Agreed(order) => {
                matches!(self.stage, FrontStage::RingWord(0)) && self.may_have(order)
            }
            FrontState::Connected(_) => matches!(self.stage, FrontStage::Initialised),
            FrontState::Closing => !self.closing && open,
            FrontState::Leaving => {
                self.is_through()
                    && matches!(self.stage, FrontStage::Initialised | FrontStage::Loop)
            }
            FrontState::Closed => {
                self.is_through()
                    && matches!(self.stage, FrontStage::RingWord(_) | FrontStage::Left)
            }
            FrontState::Broken(_) => open,
        }
    }
}
