// What the back makes of each answer.
ghost use Rattle.std.specs.Prelude.{◌≡◌, ◌+◌, ◌^◌, ◌<◌, [], ◌∷◌, ◌++◌, length, Some, IsPermutation};
ghost use Rattle.ring_words.specs.Shape.{entry_words_of};
ghost use Rattle.blk_base.specs.declared.parts.Mode.TheVariants.{ReadWrite};
ghost use Rattle.blk_base.specs.declared.ask.BackAnswer.TheVariants.{Word, Done, Mapped, MapRefused, BindRefused};
ghost use Rattle.blk_back.specs.declared.stage.BackStage.TheVariants as stage;
ghost use Rattle.blk_back.specs.Ask.{loop_ask, next_reply, IsAnswer};
ghost use Rattle.blk_back.specs.Step.{attaches, step_at, loop_step, unbound, replied};
ghost use Rattle.blk_back.specs.Hands.{all_hands_of};
ghost use Rattle.blk_back.specs.Keeping.{abort_keeping, halts_keeping, keeps, overrun_keeping, looked_keeping, loop_word_keeping, loop_step_keeping, fetched_keeping, fetch_step_keeping, step_keeping_at};

use super::Back;
use crate::stage::{BackStage, Reply};
use crate::told::BackTold;
use arrayvec::ArrayVec;
use blk_base::{Abi, BackAnswer, Halt, Mapping};
use blk_layout::read_request;
use ring_words::{BackRing, RingShape, notify};

impl Back {
    #[tactic(auto, using(crate::proofs::Powers::few_pages))]
    pub(super) fn mapped(&mut self, mapping: Mapping)
        requires stage { self.old.stage ≡ stage.MapRing }
        requires mode { mapping.mode ≡ ReadWrite }
        ensures { self.new ≡ step_at stage.MapRing self.old (Mapped mapping) }
    {
        self.pages.push(mapping);
        self.stage = if self.pages.len() < self.grefs.len() {
            BackStage::MapRing
        } else {
            BackStage::Bind
        };
    }

    pub(super) fn refused(&mut self, status: i32)
        requires { self.old.stage ≡ stage.MapRing }
        ensures { self.new ≡ step_at stage.MapRing self.old (MapRefused status) }
    {
        let gref = self.next_gref();
        self.halted = Some(Halt::MapRefused { gref, status });
        self.stage = unbound(self.pages.as_slice());
    }

    pub(super) fn unbound(&mut self)
        requires { self.old.stage ≡ stage.Bind }
        ensures { self.new ≡ step_at stage.Bind self.old BindRefused }
    {
        self.halted = Some(Halt::BadPort(self.ring.port));
        self.stage = unbound(self.pages.as_slice());
    }

    // The first page that was still mapped is unmapped, of a back with its port and of one without.
    pub(super) fn unmapped(&mut self)
        requires { self.old.stage ≡ stage.UnmapRing }
        ensures { self.new ≡ step_at stage.UnmapRing self.old Done }
    {
        let _ = self.pages.remove(0);
        self.stage = if self.pages.is_empty() {
            BackStage::ClosePort
        } else {
            BackStage::UnmapRing
        };
    }

    pub(super) fn unmapped_unbound(&mut self)
        requires { self.old.stage ≡ stage.UnmapUnbound }
        ensures { self.new ≡ step_at stage.UnmapUnbound self.old Done }
    {
        let _ = self.pages.remove(0);
        self.stage = unbound(self.pages.as_slice());
    }

    /// Takes the terms of its front where it waits for them: the layout of entries, the order of the
    /// ring, 0 to 4 (it has `2^order` pages), a reference for each page in order, and the front's port. It
    /// maps the pages next. Where it doesn't wait, with another order, and with more or fewer references,
    /// nothing changes. It takes no memory.
    #[tactic(auto, using(crate::proofs::Powers::few_pages, crate::proofs::Powers::pages_whole, crate::proofs::Powers::some_pages, crate::proofs::Powers::no_distance))]
    pub fn attach(&mut self, abi: Abi, order: u32, grefs: &[u32], port: u32)
        ensures { self.new ≡ attaches (record { abi = abi; order = order }) grefs.now port self.old }
    {
        if !matches!(self.stage, BackStage::InitWait) || order > 4 || grefs.len() != 1 << order {
            return;
        }
        self.abi = abi;
        self.order = order;
        self.grefs = ArrayVec::new();
        let _ = self.grefs.try_extend_from_slice(grefs);
        self.ring.port = port;
        self.ring.indices = BackRing::attach(RingShape::of(abi, order), self.ring.indices.prod());
        self.stage = BackStage::MapRing;
    }

    /// Says how many mappings it may keep in this epoch, 0 to 1000, once it has the terms of its front and
    /// before it maps a page of the ring: 0 where grants aren't persistent, as it is where nothing is said.
    /// At another time, and with more than 1000, nothing changes. It takes no memory.
    #[tactic(auto, using(crate::proofs::Powers::no_distance))]
    pub fn keep_at_most(&mut self, cap: u32)
        ensures { self.new ≡ keeps cap self.old }
    {
        if !matches!(self.stage, BackStage::MapRing) || self.pages.len() != 0 || cap > 1000 {
            return;
        }
        self.jobs.keep_at_most(cap);
    }

    /// Begins the next step of the loop.
    pub(super) fn begin(&mut self, answer: &BackAnswer)
        requires stage { self.old.stage ≡ stage.Loop }
        requires kind { IsAnswer (loop_ask self.old (next_reply self.old)) answer.now }
        ensures { self.new ≡ loop_step_keeping self.old (next_reply self.old) answer.now }
    {
        match (self.next_reply(), answer) {
            (Some(r), _) => self.begin_reply(r),
            (None, BackAnswer::Word(word)) => self.read_in_loop(*word),
            (None, BackAnswer::Event) => self.ring.asleep = false,
            // A watch is looked at by the negotiation, and doesn't end sleep.
            (None, _) => {}
        }
    }

    // The first word of a reply was written: its job is held no longer.
    #[inline(never)]
    fn begin_reply(&mut self, r: Reply)
        requires stage { self.old.stage ≡ stage.Loop }
        requires reply { next_reply self.old ≡ Some r }
        ensures { self.new ≡ loop_step self.old (Some r) Done }
    {
        let _ = self.jobs.take_done();
        self.stage = BackStage::ReplyHigh(r);
    }

    // A word was read: of the requests' producer, or of an entry.
    fn read_in_loop(&mut self, word: u32)
        requires { self.old.stage ≡ stage.Loop }
        ensures { self.new ≡ loop_word_keeping self.old word }
    {
        if self.ring.indices.unconsumed(self.ring.seen) == 0 {
            self.look(word);
        } else {
            self.ring.entry = ArrayVec::new();
            self.ring.entry.push(word);
            self.stage = BackStage::Fetch(1);
        }
    }

    // The requests' producer was read for the first time.
    fn look(&mut self, prod: u32)
        requires { self.old.stage ≡ stage.Loop }
        ensures { self.new ≡ looked_keeping self.old prod (record self.old { ring = record self.old.ring { seen = prod }; stage = stage.StoreEvent }) }
    {
        if self.ring.indices.overran(prod) {
            self.overrun(prod);
        } else {
            self.ring.seen = prod;
            self.stage = if prod == self.ring.indices.cons() {
                BackStage::StoreEvent
            } else {
                BackStage::Loop
            };
        }
    }

    /// The requests' producer was read again, after the event word was stored.
    #[inline(never)]
    pub(super) fn look_again(&mut self, prod: u32)
        requires { self.old.stage ≡ stage.LookAgain }
        ensures { self.new ≡ step_keeping_at stage.LookAgain self.old (Word prod) }
    {
        if self.ring.indices.overran(prod) {
            self.overrun(prod);
        } else {
            self.ring.seen = prod;
            self.stage = BackStage::Loop;
            if prod == self.ring.indices.cons() {
                self.ring.asleep = true;
            }
        }
    }

    /// Halts for what its negotiation found, where no step is begun; else nothing changes. An overrun
    /// isn't for it to find. A back that is connected unmaps its jobs' mappings, those that are kept,
    /// the least recently used first, and the ring's pages, and closes its port; one that isn't unmaps the
    /// pages that it has mapped. It takes no
    /// memory.
    pub fn halt(&mut self, why: Halt)
        ensures halted { self.new ≡ halts_keeping why self.old }
        ensures hands { IsPermutation (all_hands_of self.old) (all_hands_of self.new) }
    {
        if matches!(why, Halt::Overrun { .. }) {
            return;
        }
        match self.stage {
            BackStage::InitWait | BackStage::MapRing => {
                self.halted = Some(why);
                self.stage = unbound(self.pages.as_slice());
            }
            BackStage::Loop => {
                self.halted = Some(why);
                self.abort();
            }
            _ => {}
        }
    }

    // The requests' producer overran the ring.
    #[inline(never)]
    fn overrun(&mut self, prod: u32)
        requires { length self.old.pages ≡ 2 ^ self.old.shape.order }
        ensures { self.new ≡ overrun_keeping self.old prod }
    {
        self.halted = Some(Halt::Overrun {
            prod,
            rsp_prod: self.ring.indices.prod(),
        });
        self.abort();
    }

    /// Aborts the jobs as far as the next mapping in a job's hand; where there is none it gives up a mapping
    /// that is kept.
    #[inline(never)]
    #[tactic(auto, using(crate::proofs::Powers::some_pages))]
    pub(super) fn abort(&mut self)
        requires { length self.old.pages ≡ 2 ^ self.old.shape.order }
        ensures { self.new ≡ abort_keeping self.old }
    {
        self.stage = match self.jobs.give_up() {
            None => BackStage::UnmapRing,
            Some(mapping) => BackStage::Abort(mapping),
        };
    }

    /// A word of an entry was read.
    pub(super) fn fetch(&mut self, k: u32, word: u32)
        requires stage { self.old.stage ≡ stage.Fetch k }
        requires placed { k < entry_words_of self.old.shape.abi }
        ensures { self.new ≡ fetch_step_keeping self.old k word }
    {
        if k + 1 == self.shape().entry_words() {
            self.fetched(k, word);
        } else {
            self.ring.entry.push(word);
            self.stage = BackStage::Fetch(k + 1);
        }
    }

    // The last word of an entry was read: its job begins.
    #[inline(never)]
    fn fetched(&mut self, k: u32, word: u32)
        requires stage { self.old.stage ≡ stage.Fetch k }
        requires last { k + 1 ≡ entry_words_of self.old.shape.abi }
        ensures { self.new ≡ fetched_keeping self.old (self.old.ring.entry ++ word ∷ []) }
    {
        self.ring.entry.push(word);
        let request = read_request(self.abi, self.ring.entry.as_slice());
        self.fetched = self.fetched.wrapping_add(1);
        self.ring.indices.consume();
        self.jobs.start(self.fetched, &request);
        self.stage = BackStage::Loop;
    }

    #[inline(never)]
    pub(super) fn replied(&mut self, r: Reply)
        requires { self.old.stage ≡ stage.Producer r }
        ensures { self.new ≡ replied self.old r }
    {
        let old = self.ring.indices.prod();
        self.ring.indices.produce();
        self.told = Some(BackTold::Reply {
            id: r.id,
            status: r.status,
        });
        self.stage = BackStage::ProducerFence(old);
    }

    pub(super) fn notify(&mut self, old: u32, event: u32)
        requires { self.old.stage ≡ stage.ResponseEvent old }
        ensures { self.new ≡ step_at (stage.ResponseEvent old) self.old (Word event) }
    {
        self.stage = if notify(old, self.ring.indices.prod(), event) {
            BackStage::Send
        } else {
            BackStage::Loop
        };
    }
}

// A back whose port isn't bound unmaps the pages that it has mapped.
fn unbound(pages: &[Mapping]) -> BackStage
    ensures { result ≡ unbound pages.now }
{
    if pages.is_empty() {
        BackStage::Halted
    } else {
        BackStage::UnmapUnbound
    }
}
