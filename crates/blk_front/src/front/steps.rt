// What the front makes of each answer.
ghost use Rattle.std.specs.Prelude.{◌≡◌, ◌<◌, ◌≤◌, ◌+◌, ◌-◌, ◌*◌, ◌/◌, ◌^◌, length, position, slice_get, IfSome, Some, ◌==◌, true};
ghost use Rattle.blk_base.specs.declared.ask.FrontAnswer.TheVariants.{Word, Done};
ghost use Rattle.blk_front.specs.declared.stage.FrontStage.TheVariants as stage;
ghost use Rattle.blk_front.specs.Pool.{taken_from};
ghost use Rattle.blk_front.specs.View.{next_request};
ghost use Rattle.blk_front.specs.Ask.{IsAnswer};
ghost use Rattle.blk_front.specs.Keep.{step_as_at, loop_ask_as, loop_step_as, begun_as, named_or_entered, first_place, grants, next_place, data_next, page_next, with_grant, granted_as, ended_now, response_step_as, ring_ended_as, kept_stage, kept_read, kept_ended};
ghost use Rattle.blk_front.specs.Sound.{AreAscending};
ghost use Rattle.blk_front.specs.Step.{step_at, loop_word, looked, broken, found_at, issued, taken, response_step, end_step, exchanged, ring_read, at, entered, finished, pushed, data_step, left_step, IsTaking, IsRevoking, IsEndingStage};
ghost use Rattle.blk_front.specs.Request.{IsShaped, is_indirect};
ghost use Rattle.blk_front.specs.Inside.{held};
ghost use Rattle.blk_front.specs.declared.told.Told.TheVariants.{Sector};
ghost use Rattle.blk_front.specs.Entry.{entry_request};
ghost use Rattle.blk_layout.specs.declared.request.RawRequest.TheVariants.{Discard};
ghost use Rattle.ring_words.specs.Shape.{entry_words_of};
ghost use Rattle.blk_layout.specs.Entry.{raw_of};
ghost use Rattle.blk_front.specs.declared.request.Request.{Request};

use super::Front;
use crate::frames::SpareLists;
use crate::pool::PoolFrame;
use crate::request::{Request, SECTOR_WORDS, Transfer, frames_for, is_indirect};
use crate::stage::{Ending, FrontStage};
use crate::told::Told;
use blk_base::{FrontAnswer, Status};
use blk_layout::{DirectOp, IndirectOp, WrittenRequest, read_response, request_words};
use ring_words::notify;

impl Front {
    pub(super) fn wrote_ring_word(&mut self, word: u32)
        requires stage { self.old.stage ≡ stage.RingWord word }
        requires placed { word < 16 }
        ensures { self.new ≡ step_at (stage.RingWord word) self.old Done }
    {
        self.stage = if word == 15 {
            FrontStage::RingFrame(0)
        } else {
            FrontStage::RingWord(word + 1)
        };
    }

    /// The frame of a page of the ring was granted.
    #[inline(never)]
    pub(super) fn granted_page(&mut self, page: u32)
        requires stage { self.old.stage ≡ stage.RingFlags page }
        requires placed { page < 2 ^ self.old.shape.order }
        ensures { self.new ≡ step_at (stage.RingFlags page) self.old Done }
    {
        let pages = self.pages();
        self.stage = if page + 1 < pages {
            FrontStage::RingFrame(page + 1)
        } else {
            FrontStage::NewPort
        };
    }

    /// Begins the next step of the loop.
    pub(super) fn begin(&mut self, answer: &FrontAnswer)
        requires stage { self.old.stage ≡ stage.Loop }
        requires kind { IsAnswer (loop_ask_as self.old (next_request self.old)) answer.now }
        ensures { self.new ≡ loop_step_as self.old (next_request self.old) answer.now }
    {
        match (self.next_request(), answer) {
            (Some(_), _) => self.issued_first(),
            (None, FrontAnswer::Word(word)) => self.read_in_loop(*word),
            (None, FrontAnswer::Event) => self.ring.asleep = false,
            _ => {}
        }
    }

    // The first word of the request that is issued next was written.
    fn issued_first(&mut self)
        requires { self.old.stage ≡ stage.Loop }
        ensures { IfSome (next_request self.old) (λ r. self.new ≡ begun_as self.old r r.transfer) }
    {
        let Some(r) = self.next_request() else {
            return;
        };
        match r.transfer {
            Transfer::Write(_) | Transfer::Barrier(_) => self.stage = FrontStage::Data(1),
            Transfer::Read if is_indirect(r.count) => self.stage = FrontStage::Pages(1),
            Transfer::Read => self.issued_read(),
            Transfer::Flush | Transfer::Discard(_) => self.make_entry(1),
        }
    }

    // Its entry is in hand, and this word of it is written next.
    fn make_entry(&mut self, word: u32)
        requires { word < 3 }
        ensures { IfSome (next_request self.old) (λ r. self.new ≡ entered self.old r (stage.Slot word)) }
    {
        if let Some(r) = self.next_request() {
            self.ring.entry = request_words(self.abi, &wire(r));
            self.stage = FrontStage::Slot(word);
        }
    }

    // The grant of its first frame that is to be granted was begun, or its entry where none is.
    fn issued_read(&mut self)
        requires { self.old.stage ≡ stage.Loop }
        ensures { IfSome (next_request self.old) (λ r. self.new ≡ named_or_entered self.old r (first_place self.old r)) }
    {
        let Some(r) = self.next_request() else {
            return;
        };
        match self.first_place(r) {
            Some(place) => self.stage = FrontStage::GrantFence(place),
            None => self.make_entry(1),
        }
    }

    // A word was read: of the responses' producer, or of a response.
    fn read_in_loop(&mut self, word: u32)
        requires { self.old.stage ≡ stage.Loop }
        ensures { self.new ≡ loop_word self.old word }
    {
        if self.ring.indices.unconsumed(self.ring.seen) == 0 {
            self.look(word);
        } else {
            self.stage = FrontStage::ResponseHigh(word);
        }
    }

    // The responses' producer was read for the first time.
    fn look(&mut self, prod: u32)
        requires { self.old.stage ≡ stage.Loop }
        ensures { self.new ≡ looked self.old prod (record self.old { ring = record self.old.ring { seen = prod }; stage = stage.StoreEvent }) }
    {
        if self.ring.indices.unconsumed(prod)
            > self.ring.indices.unconsumed(self.ring.indices.prod())
        {
            self.break_with(prod);
        } else {
            self.ring.seen = prod;
            self.stage = if prod == self.ring.indices.cons() {
                FrontStage::StoreEvent
            } else {
                FrontStage::Loop
            };
        }
    }

    /// The responses' producer was read again, after the event word was stored.
    #[inline(never)]
    pub(super) fn look_again(&mut self, prod: u32)
        requires { self.old.stage ≡ stage.LookAgain }
        ensures { self.new ≡ step_at stage.LookAgain self.old (Word prod) }
    {
        if self.ring.indices.unconsumed(prod)
            > self.ring.indices.unconsumed(self.ring.indices.prod())
        {
            self.break_with(prod);
        } else {
            self.ring.seen = prod;
            self.stage = FrontStage::Loop;
            if prod == self.ring.indices.cons() {
                self.ring.asleep = true;
            }
        }
    }

    /// The entry of the grant of a page of the ring was read.
    #[inline(never)]
    pub(super) fn read_ring_grant(&mut self, page: u32, word: u32)
        requires stage { self.old.stage ≡ stage.RingRead page }
        requires placed { page < 2 ^ self.old.shape.order }
        ensures { self.new ≡ ring_read self.old page word }
    {
        if word / 8 % 4 != 0 {
            self.break_with(word);
        } else {
            self.stage = FrontStage::RingEnd(page, word);
        }
    }

    /// That grant was ended, if its entry was still as it was read.
    #[inline(never)]
    pub(super) fn ended_ring_grant(&mut self, page: u32, seen: u32, word: u32)
        requires stage { self.old.stage ≡ stage.RingEnd page seen }
        requires placed { page < 2 ^ self.old.shape.order }
        ensures { self.new ≡ ring_ended_as self.old page seen word }
    {
        let pages = self.pages();
        if word != seen {
            self.break_with(word);
        } else if page + 1 < pages {
            self.stage = FrontStage::RingRead(page + 1);
        } else if self.offers.persistent {
            self.end_kept(18);
        } else {
            self.stage = FrontStage::ClosePort;
        }
    }

    // The kept grant of the lowest frame from this one on is ended next, or the port is closed.
    fn end_kept(&mut self, frame: u32)
        requires keeps { self.old.offers.persistent ≡ true }
        requires low { 18 ≤ frame }
        requires high { frame ≤ 1018 }
        ensures { self.new ≡ at (kept_stage (taken_from self.old.kept frame)) self.old }
    {
        self.stage = match self.kept.taken_from(frame) {
            Some(frame) => FrontStage::KeptRead(frame.number()),
            None => FrontStage::ClosePort,
        };
    }

    /// The entry of a kept grant was read.
    #[inline(never)]
    pub(super) fn read_kept(&mut self, frame: u32, word: u32)
        requires stage { self.old.stage ≡ stage.KeptRead frame }
        ensures { self.new ≡ kept_read self.old frame word }
    {
        if word / 8 % 4 != 0 {
            self.break_with(word);
        } else {
            self.stage = FrontStage::KeptEnd(frame, word);
        }
    }

    /// That grant was ended, if its entry was still as it was read.
    #[inline(never)]
    pub(super) fn ended_kept(&mut self, frame: u32, seen: u32, word: u32)
        requires stage { self.old.stage ≡ stage.KeptEnd frame seen }
        ensures { self.new ≡ kept_ended self.old frame seen word }
    {
        if word != seen {
            self.break_with(word);
        } else {
            self.kept.free(&PoolFrame::of(frame));
            self.end_kept(frame + 1);
        }
    }

    // A word was found that no honest back leaves.
    fn break_with(&mut self, word: u32)
        ensures { self.new ≡ broken word self.old }
    {
        self.stage = FrontStage::Broken(word);
        self.told = Some(Told::Broken(word));
    }

    #[inline(always)]
    pub(super) fn wrote_data(&mut self, n: u32)
        requires stage { self.old.stage ≡ stage.Data n }
        requires placed { n < 983040 }
        ensures { self.new ≡ data_next self.old (next_request self.old) n }
    {
        let Some(r) = self.next_request() else {
            return;
        };
        if n + 1 < SECTOR_WORDS * r.count {
            self.stage = FrontStage::Data(n + 1);
        } else if is_indirect(r.count) {
            self.stage = FrontStage::Pages(0);
        } else {
            self.grant_first();
        }
    }

    // The first of its frames that is to be granted is granted next, or its entry is written.
    #[inline(never)]
    fn grant_first(&mut self)
        ensures { IfSome (next_request self.old) (λ r. self.new ≡ grants self.old r (first_place self.old r)) }
    {
        if let Some(r) = self.next_request() {
            let place = self.first_place(r);
            self.grant(place);
        }
    }

    // The next of them from this place on is, or its entry is written.
    fn grant_from(&mut self, place: u32)
        ensures { IfSome (next_request self.old) (λ r. self.new ≡ grants self.old r (next_place self.old r place)) }
    {
        if let Some(r) = self.next_request() {
            let place = self.next_place(r, place);
            self.grant(place);
        }
    }

    // Its frame of this place is granted next; where there is none its entry is written.
    fn grant(&mut self, place: Option<u32>)
        requires { IfSome place (λ place. place < 962) }
        ensures { IfSome (next_request self.old) (λ r. self.new ≡ grants self.old r place) }
    {
        let Some(_) = self.next_request() else {
            return;
        };
        match place {
            Some(place) => self.stage = FrontStage::GrantFrame(place),
            None => self.make_entry(0),
        }
    }

    #[inline(never)]
    pub(super) fn wrote_page(&mut self, n: u32)
        requires stage { self.old.stage ≡ stage.Pages n }
        requires placed { n < 1920 }
        ensures { self.new ≡ page_next self.old (next_request self.old) n }
    {
        let Some(r) = self.next_request() else {
            return;
        };
        if n + 1 < r.naming_words() {
            self.stage = FrontStage::Pages(n + 1);
        } else {
            self.grant_first();
        }
    }

    #[inline(never)]
    pub(super) fn granted(&mut self, place: u32)
        requires stage { self.old.stage ≡ stage.GrantFlags place }
        requires placed { place < 962 }
        ensures { self.new ≡ granted_as (next_request self.old) place self.old }
    {
        let Some(r) = self.next_request() else {
            return;
        };
        let frame = r.frame(place);
        self.keep(&frame);
        self.grant_from(place + 1);
    }

    // A frame was granted; where grants are kept it stays so.
    fn keep(&mut self, frame: &PoolFrame)
        ensures { self.new ≡ with_grant self.old frame.now }
    {
        if self.offers.persistent {
            self.kept.take(frame);
        }
    }

    pub(super) fn wrote_slot(&mut self, word: u32)
        requires stage { self.old.stage ≡ stage.Slot word }
        requires placed { word < entry_words_of self.old.shape.abi }
        ensures { self.new ≡ step_at (stage.Slot word) self.old Done }
    {
        self.stage = if word + 1 == self.shape().entry_words() {
            FrontStage::Producer
        } else {
            FrontStage::Slot(word + 1)
        };
    }

    pub(super) fn pushed(&mut self)
        requires { self.old.stage ≡ stage.Producer }
        ensures { self.new ≡ pushed self.old }
    {
        let old = self.ring.indices.prod();
        self.ring.indices.produce();
        self.waiting -= 1;
        self.stage = FrontStage::ProducerFence(old);
    }

    pub(super) fn notify(&mut self, old: u32, event: u32)
        requires { self.old.stage ≡ stage.RequestEvent old }
        ensures { self.new ≡ step_at (stage.RequestEvent old) self.old (Word event) }
    {
        self.stage = if notify(old, self.ring.indices.prod(), event) {
            FrontStage::Send
        } else {
            FrontStage::Loop
        };
    }

    // Where the issued request of an id stands.
    fn issued(&self, id: u64) -> Option<usize>
        ensures value { found_at self.now.requests result ≡ issued self.now id }
        ensures within { IfSome result (λ place. place < length self.now.requests) }
    {
        let count = self.requests.len() - self.waiting as usize;
        self.requests.find(count, id)
    }

    /// A response was read whole. A request whose grants are kept is answered at once.
    #[inline(never)]
    pub(super) fn take_response(&mut self, low: u32, high: u32, last: u32)
        requires { self.old.stage ≡ stage.ResponseLast low high }
        ensures { self.new ≡ response_step_as self.old low high last }
    {
        let keeps = self.offers.persistent;
        self.take_answer(low, high, last);
        if keeps && matches!(self.stage, FrontStage::GrantRead(_)) {
            self.answer();
        }
    }

    // The request of a response is ending, or answered where it has no frames.
    fn take_answer(&mut self, low: u32, high: u32, last: u32)
        requires { self.old.stage ≡ stage.ResponseLast low high }
        ensures { self.new ≡ response_step self.old low high last }
    {
        match (
            self.issued(id_of(low, high)),
            read_response([low, high, last]),
        ) {
            (None, _) => self.break_with(low),
            (Some(_), Err(word)) => self.break_with(word),
            (Some(place), Ok(response)) => self.take(place, response.status),
        }
    }

    // The response to an issued request is taken.
    fn take(&mut self, place: usize, status: Status)
        requires stage { IsTaking self.old.stage }
        requires within { place < length self.old.requests }
        ensures { IfSome (slice_get self.old.requests place) (λ r. self.new ≡ taken self.old place r status) }
    {
        self.ring.indices.consume();
        let request = self.requests.finish(place);
        if request.frames.is_empty() {
            let id = request.number;
            self.spare.give(request.frames);
            self.stage = FrontStage::Loop;
            self.told = Some(Told::Answer { id, status });
        } else {
            let ending = Ending { request, status };
            replace(&mut self.spare, &mut self.ending, ending);
            self.stage = FrontStage::GrantRead(0);
        }
    }

    /// The flags of a grant's entry were read.
    #[inline(never)]
    pub(super) fn end_grant(&mut self, place: u32, word: u32)
        requires stage { self.old.stage ≡ stage.GrantRead place }
        requires placed { place < 962 }
        ensures { self.new ≡ end_step self.old place word }
    {
        if word / 8 % 4 != 0 {
            self.break_with(word);
        } else {
            self.stage = FrontStage::GrantEnd(place, word);
        }
    }

    /// A grant's entry was exchanged for 0 if it was still the word read.
    #[inline(never)]
    pub(super) fn ended_grant(&mut self, place: u32, before: u32, word: u32)
        requires stage { self.old.stage ≡ stage.GrantEnd place before }
        requires placed { place < 962 }
        ensures { self.new ≡ exchanged self.old place before word }
    {
        if word != before {
            self.break_with(word);
            return;
        }
        let Some(ending) = &self.ending else {
            return;
        };
        if place + 1 < ending.request.frames.len() as u32 {
            self.stage = FrontStage::GrantRead(place + 1);
        } else {
            self.answer();
        }
    }

    // No grant of the ending request is to be ended any more: its answer is told.
    fn answer(&mut self)
        requires { IsRevoking self.old.stage }
        ensures { self.new ≡ ended_now self.old.ending self.old }
    {
        let Some(ending) = &self.ending else {
            return;
        };
        self.told = Some(Told::Answer {
            id: ending.request.number,
            status: ending.status,
        });
        match (ending.request.transfer, ending.status) {
            (Transfer::Read, Status::Okay) => self.stage = FrontStage::ReadData(0),
            _ => self.finish(),
        }
    }

    // All of the ending request was told.
    fn finish(&mut self)
        requires { IsEndingStage self.old.stage }
        ensures { IfSome self.old.ending (λ e. self.new ≡ finished e self.old) }
    {
        if let Some(ending) = self.ending.take() {
            self.pool.free_all(ending.request.frames.as_slice());
            self.spare.give(ending.request.frames);
            self.stage = FrontStage::Loop;
        }
    }

    /// A word of an answered read's data was read.
    #[inline(always)]
    pub(super) fn read_data(&mut self, n: u32, word: u32)
        requires stage { self.old.stage ≡ stage.ReadData n }
        requires placed { n < 983040 }
        ensures { self.new ≡ data_step self.old.ending n word self.old }
    {
        let Some(ending) = &self.ending else {
            return;
        };
        // Most words are followed by one of the same sector.
        let place = n % SECTOR_WORDS;
        if place != SECTOR_WORDS - 1 && n + 1 < SECTOR_WORDS * ending.request.count {
            self.words[place as usize] = word;
            self.stage = FrontStage::ReadData(n + 1);
        } else {
            self.read_last(n, word);
        }
    }

    // The same, of any word: a sector's last one has it told.
    #[inline(never)]
    fn read_last(&mut self, n: u32, word: u32)
        requires stage { self.old.stage ≡ stage.ReadData n }
        requires placed { n < 983040 }
        ensures { self.new ≡ data_step self.old.ending n word self.old }
    {
        let Some(ending) = &self.ending else {
            return;
        };
        let (id, all) = (ending.request.number, SECTOR_WORDS * ending.request.count);
        self.words[(n % SECTOR_WORDS) as usize] = word;
        if n % SECTOR_WORDS == SECTOR_WORDS - 1 {
            self.told = Some(sector(id, n, self.words));
        }
        if n + 1 < all {
            self.stage = FrontStage::ReadData(n + 1);
        } else {
            self.finish();
        }
    }

    /// The same after a suspend: after the last word the ring is made anew.
    #[inline(never)]
    pub(super) fn read_left(&mut self, n: u32, word: u32)
        requires stage { self.old.stage ≡ stage.LeftData n }
        requires placed { n < 983040 }
        ensures { self.new ≡ left_step self.old.ending n word self.old }
    {
        let Some(ending) = &self.ending else {
            return;
        };
        let (id, all) = (ending.request.number, SECTOR_WORDS * ending.request.count);
        self.words[(n % SECTOR_WORDS) as usize] = word;
        if n % SECTOR_WORDS == SECTOR_WORDS - 1 {
            self.told = Some(sector(id, n, self.words));
        }
        if n + 1 < all {
            self.stage = FrontStage::LeftData(n + 1);
        } else {
            self.finish();
            self.stage = FrontStage::RingWord(0);
        }
    }
}

// The sector that ends with this word of a request's data.
fn sector(id: u32, n: u32, words: [u32; 128]) -> Told
    ensures { result ≡ Sector id (n / 128) words }
{
    Told::Sector {
        id,
        index: n / SECTOR_WORDS,
        words,
    }
}

// A request is ending; the list of the frames of one that was ending before is spare.
fn replace(spare: &mut SpareLists, ending: &mut Option<Ending>, next: Ending)
    requires { spare.old + held ending.old ≤ 513 }
    ensures spare { spare.new ≡ spare.old + held ending.old }
    ensures ending { ending.new ≡ Some next }
{
    if let Some(before) = ending.take() {
        spare.give(before.request.frames);
    }
    *ending = Some(next);
}

// The id that two words of a response have, the lower half first.
fn id_of(low: u32, high: u32) -> u64
    ensures { result ≡ low + high * 2 ^ 32 }
{
    u64::from(low) | u64::from(high) << 32
}

// The request as its entry has it.
pub(super) fn wire(r: &Request) -> WrittenRequest
    requires { IsShaped r.now }
    ensures { raw_of result ≡ entry_request r.now }
{
    if is_indirect(r.count) {
        return indirect(r);
    }
    let op = match r.transfer {
        Transfer::Read => DirectOp::Read,
        Transfer::Write(_) => DirectOp::Write,
        Transfer::Barrier(_) => DirectOp::Barrier,
        Transfer::Flush => DirectOp::Flush,
        Transfer::Discard(sectors) => return discard(r, sectors),
    };
    WrittenRequest::Direct {
        op,
        count: frames_for(r.count) as u8,
        device: 51712,
        id: u64::from(r.number),
        sector: r.sector,
        segments: r.segments(),
    }
}

// A read or a write as its entry has it where its segments lie in indirect pages.
fn indirect(r: &Request) -> WrittenRequest
    requires shaped { IsShaped r.now }
    requires indirect { is_indirect r.now.count ≡ true }
    ensures { raw_of result ≡ entry_request r.now }
{
    let op = match r.transfer {
        Transfer::Write(_) => IndirectOp::Write,
        _ => IndirectOp::Read,
    };
    WrittenRequest::Indirect {
        op,
        count: frames_for(r.count) as u16,
        device: 51712,
        id: u64::from(r.number),
        sector: r.sector,
        pages: r.page_references(),
    }
}

// A discard as its entry has it, which isn't secure.
fn discard(r: &Request, sectors: u32) -> WrittenRequest
    ensures { raw_of result ≡ Discard 0 51712 r.now.number r.now.sector sectors }
{
    WrittenRequest::Discard {
        flag: 0,
        device: 51712,
        id: u64::from(r.number),
        sector: r.sector,
        count: u64::from(sectors),
    }
}
