// The front end.
ghost use Rattle.std.specs.Prelude.{◌≡◌, ◌<◌, ◌≤◌, ◌+◌, ◌^◌, Some, None, IfOk, IfSome, IsOk, slice_index, option_map};
ghost use Rattle.blk_base.specs.declared.ask.FrontAsk.TheVariants.{Wait};
ghost use Rattle.std.specs.Option.{option_copied};
ghost use Rattle.ring_words.specs.Shape.{entry_words_of};
ghost use Rattle.blk_front.specs.View.{start_of, next_request, ring_frame, ring_page_frame, slot_frame, slot_word, entry_frame, entry_word};
ghost use Rattle.blk_front.specs.Keep.{ask_as, step_as, loop_ask_as, issue_ask_as, name_or_enter, grant_ask_as, flags_as, ungranted, first_place, next_place};
ghost use Rattle.blk_front.specs.Ask.{data_asked, is_through, response_ask, entry_ask, data_ask, page_ask, name_ask, revoke_ask, end_ask, read_ask, IsAnswer, IsPlace, StaysInMemory, Asks};
ghost use Rattle.blk_front.specs.Entry.{entry_of};
ghost use Rattle.blk_front.specs.Request.{IsShaped};
ghost use Rattle.blk_front.specs.Submit.{submit_of, unfinished};

mod entries;
mod parts;
mod state;
mod steps;
mod submit;
mod suspend;

use crate::frames::SpareLists;
use crate::place;
use crate::pool::{Pool, PoolFrame};
use crate::request::{Request, Transfer, is_indirect};
use crate::stage::{Ending, FrontStage};
use crate::state::Offers;
use crate::told::Told;
use arrayvec::ArrayVec;
use blk_base::{Abi, Config, Endpoint, FrontAnswer, FrontAsk, OutOfMemory, Refusal, Submission};
use blk_layout::{MOST_ENTRY_WORDS, request_words};
use grant_table::GTF_PERMIT_ACCESS;
use resume_shadow::Shadow;
use ring_words::{FrontRing, REQ_EVENT, REQ_PROD, RSP_EVENT, RSP_PROD, RingShape};
use std::alloc::Global;
use std::marker::Model;
use steps::wire;

// What belongs to one ring (`struct blkfront_ring_info` of Linux's front): its own indices, whether
// the front sleeps, the responses' producer as last read, and the words of the entry in hand.
#[derive(Drop)]
struct RingInfo {
    indices: FrontRing,
    asleep: bool,
    seen: u32,
    entry: ArrayVec<u32, MOST_ENTRY_WORDS>,
}

/// The front end of a ring of 1 to 16 pages under the layout of its guest, which issues reads and
/// writes of up to 88 sectors, of up to 7680 where its back takes so many segments in indirect pages,
/// and barriers, flushes and discards where its back serves them. Where both ends published
/// `feature-persistent` it keeps the grant of each frame from its first use on, for reading and writing,
/// and ends it as it leaves; else it ends a request's grants once that is answered. After `new` it takes
/// no memory.
#[derive(Drop)]
pub struct Front {
    start: u32,
    offers: Offers,
    abi: Abi,
    order: u32,
    ring: RingInfo,
    stage: FrontStage,
    closing: bool,
    last: u32,
    waiting: u32,
    requests: Shadow<Request>,
    spare: SpareLists,
    ending: Option<Ending>,
    pool: Pool,
    kept: Pool,
    words: [u32; 128],
    told: Option<Told>,
}

impl Model for Front {
    ghost use Rattle.std.specs.Prelude.{◌≤◌};
    ghost use Rattle.blk_front.specs.View.{View};
    ghost use Rattle.blk_front.specs.Inside.{view_of, IsStocked};
    ghost use Rattle.blk_front.specs.Sound.{IsSound};

    ghost Value = { View };

    ghost view = { view_of };

    ghost invariant = { λ f. IsSound (view_of f) × (512 ≤ f.requests.room) × IsStocked f };
}

impl Front {
    /// A front that makes its ring first, of the layout, the order and the first index of `config`. What it
    /// knows of the disk it is told as it connects. It fails only where there is not enough memory.
    #[tactic(auto, using(crate::proofs::Shapes::few_pages))]
    pub fn new(alloc: Global, config: &Config) -> Result<Front, OutOfMemory>
        ensures { IfOk result (λ front. front ≡ start_of config.now) }
    {
        let requests = Shadow::reserve(alloc, 512)?;
        let shape = RingShape::of(config.abi, config.order);
        let spare = SpareLists::new(alloc, shape.entries() + 1)?;
        Ok(Front {
            start: config.start,
            offers: Offers::none(),
            abi: config.abi,
            order: config.order,
            ring: RingInfo {
                indices: FrontRing::attach(shape, config.start),
                asleep: false,
                seen: config.start,
                entry: ArrayVec::new(),
            },
            stage: FrontStage::RingWord(0),
            closing: false,
            last: 0,
            waiting: 0,
            requests,
            spare,
            ending: None,
            pool: Pool::new(),
            kept: Pool::new(),
            words: [0; 128],
            told: None,
        })
    }
}

impl Front {
    // The shape of its ring.
    fn shape(&self) -> RingShape
        ensures { result ≡ self.now.shape }
    {
        RingShape::of(self.abi, self.order)
    }

    /// How many pages its ring has.
    #[tactic(auto, using(crate::proofs::Shapes::few_pages))]
    pub fn pages(&self) -> u32
        ensures value { result ≡ 2 ^ self.now.shape.order }
        ensures few { result ≤ 16 }
    {
        1 << self.order
    }

    /// What it asks where that is a word of a request's data, as most of its moves are. `None` elsewhere, at the first
    /// word of a write, and for data that a suspend left to be told.
    #[inline(always)]
    pub fn data_asked(&self) -> Option<FrontAsk<'_>>
        ensures value { result ≡ data_asked self.now }
        ensures asked { IfSome result (λ ask. Asks ask (ask_as self.now)) }
    {
        match self.stage {
            FrontStage::Data(n) => Some(self.issue_data(n)),
            FrontStage::ReadData(n) => Some(self.read_word(n)),
            _ => None,
        }
    }

    // The request that is issued next.
    #[inline(always)]
    fn next_request(&self) -> Option<&Request>
        ensures value { option_copied result ≡ next_request self.now }
        ensures shaped { IfSome result (λ r. IsShaped r.now) }
    {
        if self.waiting == 0 {
            return None;
        }
        let first = self.requests.len() - self.waiting as usize;
        self.requests.get(first)
    }

    // What is asked where nothing was begun.
    fn ask_in_loop(&self) -> FrontAsk<'_>
        ensures { Asks result (loop_ask_as self.now (next_request self.now)) }
    {
        if let Some(r) = self.next_request() {
            return self.issue(r);
        }
        if self.ring.asleep || self.is_through() {
            FrontAsk::Wait
        } else if self.ring.indices.unconsumed(self.ring.seen) == 0 {
            read(place::RING_FRAME, RSP_PROD)
        } else {
            self.read_response(0)
        }
    }

    // Whether it closes, and has no request left.
    fn is_through(&self) -> bool
        ensures { result ≡ is_through self.now }
    {
        self.closing && self.requests.is_empty()
    }

    // Reads a word of the next response.
    #[tactic(auto, using(crate::proofs::Shapes::wide_entries))]
    fn read_response(&self, word: u32) -> FrontAsk<'_>
        requires { word < 3 }
        ensures { Asks result (response_ask self.now word) }
    {
        let (frame, place) = place::slot(self.shape(), self.ring.indices.cons(), word);
        read(frame, place)
    }

    // Writes a word of the next request's entry.
    fn write_slot(&self, word: u32) -> FrontAsk<'_>
        requires { word < entry_words_of self.now.shape.abi }
        ensures { Asks result (entry_ask self.now self.now.ring.entry word) }
    {
        self.write_entry(self.ring.entry.as_slice(), word)
    }

    // The same, of an entry of these words.
    #[inline(always)]
    fn write_entry(&self, entry: &[u32], word: u32) -> FrontAsk<'_>
        requires { word < entry_words_of self.now.shape.abi }
        ensures { Asks result (entry_ask self.now entry.now word) }
    {
        let (frame, place) = place::slot(self.shape(), self.ring.indices.prod(), word);
        write(frame, place, entry.get(word as usize).copied().unwrap_or(0))
    }

    // A request is begun: a write or a barrier with its data, a read with its indirect pages or its
    // grants, one without frames with its entry.
    #[inline(always)]
    fn issue(&self, r: &Request) -> FrontAsk<'_>
        requires { IsShaped r.now }
        ensures { Asks result (issue_ask_as self.now r.now r.now.transfer) }
    {
        match r.transfer {
            Transfer::Write(_) | Transfer::Barrier(_) => write_data(r, 0),
            Transfer::Read if is_indirect(r.count) => write_page(r, 0),
            Transfer::Read => self.issue_read(r),
            Transfer::Flush | Transfer::Discard(_) => self.write_first(r),
        }
    }

    // Begins the grant of the first frame that is to be granted, or the entry where none is.
    #[inline(never)]
    fn issue_read(&self, r: &Request) -> FrontAsk<'_>
        requires { IsShaped r.now }
        ensures { Asks result (name_or_enter self.now r.now (first_place self.now r.now)) }
    {
        match self.first_place(r) {
            Some(place) => write_frame(&r.frame(place)),
            None => self.write_first(r),
        }
    }

    // The first of its frames from this place on whose grant isn't kept.
    fn ungranted(&self, r: &Request, place: u32) -> Option<u32>
        ensures value { result ≡ ungranted self.now r.now place }
        ensures within { IfSome result (λ place. place < 962) }
    {
        let frames = r.frames.as_slice();
        let place = self.kept.untaken_from(frames, place as usize)?;
        Some(place as u32)
    }

    // The place of its frame that is granted first, where one is to be.
    fn first_place(&self, r: &Request) -> Option<u32>
        ensures value { result ≡ first_place self.now r.now }
        ensures within { IfSome result (λ place. place < 962) }
    {
        if self.offers.persistent {
            self.ungranted(r, 0)
        } else {
            Some(0)
        }
    }

    // The place of its frame that is granted next, from this place on.
    fn next_place(&self, r: &Request, place: u32) -> Option<u32>
        ensures value { result ≡ next_place self.now r.now place }
        ensures within { IfSome result (λ place. place < 962) }
    {
        if self.offers.persistent {
            self.ungranted(r, place)
        } else if place < r.frames.len() as u32 {
            Some(place)
        } else {
            None
        }
    }

    // Writes the first word of the entry of a request that has no frame to be granted.
    #[inline(never)]
    #[tactic(auto, using(crate::proofs::Shapes::wide_entries))]
    fn write_first(&self, r: &Request) -> FrontAsk<'_>
        requires { IsShaped r.now }
        ensures { Asks result (entry_ask self.now (entry_of self.now.shape.abi r.now) 0) }
    {
        let entry = request_words(self.abi, &wire(r));
        self.write_entry(entry.as_slice(), 0)
    }

    // Writes a word of the data of the request that is issued next.
    #[inline(always)]
    fn issue_data(&self, n: u32) -> FrontAsk<'_>
        ensures { Asks result (data_ask (next_request self.now) n) }
    {
        match self.next_request() {
            Some(r) => write_data(r, n),
            None => FrontAsk::Wait,
        }
    }

    // Writes a word of its indirect pages.
    fn issue_page(&self, n: u32) -> FrontAsk<'_>
        requires { n < 1920 }
        ensures { Asks result (page_ask (next_request self.now) n) }
    {
        match self.next_request() {
            Some(r) => write_page(r, n),
            None => FrontAsk::Wait,
        }
    }

    // Names its frame of this place in the frame's grant entry.
    fn name_frame(&self, place: u32) -> FrontAsk<'_>
        ensures { Asks result (name_ask (next_request self.now) place) }
    {
        match self.next_request() {
            Some(r) => write_frame(&r.frame(place)),
            None => FrontAsk::Wait,
        }
    }

    // Grants its frame of this place.
    fn grant_frame(&self, place: u32) -> FrontAsk<'_>
        ensures { Asks result (grant_ask_as self.now.offers.persistent (next_request self.now) place) }
    {
        match self.next_request() {
            Some(r) => write_flags(&r.frame(place), self.flags_at(r, place)),
            None => FrontAsk::Wait,
        }
    }

    // The flags of its grant: one that is kept is for reading and writing.
    fn flags_at(&self, r: &Request, place: u32) -> u32
        ensures { result ≡ flags_as self.now.offers.persistent r.now place }
    {
        if self.offers.persistent {
            GTF_PERMIT_ACCESS
        } else {
            r.flags_at(place)
        }
    }

    // Reads the flags of the ending request's frame of this place.
    fn read_grant(&self, place: u32) -> FrontAsk<'_>
        ensures { Asks result (revoke_ask self.now.ending place) }
    {
        match &self.ending {
            Some(ending) => read_flags(&ending.request.frame(place)),
            None => FrontAsk::Wait,
        }
    }

    // Ends the grant of its frame of this place.
    fn end_grant_of(&self, place: u32, seen: u32) -> FrontAsk<'_>
        ensures { Asks result (end_ask self.now.ending place seen) }
    {
        match &self.ending {
            Some(ending) => end_grant(&ending.request.frame(place), seen),
            None => FrontAsk::Wait,
        }
    }

    // Reads a word of its data.
    #[inline(always)]
    fn read_word(&self, n: u32) -> FrontAsk<'_>
        ensures { Asks result (read_ask self.now.ending n) }
    {
        match &self.ending {
            Some(ending) => read(ending.request.frame(n / 1024).number(), n % 1024),
            None => FrontAsk::Wait,
        }
    }
}

// A word of a write's data is written.
fn write_data<'a>(r: &Request, n: u32) -> FrontAsk<'a>
    ensures { Asks result (data_ask (Some r.now) n) }
{
    write(r.frame(n / 1024).number(), n % 1024, r.transfer.filling(n))
}

// A word of its segments is written into an indirect page.
fn write_page<'a>(r: &Request, n: u32) -> FrontAsk<'a>
    requires { n < 1920 }
    ensures { Asks result (page_ask (Some r.now) n) }
{
    write(r.page_at(n / 1024).number(), n % 1024, r.naming_at(n))
}

// One word of memory is read.
fn read<'a>(frame: u32, word: u32) -> FrontAsk<'a>
    requires { IsPlace frame word }
    ensures { Asks result (FrontAsk.Read frame word) }
{
    FrontAsk::Read { frame, word }
}

// One word of memory is written.
fn write<'a>(frame: u32, word: u32, value: u32) -> FrontAsk<'a>
    requires { IsPlace frame word }
    ensures { Asks result (FrontAsk.Write frame word value) }
{
    FrontAsk::Write { frame, word, value }
}

// A word of the ring's first frame is written.
fn write_ring<'a>(word: u32, value: u32) -> FrontAsk<'a>
    requires { word < 1024 }
    ensures { Asks result (FrontAsk.Write ring_frame word value) }
{
    write(place::RING_FRAME, word, value)
}

// The first word of a frame's grant entry is written.
fn write_flags<'a>(frame: &PoolFrame, flags: u32) -> FrontAsk<'a>
    ensures { Asks result (FrontAsk.Write (entry_frame frame.now) (entry_word frame.now) flags) }
{
    let (entry, word) = place::entry(frame);
    write(entry, word, flags)
}

// The second word of a frame's grant entry is written.
fn write_frame<'a>(frame: &PoolFrame) -> FrontAsk<'a>
    ensures { Asks result (FrontAsk.Write (entry_frame frame.now) (entry_word frame.now + 1) frame.now) }
{
    let (entry, word) = place::entry(frame);
    write(entry, word + 1, frame.number())
}

// The first word of a frame's grant entry is read.
fn read_flags<'a>(frame: &PoolFrame) -> FrontAsk<'a>
    ensures { Asks result (FrontAsk.Read (entry_frame frame.now) (entry_word frame.now)) }
{
    let (entry, word) = place::entry(frame);
    read(entry, word)
}

// The first word of a frame's grant entry becomes 0 if it is still this one.
fn end_grant<'a>(frame: &PoolFrame, old: u32) -> FrontAsk<'a>
    ensures { Asks result (FrontAsk.Cas (entry_frame frame.now) (entry_word frame.now) old 0) }
{
    let (frame, word) = place::entry(frame);
    FrontAsk::Cas {
        frame,
        word,
        old,
        new: 0,
    }
}

// The second word of the grant entry of a page of the ring is written.
fn name_page<'a>(page: u32) -> FrontAsk<'a>
    requires { page < 16 }
    ensures { let frame = ring_page_frame page in Asks result (FrontAsk.Write (entry_frame frame) (entry_word frame + 1) frame) }
{
    let (entry, word) = place::ring_entry(page);
    write(entry, word + 1, place::ring_page(page))
}

// Its first word is written.
fn grant_page<'a>(page: u32) -> FrontAsk<'a>
    requires { page < 16 }
    ensures { let frame = ring_page_frame page in Asks result (FrontAsk.Write (entry_frame frame) (entry_word frame) 1) }
{
    let (entry, word) = place::ring_entry(page);
    write(entry, word, GTF_PERMIT_ACCESS)
}

// Its first word is read.
fn read_page_grant<'a>(page: u32) -> FrontAsk<'a>
    requires { page < 16 }
    ensures { let frame = ring_page_frame page in Asks result (FrontAsk.Read (entry_frame frame) (entry_word frame)) }
{
    let (entry, word) = place::ring_entry(page);
    read(entry, word)
}

// Its first word becomes 0 if it is still this one.
fn end_page_grant<'a>(page: u32, old: u32) -> FrontAsk<'a>
    requires { page < 16 }
    ensures { let frame = ring_page_frame page in Asks result (FrontAsk.Cas (entry_frame frame) (entry_word frame) old 0) }
{
    let (frame, word) = place::ring_entry(page);
    FrontAsk::Cas {
        frame,
        word,
        old,
        new: 0,
    }
}

impl<'a> Endpoint<'a> for Front {
    ghost use Rattle.std.specs.Prelude.{None};
    ghost use Rattle.blk_front.specs.Ask.{IsAnswer};
    ghost use Rattle.blk_front.specs.Keep.{ask_as};

    type Ask = FrontAsk<'a>;

    type Answer = FrontAnswer<'a>;

    ghost asked = { ask_as };

    ghost MayTell = { λ front answer. IsAnswer (ask_as front) answer × (front.told ≡ None) };

    #[inline(always)]
    #[tactic(auto, using(crate::proofs::Shapes::few_pages))]
    fn ask(&'a self) -> FrontAsk<'a>
        ensures value { result ≡ ask_as self.now }
        ensures within { StaysInMemory result }
    {
        match self.stage {
            FrontStage::RingWord(word) => write_ring(word, place::fresh(self.start, word)),
            FrontStage::RingFrame(page) => name_page(page),
            FrontStage::RingFence(_) => FrontAsk::Fence,
            FrontStage::RingFlags(page) => grant_page(page),
            FrontStage::NewPort => FrontAsk::NewPort,
            FrontStage::Initialised => FrontAsk::Wait,
            FrontStage::Loop => self.ask_in_loop(),
            FrontStage::Data(n) => self.issue_data(n),
            FrontStage::Pages(n) => self.issue_page(n),
            FrontStage::GrantFrame(place) => self.name_frame(place),
            FrontStage::GrantFence(_) => FrontAsk::Fence,
            FrontStage::GrantFlags(place) => self.grant_frame(place),
            FrontStage::Slot(word) => self.write_slot(word),
            FrontStage::Producer => write_ring(REQ_PROD, self.ring.indices.prod().wrapping_add(1)),
            FrontStage::ProducerFence(_) => FrontAsk::Fence,
            FrontStage::RequestEvent(_) => read(place::RING_FRAME, REQ_EVENT),
            FrontStage::Send => FrontAsk::Send,
            FrontStage::ResponseHigh(_) => self.read_response(1),
            FrontStage::ResponseLast(_, _) => self.read_response(2),
            FrontStage::GrantRead(place) => self.read_grant(place),
            FrontStage::GrantEnd(place, seen) => self.end_grant_of(place, seen),
            FrontStage::ReadData(n) | FrontStage::LeftData(n) => self.read_word(n),
            FrontStage::StoreEvent => {
                write_ring(RSP_EVENT, self.ring.indices.cons().wrapping_add(1))
            }
            FrontStage::EventFence => FrontAsk::Fence,
            FrontStage::LookAgain => read(place::RING_FRAME, RSP_PROD),
            FrontStage::RingRead(page) => read_page_grant(page),
            FrontStage::RingEnd(page, seen) => end_page_grant(page, seen),
            FrontStage::KeptRead(frame) => read_flags(&PoolFrame::of(frame)),
            FrontStage::KeptEnd(frame, seen) => end_grant(&PoolFrame::of(frame), seen),
            FrontStage::ClosePort => FrontAsk::ClosePort,
            FrontStage::Left | FrontStage::Closed | FrontStage::Broken(_) => FrontAsk::Wait,
        }
    }

    #[inline(always)]
    fn tell(&mut self, answer: &FrontAnswer<'a>) -> Result<(), OutOfMemory>
        requires { IsAnswer (ask_as self.old) answer.now × (self.old.told ≡ None) }
        ensures completed { self.new ≡ step_as self.old answer.now }
        ensures takes_no_memory { IsOk result }
    {
        match (self.stage, answer) {
            (FrontStage::RingWord(word), _) => self.wrote_ring_word(word),
            (FrontStage::RingFrame(page), _) => self.stage = FrontStage::RingFence(page),
            (FrontStage::RingFence(page), _) => self.stage = FrontStage::RingFlags(page),
            (FrontStage::RingFlags(page), _) => self.granted_page(page),
            (FrontStage::NewPort, _) => self.stage = FrontStage::Initialised,
            (FrontStage::Loop, answer) => self.begin(answer),
            (FrontStage::Data(n), _) => self.wrote_data(n),
            (FrontStage::Pages(n), _) => self.wrote_page(n),
            (FrontStage::GrantFrame(place), _) => self.stage = FrontStage::GrantFence(place),
            (FrontStage::GrantFence(place), _) => self.stage = FrontStage::GrantFlags(place),
            (FrontStage::GrantFlags(place), _) => self.granted(place),
            (FrontStage::Slot(word), _) => self.wrote_slot(word),
            (FrontStage::Producer, _) => self.pushed(),
            (FrontStage::ProducerFence(old), _) => self.stage = FrontStage::RequestEvent(old),
            (FrontStage::RequestEvent(old), FrontAnswer::Word(event)) => self.notify(old, *event),
            (FrontStage::Send, _) => self.stage = FrontStage::Loop,
            (FrontStage::ResponseHigh(low), FrontAnswer::Word(high)) => {
                self.stage = FrontStage::ResponseLast(low, *high);
            }
            (FrontStage::ResponseLast(low, high), FrontAnswer::Word(last)) => {
                self.take_response(low, high, *last);
            }
            (FrontStage::GrantRead(place), FrontAnswer::Word(word)) => self.end_grant(place, *word),
            (FrontStage::GrantEnd(place, before), FrontAnswer::Word(word)) => {
                self.ended_grant(place, before, *word);
            }
            (FrontStage::ReadData(n), FrontAnswer::Word(word)) => self.read_data(n, *word),
            (FrontStage::LeftData(n), FrontAnswer::Word(word)) => self.read_left(n, *word),
            (FrontStage::StoreEvent, _) => self.stage = FrontStage::EventFence,
            (FrontStage::EventFence, _) => self.stage = FrontStage::LookAgain,
            (FrontStage::LookAgain, FrontAnswer::Word(word)) => self.look_again(*word),
            (FrontStage::RingRead(page), FrontAnswer::Word(word)) => self.read_ring_grant(
                page, *word,
            ),
            (FrontStage::RingEnd(page, seen), FrontAnswer::Word(word)) => {
                self.ended_ring_grant(page, seen, *word);
            }
            (FrontStage::KeptRead(frame), FrontAnswer::Word(word)) => self.read_kept(frame, *word),
            (FrontStage::KeptEnd(frame, seen), FrontAnswer::Word(word)) => {
                self.ended_kept(frame, seen, *word);
            }
            (FrontStage::ClosePort, _) => self.stage = FrontStage::Left,
            _ => {}
        }
        Ok(())
    }
}
