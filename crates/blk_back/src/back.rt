// The back end.
ghost use Rattle.std.specs.Prelude.{◌≡◌, ◌<◌, ◌≤◌, IfOk, IsOk, IsErr, None, length};
ghost use Rattle.ring_words.specs.Shape.{entry_words_of};
ghost use Rattle.blk_back.specs.View.{start_of, new_of, page_of, slot_page, slot_word};
ghost use Rattle.blk_back.specs.Ask.{ask_of, loop_ask, reply_ask, entry_ask, index_ask, unmap_ask, next_gref, next_reply, response_word, IsAnswer, StaysInPage};
ghost use Rattle.blk_back.specs.Keeping.{step_keeping};
ghost use Rattle.blk_back.specs.Hands.{hands_of, all_hands_of, most_held, most_with_kept};
ghost use Rattle.blk_base.specs.declared.parts.Mode.TheVariants.{ReadWrite};
ghost use Rattle.back_jobs.specs.Hands.{Names, HandsKeep};
ghost use Rattle.back_jobs.specs.Jobs.{ask_job, next_after};
ghost use Rattle.back_jobs.specs.Work.{IsAnswer as IsJobAnswer};

mod jobs;
mod parts;
mod steps;

use crate::stage::{BackStage, Reply};
use crate::told::BackTold;
use arrayvec::ArrayVec;
use back_jobs::Jobs;
use blk_base::{Abi, BackAnswer, BackAsk, Config, Endpoint, Halt, Mapping, Mode, OutOfMemory};
use blk_layout::{MOST_ENTRY_WORDS, Response, response_words};
use ring_words::{BackRing, REQ_EVENT, REQ_PROD, RSP_EVENT, RSP_PROD, RingShape};
use segment_list::DiskInfo;
use std::alloc::Global;
use std::marker::Model;

// What belongs to one ring (`struct xen_blkif_ring` of Linux's back): its own indices, whether the
// back sleeps, the requests' producer as last read, the front's port, and the words of the entry in
// hand.
#[derive(Drop)]
struct RingInfo {
    indices: BackRing,
    asleep: bool,
    seen: u32,
    port: u32,
    entry: ArrayVec<u32, MOST_ENTRY_WORDS>,
}

/// The back end of a ring, of the shape that its front's terms say (`attach`). Its jobs move apart from it,
/// and keep mappings where grants are persistent. After `new` it takes no memory.
#[derive(Drop)]
pub struct Back {
    ring: RingInfo,
    stage: BackStage,
    abi: Abi,
    order: u32,
    grefs: ArrayVec<u32, 16>,
    pages: ArrayVec<Mapping, 16>,
    fetched: u64,
    jobs: Jobs,
    told: Option<BackTold>,
    halted: Option<Halt>,
}

impl Model for Back {
    ghost use Rattle.blk_back.specs.View.{View};
    ghost use Rattle.blk_back.specs.Inside.{view_of};
    ghost use Rattle.blk_back.specs.Sound.{IsSound};

    ghost Value = { View };

    ghost view = { view_of };

    ghost invariant = { λ b. IsSound (view_of b) };
}

impl Back {
    /// A back that waits for the terms of its front, with room for the jobs of the largest ring. It
    /// fails only where there is not enough memory.
    pub fn new(alloc: Global, config: &Config) -> Result<Back, OutOfMemory>
        ensures { IfOk result (λ back. back ≡ start_of config.now) }
    {
        let info = DiskInfo {
            sectors: config.sectors,
            read_only: config.read_only,
            barrier: !config.read_only,
            flush: !config.read_only,
            discard: !config.read_only,
            max_indirect: config.indirect,
        };
        Back::of(alloc, config.start, info)
    }

    /// A new back of the same disk, which waits for the terms of its front, of a ring of this first
    /// index. It fails only where there is not enough memory.
    pub fn renewed(&self, alloc: Global, start: u32) -> Result<Back, OutOfMemory>
        ensures { IfOk result (λ back. back ≡ new_of start self.now.jobs.info) }
    {
        Back::of(alloc, start, self.jobs.info())
    }

    // A back of this disk, of a ring of this first index.
    fn of(alloc: Global, start: u32, info: DiskInfo) -> Result<Back, OutOfMemory>
        ensures { IfOk result (λ back. back ≡ new_of start info) }
    {
        let shape = RingShape::of(Abi::X64, 0);
        let largest = RingShape::of(Abi::X64, 4);
        // Whether mappings are kept its front's terms say.
        let jobs = Jobs::reserve(alloc, largest, info, 0)?;
        Ok(Back {
            ring: RingInfo {
                indices: BackRing::attach(shape, start),
                asleep: false,
                seen: start,
                port: 0,
                entry: ArrayVec::new(),
            },
            stage: BackStage::InitWait,
            abi: Abi::X64,
            order: 0,
            grefs: ArrayVec::new(),
            pages: ArrayVec::new(),
            fetched: 0,
            jobs,
            told: None,
            halted: None,
        })
    }
}

impl Back {
    // The response to the lowest job that is done.
    fn next_reply(&self) -> Option<Reply>
        ensures { result ≡ next_reply self.now }
    {
        match self.jobs.done() {
            None => None,
            Some((_, id, op, status)) => Some(Reply { id, op, status }),
        }
    }

    // What is asked where nothing was begun.
    fn ask_in_loop(&self) -> BackAsk<'_>
        ensures value { result ≡ loop_ask self.now (next_reply self.now) }
        ensures within { StaysInPage result }
    {
        if let Some(r) = self.next_reply() {
            return self.write_reply(&r, 0);
        }
        if self.ring.asleep {
            BackAsk::Wait
        } else if self.ring.indices.unconsumed(self.ring.seen) == 0 {
            self.read_index(REQ_PROD)
        } else {
            self.read_entry(0)
        }
    }

    // The shape of its ring.
    #[inline(always)]
    pub(super) fn shape(&self) -> RingShape
        ensures { result ≡ self.now.shape }
    {
        RingShape::of(self.abi, self.order)
    }

    // The ring's page of this number.
    #[inline(always)]
    fn page(&self, page: u32) -> Mapping
        ensures { result ≡ page_of self.now page }
    {
        match self.pages.as_slice().get(page as usize) {
            Some(mapping) => *mapping,
            None => Mapping::default(),
        }
    }

    // Reads a word of the ring's first page, of those that both ends share.
    fn read_index(&self, word: u32) -> BackAsk<'_>
        requires { word < 1024 }
        ensures value { result ≡ index_ask self.now word }
        ensures within { StaysInPage result }
    {
        BackAsk::Read {
            mapping: self.page(0),
            word,
        }
    }

    // Writes a word of the ring's first page.
    fn write_index(&self, word: u32, value: u32) -> BackAsk<'_>
        requires { word < 1024 }
        ensures value { result ≡ BackAsk.Write (page_of self.now 0) word value }
        ensures within { StaysInPage result }
    {
        BackAsk::Write {
            mapping: self.page(0),
            word,
            value,
        }
    }

    // Reads a word of the next entry.
    fn read_entry(&self, word: u32) -> BackAsk<'_>
        requires { word < entry_words_of self.now.shape.abi }
        ensures value { result ≡ entry_ask self.now word }
        ensures within { StaysInPage result }
    {
        let (page, word) = self.shape().slot_word(self.ring.indices.cons(), word);
        BackAsk::Read {
            mapping: self.page(page),
            word,
        }
    }

    // Writes a word of the next response.
    fn write_reply(&self, r: &Reply, word: u32) -> BackAsk<'_>
        requires { word < 3 }
        ensures value { result ≡ reply_ask self.now r.now word }
        ensures within { StaysInPage result }
    {
        let words = response_words(&Response {
            id: r.id,
            op: r.op,
            status: r.status,
        });
        let value = words[word as usize];
        let (page, word) = self.shape().slot_word(self.ring.indices.prod(), word);
        BackAsk::Write {
            mapping: self.page(page),
            word,
            value,
        }
    }

    // The reference of the page that is mapped next.
    fn next_gref(&self) -> u32
        ensures { result ≡ next_gref self.now }
    {
        let next = self.grefs.as_slice().get(self.pages.len());
        next.copied().unwrap_or(0)
    }

    // Unmaps the first page of the ring that is still mapped.
    #[inline(never)]
    fn unmap_ring(&self) -> BackAsk<'_>
        ensures { result ≡ unmap_ask self.now.pages }
    {
        match self.pages.as_slice().first() {
            Some(page) => BackAsk::Unmap(*page),
            None => BackAsk::Wait,
        }
    }

    // Maps the ring's next page.
    #[inline(never)]
    fn map_ring(&self) -> BackAsk<'_>
        ensures { result ≡ BackAsk.Map (next_gref self.now) ReadWrite }
    {
        BackAsk::Map {
            gref: self.next_gref(),
            mode: Mode::ReadWrite,
        }
    }
}

impl<'a> Endpoint<'a> for Back {
    ghost use Rattle.std.specs.Prelude.{None};
    ghost use Rattle.blk_back.specs.Ask.{ask_of, IsAnswer};

    type Ask = BackAsk<'a>;

    type Answer = BackAnswer<'a>;

    ghost asked = { ask_of };

    ghost MayTell = { λ back answer. IsAnswer (ask_of back) answer × (back.told ≡ None) };

    #[inline(always)]
    fn ask(&'a self) -> BackAsk<'a>
        ensures value { result ≡ ask_of self.now }
        ensures within { StaysInPage result }
        ensures names { Names (hands_of self.now) result }
        ensures few { length (hands_of self.now) ≤ most_held }
        ensures few_kept { length (all_hands_of self.now) ≤ most_with_kept }
    {
        // Opens the back, for what is true of it at every moment.
        let _ = &self.ring.port;
        self.next_ask()
    }

    fn tell(&mut self, answer: &BackAnswer<'a>) -> Result<(), OutOfMemory>
        requires { IsAnswer (ask_of self.old) answer.now × (self.old.told ≡ None) }
        ensures completed { self.new ≡ step_keeping self.old answer.now }
        ensures hands { HandsKeep (ask_of self.old) answer.now (all_hands_of self.old) (all_hands_of self.new) }
        ensures takes_no_memory { IsOk result }
    {
        self.step(answer);
        Ok(())
    }
}

impl Back {
    // What is asked at each stage.
    #[inline(always)]
    fn next_ask(&self) -> BackAsk<'_>
        ensures value { result ≡ ask_of self.now }
        ensures within { StaysInPage result }
    {
        match self.stage {
            BackStage::InitWait => BackAsk::Wait,
            BackStage::MapRing => self.map_ring(),
            BackStage::Bind => BackAsk::Bind(self.ring.port),
            BackStage::Loop => self.ask_in_loop(),
            BackStage::Fetch(word) => self.read_entry(word),
            BackStage::ReplyHigh(r) => self.write_reply(&r, 1),
            BackStage::ReplyLast(r) => self.write_reply(&r, 2),
            BackStage::Producer(_) => self.write_index(
                RSP_PROD,
                self.ring.indices.prod().wrapping_add(1),
            ),
            BackStage::ProducerFence(_) => BackAsk::Fence,
            BackStage::ResponseEvent(_) => self.read_index(RSP_EVENT),
            BackStage::Send => BackAsk::Send,
            BackStage::StoreEvent => self.write_index(
                REQ_EVENT,
                self.ring.indices.cons().wrapping_add(1),
            ),
            BackStage::EventFence => BackAsk::Fence,
            BackStage::LookAgain => self.read_index(REQ_PROD),
            BackStage::Abort(mapping) => BackAsk::Unmap(mapping),
            BackStage::UnmapRing => self.unmap_ring(),
            BackStage::ClosePort => BackAsk::ClosePort,
            BackStage::UnmapUnbound => self.unmap_ring(),
            BackStage::Halted => BackAsk::Wait,
        }
    }

    // What an answer makes of it at each stage.
    fn step(&mut self, answer: &BackAnswer)
        requires { IsAnswer (ask_of self.old) answer.now }
        ensures { self.new ≡ step_keeping self.old answer.now }
    {
        match (self.stage, answer) {
            (BackStage::MapRing, BackAnswer::Mapped(mapping)) => self.mapped(*mapping),
            (BackStage::MapRing, BackAnswer::MapRefused(status)) => self.refused(*status),
            (BackStage::Bind, BackAnswer::Done) => self.stage = BackStage::Loop,
            (BackStage::Bind, BackAnswer::BindRefused) => self.unbound(),
            (BackStage::Loop, answer) => self.begin(answer),
            (BackStage::Fetch(k), BackAnswer::Word(word)) => self.fetch(k, *word),
            (BackStage::ReplyHigh(r), _) => self.stage = BackStage::ReplyLast(r),
            (BackStage::ReplyLast(r), _) => self.stage = BackStage::Producer(r),
            (BackStage::Producer(r), _) => self.replied(r),
            (BackStage::ProducerFence(old), _) => self.stage = BackStage::ResponseEvent(old),
            (BackStage::ResponseEvent(old), BackAnswer::Word(event)) => self.notify(old, *event),
            (BackStage::Send, _) => self.stage = BackStage::Loop,
            (BackStage::StoreEvent, _) => self.stage = BackStage::EventFence,
            (BackStage::EventFence, _) => self.stage = BackStage::LookAgain,
            (BackStage::LookAgain, BackAnswer::Word(word)) => self.look_again(*word),
            (BackStage::Abort(_), _) => self.abort(),
            (BackStage::UnmapRing, _) => self.unmapped(),
            (BackStage::ClosePort, _) => self.stage = BackStage::Halted,
            (BackStage::UnmapUnbound, _) => self.unmapped_unbound(),
            _ => {}
        }
    }
}
