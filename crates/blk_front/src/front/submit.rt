// What the front is handed, and what it tells.
ghost use Rattle.std.specs.Prelude.{◌≡◌, ◌≤◌, ◌<◌, ◌+◌, ◌*◌, ◌==◌, if◌then◌else◌, true, false, [], None, All, length, sum_by, is_some, option_map, IfSome, IsSome};
ghost use Rattle.blk_front.specs.Suspend.{is_left};
ghost use Rattle.ring_words.specs.Shape.{entries_of};
ghost use Rattle.blk_front.specs.declared.request.Request.{Request};
ghost use Rattle.blk_front.specs.Request.{IsShaped, IsCounted, is_moving};
ghost use Rattle.blk_front.specs.Keep.{ask_as, is_idle_as};
ghost use Rattle.blk_front.specs.Submit.{submit_of, submit_one, is_ready, is_connected, is_initialised, wish_of, submit_with, most_segments, frames_taken, unfinished, ending_of, ending_sectors, sectors_owed, is_wait};
ghost use Rattle.blk_front.specs.Pool.{taking};

use super::Front;
use crate::frames::FrameList;
use crate::pool::Pool;
use crate::request::{
    MAX_INDIRECT_SEGMENTS, MAX_SEGMENTS, Request, Transfer, Wish, frames_for, pages_for,
};
use crate::stage::FrontStage;
use crate::state::Offers;
use crate::told::Told;
use blk_base::{Endpoint, FrontAsk, Refusal, Submission};

impl Front {
    /// Hands the front a request, and answers its number, one more than the last. A refusal is the
    /// first that applies, exactly where it does, and changes nothing; the disk's sectors, and whether it
    /// is read-only, are those that the front connected with. It takes no memory.
    pub fn submit(&mut self, submission: Submission) -> Result<u32, Refusal>
        ensures answer { result ≡ (submit_of self.old submission).0 }
        ensures front { self.new ≡ (submit_of self.old submission).1 }
    {
        if self.last == 4294967295 {
            return Err(Refusal::Spent);
        }
        if self.closing {
            return Err(Refusal::Closing);
        }
        if !is_ready(self.stage) {
            return Err(Refusal::NotReady);
        }
        let Some(wish) = wish_of(self.offers, &submission) else {
            return Err(Refusal::Unsupported);
        };
        if self.offers.read_only
            && matches!(wish.transfer, Transfer::Write(_) | Transfer::Barrier(_))
        {
            return Err(Refusal::ReadOnly);
        }
        let count = u64::from(wish.transfer.named(wish.count));
        let sectors = self.offers.sectors;
        if count > sectors || wish.sector > sectors - count {
            return Err(Refusal::Range);
        }
        if frames_for(wish.count) > most_segments(self.offers, wish.transfer) {
            return Err(Refusal::Long);
        }
        if self.unfinished() >= self.shape().entries() {
            return Err(Refusal::Full);
        }
        self.accept(wish)
    }

    // Queues the next request, where its frames are free.
    #[tactic(auto, using(crate::proofs::Shapes::few_pages))]
    fn accept(&mut self, wish: Wish) -> Result<u32, Refusal>
        requires spent { self.old.last < 4294967295 }
        requires ready { is_ready self.old.stage ≡ true }
        requires room { unfinished self.old < entries_of self.old.shape.order }
        requires counted { IsCounted wish.transfer wish.count }
        ensures answer { result ≡ (submit_with self.old wish (taking (frames_taken wish.count) self.old.pool [])).0 }
        ensures front { self.new ≡ (submit_with self.old wish (taking (frames_taken wish.count) self.old.pool [])).1 }
    {
        let needed = frames_for(wish.count) + pages_for(wish.count);
        let mut frames = self.spare.take();
        let Some(pool) = take_frames(self.pool, needed, &mut frames) else {
            self.spare.give(frames);
            return Err(Refusal::Buffers);
        };
        let number = self.last + 1;
        self.pool = pool;
        self.requests.add(Request {
            number,
            sector: wish.sector,
            count: wish.count,
            transfer: wish.transfer,
            frames,
        });
        self.last = number;
        self.waiting += 1;
        Ok(number)
    }

    // How many requests are unfinished.
    #[tactic(auto, using(crate::proofs::Shapes::few_pages))]
    fn unfinished(&self) -> u32
        ensures value { result ≡ unfinished self.now }
        ensures few { result ≤ 512 }
    {
        self.requests.len() as u32 + ending_of(self.stage)
    }

    /// The first index of its ring.
    pub fn start(&self) -> u32
        ensures { result ≡ self.now.start }
    {
        self.start
    }

    /// What it is doing.
    #[inline(always)]
    pub fn stage(&self) -> FrontStage
        ensures { result ≡ self.now.stage }
    {
        self.stage
    }

    /// Whether its ring and the port of its events are made, or it is past that.
    pub fn is_connected(&self) -> bool
        ensures { result ≡ is_connected self.now.stage }
    {
        !matches!(
            self.stage,
            FrontStage::RingWord(_)
                | FrontStage::RingFrame(_)
                | FrontStage::RingFence(_)
                | FrontStage::RingFlags(_)
                | FrontStage::NewPort
                | FrontStage::LeftData(_)
        )
    }

    /// Whether data are in hand after a suspend, which it tells before anything else.
    pub fn has_left(&self) -> bool
        ensures value { result ≡ is_left self.now.stage }
        ensures held { result ≡ true → IsSome self.now.ending }
    {
        // Opens the front, for what is true of it at every moment.
        let _ = &self.ending;
        matches!(self.stage, FrontStage::LeftData(_))
    }

    /// Whether it is connected, closed or broken, and asks for nothing but an event.
    #[inline(always)]
    pub fn idle(&self) -> bool
        ensures { result ≡ is_idle_as self.now }
    {
        // Most moves are of a sector's words, and no such move waits.
        if let FrontStage::Data(_) = self.stage {
            return self.waiting == 0;
        }
        if let FrontStage::ReadData(_) = self.stage {
            return self.ending.is_none();
        }
        self.waits()
    }

    // The same, at any stage.
    #[inline(never)]
    fn waits(&self) -> bool
        ensures { result ≡ is_idle_as self.now }
    {
        !matches!(self.stage, FrontStage::Initialised | FrontStage::Left)
            && matches!(self.ask(), FrontAsk::Wait)
    }

    /// How many requests are unfinished, and how many sectors they move.
    pub fn owed(&self) -> (u32, u64)
        ensures requests { result.0 ≡ unfinished self.now }
        ensures sectors { result.1 ≡ sectors_owed self.now }
        ensures few { result.0 ≤ 512 }
        ensures short { result.1 ≤ 3939840 }
    {
        let requests = self.unfinished();
        let sectors = sectors_of(self.requests.in_order());
        (requests, sectors + self.ending_sectors())
    }

    // The sectors of the request that is ending.
    fn ending_sectors(&self) -> u64
        ensures value { result ≡ (if ending_of self.now.stage == 0 then 0 else ending_sectors self.now.ending) }
        ensures short { result ≤ 7680 }
    {
        match &self.ending {
            Some(ending) if ending_of(self.stage) == 1 => u64::from(ending.request.count),
            _ => 0,
        }
    }

    /// Whether something is left to tell.
    #[inline(always)]
    pub fn has_told(&self) -> bool
        ensures { result ≡ is_some self.now.told }
    {
        self.told.is_some()
    }

    /// What happened in the last move, once; `None` exactly where nothing is left to tell.
    pub fn take_told(&mut self) -> Option<Told>
        ensures told { result ≡ self.old.told }
        ensures taken { self.new ≡ record self.old { told = None } }
    {
        match self.told {
            None => None,
            Some(_) => self.told.take(),
        }
    }
}

// A request whose grants are being ended, or whose data are told, is unfinished still.
fn ending_of(stage: FrontStage) -> u32
    ensures value { result ≡ ending_of stage }
    ensures few { result ≤ 1 }
{
    match stage {
        FrontStage::GrantRead(_) | FrontStage::GrantEnd(_, _) => 1,
        FrontStage::ReadData(_) | FrontStage::LeftData(_) => 1,
        _ => 0,
    }
}

// How many sectors these requests move, 7680 each at most.
fn sectors_of(requests: &[Request]) -> u64
    requires few { length requests.now ≤ 512 }
    requires shaped { All IsShaped requests.now }
    ensures value { result ≡ sum_by (λ (r : Request). r.count) requests.now }
    ensures short { result ≤ 7680 * length requests.now }
{
    let mut sectors = 0;
    for r in requests {
        sectors += u64::from(r.count);
    }
    sectors
}

// Whether a front at this stage is connected and not broken.
fn is_ready(stage: FrontStage) -> bool
    ensures { result ≡ is_ready stage }
{
    match stage {
        FrontStage::RingWord(_)
        | FrontStage::RingFrame(_)
        | FrontStage::RingFence(_)
        | FrontStage::RingFlags(_)
        | FrontStage::NewPort
        | FrontStage::Initialised
        | FrontStage::LeftData(_) => false,
        FrontStage::RingRead(_)
        | FrontStage::RingEnd(_, _)
        | FrontStage::KeptRead(_)
        | FrontStage::KeptEnd(_, _)
        | FrontStage::ClosePort
        | FrontStage::Left
        | FrontStage::Closed
        | FrontStage::Broken(_) => false,
        _ => true,
    }
}

// How many segments a request may have: what an entry has room for, and of a read or a write as many
// as the back takes in indirect pages.
fn most_segments(offers: Offers, transfer: Transfer) -> u32
    ensures { result ≡ most_segments offers transfer }
{
    if transfer.may_be_indirect() {
        MAX_SEGMENTS.max(MAX_INDIRECT_SEGMENTS.min(offers.indirect))
    } else {
        MAX_SEGMENTS
    }
}

// The sectors of a request, and what is done with them; `None` where the back doesn't serve it.
fn wish_of(offers: Offers, submission: &Submission) -> Option<Wish>
    ensures value { result ≡ wish_of offers submission.now }
    ensures some { IfSome result (λ wish. is_moving wish.transfer ≡ true → 1 ≤ wish.count) }
    ensures none { IfSome result (λ wish. is_moving wish.transfer ≡ false → wish.count ≡ 0) }
{
    match *submission {
        Submission::Read { sector, count } => Some(Wish {
            sector,
            count: count.get(),
            transfer: Transfer::Read,
        }),
        Submission::Write { sector, count, tag } => Some(Wish {
            sector,
            count: count.get(),
            transfer: Transfer::Write(tag),
        }),
        Submission::Barrier { sector, count, tag } if offers.barrier => Some(Wish {
            sector,
            count: count.get(),
            transfer: Transfer::Barrier(tag),
        }),
        Submission::Flush if offers.flush => Some(Wish {
            sector: 0,
            count: 0,
            transfer: Transfer::Flush,
        }),
        Submission::Discard { sector, count } if offers.discard => Some(Wish {
            sector,
            count: 0,
            transfer: Transfer::Discard(count.get()),
        }),
        _ => None,
    }
}

// The list becomes that of so many of the pool's free frames, the lowest ones; the pool with them in
// use, and `None` exactly where fewer are free.
fn take_frames(mut pool: Pool, needed: u32, frames: &mut FrameList) -> Option<Pool>
    requires { needed ≤ 962 }
    ensures value { option_map (λ after. (frames.new.items, after)) result ≡ taking needed pool [] }
    ensures length { IfSome result (λ after. length frames.new.items ≡ needed) }
{
    frames.clear();
    for _ in 0..needed {
        let frame = pool.lowest()?;
        pool.take(&frame);
        frames.push(frame);
    }
    Some(pool)
}
