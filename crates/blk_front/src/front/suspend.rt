// What a suspend makes of the front.
ghost use Rattle.std.specs.Prelude.{◌≡◌, ◌<◌, ◌≤◌, ◌+◌, length, None, IfSome};
ghost use Rattle.blk_front.specs.Sound.{IsOther};
ghost use Rattle.blk_front.specs.Submit.{ending_of};
ghost use Rattle.blk_front.specs.Suspend.{with_ending, requests_after, ending_after, stage_after, suspended};

use super::Front;
use crate::pool::Pool;
use crate::request::Request;
use crate::stage::{Ending, FrontStage};
use crate::state::Offers;
use resume_shadow::Shadow;
use ring_words::{FrontRing, RingShape};

impl Front {
    /// The domain was suspended and resumes: the ring, the port, all grants and what the back offered are
    /// gone. Each unfinished request whose answer wasn't told is issued again, in order of number, once
    /// the front is connected anew; the data of a read whose answer was told are told first, from the
    /// very word on. Frames and numbers stay, and whether it closes. On a closed or broken front nothing
    /// happens. It takes no memory.
    pub fn suspend(&mut self)
        ensures { self.new ≡ suspended self.old }
    {
        if matches!(self.stage, FrontStage::Closed | FrontStage::Broken(_)) {
            return;
        }
        put_back(self.stage, &mut self.requests, &mut self.ending);
        self.offers = Offers::none();
        self.ring.indices = FrontRing::attach(RingShape::of(self.abi, self.order), self.start);
        self.stage = stage_after(self.stage);
        self.kept = Pool::new();
        self.ring.asleep = false;
        self.ring.seen = self.start;
        self.waiting = self.requests.len() as u32;
    }
}

// Where the front goes on.
fn stage_after(stage: FrontStage) -> FrontStage
    ensures { result ≡ stage_after stage }
{
    match stage {
        FrontStage::ReadData(n) | FrontStage::LeftData(n) => FrontStage::LeftData(n),
        _ => FrontStage::RingWord(0),
    }
}

// A request whose grants were being ended is one of the others again.
fn put_back(stage: FrontStage, requests: &mut Shadow<Request>, ending: &mut Option<Ending>)
    requires room { length requests.old.held + ending_of stage ≤ requests.old.room }
    requires apart { IfSome ending.old (IsOther requests.old.held) }
    ensures requests { requests.new.held ≡ requests_after stage ending.old requests.old.held }
    ensures ending { ending.new ≡ ending_after stage ending.old }
    ensures room { requests.new.room ≡ requests.old.room }
{
    if let FrontStage::GrantRead(_) | FrontStage::GrantEnd(..) = stage {
        put_ending_back(requests, ending);
    }
}

fn put_ending_back(requests: &mut Shadow<Request>, ending: &mut Option<Ending>)
    requires room { length requests.old.held < requests.old.room }
    requires apart { IfSome ending.old (IsOther requests.old.held) }
    ensures requests { requests.new.held ≡ with_ending ending.old requests.old.held }
    ensures ending { ending.new ≡ None }
    ensures room { requests.new.room ≡ requests.old.room }
{
    if let Some(Ending { request, .. }) = ending.take() {
        requests.put_back(request);
    }
}
