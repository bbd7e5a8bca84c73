// What the state says of the next line.
ghost use Rattle.std.specs.Prelude.{◌≡◌, unwrap_or};
ghost use Rattle.std.specs.Option.{option_copied};
ghost use Rattle.plain_disk.specs.Request.{is_write, is_flush, is_discard};
ghost use Rattle.request_check.specs.Rules.{is_any, is_gone};
ghost use Rattle.request_check.specs.Progress.{nothing_done};
ghost use Rattle.request_check.specs.State.{open_of};
ghost use Rattle.request_check.specs.Verdicts.{is_idle, allows_state, may_serve_now, may_end_now, may_show_now, allows_effect, allows_service, may_say, may_reply_now, allows_reply, allows_answer, allows_data, allows_quiet};

use crate::effect::place_sector;
use crate::open::OpenRequest;
use crate::progress::Doings;
use crate::state::RequestCheck;
use blk_base::{Halt, SectorWords, Status};
use plain_disk::{
    are_noted, is_discard, is_flush, is_next, is_open, is_read, is_status, is_write, may_hold,
    places_of,
};
use schedule_text::Line;

fn is_gone(halt: &Halt) -> bool
    ensures { result ≡ is_gone halt.now }
{
    matches!(*halt, Halt::Gone(_) | Halt::Unplugged(_))
}

// Whether a place may be served now, where this was done of the request.
fn may_serve(request: &OpenRequest, doings: Option<&Doings>, index: u32) -> bool
    ensures { result ≡ may_serve_now request.now (unwrap_or (option_copied doings.entry) nothing_done) index }
{
    if !is_open(request.stage()) || index >= places_of(&request.submission()) {
        return false;
    }
    match doings {
        None => true,
        Some(doings) => { doings.reply().is_none() && !doings.faulted() && !doings.is_done(index) }
    }
}

// Whether a reply may say this now.
fn may_say(request: &OpenRequest, doings: Option<&Doings>, status: Status) -> bool
    ensures { result ≡ may_say request.now (unwrap_or (option_copied doings.entry) nothing_done) status }
{
    let places = places_of(&request.submission()) as usize;
    match (status, doings) {
        (Status::Okay, None) => places == 0,
        (Status::Okay, Some(doings)) => doings.count() == places,
        (Status::Error, None) => false,
        (Status::Error, Some(doings)) => doings.faulted(),
        (Status::Unsupported, _) => false,
    }
}

// What was replied to a request.
fn reply_in(doings: Option<&Doings>) -> Option<Status>
    ensures { result ≡ (unwrap_or (option_copied doings.entry) nothing_done).reply }
{
    match doings {
        None => None,
        Some(doings) => doings.reply(),
    }
}

impl RequestCheck {
    // Whether no request is unfinished.
    fn is_idle(&self) -> bool
        ensures { result ≡ is_idle self.now }
    {
        self.requests.len() == 0
    }

    /// Whether the front may tell its state so.
    pub fn allows_state(&self, line: &Line) -> bool
        ensures { result ≡ allows_state self.now line.now }
    {
        match *line {
            Line::Ready => !self.closed && !self.sight.broken && !self.sight.connected,
            Line::Closing => !self.sight.closing,
            Line::Closed => self.sight.closing && self.is_idle(),
            Line::Broken(_) => false,
            Line::Unsettled => false,
            Line::Halt(halt) => is_gone(&halt),
            _ => true,
        }
    }

    // Whether a place of an open write or barrier may be served now.
    fn may_fill(&self, id: u64, index: u32) -> bool
        ensures { result ≡ may_end_now is_write self.now id index (open_of self.now.requests id) }
    {
        match self.requests.get(&id) {
            None => false,
            Some(request) => is_write(&request.submission())
                && may_serve(request, self.progress.get(id), index),
        }
    }

    // Whether an open flush may be served now.
    fn may_flush(&self, id: u64) -> bool
        ensures { result ≡ may_end_now is_flush self.now id 0 (open_of self.now.requests id) }
    {
        match self.requests.get(&id) {
            None => false,
            Some(request) => is_flush(&request.submission())
                && may_serve(request, self.progress.get(id), 0),
        }
    }

    // Whether an open discard may be served now.
    fn may_trim(&self, id: u64) -> bool
        ensures { result ≡ may_end_now is_discard self.now id 0 (open_of self.now.requests id) }
    {
        match self.requests.get(&id) {
            None => false,
            Some(request) => is_discard(&request.submission())
                && may_serve(request, self.progress.get(id), 0),
        }
    }

    // Whether a place of an open request may be served now.
    fn may_fail(&self, id: u64, index: u32) -> bool
        ensures { result ≡ may_end_now is_any self.now id index (open_of self.now.requests id) }
    {
        match self.requests.get(&id) {
            None => false,
            Some(request) => may_serve(request, self.progress.get(id), index),
        }
    }

    // Whether a sector of an open read may show these words now.
    fn may_show(&self, id: u64, index: u32, words: &SectorWords) -> bool
        ensures { result ≡ may_show_now self.now id index words.now (open_of self.now.requests id) }
    {
        match self.requests.get(&id) {
            None => false,
            Some(request) => {
                let submission = request.submission();
                is_read(&submission)
                    && may_serve(request, self.progress.get(id), index)
                    && may_hold(&self.sectors.words(place_sector(&submission, index)), words)
            }
        }
    }

    /// Whether an effect is of a request that waits for it, and a read shows what is there.
    pub fn allows_effect(&self, line: &Line) -> bool
        ensures { result ≡ allows_effect self.now line.now }
    {
        match *line {
            Line::Effect { id, index } => self.may_fill(id, index),
            Line::EffectRead { id, index, words } => self.may_show(id, index, &words),
            _ => true,
        }
    }

    /// Whether a flush, a discard or a fault is of a request that waits for it.
    pub fn allows_service(&self, line: &Line) -> bool
        ensures { result ≡ allows_service self.now line.now }
    {
        match *line {
            Line::Flushed { id } => self.may_flush(id),
            Line::Trimmed { id } => self.may_trim(id),
            Line::Fault { id, index } => self.may_fail(id, index),
            _ => true,
        }
    }

    fn may_reply(&self, id: u64, status: Status) -> bool
        ensures { result ≡ may_reply_now self.now id status (open_of self.now.requests id) }
    {
        match self.requests.get(&id) {
            None => false,
            Some(request) => {
                is_open(request.stage())
                    && reply_in(self.progress.get(id)).is_none()
                    && may_say(request, self.progress.get(id), status)
            }
        }
    }

    /// Whether a reply is the first of its request in this epoch, and says its outcome.
    pub fn allows_reply(&self, line: &Line) -> bool
        ensures { result ≡ allows_reply self.now line.now }
    {
        match *line {
            Line::Reply { id, status } => self.may_reply(id, status),
            _ => true,
        }
    }

    /// Whether an answer is a reply of this epoch that wasn't taken.
    pub fn allows_answer(&self, line: &Line) -> bool
        ensures { result ≡ allows_answer self.now line.now }
    {
        match *line {
            Line::Answer { id, status } => match self.requests.get(&id) {
                None => false,
                Some(request) => {
                    is_open(request.stage()) && is_status(reply_in(self.progress.get(id)), status)
                }
            },
            _ => true,
        }
    }

    /// Whether a sector of a read is told in its turn, with the words that were read.
    pub fn allows_data(&self, line: &Line) -> bool
        ensures { result ≡ allows_data self.now line.now }
    {
        match *line {
            Line::Data { id, index, words } => match self.requests.get(&id) {
                None => false,
                Some(request) => {
                    is_next(request.stage(), index) && are_noted(&request.noted(index), &words)
                }
            },
            _ => true,
        }
    }

    /// Whether nothing is left to do where the line says so.
    pub fn allows_quiet(&self, line: &Line) -> bool
        ensures { result ≡ allows_quiet self.now line.now }
    {
        match *line {
            Line::Quiet => self.is_idle(),
            _ => true,
        }
    }
}
