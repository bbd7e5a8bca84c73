// What the state says of the order that barriers want.
ghost use Rattle.std.specs.Prelude.{◌≡◌, unwrap_or};
ghost use Rattle.std.specs.List.{list_all};
ghost use Rattle.std.specs.Map.{values_of};
ghost use Rattle.std.specs.Option.{option_copied};
ghost use Rattle.plain_disk.specs.Request.{is_write, is_discard, is_ordered};
ghost use Rattle.request_check.specs.Progress.{nothing_done};
ghost use Rattle.request_check.specs.State.{open_of};
ghost use Rattle.request_check.specs.Verdicts.{is_settled_now, lets_pass, all_pass, is_in_turn, allows_barrier};

use crate::open::OpenRequest;
use crate::progress::{Doings, EpochDoings};
use crate::state::RequestCheck;
use plain_disk::{is_barrier, is_discard, is_open, is_ordered, is_write, places_of};
use schedule_text::Line;

// Whether what waits for a request may go on.
fn is_settled(request: &OpenRequest, doings: Option<&Doings>) -> bool
    ensures { result ≡ is_settled_now request.now (unwrap_or (option_copied doings.entry) nothing_done) }
{
    if !is_open(request.stage()) {
        return true;
    }
    let places = places_of(&request.submission()) as usize;
    match doings {
        None => places == 0,
        Some(doings) => { doings.reply().is_some() || doings.faulted() || doings.count() == places }
    }
}

// Whether a request isn't waited for by request `id`, which is a barrier or not.
fn lets_pass(kept: &EpochDoings, id: u64, barrier: bool, request: &OpenRequest) -> bool
    ensures { result ≡ lets_pass kept.now id barrier request.now }
{
    let submission = request.submission();
    request.number() >= id
        || !is_ordered(&submission)
        || !barrier && !is_barrier(&submission)
        || is_settled(request, kept.get(request.number()))
}

impl RequestCheck {
    // Whether none of the unfinished requests is waited for by this one.
    fn each_passes(&self, id: u64, barrier: bool) -> bool
        ensures { result ≡ list_all (lets_pass self.now.progress id barrier) (values_of self.now.requests) }
    {
        let kept = &self.progress;
        self.requests
            .values()
            .all(|request| lets_pass(kept, id, barrier, request))
    }

    // Whether no unfinished request is waited for by this one. Where no barrier is among them, and
    // this is none, nothing is, and no request is looked at.
    fn all_pass(&self, id: u64, barrier: bool) -> bool
        ensures { result ≡ all_pass self.now id barrier }
    {
        !barrier && self.barriers == 0 || self.each_passes(id, barrier)
    }

    fn write_in_turn(&self, id: u64) -> bool
        ensures { result ≡ is_in_turn is_write self.now id (open_of self.now.requests id) }
    {
        match self.requests.get(&id) {
            None => true,
            Some(request) => {
                let submission = request.submission();
                !(is_write(&submission) && is_open(request.stage()))
                    || self.all_pass(id, is_barrier(&submission))
            }
        }
    }

    fn discard_in_turn(&self, id: u64) -> bool
        ensures { result ≡ is_in_turn is_discard self.now id (open_of self.now.requests id) }
    {
        match self.requests.get(&id) {
            None => true,
            Some(request) => {
                let submission = request.submission();
                !(is_discard(&submission) && is_open(request.stage()))
                    || self.all_pass(id, is_barrier(&submission))
            }
        }
    }

    fn ordered_in_turn(&self, id: u64) -> bool
        ensures { result ≡ is_in_turn is_ordered self.now id (open_of self.now.requests id) }
    {
        match self.requests.get(&id) {
            None => true,
            Some(request) => {
                let submission = request.submission();
                !(is_ordered(&submission) && is_open(request.stage()))
                    || self.all_pass(id, is_barrier(&submission))
            }
        }
    }

    /// Whether no write, barrier or discard goes past a barrier, and no barrier past one of them.
    pub fn allows_barrier(&self, line: &Line) -> bool
        ensures { result ≡ allows_barrier self.now line.now }
    {
        match *line {
            Line::Effect { id, .. } => self.write_in_turn(id),
            Line::Trimmed { id } => self.discard_in_turn(id),
            Line::Fault { id, .. } => self.ordered_in_turn(id),
            _ => true,
        }
    }
}
