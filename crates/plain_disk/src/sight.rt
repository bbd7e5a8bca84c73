// When a submission is refused.
ghost use Rattle.std.specs.Prelude.{◌≡◌, ◌+◌, sum_by, count_by, not};
ghost use Rattle.plain_disk.specs.declared.request.DiskRequest.{DiskRequest};
ghost use Rattle.plain_disk.specs.Request.{is_finished};

use crate::limits;
use crate::request::DiskRequest;
use blk_base::{Config, Refusal, Submission};
use schedule_text::Line;

/// What the lines so far show of the front: the options of the run, whether it is connected in this
/// epoch, whether it was closing, and whether it was broken.
#[derive(Clone, Copy)]
pub struct Sight {
    pub config: Option<Config>,
    pub connected: bool,
    pub closing: bool,
    pub broken: bool,
}

impl Sight {
    ghost use Rattle.plain_disk.specs.Refusal.{nothing_seen, seen, refusal_at, refusal_by};

    /// Nothing was seen yet.
    pub fn new() -> Sight
        ensures { result ≡ nothing_seen }
    {
        Sight {
            config: None,
            connected: false,
            closing: false,
            broken: false,
        }
    }

    /// Takes in a line.
    pub fn see(&mut self, line: &Line)
        ensures { self.new ≡ seen self.old line.now }
    {
        match *line {
            Line::Begin { config, .. } => self.config = Some(config),
            Line::Ready => self.connected = true,
            Line::Epoch => self.connected = false,
            Line::Closing => self.closing = true,
            Line::Broken(_) => self.broken = true,
            _ => {}
        }
    }

    /// How a submission is refused now, where these requests were submitted; `None` exactly where it
    /// is accepted.
    pub fn refusal(&self, requests: &[DiskRequest], submission: &Submission) -> Option<Refusal>
        ensures { result ≡ refusal_at self.now self.now.config requests.now submission.now }
    {
        match &self.config {
            None => Some(Refusal::NotReady),
            Some(config) => self.refusal_by(config, requests, submission),
        }
    }

    // The first reason that applies.
    fn refusal_by(
        &self,
        config: &Config,
        requests: &[DiskRequest],
        submission: &Submission,
    ) -> Option<Refusal>
        ensures { result ≡ refusal_by self.now config.now requests.now submission.now }
    {
        if requests.len() == 4294967295 {
            Some(Refusal::Spent)
        } else if !self.closing && (!self.connected || self.broken) {
            Some(Refusal::NotReady)
        } else if self.closing {
            Some(Refusal::Closing)
        } else if limits::is_unsupported(config, submission) {
            Some(Refusal::Unsupported)
        } else if limits::is_refused_write(config, submission) {
            Some(Refusal::ReadOnly)
        } else if limits::is_past_end(config, submission) {
            Some(Refusal::Range)
        } else if limits::is_long(config, submission) {
            Some(Refusal::Long)
        } else if limits::is_full(config, requests) {
            Some(Refusal::Full)
        } else if limits::lacks_frames(requests, submission) {
            Some(Refusal::Buffers)
        } else {
            None
        }
    }
}
