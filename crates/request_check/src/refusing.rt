// What the state says of a submission, and of its refusal.
ghost use Rattle.std.specs.Prelude.{◌≡◌, ◌*◌, ◌==◌, max, nat_lt, Some};
ghost use Rattle.request_check.specs.Verdicts.{is_at_work, is_ring_full, are_too_many, is_within_limits, allows_submit, least_long, most_read, may_lack_frames, may_refuse, allows_refuse};

use crate::state::RequestCheck;
use blk_base::{Config, Refusal, SectorCount, Submission};
use plain_disk::{frames_of, is_long, is_past_end, is_refused_write, is_unsupported};
use schedule_text::Line;

// The most sectors that one indirect request, or a direct one, may read.
fn most_sectors(config: &Config) -> u64
    ensures { result ≡ 8 * max 11 config.now.indirect }
{
    8 * u64::from(config.indirect.max(11))
}

// The fewest sectors that are more than one request may have.
fn least_long(config: &Config) -> u64
    ensures { result ≡ least_long config.now }
{
    if config.read_only {
        most_sectors(config) + 1
    } else {
        89
    }
}

// The most sectors that a read within the disk may have.
fn most_read(config: &Config) -> u32
    ensures { result ≡ most_read config.now }
{
    let most = config.sectors.min(4294967295).min(most_sectors(config));
    most as u32
}

// Whether a read can be past the disk's end: a sector has 64 bits, and a count has 32.
fn has_an_end(config: &Config) -> bool
    ensures { result ≡ nat_lt config.now.sectors 18446744078004518910 }
{
    u128::from(config.sectors) < 18446744078004518910
}

impl RequestCheck {
    fn is_spent(&self) -> bool
        ensures { result ≡ (self.now.submitted == 4294967295) }
    {
        self.submitted == 4294967295
    }

    // Whether the front takes submissions.
    fn is_at_work(&self) -> bool
        ensures { result ≡ is_at_work self.now }
    {
        !self.is_spent() && !self.sight.closing && self.sight.connected && !self.sight.broken
    }

    fn is_ring_full(&self, config: &Config) -> bool
        ensures { result ≡ is_ring_full self.now config.now }
    {
        let entries: u64 = 32 << config.order;
        entries <= self.requests.len() as u64
    }

    fn are_too_many(&self, frames: u32) -> bool
        ensures { result ≡ are_too_many self.now frames }
    {
        self.frames.saturating_add(u64::from(frames)) > 1000
    }

    fn is_within_limits(&self, config: &Config, submission: &Submission) -> bool
        ensures { result ≡ is_within_limits self.now submission.now (Some config.now) }
    {
        self.is_at_work()
            && !is_unsupported(config, submission)
            && !is_refused_write(config, submission)
            && !is_past_end(config, submission)
            && !is_long(config, submission)
            && !self.is_ring_full(config)
            && !self.are_too_many(frames_of(submission))
    }

    /// Whether a submission has the next number, and nothing refuses it.
    pub fn allows_submit(&self, line: &Line) -> bool
        ensures { result ≡ allows_submit self.now line.now }
    {
        match *line {
            Line::Submit { id, submission } => match &self.sight.config {
                None => false,
                Some(config) => {
                    id > 0 && id - 1 == self.submitted && self.is_within_limits(config, &submission)
                }
            },
            _ => true,
        }
    }

    // Whether a submission can lack frames.
    fn may_lack_frames(&self, config: &Config) -> bool
        ensures { result ≡ may_lack_frames self.now config.now }
    {
        match SectorCount::new(most_read(config)) {
            None => !config.read_only && self.are_too_many(0),
            Some(count) => self.are_too_many(frames_of(&Submission::Read { sector: 0, count })),
        }
    }

    // Whether a submission can be refused so.
    fn may_refuse(&self, config: &Config, word: Refusal) -> bool
        ensures { result ≡ may_refuse self.now config.now word }
    {
        match word {
            Refusal::Spent => self.is_spent(),
            Refusal::NotReady => {
                !self.is_spent()
                    && !self.sight.closing
                    && (!self.sight.connected || self.sight.broken)
            }
            Refusal::Closing => !self.is_spent() && self.sight.closing,
            Refusal::Unsupported => self.is_at_work() && config.read_only,
            Refusal::ReadOnly => self.is_at_work() && config.read_only,
            Refusal::Range => self.is_at_work() && has_an_end(config),
            Refusal::Long => {
                self.is_at_work() && least_long(config) <= config.sectors.min(4294967295)
            }
            Refusal::Full => {
                self.is_at_work()
                    && self.is_ring_full(config)
                    && (!config.read_only || config.sectors != 0)
            }
            Refusal::Buffers => {
                self.is_at_work() && !self.is_ring_full(config) && self.may_lack_frames(config)
            }
        }
    }

    /// Whether a submission can be refused as the line says.
    pub fn allows_refuse(&self, line: &Line) -> bool
        ensures { result ≡ allows_refuse self.now line.now }
    {
        match *line {
            Line::Refuse(word) => match &self.sight.config {
                None => matches!(word, Refusal::NotReady),
                Some(config) => self.may_refuse(config, word),
            },
            _ => true,
        }
    }
}
