// The frames that the front's requests use.
ghost use Rattle.std.specs.Prelude.{◌≡◌, ◌+◌, ◌≤◌, ◌<◌, IfSome, drop, length, not, position};
ghost use Rattle.blk_front.specs.Pool.{lowest_of, is_taken, taken_from, untaken_from, with_taken, with_free, with_all_free, empty_pool};

use std::marker::Model;

/// A frame of the pool: 18 to 1017.
#[derive(Clone, Copy)]
pub struct PoolFrame {
    number: u32,
}

impl Model for PoolFrame {
    ghost use Rattle.std.specs.Prelude.{ℕ, ◌≤◌, ◌<◌};

    ghost Value = { ℕ };

    ghost view = { λ f. f.number };

    ghost invariant = { λ f. (18 ≤ f.number) × (f.number < 1018) };

    ghost inverse = { λ n. record { number = n } };
}

impl Default for PoolFrame {
    ghost is_default = { λ frame. frame ≡ 18 };

    /// The lowest frame of the pool.
    fn default() -> Self {
        PoolFrame { number: 18 }
    }
}

impl PoolFrame {
    // The frame of this number.
    pub(crate) fn of(number: u32) -> PoolFrame
        requires low { 18 ≤ number }
        requires high { number < 1018 }
        ensures { result ≡ number }
    {
        PoolFrame { number }
    }

    /// The frame's number, 18 to 1017.
    pub fn number(&self) -> u32
        ensures value { result ≡ self.now }
        ensures low { 18 ≤ result }
        ensures high { result < 1018 }
    {
        self.number
    }

    /// The reference of the frame's grant entry, 24 to 1023.
    pub fn reference(&self) -> u32
        ensures value { result ≡ self.now + 6 }
        ensures high { result < 1024 }
    {
        self.number + 6
    }
}

/// Which of the 1000 frames are in use, from frame 18 on, or which of them have a grant that is kept.
#[derive(Clone, Copy)]
pub struct Pool {
    taken: [bool; 1000],
}

impl Model for Pool {
    ghost use Rattle.std.specs.Prelude.{Bool, List};

    ghost Value = { List Bool };

    ghost view = { λ p. p.taken };

    ghost inverse = { λ taken. record { taken = taken } };
}

impl Pool {
    /// No frame is in use.
    pub fn new() -> Pool
        ensures { result ≡ empty_pool }
    {
        Pool {
            taken: [false; 1000],
        }
    }

    /// The lowest frame that isn't in use; `None` exactly where all are.
    pub fn lowest(&self) -> Option<PoolFrame>
        ensures { result ≡ lowest_of self.now }
    {
        match first_free(&self.taken) {
            Some(place) => Some(PoolFrame {
                number: 18 + place as u32,
            }),
            None => None,
        }
    }

    /// Whether a frame is in use.
    pub fn has(&self, frame: &PoolFrame) -> bool
        ensures { result ≡ is_taken self.now frame.now }
    {
        let number = frame.number();
        self.taken[(number - 18) as usize]
    }

    /// The lowest frame in use from this number on, 18 to 1018; `None` exactly where none is.
    pub fn taken_from(&self, number: u32) -> Option<PoolFrame>
        requires low { 18 ≤ number }
        requires high { number ≤ 1018 }
        ensures value { result ≡ taken_from self.now number }
    {
        match first_taken(&self.taken[(number - 18) as usize..]) {
            Some(more) => Some(PoolFrame {
                number: number + more as u32,
            }),
            None => None,
        }
    }

    /// The place, from this one on, of the first of these frames that isn't in use; `None` exactly where
    /// each of them is.
    pub fn untaken_from(&self, frames: &[PoolFrame], place: usize) -> Option<usize>
        ensures value { result ≡ untaken_from self.now frames.now place }
        ensures within { IfSome result (λ place. place < length frames.now) }
    {
        if place >= frames.len() {
            return None;
        }
        let more = self.first_untaken(&frames[place..])?;
        Some(place + more)
    }

    // The first of these frames that isn't in use.
    fn first_untaken(&self, frames: &[PoolFrame]) -> Option<usize>
        ensures value { result ≡ position (λ frame. not (is_taken self.now frame)) frames.now }
        ensures within { IfSome result (λ place. place < length frames.now) }
    {
        frames.iter().position(|frame| !self.has(frame))
    }

    /// Takes a frame into use.
    pub fn take(&mut self, frame: &PoolFrame)
        ensures { self.new ≡ with_taken self.old frame.now }
    {
        let number = frame.number();
        self.taken[(number - 18) as usize] = true;
    }

    /// Gives a frame back.
    pub fn free(&mut self, frame: &PoolFrame)
        ensures { self.new ≡ with_free self.old frame.now }
    {
        let number = frame.number();
        self.taken[(number - 18) as usize] = false;
    }

    /// Gives these frames back.
    pub fn free_all(&mut self, frames: &[PoolFrame])
        ensures { self.new ≡ with_all_free self.old frames.now }
    {
        for frame in frames {
            self.free(frame);
        }
    }
}

// The first place that isn't taken.
fn first_free(taken: &[bool]) -> Option<usize>
    ensures value { result ≡ position not taken.now }
    ensures within { IfSome result (λ place. place < length taken.now) }
{
    taken.iter().position(|t| !*t)
}

// The first place that is taken.
fn first_taken(taken: &[bool]) -> Option<usize>
    ensures value { result ≡ position (λ t. t) taken.now }
    ensures within { IfSome result (λ place. place < length taken.now) }
{
    taken.iter().position(|t| *t)
}
