// Whether a line may come next.
ghost use Rattle.std.specs.Prelude.{◌≡◌, ◌<◌, ◌≤◌};
ghost use Rattle.ring_words.specs.Shape.{ring_word_of};
ghost use Rattle.ring_check.specs.State.{index_seen};
ghost use Rattle.ring_check.specs.Verdict.{unconsumed_seen, is_next, is_next_read, is_between, touched_on, is_in_page, allows_stretch, is_halt_of, allows_overrun};

use crate::sight::RingSight;
use blk_base::{BackMover, Halt, Idx, Move};
use report_rules::{Overrun, is_back_move, is_service};
use ring_words::RingShape;
use schedule_text::Line;

fn is_in_page(word: Option<u32>) -> bool
    ensures { result ≡ is_in_page word }
{
    match word {
        None => true,
        Some(word) => word < 1024,
    }
}

#[inline(always)]
fn is_halt_of(overrun: Option<Overrun>, line: &Line) -> bool
    ensures { result ≡ is_halt_of overrun line.now }
{
    match (overrun, line) {
        (Some(o), Line::Halt(Halt::Overrun { prod, rsp_prod })) => {
            *prod == o.produced && *rsp_prod == o.replied
        }
        (None, Line::Halt(Halt::Overrun { .. })) => false,
        (Some(_), _) => false,
        (None, _) => true,
    }
}

impl RingSight {
    // The word of the ring that is read next.
    fn next_word(&self, shape: &RingShape) -> u128
        ensures { result ≡ ring_word_of shape.now (index_seen self.now) self.now.within }
    {
        let index = self.next_index();
        let begin = 16 + index % shape.entries() * shape.entry_words();
        u128::from(begin) + u128::from(self.words_within())
    }

    // How many requests are unconsumed.
    fn unconsumed(&self, shape: &RingShape) -> u32
        ensures { result ≡ unconsumed_seen self.now shape.now }
    {
        let index = Idx(self.next_index());
        let ahead = index.dist(Idx(self.produced()));
        let waiting = Idx(self.replied()).dist(index);
        ahead.min(shape.entries().saturating_sub(waiting))
    }

    fn is_next(&self, word: u128, shape: &RingShape) -> bool
        ensures { result ≡ is_next self.now word shape.now }
    {
        word == self.next_word(shape) && (self.words_within() != 0 || self.unconsumed(shape) > 0)
    }

    fn is_next_read(&self, word: Option<u128>, shape: &Option<RingShape>) -> bool
        ensures { result ≡ is_next_read self.now word shape.now }
    {
        match (word, shape) {
            (None, _) => true,
            (Some(_), None) => false,
            (Some(word), Some(shape)) => self.is_next(word, shape),
        }
    }

    // Whether no stretch is under way.
    fn is_between(&self) -> bool
        ensures { result ≡ is_between self.now }
    {
        self.words_within() == 0
    }

    // The word of a page of the ring that the back reads or writes in a line.
    fn touched(&self, line: &Line) -> Option<u32>
        ensures { result ≡ touched_on self.now.pages line.now }
    {
        let (number, word) = match *line {
            Line::Move(
                Move::Read {
                    who: BackMover::Back,
                    mapping,
                    word,
                    ..
                },
            ) => (mapping, word),
            Line::Move(
                Move::Write {
                    who: BackMover::Back,
                    mapping,
                    word,
                    ..
                },
            ) => (mapping, word),
            _ => return None,
        };
        if self.is_page(number) {
            Some(word)
        } else {
            None
        }
    }

    // Whether the rule on stretches allows the line, which reads or writes a word.
    fn allows_access(&self, line: &Line) -> bool
        ensures { result ≡ allows_stretch self.now line.now }
    {
        let word = self.entry_word(line);
        let shape = self.shape();
        let whole = !is_back_move(line) || word.is_some() || self.is_between();
        self.is_next_read(word, &shape) && whole && is_in_page(self.touched(line))
    }

    /// Whether the rule on stretches allows the line: the back reads entries word by word, in
    /// ascending order, only where a request is unconsumed, and makes no other move between.
    pub fn allows_stretch(&self, line: &Line) -> bool
        ensures { result ≡ allows_stretch self.now line.now }
    {
        match line {
            Line::Move(
                Move::Read {
                    who: BackMover::Back,
                    ..
                },
            )
            | Line::Move(
                Move::Write {
                    who: BackMover::Back,
                    ..
                },
            ) => self.allows_access(line),
            _ => !is_back_move(line) || self.is_between(),
        }
    }

    /// Whether the rule on overruns allows the line: the line after a read of a producer that
    /// overran is its halt, and nothing more is served in that epoch.
    #[inline(always)]
    pub fn allows_overrun(&self, line: &Line) -> bool
        ensures { result ≡ allows_overrun self.now line.now }
    {
        match line {
            Line::Move(Move::FrontRead { .. }) | Line::Move(Move::FrontWrite { .. }) => {
                is_halt_of(self.overrun(), line)
            }
            Line::Move(Move::Read { .. }) => is_halt_of(self.overrun(), line) && !self.overran(),
            _ => self.allows_any(line),
        }
    }

    // The same, whatever the line is. Most lines are accesses of the front's and reads, so
    // `allows_overrun` doesn't ask of those what else they may be.
    fn allows_any(&self, line: &Line) -> bool
        ensures { result ≡ allows_overrun self.now line.now }
    {
        is_halt_of(self.overrun(), line) && (!is_service(line) || !self.overran())
    }
}
