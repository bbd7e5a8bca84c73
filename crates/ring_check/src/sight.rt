// What is kept of the ring, and one line further.
ghost use Rattle.std.specs.Prelude.{◌≡◌, ◌+◌, ◌<◌, ◌≤◌, ◌++◌, IfOk, IfSome, None, false};
ghost use Rattle.std.specs.Option.{option_to_list};
ghost use Rattle.blk_base.specs.Becomes.{Becomes};
ghost use Rattle.report_rules.specs.Ring.{abi_after, page_made, start_told};
ghost use Rattle.report_rules.specs.Standing.{is_epoch};
ghost use Rattle.ring_check.specs.State.{begun, no_lines, entry_word_seen, producer_on, response_on, overrun_seen, newer, is_last, fetched_after, within_after, seen};

mod views;

use blk_base::{Abi, BackMover, Idx, Move, OutOfMemory};
use report_rules::{Overrun, Standing, abi_after, is_epoch, of_entries, page_made, start_told};
use ring_words::RingShape;
use schedule_text::Line;
use std::alloc::Global;
use std::marker::Model;

/// What a reader of a report keeps of the ring: its pages, layout and producers, how far the back
/// read its entries in this epoch, and whether a producer overran. No line is kept.
#[derive(Drop)]
pub struct RingSight {
    start: u32,
    abi: Option<Abi>,
    pages: Vec<Standing>,
    written: Option<u32>,
    shown: Option<u32>,
    fetched: u64,
    within: u64,
    overran: bool,
    overrun: Option<Overrun>,
}

impl Model for RingSight {
    ghost use Rattle.ring_check.specs.State.{RingState};

    ghost Value = { RingState };

    ghost view = { λ r. record {
      start = r.start;
      abi = r.abi;
      pages = r.pages.items;
      written = r.written;
      shown = r.shown;
      fetched = r.fetched;
      within = r.within;
      overran = r.overran;
      overrun = r.overrun;
    } };
}

fn newer(told: Option<u32>, known: Option<u32>) -> Option<u32>
    ensures { result ≡ newer told known }
{
    match told {
        None => known,
        Some(value) => Some(value),
    }
}

// Whether the next word of an entry is its last, by this layout.
fn is_last(abi: Option<Abi>, within: u64) -> bool
    ensures { result ≡ is_last abi within }
{
    match abi {
        None => false,
        Some(abi) => { u128::from(within) + 1 == u128::from(RingShape::of(abi, 0).entry_words()) }
    }
}

fn more(n: u64) -> Result<u64, OutOfMemory>
    ensures { IfOk result (λ m. m ≡ n + 1) }
{
    match n.checked_add(1) {
        None => Err(OutOfMemory),
        Some(m) => Ok(m),
    }
}

// How many entries were read whole, where a line may read one more word.
fn fetched_after(
    abi: Option<Abi>,
    fetched: u64,
    within: u64,
    word: Option<u128>,
) -> Result<u64, OutOfMemory>
    ensures { IfOk result (λ n. n ≡ fetched_after abi fetched within word) }
{
    if word.is_some() && is_last(abi, within) {
        more(fetched)
    } else {
        Ok(fetched)
    }
}

// How many words of the next entry were read, where a line may read one more.
fn within_after(abi: Option<Abi>, within: u64, word: Option<u128>) -> Result<u64, OutOfMemory>
    ensures { IfOk result (λ n. n ≡ within_after abi within word) }
{
    if word.is_none() {
        Ok(within)
    } else if is_last(abi, within) {
        Ok(0)
    } else {
        more(within)
    }
}

impl RingSight {
    /// Before the first line.
    pub fn new(alloc: Global) -> RingSight
        ensures { result ≡ no_lines }
    {
        RingSight {
            start: 0,
            abi: Some(Abi::X64),
            pages: Vec::new(alloc),
            written: None,
            shown: None,
            fetched: 0,
            within: 0,
            overran: false,
            overrun: None,
        }
    }

    /// The word of an entry that the back reads in a line.
    pub fn entry_word(&self, line: &Line) -> Option<u128>
        ensures { result ≡ entry_word_seen self.now line.now }
    {
        match *line {
            Line::Move(
                Move::Read {
                    who: BackMover::Back,
                    mapping,
                    word,
                    ..
                },
            ) => of_entries(self.word_of(mapping, word)),
            _ => None,
        }
    }

    // The requests' producer that a line shows.
    fn producer_in(&self, line: &Line) -> Option<u32>
        ensures { result ≡ producer_on self.now.pages line.now }
    {
        match *line {
            Line::Move(
                Move::Read {
                    who: BackMover::Back,
                    mapping,
                    word,
                    value,
                    ..
                },
            ) => {
                if self.is_first_page(mapping) && word == 0 {
                    Some(value)
                } else {
                    None
                }
            }
            _ => None,
        }
    }

    // The responses' producer that a line writes.
    fn response_in(&self, line: &Line) -> Option<u32>
        ensures { result ≡ response_on self.now.pages line.now }
    {
        match *line {
            Line::Move(
                Move::Write {
                    who: BackMover::Back,
                    mapping,
                    word,
                    value,
                    ..
                },
            ) => {
                if self.is_first_page(mapping) && word == 2 {
                    Some(value)
                } else {
                    None
                }
            }
            _ => None,
        }
    }

    // The overrun that a line shows.
    fn overrun_in(&self, line: &Line) -> Option<Overrun>
        ensures { result ≡ overrun_seen self.now line.now }
    {
        let produced = self.producer_in(line)?;
        let order = self.order()?;
        let replied = self.replied();
        if Idx(replied).dist(Idx(produced)) > 32 << order {
            Some(Overrun { produced, replied })
        } else {
            None
        }
    }

    // An epoch begins: all but the start is anew.
    fn begin(&mut self)
        ensures { self.new ≡ begun self.old.start }
    {
        self.abi = Some(Abi::X64);
        self.pages.clear();
        self.written = None;
        self.shown = None;
        self.fetched = 0;
        self.within = 0;
        self.overran = false;
        self.overrun = None;
    }

    // Keeps the page of the ring that a line made.
    fn keep_page(&mut self, line: &Line) -> Result<(), OutOfMemory>
        ensures kept { Becomes (record self.old { pages = self.old.pages ++ option_to_list (page_made line.now) }) result self.old self.new }
    {
        if let Some(page) = page_made(line) {
            self.pages.push(page)?;
        }
        Ok(())
    }

    /// One line further. After want of memory all is as before.
    #[inline(always)]
    pub fn see(&mut self, line: &Line) -> Result<(), OutOfMemory>
        ensures seen { Becomes (seen self.old line.now) result self.old self.new }
    {
        match line {
            Line::Move(Move::FrontRead { .. })
            | Line::Move(Move::FrontWrite { .. })
            | Line::Move(
                Move::Read {
                    who: BackMover::Job(_),
                    ..
                },
            )
            | Line::Move(
                Move::Write {
                    who: BackMover::Job(_),
                    ..
                },
            ) => {
                self.overrun = None;
                Ok(())
            }
            Line::Move(
                Move::Read {
                    who: BackMover::Back,
                    ..
                },
            ) => self.see_read(line),
            _ => self.see_any(line),
        }
    }

    // One line further, which is a read of the back's own: it makes no page, and tells nothing of the
    // start and of the layout.
    fn see_read(&mut self, line: &Line) -> Result<(), OutOfMemory>
        requires within { is_epoch line.now ≡ false }
        requires start { start_told self.old.start line.now ≡ self.old.start }
        requires layout { abi_after self.old.abi line.now ≡ self.old.abi }
        requires page { page_made line.now ≡ None }
        requires response { response_on self.old.pages line.now ≡ None }
        ensures seen { Becomes (seen self.old line.now) result self.old self.new }
    {
        let word = self.entry_word(line);
        let fetched = fetched_after(self.abi, self.fetched, self.within, word)?;
        let within = within_after(self.abi, self.within, word)?;
        let overrun = self.overrun_in(line);
        self.shown = newer(self.producer_in(line), self.shown);
        self.fetched = fetched;
        self.within = within;
        self.overran = self.overran || overrun.is_some();
        self.overrun = overrun;
        Ok(())
    }

    // One line further, whatever it is. Most lines are accesses that tell nothing of the ring, so
    // `see` passes over those at once.
    fn see_any(&mut self, line: &Line) -> Result<(), OutOfMemory>
        ensures seen { Becomes (seen self.old line.now) result self.old self.new }
    {
        if is_epoch(line) {
            self.begin();
            return Ok(());
        }
        let word = self.entry_word(line);
        let fetched = fetched_after(self.abi, self.fetched, self.within, word)?;
        let within = within_after(self.abi, self.within, word)?;
        let overrun = self.overrun_in(line);
        let written = newer(self.response_in(line), self.written);
        let shown = newer(self.producer_in(line), self.shown);
        self.keep_page(line)?;
        self.start = start_told(self.start, line);
        self.abi = abi_after(self.abi, line);
        self.written = written;
        self.shown = shown;
        self.fetched = fetched;
        self.within = within;
        self.overran = self.overran || overrun.is_some();
        self.overrun = overrun;
        Ok(())
    }
}
