// What the state says of the next line.
ghost use Rattle.std.specs.Prelude.{◌≡◌, not};
ghost use Rattle.schedule_text.specs.declared.line.Line.TheVariants as lines;
ghost use Rattle.memory_check.specs.Numbers.{has};
ghost use Rattle.memory_check.specs.State.{standing_at};
ghost use Rattle.memory_check.specs.Verdicts.{map_verdict, is_granted, is_refused, is_of_frame, is_to_write, shows_what_is_there, answers_map, touches_a_mapping};

use crate::state::Memory;
use blk_base::{Mode, Move};
use grant_table::{MapRefusal, verdict};
use report_rules::Standing;
use schedule_text::Line;

fn is_granted(frame: u32, answer: Result<u32, MapRefusal>) -> bool
    ensures { result ≡ is_granted frame answer }
{
    match answer {
        Ok(granted) => granted == frame,
        Err(_) => false,
    }
}

fn is_refused(status: i32, answer: Result<u32, MapRefusal>) -> bool
    ensures { result ≡ is_refused status answer }
{
    match answer {
        Ok(_) => false,
        Err(refusal) => status == refusal.status(),
    }
}

fn is_of_frame(frame: u32, standing: Option<Standing>) -> bool
    ensures { result ≡ is_of_frame frame standing }
{
    match standing {
        None => false,
        Some(s) => s.frame == frame,
    }
}

fn is_to_write(frame: u32, standing: Option<Standing>) -> bool
    ensures { result ≡ is_to_write frame standing }
{
    match standing {
        None => false,
        Some(s) => s.frame == frame && s.mode == Mode::ReadWrite,
    }
}

impl Memory {
    /// Whether a line shows of memory what the lines before it left there.
    #[inline(always)]
    pub fn shows_what_is_there(&self, line: &Line) -> bool
        ensures { result ≡ shows_what_is_there self.now line.now }
    {
        match *line {
            Line::Move(Move::FrontWrite { .. }) => true,
            Line::Move(Move::FrontRead { frame, word, value }) => value == self.word(frame, word),
            Line::Move(
                Move::Read {
                    frame,
                    word,
                    value,
                    ..
                },
            ) => value == self.word(frame, word),
            _ => self.shows_it(line),
        }
    }

    // The same, whatever the line is.
    fn shows_it(&self, line: &Line) -> bool
        ensures { result ≡ shows_what_is_there self.now line.now }
    {
        match *line {
            Line::Word { frame, word, value } => value == self.word(frame, word),
            Line::Move(step) => self.shows_its_word(&step),
            _ => true,
        }
    }

    fn shows_its_word(&self, step: &Move) -> bool
        ensures { result ≡ shows_what_is_there self.now (lines.Move step.now) }
    {
        match *step {
            Move::FrontRead { frame, word, value } => value == self.word(frame, word),
            Move::FrontCas {
                frame,
                word,
                seen,
                ..
            } => seen == self.word(frame, word),
            Move::Read {
                frame,
                word,
                value,
                ..
            } => value == self.word(frame, word),
            _ => true,
        }
    }

    // What a map of a reference is answered.
    fn map_verdict(&self, gref: u32, mode: Mode) -> Result<u32, MapRefusal>
        ensures { result ≡ map_verdict self.now gref mode }
    {
        let frame = gref / 512;
        let word = 2 * (gref % 512);
        verdict(
            gref,
            self.word(frame, word),
            self.word(frame, word + 1),
            mode,
        )
    }

    /// Whether a map is answered as its grant entry stands, and has a new number.
    pub fn answers_map(&self, line: &Line) -> bool
        ensures { result ≡ answers_map self.now line.now }
    {
        match *line {
            Line::Move(
                Move::Map {
                    gref,
                    mode,
                    mapping,
                    frame,
                    ..
                },
            ) => is_granted(frame, self.map_verdict(gref, mode)) && !self.was_made(mapping),
            Line::Move(
                Move::MapRefused {
                    gref,
                    mode,
                    status,
                    ..
                },
            ) => is_refused(status, self.map_verdict(gref, mode)),
            _ => true,
        }
    }

    /// Whether a read or write of the back goes through a mapping that stands, shows its frame, and
    /// writes only where the mapping is for writing.
    #[inline(always)]
    pub fn touches_a_mapping(&self, line: &Line) -> bool
        ensures { result ≡ touches_a_mapping self.now line.now }
    {
        match *line {
            Line::Move(Move::Read { mapping, frame, .. }) => {
                is_of_frame(frame, self.standing(mapping))
            }
            Line::Move(Move::Write { mapping, frame, .. }) => {
                is_to_write(frame, self.standing(mapping))
            }
            _ => true,
        }
    }
}
