// An answer as the numbers that C writes.
ghost use Rattle.std.specs.Prelude.{◌≡◌};
ghost use Rattle.vbd_c.specs.Answer.{answer_of, front_answer_of, mapping_for};

use blk_base::{BackAnswer, BackAsk, FrontAnswer, Mapping};

/// An answer as numbers: its kind, the word of a read or the port that was made, and the status of a map that was refused
/// (`GNTST_*`).
#[repr(C)]
#[derive(Clone, Copy)]
pub struct AnswerNumbers {
    pub kind: u32,
    pub word: u32,
    pub status: i32,
}

impl AnswerNumbers {
    /// The answer to a back, which may be of another kind than is asked for; `None` where no kind has the number.
    pub fn answer<'a>(&self) -> Option<BackAnswer<'a>>
        ensures { result ≡ answer_of self.now }
    {
        match self.kind {
            0 => Some(BackAnswer::Done),
            1 => Some(BackAnswer::Event),
            2 => Some(BackAnswer::Word(self.word)),
            3 => Some(BackAnswer::MapRefused(self.status)),
            4 => Some(BackAnswer::BindRefused),
            5 => Some(BackAnswer::Key(None)),
            6 => Some(BackAnswer::DiskFailed),
            _ => None,
        }
    }

    /// The same to a front.
    pub fn front_answer<'a>(&self) -> Option<FrontAnswer<'a>>
        ensures { result ≡ front_answer_of self.now }
    {
        match self.kind {
            0 => Some(FrontAnswer::Done),
            1 => Some(FrontAnswer::Event),
            2 => Some(FrontAnswer::Word(self.word)),
            5 => Some(FrontAnswer::Key(None)),
            7 => Some(FrontAnswer::Port(self.word)),
            _ => None,
        }
    }
}

/// The mapping of this number as the answer to a map; `None` where no map is asked for.
pub fn mapping_for<'a>(ask: &BackAsk, number: u64) -> Option<BackAnswer<'a>>
    ensures { result ≡ mapping_for ask.now number }
{
    match ask {
        BackAsk::Map { gref, mode } => {
            let mapping = Mapping {
                number,
                gref: *gref,
                mode: *mode,
            };
            Some(BackAnswer::Mapped(mapping))
        }
        _ => None,
    }
}
