// An ask of the front as the numbers that C reads.
ghost use Rattle.std.specs.Prelude.{◌≡◌};
ghost use Rattle.vbd_c.specs.FrontAsk.{of_kind, at_word, numbers_of, path_of, text_of, ask_from};

use blk_base::{FrontAsk, Path, Text};

/// An ask of the front as numbers: its kind, which is the back's where the back asks the same, and what the kind has, 0 for
/// all else. Words are those of the guest's frames; an exchange writes `value` where `expected` stands.
#[repr(C)]
#[derive(Clone, Copy)]
pub struct FrontAskNumbers {
    pub kind: u32,
    pub frame: u32,
    pub word: u32,
    pub value: u32,
    pub expected: u32,
}

impl FrontAskNumbers {
    /// The numbers of an ask. With its path and its text they say the whole of it.
    #[tactic(auto, using(crate::proofs::FrontAsks::whole))]
    pub fn of(ask: &FrontAsk) -> FrontAskNumbers
        ensures value { result ≡ numbers_of ask.now }
        ensures whole { ask_from result (path_of ask.now) (text_of ask.now) ≡ ask.now }
    {
        match ask {
            FrontAsk::Wait => of_kind(0),
            FrontAsk::Fence => of_kind(1),
            FrontAsk::Read { frame, word } => at_word(2, *frame, *word, 0),
            FrontAsk::Write { frame, word, value } => at_word(3, *frame, *word, *value),
            FrontAsk::Send => of_kind(7),
            FrontAsk::ClosePort => of_kind(8),
            FrontAsk::GetKey(_) => of_kind(9),
            FrontAsk::SetKey(..) => of_kind(10),
            FrontAsk::Watch(_) => of_kind(11),
            FrontAsk::Cas {
                frame,
                word,
                old,
                new,
            } => {
                let mut numbers = at_word(16, *frame, *word, *new);
                numbers.expected = *old;
                numbers
            }
            FrontAsk::NewPort => of_kind(17),
        }
    }
}

// The numbers of an ask of which nothing but its kind is a number.
fn of_kind(kind: u32) -> FrontAskNumbers
    ensures { result ≡ of_kind kind }
{
    at_word(kind, 0, 0, 0)
}

// The numbers of an ask of a word.
fn at_word(kind: u32, frame: u32, word: u32, value: u32) -> FrontAskNumbers
    ensures { result ≡ at_word kind frame word value }
{
    FrontAskNumbers {
        kind,
        frame,
        word,
        value,
        expected: 0,
    }
}

/// The path of a key or of a watch that is asked for; no bytes where none is.
pub fn path_of(ask: &FrontAsk) -> Path
    ensures { result ≡ path_of ask.now }
{
    match ask {
        FrontAsk::GetKey(path) | FrontAsk::SetKey(path, _) | FrontAsk::Watch(path) => *path.get(),
        _ => Path::new(),
    }
}

/// The text that a key is to have; no bytes where none is set.
pub fn text_of(ask: &FrontAsk) -> Text
    ensures { result ≡ text_of ask.now }
{
    match ask {
        FrontAsk::SetKey(_, text) => *text.get(),
        _ => Text::new(),
    }
}
