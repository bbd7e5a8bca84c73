// Answers as values that lend nothing: a test compares these.
use blk_base::{BackAnswer, FrontAnswer, Lent, Path, Text};

/// What an ask is completed by, with its texts.
#[derive(Clone, Copy, PartialEq)]
pub enum Answer {
    Nothing,
    Done,
    Event,
    Watched(Path),
    Word(u32),
    Port(u32),
    Key(Option<Text>),
    MapRefused(i32),
    BindRefused,
    Other,
}

fn text_of(text: &Option<Lent<Text>>) -> Option<Text> {
    match text {
        None => None,
        Some(text) => Some(*text.get()),
    }
}

/// The answer to the front's ask.
pub fn front_answer(answer: &Option<FrontAnswer>) -> Answer {
    match answer {
        None => Answer::Nothing,
        Some(FrontAnswer::Done) => Answer::Done,
        Some(FrontAnswer::Event) => Answer::Event,
        Some(FrontAnswer::Watched(path)) => Answer::Watched(*path.get()),
        Some(FrontAnswer::Word(value)) => Answer::Word(*value),
        Some(FrontAnswer::Port(port)) => Answer::Port(*port),
        Some(FrontAnswer::Key(text)) => Answer::Key(text_of(text)),
    }
}

/// The answer to an ask of the back or a job; a mapping, a word and what the disk gave are `Other`.
pub fn back_answer(answer: &Option<BackAnswer>) -> Answer {
    match answer {
        None => Answer::Nothing,
        Some(BackAnswer::Done) => Answer::Done,
        Some(BackAnswer::Event) => Answer::Event,
        Some(BackAnswer::Watched(path)) => Answer::Watched(*path.get()),
        Some(BackAnswer::MapRefused(status)) => Answer::MapRefused(*status),
        Some(BackAnswer::BindRefused) => Answer::BindRefused,
        Some(_) => Answer::Other,
    }
}
