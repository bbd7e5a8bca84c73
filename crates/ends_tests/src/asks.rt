// What a back and its jobs ask and are answered, without what is lent, so that the steps of a script are
// constants.
use blk_base::{BackAnswer, BackAsk, Halt, Mapping, Mode};

/// What is asked, its numbers in the order of `BackAsk`.
#[derive(Clone, Copy)]
pub enum Ask {
    Wait,
    Fence,
    Read(Mapping, u32),
    Write(Mapping, u32, u32),
    Map(u32, Mode),
    Unmap(Mapping),
    Bind(u32),
    Send,
    ClosePort,
    DiskRead(u64),
    Flush,
    Trim(u64, u64),
}

/// What is answered.
#[derive(Clone, Copy)]
pub enum Answer {
    Event,
    Done,
    Word(u32),
    Mapped(Mapping),
    MapRefused(i32),
    BindRefused,
    DiskFailed,
}

/// Why a back halts.
#[derive(Clone, Copy)]
pub enum Why {
    /// The front's producer, and the back's own.
    Overrun(u32, u32),
    Gone(u32),
    Unplugged(u32),
    BadPort(u32),
    /// A reference and a status.
    MapRefused(u32, i32),
}

pub fn asked(ask: Ask) -> BackAsk<'static> {
    match ask {
        Ask::Wait => BackAsk::Wait,
        Ask::Fence => BackAsk::Fence,
        Ask::Read(mapping, word) => BackAsk::Read { mapping, word },
        Ask::Write(mapping, word, value) => BackAsk::Write {
            mapping,
            word,
            value,
        },
        Ask::Map(gref, mode) => BackAsk::Map { gref, mode },
        Ask::Unmap(mapping) => BackAsk::Unmap(mapping),
        Ask::Bind(port) => BackAsk::Bind(port),
        Ask::Send => BackAsk::Send,
        Ask::ClosePort => BackAsk::ClosePort,
        Ask::DiskRead(sector) => BackAsk::DiskRead(sector),
        Ask::Flush => BackAsk::Flush,
        Ask::Trim(sector, count) => BackAsk::Trim(sector, count),
    }
}

pub fn given(answer: Answer) -> BackAnswer<'static> {
    match answer {
        Answer::Event => BackAnswer::Event,
        Answer::Done => BackAnswer::Done,
        Answer::Word(word) => BackAnswer::Word(word),
        Answer::Mapped(mapping) => BackAnswer::Mapped(mapping),
        Answer::MapRefused(status) => BackAnswer::MapRefused(status),
        Answer::BindRefused => BackAnswer::BindRefused,
        Answer::DiskFailed => BackAnswer::DiskFailed,
    }
}

pub fn halt(why: Why) -> Halt {
    match why {
        Why::Overrun(prod, rsp_prod) => Halt::Overrun { prod, rsp_prod },
        Why::Gone(state) => Halt::Gone(state),
        Why::Unplugged(state) => Halt::Unplugged(state),
        Why::BadPort(port) => Halt::BadPort(port),
        Why::MapRefused(gref, status) => Halt::MapRefused { gref, status },
    }
}

/// The page of a ring that has one, or the first of two.
pub const RING: Mapping = Mapping {
    number: 1,
    gref: 8,
    mode: Mode::ReadWrite,
};

/// The second page of a ring of two.
pub const SECOND: Mapping = Mapping {
    number: 2,
    gref: 9,
    mode: Mode::ReadWrite,
};
