// Scripts: what a frontend is to ask of a back by hand, step by step, and to tell. A test is one call over
// their parts; the calls that play them promise nothing, and are proved once.
ghost use Rattle.std.specs.Prelude.{IfSome};
ghost use Rattle.vbd_front.specs.Ask.{IsAnswer};

use crate::expected::{holds, same};
use arrayvec::ArrayString;
use blk_base::{
    Abi, Config, End, Endpoint, FrontAnswer, FrontAsk, Lent, Path, Refusal, SectorCount, Status,
    Submission, Text,
};
use blk_front::{SectorPart, Told};
use std::alloc::Global;
use std::process::Abort;
use vbd_front::Frontend;
use xenbus_state::{FrontNews, state_path};

/// What is asked of the guest's memory and of the port, its numbers in the order of `FrontAsk`.
#[derive(Clone, Copy)]
pub enum Ask {
    Wait,
    Fence,
    Read(u32, u32),
    Write(u32, u32, u32),
    Cas(u32, u32, u32, u32),
    NewPort,
    ClosePort,
}

#[derive(Clone, Copy)]
pub enum Step<'a> {
    /// The next move asks this, and tells nothing. A word that is read is 0, and a front that waits takes
    /// its watch.
    Asks(Ask),
    /// The same for each of these.
    AsksAll(&'a [Ask]),
    /// The next move asks this, where this word is read, and tells nothing.
    Reads(Ask, u32),
    /// The same, which tells that request 1 went well.
    Answers(Ask, u32),
    /// The same, which breaks it by this word.
    Breaks(Ask, u32),
    /// The next moves write the words of a frame from this one on, so many: these, and zeros after them.
    Writes(u32, u32, u32, &'a [u32]),
    /// So many moves, of which none tells anything; a word that is read is 0.
    Moves(u32),
    /// It sets a watch on the back's state.
    Watches,
    /// It reads keys of the back, which say these texts.
    Gets(&'a [(&'a str, &'a str)]),
    /// It reads a key of the back, which says this text; what that makes happen.
    Learns(&'a str, &'a str, FrontNews),
    /// It writes keys of its own.
    Sets(&'a [(&'a str, &'a str)]),
    /// It takes its watch, and reads that the back is in this state.
    Sees(&'a str),
    /// It writes its state; what that makes happen.
    Says(&'a str, Option<FrontNews>),
    /// A write of a sector is submitted.
    Writing(Result<u32, Refusal>),
    /// A read of a sector is submitted.
    Reading(Result<u32, Refusal>),
    /// It is to close, and tells so.
    Closes,
    Suspends,
    /// It asks this, which isn't answered yet.
    IsAsking(Ask),
    /// What is asked by `data_asked`.
    DataAsked(Option<Ask>),
    /// The words of data that are asked for next.
    Part(Option<SectorPart>),
    /// So many of them are written at once, and nothing is told.
    WritesPart(u32),
    /// So many of them, each this one, are read at once; what that tells.
    ReadsPart(u32, u32, Option<Told>),
    Waits(bool),
    HasTold(bool),
    Owed(u32, u64),
}

const FRONT: &str = "/local/domain/1/device/vbd/51712/";

const BACK: &str = "/local/domain/0/backend/vbd/1/51712/";

// What lies at the other end: each key says this text, and each word of the ring this word.
#[derive(Drop)]
struct Other {
    text: Text,
    word: u32,
    watched: Path,
}

impl Other {
    fn new(text: &str, word: u32) -> Other {
        Other {
            text: short(text),
            word,
            watched: state_path(End::Back),
        }
    }

    // The answer to what is asked: a front that waits takes its watch. `None` for what this front
    // never asks.
    fn answer(&self, ask: &FrontAsk) -> Option<FrontAnswer<'_>>
        ensures { IfSome result (λ answer. IsAnswer ask.now answer) }
    {
        match ask {
            FrontAsk::Wait => Some(FrontAnswer::Watched(Lent::at(&self.watched))),
            FrontAsk::Read { .. } | FrontAsk::Cas { .. } => Some(FrontAnswer::Word(self.word)),
            FrontAsk::NewPort => Some(FrontAnswer::Port(1)),
            FrontAsk::GetKey(_) => Some(FrontAnswer::Key(Some(Lent::at(&self.text)))),
            FrontAsk::Send => None,
            _ => Some(FrontAnswer::Done),
        }
    }
}

fn short(text: &str) -> Text {
    if text.len() <= 64 {
        Text::of(text)
    } else {
        Text::new()
    }
}

// A key's path in an end's directory.
fn path(directory: &str, name: &str) -> Path {
    let mut text: ArrayString<80> = ArrayString::new();
    match (text.try_push_str(directory), text.try_push_str(name)) {
        (Ok(()), Ok(())) => Path::of(text.as_str()),
        _ => Path::new(),
    }
}

fn asked(ask: Ask) -> FrontAsk<'static> {
    match ask {
        Ask::Wait => FrontAsk::Wait,
        Ask::Fence => FrontAsk::Fence,
        Ask::Read(frame, word) => FrontAsk::Read { frame, word },
        Ask::Write(frame, word, value) => FrontAsk::Write { frame, word, value },
        Ask::Cas(frame, word, old, new) => FrontAsk::Cas {
            frame,
            word,
            old,
            new,
        },
        Ask::NewPort => FrontAsk::NewPort,
        Ask::ClosePort => FrontAsk::ClosePort,
    }
}

// What a move tells.
type News = (Option<Told>, Option<FrontNews>);

fn asking(front: &Frontend) -> FrontAsk<'_> {
    front.ask()
}

fn take_told(front: &mut Frontend) -> News {
    front.take_told()
}

fn close(rt: &impl Abort, front: &mut Frontend) {
    same(rt, front.take_told(), (None, None));
    front.close();
}

fn suspend(front: &mut Frontend) {
    front.suspend();
}

fn waits(front: &Frontend) -> bool {
    front.waits()
}

fn has_told(front: &Frontend) -> bool {
    front.has_told()
}

fn owed(front: &Frontend) -> (u32, u64) {
    front.owed()
}

fn submit(front: &mut Frontend, job: Submission) -> Result<u32, Refusal> {
    front.submit(job)
}

// One move: what is told then.
fn moves(rt: &impl Abort, front: &mut Frontend, other: &Other) -> News {
    same(rt, front.take_told(), (None, None));
    let answer = other.answer(&front.ask()).expect(rt, "never asked");
    front.tell(&answer).expect(rt, "memory");
    front.take_told()
}

// One move, which asks this: what is told then.
fn move_at(rt: &impl Abort, front: &mut Frontend, asked: FrontAsk, other: &Other) -> News {
    same(rt, asking(front), asked);
    moves(rt, front, other)
}

fn asks(rt: &impl Abort, front: &mut Frontend, wanted: Ask, word: u32) {
    reads(rt, front, wanted, word, None);
}

// One move, which asks this, where this word is read: what the ring's end tells then.
fn reads(rt: &impl Abort, front: &mut Frontend, wanted: Ask, word: u32, told: Option<Told>) {
    let found = move_at(rt, front, asked(wanted), &Other::new("", word));
    same(rt, found, (told, None));
}

fn asks_all(rt: &impl Abort, front: &mut Frontend, wanted: &[Ask]) {
    for ask in wanted {
        asks(rt, front, *ask, 0);
    }
}

fn writes(
    rt: &impl Abort,
    front: &mut Frontend,
    (frame, first, count): (u32, u32, u32),
    words: &[u32],
) {
    for n in 0..count {
        let value = words.get(n as usize).copied().unwrap_or(0);
        asks(
            rt,
            front,
            Ask::Write(frame, first.wrapping_add(n), value),
            0,
        );
    }
}

fn quiet_moves(rt: &impl Abort, front: &mut Frontend, count: u32) {
    for _ in 0..count {
        same(rt, moves(rt, front, &Other::new("", 0)), (None, None));
    }
}

fn watches(rt: &impl Abort, front: &mut Frontend) {
    let path = path(BACK, "state");
    let watch = FrontAsk::Watch(Lent::at(&path));
    same(
        rt,
        move_at(rt, front, watch, &Other::new("", 0)),
        (None, None),
    );
}

fn learns(rt: &impl Abort, front: &mut Frontend, name: &str, text: &str, news: Option<FrontNews>) {
    let path = path(BACK, name);
    let read = FrontAsk::GetKey(Lent::at(&path));
    same(
        rt,
        move_at(rt, front, read, &Other::new(text, 0)),
        (None, news),
    );
}

fn gets(rt: &impl Abort, front: &mut Frontend, keys: &[(&str, &str)]) {
    for (name, text) in keys {
        learns(rt, front, name, text, None);
    }
}

fn says(rt: &impl Abort, front: &mut Frontend, name: &str, text: &str, news: Option<FrontNews>) {
    let (path, text) = (path(FRONT, name), short(text));
    let said = FrontAsk::SetKey(Lent::at(&path), Lent::at(&text));
    same(
        rt,
        move_at(rt, front, said, &Other::new("", 0)),
        (None, news),
    );
}

fn sets(rt: &impl Abort, front: &mut Frontend, keys: &[(&str, &str)]) {
    for (name, text) in keys {
        says(rt, front, name, text, None);
    }
}

fn sees(rt: &impl Abort, front: &mut Frontend, state: &str) {
    asks(rt, front, Ask::Wait, 0);
    learns(rt, front, "state", state, None);
}

// A write of sector 0.
fn submit_write(rt: &impl Abort, front: &mut Frontend) -> Result<u32, Refusal> {
    let count = SectorCount::new(1).expect(rt, "a count above 0");
    submit(
        front,
        Submission::Write {
            sector: 0,
            count,
            tag: 7,
        },
    )
}

// A read of sector 0.
fn submit_read(rt: &impl Abort, front: &mut Frontend) -> Result<u32, Refusal> {
    let count = SectorCount::new(1).expect(rt, "a count above 0");
    submit(front, Submission::Read { sector: 0, count })
}

fn closes(rt: &impl Abort, front: &mut Frontend) {
    close(rt, front);
    same(rt, take_told(front), (None, Some(FrontNews::Closing)));
}

fn data_asked(rt: &impl Abort, front: &Frontend, wanted: Option<Ask>) {
    match wanted {
        Some(wanted) => same(rt, front.data_asked(), Some(asked(wanted))),
        None => same(rt, front.data_asked(), None),
    }
}

fn part(front: &Frontend) -> Option<SectorPart> {
    front.sector_part()
}

fn writes_part(rt: &impl Abort, front: &mut Frontend, count: u32) {
    same(rt, front.take_told(), (None, None));
    match front.sector_part() {
        Some(part) if part.value.is_some() && count <= part.count => front.tell_written(count),
        _ => holds(rt, false),
    }
    same(rt, take_told(front), (None, None));
}

fn reads_part(rt: &impl Abort, front: &mut Frontend, count: u32, word: u32, told: Option<Told>) {
    same(rt, front.take_told(), (None, None));
    let words = [word; 128];
    match front.sector_part() {
        Some(part) if part.value.is_none() && count <= part.count => {
            front.tell_read(&words[..count as usize]);
        }
        _ => holds(rt, false),
    }
    same(rt, take_told(front), (told, None));
}

const OKAY: Told = Told::Answer {
    id: 1,
    status: Status::Okay,
};

fn takes(rt: &impl Abort, front: &mut Frontend, step: &Step) {
    match *step {
        Step::Asks(wanted) => asks(rt, front, wanted, 0),
        Step::AsksAll(wanted) => asks_all(rt, front, wanted),
        Step::Reads(wanted, word) => asks(rt, front, wanted, word),
        Step::Answers(wanted, word) => reads(rt, front, wanted, word, Some(OKAY)),
        Step::Breaks(wanted, word) => reads(rt, front, wanted, word, Some(Told::Broken(word))),
        Step::Writes(frame, first, count, words) => writes(rt, front, (frame, first, count), words),
        Step::Moves(count) => quiet_moves(rt, front, count),
        Step::Watches => watches(rt, front),
        Step::Gets(keys) => gets(rt, front, keys),
        Step::Learns(name, text, news) => learns(rt, front, name, text, Some(news)),
        Step::Sets(keys) => sets(rt, front, keys),
        Step::Sees(state) => sees(rt, front, state),
        Step::Says(state, news) => says(rt, front, "state", state, news),
        Step::Writing(wanted) => same(rt, submit_write(rt, front), wanted),
        Step::Reading(wanted) => same(rt, submit_read(rt, front), wanted),
        Step::Closes => closes(rt, front),
        Step::Suspends => suspend(front),
        Step::IsAsking(wanted) => same(rt, asking(front), asked(wanted)),
        Step::DataAsked(wanted) => data_asked(rt, front, wanted),
        Step::Part(wanted) => same(rt, part(front), wanted),
        Step::WritesPart(count) => writes_part(rt, front, count),
        Step::ReadsPart(count, word, told) => reads_part(rt, front, count, word, told),
        Step::Waits(wanted) => same(rt, waits(front), wanted),
        Step::HasTold(wanted) => same(rt, has_told(front), wanted),
        Step::Owed(count, sectors) => same(rt, owed(front), (count, sectors)),
    }
}

fn takes_all(rt: &impl Abort, front: &mut Frontend, steps: &[Step]) {
    for step in steps {
        takes(rt, front, step);
    }
}

/// Plays these parts of a script from a new frontend on, which wishes for a ring of this order, over a disk of
/// 8 sectors.
pub fn plays(rt: &impl Abort, alloc: Global, order: u32, parts: &[&[Step]]) {
    holds(rt, order <= 4);
    let config = Config {
        abi: Abi::X64,
        order,
        persistent: 0,
        indirect: 0,
        start: 7,
        read_only: false,
        sectors: 8,
    };
    let mut front = Frontend::new(alloc, &config).expect(rt, "memory");
    for part in parts {
        takes_all(rt, &mut front, part);
    }
}
