// Scripts: what is done to a front and its guest's memory, step by step, and what is to be found. A test is
// one call over an array of steps; the calls that play them are proved once.
use super::guest::Guest;
use crate::expected::{holds, same};
use blk_base::{Abi, Config, Refusal, Status};
use blk_front::{EntryPart, FrontState, Offers, SectorPart, Told};
use std::alloc::Global;
use std::process::Abort;

/// What a front asks, its numbers in the order of `FrontAsk`: frame, word, value; a `Cas` has the old and
/// the new value.
#[derive(Clone, Copy)]
pub enum Ask {
    Wait,
    Fence,
    Read(u32, u32),
    Write(u32, u32, u32),
    Cas(u32, u32, u32, u32),
    NewPort,
    Send,
    ClosePort,
}

/// A job: its first sector, how many, and of a write its tag.
#[derive(Clone, Copy)]
pub enum Work {
    Read(u64, u32),
    Write(u64, u32, u32),
    Barrier(u64, u32, u32),
    Flush,
    Discard(u64, u32),
}

/// Words that lie in a read's frames.
#[derive(Clone, Copy)]
pub enum Data {
    /// Each is one more than the last.
    Counted,
    /// Each is its place, mixed with a word.
    Mixed,
}

/// What a front tells.
#[derive(Clone, Copy)]
pub enum News {
    /// Of a request of this id.
    Answer(u32, Status),
    Broken(u32),
    /// Of a request of this id, the sector at this place of it.
    Sector(u32, u32, Data),
}

/// One step.
#[derive(Clone, Copy)]
pub enum Step<'a> {
    /// A job is taken, and has this number.
    Takes(Work, u32),
    /// So many of a job are taken, which have the numbers from 1 on.
    TakesEach(Work, u32),
    Refuses(Work, Refusal),
    /// Each is refused; nothing is owed after it, and the front is idle.
    RefusesEach(&'a [(Work, Refusal)]),
    /// The next move asks this, and tells nothing.
    Asks(Ask),
    /// The next moves ask these, and tell nothing.
    AsksAll(&'a [Ask]),
    /// The next moves write the words of a frame from this one on, so many: these, and zeros after them.
    Writes(u32, u32, u32, &'a [u32]),
    /// The same from word 0 on; before each a write is refused, since the front isn't connected.
    WritesRefusing(u32, u32, &'a [u32]),
    /// The next moves write the data of sectors from a frame on, eight to a frame: each sector's word.
    Fills(u32, &'a [u32]),
    /// The next moves write so many words of a frame, which name the segments of the frames from 18 on,
    /// each of 8 sectors, but of one from this word on.
    Names(u32, u32, u32),
    /// The next moves grant frames from this one on, so many, for reading alone.
    Grants(u32, u32),
    /// The next moves read the words of a frame, so many, and tell nothing; before each so much is owed, and
    /// the front isn't idle.
    Reads(u32, u32, (u32, u64)),
    /// So many moves, of which none tells anything.
    Moves(u32),
    /// The next move asks this, and tells this.
    Tells(Ask, News),
    /// The next move tells this.
    Told(News),
    /// The first move of the next 20 that tells something tells this.
    ToldSoon(News),
    /// The next moves tell so many sectors of request 1, by 128 moves each; before each so much is owed.
    TellsSectors(u32, Data, (u32, u64)),
    /// The next move asks this. What it tells isn't taken.
    Untold(Ask),
    /// What was told is taken.
    Taken(News),
    HasTold(bool),
    /// The front may enter a state, or may not.
    Enters(FrontState, bool),
    /// The moves that grant the ring's pages and make the port, so many before the last; then it enters
    /// Connected, over a back of the disk that the guest is configured with.
    Connects(u32),
    /// The same where the ring has one page, and the back serves these.
    Offered(Offers),
    /// The moves after which a connected front sleeps: the event word and its fence between two looks.
    Sleeps,
    Suspends,
    Idle(bool),
    IsConnected(bool),
    Owed(u32, u64),
    /// What is asked by `data_asked`.
    DataAsked(Option<Ask>),
    /// The words of data that are asked for next.
    Part(Option<SectorPart>),
    /// So many of them are written at once, and nothing is told.
    WritesPart(u32),
    /// So many of them are read at once. What is told then isn't taken.
    ReadsPart(u32),
    /// The words of an entry that are written next.
    Entry(Option<EntryPart>),
    /// So many of them are written at once, and nothing is told.
    WritesEntry(u32),
    /// A frame has this value at a word.
    Word(u32, u32, u32),
    /// This value is written to a frame's word.
    Puts(u32, u32, u32),
    /// These data are written to frames from this one on, so many words.
    Lays(Data, u32, u32),
    /// The response of an index is written, and the responses' producer after it.
    Responds(u32, [u32; 3]),
}

/// A back of a disk of 8 sectors that serves reads and writes alone, of the segments that an entry has
/// room for.
pub const NOTHING: Offers = Offers {
    sectors: 8,
    read_only: false,
    barrier: false,
    flush: false,
    discard: false,
    indirect: 0,
    persistent: false,
};

impl Data {
    fn word(self, place: u32) -> u32 {
        match self {
            Data::Counted => place.wrapping_add(0x0102_0304),
            Data::Mixed => place ^ 0x0102_0304,
        }
    }

    fn sector(self, index: u32) -> [u32; 128] {
        let mut words = [0; 128];
        for word in 0..128 {
            words[word] = self.word(index.wrapping_mul(128).wrapping_add(word as u32));
        }
        words
    }
}

fn told(news: News) -> Told {
    match news {
        News::Answer(id, status) => Told::Answer { id, status },
        News::Broken(word) => Told::Broken(word),
        News::Sector(id, index, data) => Told::Sector {
            id,
            index,
            words: data.sector(index),
        },
    }
}

// The next move: what is told then.
fn one_move(rt: &impl Abort, guest: &mut Guest) -> Option<Told> {
    guest.moves(rt);
    guest.take_told()
}

fn quiet_moves(rt: &impl Abort, guest: &mut Guest, count: u32) {
    for _ in 0..count {
        same(rt, one_move(rt, guest), None);
    }
}

fn asks(rt: &impl Abort, guest: &mut Guest, wanted: Ask) {
    guest.asks(rt, wanted);
    same(rt, one_move(rt, guest), None);
}

fn tells(rt: &impl Abort, guest: &mut Guest, wanted: Ask, news: News) {
    guest.asks(rt, wanted);
    same(rt, one_move(rt, guest), Some(told(news)));
}

fn tells_sectors(rt: &impl Abort, guest: &mut Guest, count: u32, data: Data, owed: (u32, u64)) {
    for index in 0..count {
        same(rt, guest.owed(), owed);
        quiet_moves(rt, guest, 127);
        same(
            rt,
            one_move(rt, guest),
            Some(told(News::Sector(1, index, data))),
        );
    }
}

fn untold(rt: &impl Abort, guest: &mut Guest, wanted: Ask) {
    guest.asks(rt, wanted);
    guest.moves(rt);
}

fn asks_all(rt: &impl Abort, guest: &mut Guest, wanted: &[Ask]) {
    for ask in wanted {
        asks(rt, guest, *ask);
    }
}

fn takes_each(rt: &impl Abort, guest: &mut Guest, work: Work, count: u32) {
    for before in 0..count {
        same(rt, guest.submit(rt, work), Ok(before.wrapping_add(1)));
    }
}

fn refuses_each(rt: &impl Abort, guest: &mut Guest, refused: &[(Work, Refusal)]) {
    for (work, refusal) in refused {
        same(rt, guest.submit(rt, *work), Err(*refusal));
        same(rt, (guest.owed(), guest.idle()), ((0, 0), true));
    }
}

// Writes words of a frame: these, and zeros after them.
fn writes(
    rt: &impl Abort,
    guest: &mut Guest,
    (frame, first, count): (u32, u32, u32),
    words: &[u32],
) {
    for n in 0..count {
        let value = words.get(n as usize).copied().unwrap_or(0);
        asks(rt, guest, Ask::Write(frame, first.wrapping_add(n), value));
    }
}

// Writes words of a frame from the first on; before each a write is refused.
fn writes_refusing(rt: &impl Abort, guest: &mut Guest, frame: u32, count: u32, words: &[u32]) {
    for n in 0..count {
        let refused = guest.submit(rt, Work::Write(0, 1, 7));
        same(rt, refused, Err(Refusal::NotReady));
        writes(
            rt,
            guest,
            (frame, n, 1),
            words.get(n as usize..).unwrap_or(&[]),
        );
    }
}

// Writes the data of a sector from a frame's word on: one word.
fn fills(rt: &impl Abort, guest: &mut Guest, (frame, first): (u32, u32), value: u32) {
    for word in 0..128 {
        asks(
            rt,
            guest,
            Ask::Write(frame, first.wrapping_add(word), value),
        );
    }
}

fn fills_all(rt: &impl Abort, guest: &mut Guest, frame: u32, sectors: &[u32]) {
    let mut n: u32 = 0;
    for value in sectors {
        fills(rt, guest, (frame.wrapping_add(n / 8), n % 8 * 128), *value);
        n = n.wrapping_add(1);
    }
}

// The word of this number of an indirect page, whose last segment ends there with one sector: the
// references from 24 on, each with the sectors 0 to 7 of its frame.
fn naming(n: u32, last: u32) -> u32 {
    if n % 2 == 0 {
        24 + n / 2
    } else if n < last {
        0x0700
    } else {
        0
    }
}

fn names(rt: &impl Abort, guest: &mut Guest, frame: u32, count: u32, last: u32) {
    for n in 0..count {
        asks(rt, guest, Ask::Write(frame, n, naming(n, last)));
    }
}

// Frames are granted for reading alone, from this one on.
fn grants(rt: &impl Abort, guest: &mut Guest, first: u32, count: u32) {
    for n in 0..count {
        let frame = first.wrapping_add(n);
        let word = frame.wrapping_add(6).wrapping_mul(2);
        asks(rt, guest, Ask::Write(0, word.wrapping_add(1), frame));
        asks(rt, guest, Ask::Fence);
        asks(rt, guest, Ask::Write(0, word, 5));
    }
}

fn reads(rt: &impl Abort, guest: &mut Guest, frame: u32, count: u32, owed: (u32, u64)) {
    for word in 0..count {
        same(rt, (guest.owed(), guest.idle()), (owed, false));
        asks(rt, guest, Ask::Read(frame, word));
    }
}

fn writes_part(rt: &impl Abort, guest: &mut Guest, count: u32) {
    guest.writes_part(rt, count);
    same(rt, guest.take_told(), None);
}

fn writes_entry(rt: &impl Abort, guest: &mut Guest, count: u32) {
    guest.writes_entry(rt, count);
    same(rt, guest.take_told(), None);
}

fn told_soon(rt: &impl Abort, guest: &mut Guest, wanted: News) {
    for _ in 0..20 {
        let news = one_move(rt, guest);
        if news.is_some() {
            return same(rt, news, Some(told(wanted)));
        }
    }
    holds(rt, false);
}

fn connects(rt: &impl Abort, guest: &mut Guest, moves: u32) {
    quiet_moves(rt, guest, moves);
    asks(rt, guest, Ask::NewPort);
    let disk = guest.disk();
    holds(rt, guest.enter(FrontState::Connected(disk)));
}

fn offered(rt: &impl Abort, guest: &mut Guest, offers: Offers) {
    quiet_moves(rt, guest, 20);
    holds(rt, guest.enter(FrontState::Connected(offers)));
}

fn sleeps(rt: &impl Abort, guest: &mut Guest) {
    quiet_moves(rt, guest, 4);
    holds(rt, guest.idle());
}

fn lays(guest: &mut Guest, data: Data, frame: u32, count: u32) {
    for n in 0..count {
        guest.write(frame.wrapping_add(n / 1024), n % 1024, data.word(n));
    }
}

fn responds(guest: &mut Guest, index: u32, words: [u32; 3]) {
    let first = 16 + index % 32 * 28;
    guest.write(2, first, words[0]);
    guest.write(2, first + 1, words[1]);
    guest.write(2, first + 2, words[2]);
    guest.write(2, 2, index.wrapping_add(1));
}

fn takes(rt: &impl Abort, guest: &mut Guest, step: &Step) {
    match *step {
        Step::Takes(work, number) => same(rt, guest.submit(rt, work), Ok(number)),
        Step::TakesEach(work, count) => takes_each(rt, guest, work, count),
        Step::Refuses(work, refusal) => same(rt, guest.submit(rt, work), Err(refusal)),
        Step::RefusesEach(refused) => refuses_each(rt, guest, refused),
        Step::Asks(ask) => asks(rt, guest, ask),
        Step::AsksAll(wanted) => asks_all(rt, guest, wanted),
        Step::Writes(frame, first, count, words) => writes(rt, guest, (frame, first, count), words),
        Step::WritesRefusing(frame, count, words) => writes_refusing(
            rt, guest, frame, count, words,
        ),
        Step::Fills(frame, sectors) => fills_all(rt, guest, frame, sectors),
        Step::Names(frame, count, last) => names(rt, guest, frame, count, last),
        Step::Grants(first, count) => grants(rt, guest, first, count),
        Step::Reads(frame, count, owed) => reads(rt, guest, frame, count, owed),
        Step::Moves(count) => quiet_moves(rt, guest, count),
        Step::Tells(ask, news) => tells(rt, guest, ask, news),
        Step::Told(news) => same(rt, one_move(rt, guest), Some(told(news))),
        Step::ToldSoon(news) => told_soon(rt, guest, news),
        Step::TellsSectors(count, data, owed) => tells_sectors(rt, guest, count, data, owed),
        Step::Untold(ask) => untold(rt, guest, ask),
        Step::Taken(news) => same(rt, guest.take_told(), Some(told(news))),
        Step::HasTold(wanted) => same(rt, guest.has_told(), wanted),
        Step::Enters(state, wanted) => same(rt, guest.enter(state), wanted),
        Step::Connects(moves) => connects(rt, guest, moves),
        Step::Offered(offers) => offered(rt, guest, offers),
        Step::Sleeps => sleeps(rt, guest),
        Step::Suspends => guest.suspend(),
        Step::Idle(wanted) => same(rt, guest.idle(), wanted),
        Step::IsConnected(wanted) => same(rt, guest.is_connected(), wanted),
        Step::Owed(count, sectors) => same(rt, guest.owed(), (count, sectors)),
        Step::DataAsked(wanted) => guest.asks_data(rt, wanted),
        Step::Part(wanted) => same(rt, guest.part(), wanted),
        Step::WritesPart(count) => writes_part(rt, guest, count),
        Step::ReadsPart(count) => guest.reads_part(rt, count),
        Step::Entry(wanted) => same(rt, guest.entry(), wanted),
        Step::WritesEntry(count) => writes_entry(rt, guest, count),
        Step::Word(frame, word, value) => same(rt, guest.read(frame, word), value),
        Step::Puts(frame, word, value) => guest.write(frame, word, value),
        Step::Lays(data, frame, count) => lays(guest, data, frame, count),
        Step::Responds(index, words) => responds(guest, index, words),
    }
}

fn takes_all(rt: &impl Abort, guest: &mut Guest, steps: &[Step]) {
    for step in steps {
        takes(rt, guest, step);
    }
}

/// A disk of 8 sectors, and a ring of one page whose first index is 0.
pub const EIGHT: Config = Config {
    abi: Abi::X64,
    order: 0,
    persistent: 0,
    indirect: 0,
    start: 0,
    read_only: false,
    sectors: 8,
};

/// Plays these steps from a new front on.
pub fn plays(rt: &impl Abort, alloc: Global, config: &Config, steps: &[Step]) {
    takes_all(rt, &mut Guest::new(rt, alloc, config), steps);
}

/// The same after others, over a disk of 8 sectors.
pub fn plays_after(rt: &impl Abort, alloc: Global, before: &[Step], steps: &[Step]) {
    let mut guest = Guest::new(rt, alloc, &EIGHT);
    takes_all(rt, &mut guest, before);
    takes_all(rt, &mut guest, steps);
}
