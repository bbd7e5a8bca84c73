// Scripts: what a backend is told, step by step, and what it is to ask. A test is one call over their parts;
// the calls that play them promise nothing, and are proved once.
use crate::asks::{Answer, Ask, RING, Why, asked, given, halt};
use crate::expected::{holds, same};
use back_jobs::SectorPart;
use blk_base::{
    Abi, BackAnswer, BackAsk, Config, Endpoint, Halt, Lent, Mapping, OutOfMemory, ShortText,
};
use std::alloc::Global;
use std::process::Abort;
use vbd_back::Backend;

#[derive(Clone, Copy)]
pub enum Step<'a> {
    Asks(Ask),
    Told(Answer),
    /// It is told this so many times.
    ToldEach(Answer, u32),
    /// It asks this, which is done.
    Does(Ask),
    /// It asks for a page of the ring, and maps it.
    Maps(Mapping),
    /// It sets a key to a text.
    Sets(&'a str, &'a str),
    /// It reads a key, which has this text.
    Gets(&'a str, &'a str),
    /// It reads a key, which isn't there.
    Misses(&'a str),
    /// It sets a watch.
    Watches(&'a str),
    /// Its watch of the front's state is taken.
    Watched,
    Waits(bool),
    Idle(bool),
    Halted(Option<Why>),
    /// It is to close.
    Closes,
    /// No job of it has words to move, and it copies no entry at once.
    HasNoPart,
    /// The words of an entry that it copies next: of the ring's first page, from this word on, so many.
    HasPart(u32, u32),
    /// It is told these words of the entry at once.
    CopiesAtOnce(&'a [u32]),
    /// It holds so many jobs.
    Holds(usize),
}

/// The front's state.
pub const FRONT_STATE: &str = "/local/domain/1/device/vbd/51712/state";

// A backend of a disk of eight sectors.
fn backend(alloc: Global) -> Result<Backend, OutOfMemory> {
    let config = Config {
        abi: Abi::X64,
        order: 0,
        persistent: 0,
        indirect: 32,
        start: 0,
        read_only: false,
        sectors: 8,
    };
    Backend::new(alloc, &config)
}

fn short<const N: usize>(text: &str) -> ShortText<N> {
    if text.len() <= N {
        ShortText::of(text)
    } else {
        ShortText::new()
    }
}

fn ask(backend: &Backend) -> BackAsk<'_> {
    backend.ask()
}

fn waits(backend: &Backend) -> bool {
    backend.waits()
}

fn idle(backend: &Backend) -> bool {
    backend.idle()
}

fn close(backend: &mut Backend) {
    backend.close();
}

fn halted(backend: &Backend) -> Option<Halt> {
    backend.halted()
}

fn has_no_part(rt: &impl Abort, backend: &Backend) {
    same(rt, backend.sector_part(1), None);
    holds(rt, backend.part_values(1).is_empty());
    same(rt, backend.entry_part(), None);
}

fn has_part(rt: &impl Abort, backend: &Backend, (word, count): (u32, u32)) {
    let part = SectorPart {
        mapping: RING,
        word,
        count,
        writes: false,
    };
    same(rt, backend.entry_part(), Some(part));
}

fn copies_at_once(rt: &impl Abort, backend: &mut Backend, words: &[u32]) {
    let _ = backend.take_told();
    match backend.entry_part() {
        Some(part) if !part.writes && words.len() <= part.count as usize => {
            backend.tell_entry(words)
        }
        _ => holds(rt, false),
    }
}

fn held(backend: &Backend) -> usize {
    backend.held()
}

// Answers what the backend asks with an answer of that kind.
fn tell(rt: &impl Abort, backend: &mut Backend, given: BackAnswer) {
    let _ = backend.take_told();
    let allowed = match (backend.ask(), &given) {
        (BackAsk::Wait, BackAnswer::Event | BackAnswer::Watched(_)) => true,
        (BackAsk::Fence, BackAnswer::Done) => true,
        (BackAsk::Read { .. }, BackAnswer::Word(_)) => true,
        (BackAsk::Write { .. }, BackAnswer::Done) => true,
        (BackAsk::Map { gref, mode }, BackAnswer::Mapped(m)) => m.gref == gref && m.mode == mode,
        (BackAsk::Map { .. }, BackAnswer::MapRefused(_)) => true,
        (BackAsk::Bind(_), BackAnswer::Done) => true,
        (BackAsk::Unmap(_) | BackAsk::Send | BackAsk::ClosePort, BackAnswer::Done) => true,
        (BackAsk::GetKey(_), BackAnswer::Key(_)) => true,
        (BackAsk::SetKey(..), BackAnswer::Done) => true,
        (BackAsk::Watch(_), BackAnswer::Done) => true,
        _ => false,
    };
    holds(rt, allowed);
    backend.tell(&given).expect(rt, "memory");
}

fn told_each(rt: &impl Abort, backend: &mut Backend, answer: Answer, count: u32) {
    for _ in 0..count {
        tell(rt, backend, given(answer));
    }
}

fn does(rt: &impl Abort, backend: &mut Backend, asks: Ask, answer: Answer) {
    same(rt, ask(backend), asked(asks));
    tell(rt, backend, given(answer));
}

// Whether it sets this key to this text.
fn is_set(backend: &Backend, path: &str, text: &str) -> bool {
    match ask(backend) {
        BackAsk::SetKey(key, value) => {
            key.get().as_str() == path && value.get().as_str() == text
        }
        _ => false,
    }
}

fn sets(rt: &impl Abort, backend: &mut Backend, path: &str, text: &str) {
    assert!(rt; is_set(backend, path, text), "{path}");
    tell(rt, backend, BackAnswer::Done);
}

fn gets(rt: &impl Abort, backend: &mut Backend, path: &str, text: &str) {
    let (path, text) = (short(path), short(text));
    same(rt, ask(backend), BackAsk::GetKey(Lent::at(&path)));
    tell(rt, backend, BackAnswer::Key(Some(Lent::at(&text))));
}

fn misses(rt: &impl Abort, backend: &mut Backend, path: &str) {
    let path = short(path);
    same(rt, ask(backend), BackAsk::GetKey(Lent::at(&path)));
    tell(rt, backend, BackAnswer::Key(None));
}

fn watches(rt: &impl Abort, backend: &mut Backend, path: &str) {
    let path = short(path);
    same(rt, ask(backend), BackAsk::Watch(Lent::at(&path)));
    holds(rt, !waits(backend) && !idle(backend));
    tell(rt, backend, BackAnswer::Done);
}

fn watched(rt: &impl Abort, backend: &mut Backend) {
    let path = short(FRONT_STATE);
    tell(rt, backend, BackAnswer::Watched(Lent::at(&path)));
}

fn takes(rt: &impl Abort, backend: &mut Backend, step: &Step) {
    match *step {
        Step::Asks(wanted) => same(rt, ask(backend), asked(wanted)),
        Step::Told(answer) => tell(rt, backend, given(answer)),
        Step::ToldEach(answer, count) => told_each(rt, backend, answer, count),
        Step::Does(asks) => does(rt, backend, asks, Answer::Done),
        Step::Maps(page) => does(
            rt,
            backend,
            Ask::Map(page.gref, page.mode),
            Answer::Mapped(page),
        ),
        Step::Sets(path, text) => sets(rt, backend, path, text),
        Step::Gets(path, text) => gets(rt, backend, path, text),
        Step::Misses(path) => misses(rt, backend, path),
        Step::Watches(path) => watches(rt, backend, path),
        Step::Watched => watched(rt, backend),
        Step::Waits(wanted) => same(rt, waits(backend), wanted),
        Step::Idle(wanted) => same(rt, idle(backend), wanted),
        Step::Halted(why) => same(rt, halted(backend), why.map(halt)),
        Step::Closes => close(backend),
        Step::HasNoPart => has_no_part(rt, backend),
        Step::HasPart(word, count) => has_part(rt, backend, (word, count)),
        Step::CopiesAtOnce(words) => copies_at_once(rt, backend, words),
        Step::Holds(count) => same(rt, held(backend), count),
    }
}

fn takes_all(rt: &impl Abort, backend: &mut Backend, steps: &[Step]) {
    for step in steps {
        takes(rt, backend, step);
    }
}

/// A new backend, after these parts of a script.
pub fn after(rt: &impl Abort, alloc: Global, parts: &[&[Step]]) -> Backend {
    let mut backend = backend(alloc).expect(rt, "memory");
    for part in parts {
        takes_all(rt, &mut backend, part);
    }
    backend
}

/// Plays these parts of a script from a new backend on.
pub fn plays(rt: &impl Abort, alloc: Global, parts: &[&[Step]]) {
    let _ = after(rt, alloc, parts);
}

/// Plays these steps on the backend that this one is after a suspend, whose front goes on or is gone.
pub fn plays_renewed(
    rt: &impl Abort,
    alloc: Global,
    backend: &Backend,
    going: bool,
    steps: &[Step],
) {
    let mut new = backend.renewed(alloc, 7, going).expect(rt, "memory");
    takes_all(rt, &mut new, steps);
}
