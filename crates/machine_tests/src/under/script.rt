// Scripts: what is done to what lies under the ends, step by step, and what is to be found. A test is a call
// or two over arrays of steps; the calls that play them are proved once.
use super::answer::Answer;
use super::world::{
    World, back, front, has_word, overwrite, pending, put, short, suspend, watches_pending,
};
use crate::expected::{holds, same};
use blk_base::{BackAsk, BackMover, FrontAsk, Lent, Move, Mover};
use std::process::Abort;

/// One step. A word has its frame, its place there and its value.
#[derive(Clone, Copy)]
pub enum Step<'a> {
    /// A word is written, by no move.
    Puts(u32, u32, u32),
    /// A hostile hand overwrites a word.
    Overwrites(u32, u32, u32),
    /// A word has this value.
    Word(u32, u32, u32),
    /// Whether the front has an event to take, and whether the back has.
    Pending(bool, bool),
    /// Whether the front has a watch to take, and whether the back has.
    WatchesPending(bool, bool),
    /// The front sends an event.
    Sends,
    /// The front writes a word.
    Writes(u32, u32, u32),
    /// The front reads a word.
    Reads(u32, u32, u32),
    /// The front exchanges a word's old value for a new one, and sees the last.
    Exchanges(u32, u32, u32, u32, u32),
    /// The front sets a key to a text.
    SetsKey(&'a str, &'a str),
    /// The front may not set a key to a text.
    RefusesKey(&'a str, &'a str),
    /// The front reads a key, which has this text.
    GetsKey(&'a str, &'a str),
    /// The front reads a key, which isn't there.
    MissesKey(&'a str),
    /// The back sets a watch.
    Watches(&'a str),
    /// The back takes a watch.
    TakesWatch(&'a str),
    /// The back takes its event.
    TakesEvent,
    /// The back or a job waits, and takes nothing.
    Waits(BackMover),
    /// The back may not bind a port.
    RefusesBind(u32),
    /// The guest is suspended and resumes, with this text at both states.
    Suspends(&'a str),
}

fn sends(rt: &impl Abort, world: &mut World) {
    front(
        rt,
        world,
        &FrontAsk::Send,
        Answer::Done,
        Some(Move::Send(Mover::Front)),
    );
}

fn writes(rt: &impl Abort, world: &mut World, frame: u32, word: u32, value: u32) {
    holds(rt, frame < 1018 && word < 1024);
    front(
        rt,
        world,
        &FrontAsk::Write { frame, word, value },
        Answer::Done,
        Some(Move::FrontWrite { frame, word, value }),
    );
}

fn reads(rt: &impl Abort, world: &mut World, frame: u32, word: u32, value: u32) {
    holds(rt, frame < 1018 && word < 1024);
    front(
        rt,
        world,
        &FrontAsk::Read { frame, word },
        Answer::Word(value),
        Some(Move::FrontRead { frame, word, value }),
    );
}

fn exchanges(
    rt: &impl Abort,
    world: &mut World,
    (frame, word): (u32, u32),
    (old, new, seen): (u32, u32, u32),
) {
    holds(rt, frame < 1018 && word < 1024);
    front(
        rt,
        world,
        &FrontAsk::Cas {
            frame,
            word,
            old,
            new,
        },
        Answer::Word(seen),
        Some(Move::FrontCas {
            frame,
            word,
            old,
            new,
            seen,
        }),
    );
}

fn sets_key(rt: &impl Abort, world: &mut World, path: &str, text: &str) {
    let (path, text) = (short(rt, path), short(rt, text));
    front(
        rt,
        world,
        &FrontAsk::SetKey(Lent::at(&path), Lent::at(&text)),
        Answer::Done,
        Some(Move::SetKey(Mover::Front, path, text)),
    );
}

fn refuses_key(rt: &impl Abort, world: &mut World, path: &str, text: &str) {
    let (path, text) = (short(rt, path), short(rt, text));
    front(
        rt,
        world,
        &FrontAsk::SetKey(Lent::at(&path), Lent::at(&text)),
        Answer::Nothing,
        None,
    );
}

fn gets_key(rt: &impl Abort, world: &mut World, path: &str, text: &str) {
    let (path, text) = (short(rt, path), short(rt, text));
    front(
        rt,
        world,
        &FrontAsk::GetKey(Lent::at(&path)),
        Answer::Key(Some(text)),
        Some(Move::GetKey(Mover::Front, path, Some(text))),
    );
}

fn misses_key(rt: &impl Abort, world: &mut World, path: &str) {
    let path = short(rt, path);
    front(
        rt,
        world,
        &FrontAsk::GetKey(Lent::at(&path)),
        Answer::Key(None),
        Some(Move::GetKey(Mover::Front, path, None)),
    );
}

fn watches(rt: &impl Abort, world: &mut World, path: &str) {
    let path = short(rt, path);
    back(
        rt,
        world,
        BackMover::Back,
        &BackAsk::Watch(Lent::at(&path)),
        Answer::Done,
        Some(Move::Watch(Mover::Back, path)),
    );
}

fn takes_watch(rt: &impl Abort, world: &mut World, path: &str) {
    let path = short(rt, path);
    back(
        rt,
        world,
        BackMover::Back,
        &BackAsk::Wait,
        Answer::Watched(path),
        Some(Move::Watched(Mover::Back, path)),
    );
}

fn takes_event(rt: &impl Abort, world: &mut World) {
    back(
        rt,
        world,
        BackMover::Back,
        &BackAsk::Wait,
        Answer::Event,
        Some(Move::Event(Mover::Back)),
    );
}

fn waits(rt: &impl Abort, world: &mut World, who: BackMover) {
    back(rt, world, who, &BackAsk::Wait, Answer::Nothing, None);
}

fn refuses_bind(rt: &impl Abort, world: &mut World, port: u32) {
    back(
        rt,
        world,
        BackMover::Back,
        &BackAsk::Bind(port),
        Answer::BindRefused,
        Some(Move::BindRefused { port }),
    );
}

fn takes(rt: &impl Abort, world: &mut World, step: &Step) {
    match *step {
        Step::Puts(frame, word, value) => put(rt, world, frame, word, value),
        Step::Overwrites(frame, word, value) => overwrite(rt, world, frame, word, value),
        Step::Word(frame, word, value) => has_word(rt, world, frame, word, value),
        Step::Pending(front, back) => same(rt, pending(world), (front, back)),
        Step::WatchesPending(front, back) => same(rt, watches_pending(world), (front, back)),
        Step::Sends => sends(rt, world),
        Step::Writes(frame, word, value) => writes(rt, world, frame, word, value),
        Step::Reads(frame, word, value) => reads(rt, world, frame, word, value),
        Step::Exchanges(frame, word, old, new, seen) => {
            exchanges(rt, world, (frame, word), (old, new, seen))
        }
        Step::SetsKey(path, text) => sets_key(rt, world, path, text),
        Step::RefusesKey(path, text) => refuses_key(rt, world, path, text),
        Step::GetsKey(path, text) => gets_key(rt, world, path, text),
        Step::MissesKey(path) => misses_key(rt, world, path),
        Step::Watches(path) => watches(rt, world, path),
        Step::TakesWatch(path) => takes_watch(rt, world, path),
        Step::TakesEvent => takes_event(rt, world),
        Step::Waits(who) => waits(rt, world, who),
        Step::RefusesBind(port) => refuses_bind(rt, world, port),
        Step::Suspends(state) => suspend(rt, world, state),
    }
}

/// Plays these steps.
pub fn plays(rt: &impl Abort, world: &mut World, steps: &[Step]) {
    for step in steps {
        takes(rt, world, step);
    }
}
