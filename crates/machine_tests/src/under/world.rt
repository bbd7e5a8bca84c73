// What lies under the ends, a disk of no sectors, and room for one answer. Its calls promise next to
// nothing, so that the tests are proved without what the machine does.
ghost use Rattle.std.specs.Prelude.{◌≡◌, IfOk, IfSome};
ghost use Rattle.blk_io.specs.Disk.{attached_of};
ghost use Rattle.image_disk.specs.Image.{image_seen};
ghost use Rattle.hypervisor.specs.May.{FrontMay, BackMay, MayShow, HasPortLeft, HasMappingLeft};

use super::answer::{Answer, back_answer, front_answer};
use crate::expected::{holds, same};
use blk_base::{
    BackAnswer, BackAsk, BackMover, End, FrontAnswer, FrontAsk, Mapping, Mode, Move, OutOfMemory,
    ShortText,
};
use hypervisor::{Hypervisor, Room, front_shown};
use image_disk::MemoryDisk;
use std::alloc::Global;
use std::process::Abort;

/// The machine under both ends.
#[derive(Drop)]
pub struct World {
    under: Hypervisor,
    disk: MemoryDisk,
    room: Room,
}

fn start(alloc: Global) -> Result<World, OutOfMemory>
    ensures port { IfOk result (λ world. HasPortLeft world.under.channels) }
    ensures mapping { IfOk result (λ world. HasMappingLeft world.under.grants) }
{
    Ok(World {
        under: Hypervisor::new(alloc)?,
        disk: MemoryDisk::new(alloc, Vec::new(alloc))?,
        room: Room::new(),
    })
}

/// Memory of zeros, and nothing made.
pub fn fresh(rt: &impl Abort, alloc: Global) -> World
    ensures port { HasPortLeft result.under.channels }
    ensures mapping { HasMappingLeft result.under.grants }
{
    start(alloc).expect(rt, "memory")
}

/// A text, which is short enough.
pub fn short<const N: usize>(rt: &impl Abort, text: &str) -> ShortText<N> {
    holds(rt, text.len() <= N);
    ShortText::of(text)
}

/// A value is written to a word of the guest's memory.
pub fn put(rt: &impl Abort, world: &mut World, frame: u32, word: u32, value: u32)
    ensures { world.new.under.grants ≡ world.old.under.grants }
{
    holds(rt, frame < 1018 && word < 1024);
    world.under.write_front(frame, word, value);
}

/// A hostile hand overwrites a word with a value.
pub fn overwrite(rt: &impl Abort, world: &mut World, frame: u32, word: u32, value: u32)
    ensures { world.new.under.grants ≡ world.old.under.grants }
{
    holds(rt, frame < 1024 && word < 1024);
    world.under.overwrite(frame, word, value);
}

/// A frame has a value at a word.
pub fn has_word(rt: &impl Abort, world: &World, frame: u32, word: u32, value: u32) {
    holds(rt, frame < 1018 && word < 1024);
    let found = world.under.read_front(frame, word);
    same(rt, (frame, word, found), (frame, word, value));
}

/// Frames have these values at these words.
pub fn has_words(rt: &impl Abort, world: &World, words: &[(u32, u32, u32)]) {
    for (frame, word, value) in words {
        has_word(rt, world, *frame, *word, *value);
    }
}

/// Whether the front has an event to take, and whether the back has.
pub fn pending(world: &World) -> (bool, bool) {
    (
        world.under.pending(End::Front),
        world.under.pending(End::Back),
    )
}

/// Whether the front has a watch to take, and whether the back has.
pub fn watches_pending(world: &World) -> (bool, bool) {
    (
        world.under.watch_pending(End::Front),
        world.under.watch_pending(End::Back),
    )
}

/// The guest is suspended and resumes, with this text at both states.
pub fn suspend(rt: &impl Abort, world: &mut World, state: &str) {
    world.under.suspend(&short(rt, state)).expect(rt, "memory");
}

// The front's move as a report shows it, if it made one.
fn of_front(ask: &FrontAsk, answer: &Option<FrontAnswer>) -> Option<Move> {
    match answer {
        None => None,
        Some(answer) => Some(front_shown(ask, answer)),
    }
}

// The move of the back or a job as a report shows it, if it made one.
fn of_back(
    under: &Hypervisor,
    who: BackMover,
    ask: &BackAsk,
    answer: &Option<BackAnswer>,
) -> Option<Move>
    requires { IfSome answer.now (λ a. MayShow under.now ask.now a) }
{
    match answer {
        None => None,
        Some(answer) => Some(under.back_shown(who, ask, answer)),
    }
}

/// The front asks this, which has this answer, and a report shows this move.
pub fn front(
    rt: &impl Abort,
    world: &mut World,
    ask: &FrontAsk,
    wanted: Answer,
    shown: Option<Move>,
)
    requires { FrontMay world.old.under ask.now }
{
    let answer = world.under.front(ask, &mut world.room).expect(rt, "memory");
    let told = front_answer(&answer);
    same(rt, (told, of_front(ask, &answer)), (wanted, shown));
}

/// The back or a job asks this, which has this answer, and a report shows this move.
pub fn back(
    rt: &impl Abort,
    world: &mut World,
    who: BackMover,
    ask: &BackAsk,
    wanted: Answer,
    shown: Option<Move>,
)
    requires { BackMay world.old.under (attached_of (image_seen world.old.disk)) ask.now }
{
    let answer = world
        .under
        .back(who, ask, &mut world.disk, &mut world.room)
        .expect(rt, "memory");
    let told = back_answer(&answer);
    same(
        rt,
        (told, of_back(&world.under, who, ask, &answer)),
        (wanted, shown),
    );
}

/// The front has made port 1, and the back has bound it.
pub fn bound(rt: &impl Abort, alloc: Global) -> World {
    let mut world = fresh(rt, alloc);
    front(
        rt,
        &mut world,
        &FrontAsk::NewPort,
        Answer::Port(1),
        Some(Move::FrontPort { port: 1 }),
    );
    back(
        rt,
        &mut world,
        BackMover::Back,
        &BackAsk::Bind(1),
        Answer::Done,
        Some(Move::Bind { port: 1 }),
    );
    world
}

/// These words are written. Nothing is mapped.
pub fn written(rt: &impl Abort, alloc: Global, words: &[(u32, u32, u32)]) -> World
    ensures { HasMappingLeft result.under.grants }
{
    let mut world = fresh(rt, alloc);
    for place in words {
        let (frame, word, value) = *place;
        put(rt, &mut world, frame, word, value);
    }
    world
}

/// A job's map of a reference is refused with this status.
pub fn refuses_map(rt: &impl Abort, world: &mut World, gref: u32, mode: Mode, status: i32)
    requires { HasMappingLeft world.old.under.grants }
{
    let who = BackMover::Job(1);
    back(
        rt,
        world,
        who,
        &BackAsk::Map { gref, mode },
        Answer::MapRefused(status),
        Some(Move::MapRefused {
            who,
            gref,
            mode,
            status,
        }),
    );
}

// Job 1 maps a reference, as this move shows it: the mapping, if it has one.
fn map(rt: &impl Abort, world: &mut World, gref: u32, mode: Mode, shown: Move) -> Option<Mapping>
    requires { HasMappingLeft world.old.under.grants }
    ensures live { IfSome result (λ m. MayShow world.new.under (BackAsk.Map gref mode) (BackAnswer.Mapped m)) }
{
    let (who, ask) = (BackMover::Job(1), BackAsk::Map { gref, mode });
    let answer = world
        .under
        .back(who, &ask, &mut world.disk, &mut world.room)
        .expect(rt, "memory");
    same(rt, of_back(&world.under, who, &ask, &answer), Some(shown));
    match answer {
        Some(BackAnswer::Mapped(mapping)) => Some(mapping),
        _ => None,
    }
}

// Job 1 maps a reference, which gives mapping 1 of a frame.
fn maps(rt: &impl Abort, world: &mut World, gref: u32, mode: Mode, frame: u32) -> Mapping
    requires { HasMappingLeft world.old.under.grants }
    ensures live { MayShow world.new.under (BackAsk.Map gref mode) (BackAnswer.Mapped result) }
{
    let shown = Move::Map {
        who: BackMover::Job(1),
        gref,
        mode,
        mapping: 1,
        frame,
    };
    map(rt, world, gref, mode, shown).expect(rt, "a mapping")
}

/// Job 1 maps a reference for reading, which gives mapping 1 of a frame, and reads word 3 through it.
pub fn maps_and_reads(rt: &impl Abort, world: &mut World, gref: u32, frame: u32, value: u32)
    requires { HasMappingLeft world.old.under.grants }
{
    let mapping = maps(rt, world, gref, Mode::ReadOnly, frame);
    same(rt, world.under.read(mapping, 3), value);
}

/// The same for writing, and writes word 3 through it: it is then read so.
pub fn maps_and_writes(rt: &impl Abort, world: &mut World, gref: u32, frame: u32, value: u32)
    requires { HasMappingLeft world.old.under.grants }
{
    let mapping = maps(rt, world, gref, Mode::ReadWrite, frame);
    match mapping.mode {
        Mode::ReadOnly => holds(rt, false),
        Mode::ReadWrite => {
            world.under.write(mapping, 3, value);
            same(rt, world.under.read(mapping, 3), value);
        }
    }
}
