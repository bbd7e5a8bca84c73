// A client: it grants frames as the front does and maps them as the back does. A test is one call over
// an array of steps; the calls that play them promise nothing, and are proved once.
mod entries;

use crate::expected::{holds, same};
use blk_base::{Mapping, Mode, OutOfMemory};
use grant_table::{Grants, MapRefusal};
use std::alloc::Global;
use std::process::Abort;
use xen_pages::Pages;

#[derive(Clone, Copy)]
enum Step {
    // The entry of a reference is written: its frame first, then its flags.
    Grants(u32, u32, u32),
    // A value is written to a frame's word.
    Puts(u32, u32, u32),
    // A frame has this value at a word.
    Word(u32, u32, u32),
    // A map of its reference in its mode gives this mapping.
    Maps(Mapping),
    // A map of a reference in a mode is refused.
    Refuses(u32, Mode, MapRefusal),
    Unmaps(Mapping),
    // A value is written to a word through a mapping.
    Writes(Mapping, u32, u32),
    // A word has this value through a mapping.
    Reads(Mapping, u32, u32),
    FrameOf(Mapping, u32),
    IsLive(Mapping, bool),
    // How many mappings were ever made, and how many live.
    Counts(u64, usize),
    RevokesAll,
}

// The memory, and the mappings of its frames.
#[derive(Drop)]
struct Table {
    pages: Pages,
    grants: Grants,
}

fn start(alloc: Global) -> Result<Table, OutOfMemory> {
    Ok(Table {
        pages: Pages::new(alloc)?,
        grants: Grants::new(alloc)?,
    })
}

fn put(rt: &impl Abort, table: &mut Table, frame: u32, word: u32, value: u32) {
    holds(rt, frame < 1088 && word < 1024);
    table.pages.write(frame, word, value);
}

fn word(rt: &impl Abort, table: &Table, frame: u32, word: u32) -> u32 {
    holds(rt, frame < 1088 && word < 1024);
    table.pages.read(frame, word)
}

fn grant(rt: &impl Abort, table: &mut Table, gref: u32, flags: u32, frame: u32) {
    holds(rt, gref < 512);
    table.pages.write(0, 2 * gref + 1, frame);
    table.pages.write(0, 2 * gref, flags);
}

fn map(rt: &impl Abort, table: &mut Table, gref: u32, mode: Mode) -> Result<Mapping, MapRefusal> {
    holds(rt, table.grants.live() < 8192 && table.grants.made() < 100);
    table.grants.map(&mut table.pages, gref, mode)
}

fn unmap(rt: &impl Abort, table: &mut Table, mapping: Mapping) {
    holds(rt, table.grants.is_live(mapping));
    table.grants.unmap(&mut table.pages, mapping);
}

fn write(rt: &impl Abort, table: &mut Table, mapping: Mapping, word: u32, value: u32) {
    holds(rt, table.grants.is_live(mapping) && word < 1024);
    match mapping.mode {
        Mode::ReadOnly => holds(rt, false),
        Mode::ReadWrite => table.grants.write(&mut table.pages, mapping, word, value),
    }
}

fn read(rt: &impl Abort, table: &Table, mapping: Mapping, word: u32) -> u32 {
    holds(rt, table.grants.is_live(mapping) && word < 1024);
    table.grants.read(&table.pages, mapping, word)
}

fn frame_of(rt: &impl Abort, table: &Table, mapping: Mapping) -> u32 {
    holds(rt, table.grants.is_live(mapping));
    table.grants.frame_of(mapping)
}

fn is_live(table: &Table, mapping: Mapping) -> bool {
    table.grants.is_live(mapping)
}

fn counts(table: &Table) -> (u64, usize) {
    (table.grants.made(), table.grants.live())
}

fn revoke_all(table: &mut Table) {
    table.grants.revoke_all();
}

fn takes(rt: &impl Abort, table: &mut Table, step: &Step) {
    match *step {
        Step::Grants(gref, flags, frame) => grant(rt, table, gref, flags, frame),
        Step::Puts(frame, place, value) => put(rt, table, frame, place, value),
        Step::Word(frame, place, wanted) => same(rt, word(rt, table, frame, place), wanted),
        Step::Maps(wanted) => same(rt, map(rt, table, wanted.gref, wanted.mode), Ok(wanted)),
        Step::Refuses(gref, mode, wanted) => same(rt, map(rt, table, gref, mode), Err(wanted)),
        Step::Unmaps(mapping) => unmap(rt, table, mapping),
        Step::Writes(mapping, place, value) => write(rt, table, mapping, place, value),
        Step::Reads(mapping, place, wanted) => same(rt, read(rt, table, mapping, place), wanted),
        Step::FrameOf(mapping, wanted) => same(rt, frame_of(rt, table, mapping), wanted),
        Step::IsLive(mapping, wanted) => same(rt, is_live(table, mapping), wanted),
        Step::Counts(made, live) => same(rt, counts(table), (made, live)),
        Step::RevokesAll => revoke_all(table),
    }
}

fn plays(rt: &impl Abort, alloc: Global, steps: &[Step]) {
    let mut table = start(alloc).expect(rt, "memory");
    for step in steps {
        takes(rt, &mut table, step);
    }
}

// Reference 24, mapped for writing. Its entry is words 48 and 49 of frame 0.
const ONLY: Mapping = Mapping {
    number: 1,
    gref: 24,
    mode: Mode::ReadWrite,
};

#[test]
fn maps_writes_ends_and_is_refused_afterwards(rt: HostRuntime) {
    plays(
        &rt,
        rt.alloc(),
        &[
            Step::Grants(24, 1, 18),
            Step::Maps(ONLY),
            Step::Word(0, 48, 1 + 8 + 16),
            Step::Writes(ONLY, 5, 77),
            Step::Word(18, 5, 77),
            // the entry's frame may change: the mapping keeps the one that it was given
            Step::Puts(0, 49, 19),
            Step::FrameOf(ONLY, 18),
            Step::Reads(ONLY, 5, 77),
            Step::Unmaps(ONLY),
            Step::Word(0, 48, 1),
            Step::Counts(1, 0),
            Step::IsLive(ONLY, false),
            Step::Grants(24, 0, 18),
            Step::Word(0, 48, 0),
            Step::Refuses(24, Mode::ReadOnly, MapRefusal::General),
            Step::Word(0, 48, 0),
        ],
    );
}

// Reference 30, mapped once for reading and twice for writing. Its entry is words 60 and 61 of frame 0.
const READER: Mapping = Mapping {
    number: 1,
    gref: 30,
    mode: Mode::ReadOnly,
};

const WRITER: Mapping = Mapping {
    number: 2,
    gref: 30,
    mode: Mode::ReadWrite,
};

const OTHER: Mapping = Mapping {
    number: 3,
    gref: 30,
    mode: Mode::ReadWrite,
};

#[test]
fn the_last_mapping_of_a_kind_clears_its_flag(rt: HostRuntime) {
    plays(
        &rt,
        rt.alloc(),
        &[
            Step::Grants(30, 1, 40),
            Step::Maps(READER),
            Step::Word(0, 60, 1 + 8),
            Step::Maps(WRITER),
            Step::Maps(OTHER),
            Step::Word(0, 60, 1 + 8 + 16),
            Step::Unmaps(WRITER),
            Step::Word(0, 60, 1 + 8 + 16),
            Step::Unmaps(OTHER),
            Step::Word(0, 60, 1 + 8),
            Step::Unmaps(READER),
            Step::Word(0, 60, 1),
        ],
    );
}

const SECOND: Mapping = Mapping {
    number: 2,
    ..READER
};

#[test]
fn numbers_go_on_after_all_is_revoked(rt: HostRuntime) {
    plays(
        &rt,
        rt.alloc(),
        &[
            Step::Grants(30, 1, 40),
            Step::Maps(READER),
            Step::RevokesAll,
            Step::Counts(1, 0),
            Step::IsLive(READER, false),
            Step::Maps(SECOND),
        ],
    );
}
