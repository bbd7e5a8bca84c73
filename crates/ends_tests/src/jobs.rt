// How jobs move their sectors, are failed, leave, and wait for one another.
mod script;

use crate::asks::{Answer, Ask};
use back_jobs::{Effect, SectorPart};
use blk_base::{Mapping, Mode, Status};
use script::{FRAME, READ_ONLY, Step, plays, plays_keeping_one, plays_on};

// The frame of a job is mapped for reading alone.
const MAP: Ask = Ask::Map(24, Mode::ReadOnly);

#[test]
fn a_write_maps_reads_writes_and_unmaps(rt: HostRuntime) {
    plays(
        &rt,
        rt.alloc(),
        false,
        &[
            Step::Starts(1, 1, 6),
            Step::At(Some((5, 0))),
            Step::Asks(MAP),
            Step::Told(Answer::Mapped(READ_ONLY)),
            // its first sector is written to the disk
            Step::ReadsWords(2),
            Step::DiskWrites(6),
            Step::Tells(Answer::Done, Effect::Moved { id: 5, index: 0 }),
            // the disk fails the other one
            Step::ReadsWords(3),
            Step::DiskWrites(7),
            Step::Tells(Answer::DiskFailed, Effect::Failed { id: 5, index: 1 }),
            Step::Done(None),
            Step::Asks(Ask::Unmap(READ_ONLY)),
            Step::Told(Answer::Done),
            Step::Done(Some((1, 5, 1, Status::Error))),
            Step::Taken(Some((1, 5, 1, Status::Error))),
            Step::Count(0),
        ],
    );
}

#[test]
fn a_read_writes_its_sectors_to_the_frame(rt: HostRuntime) {
    plays(
        &rt,
        rt.alloc(),
        false,
        &[
            Step::Starts(1, 0, 6),
            Step::Told(Answer::Mapped(FRAME)),
            Step::Asks(Ask::DiskRead(6)),
            Step::WritesWords(2),
            Step::Asks(Ask::DiskRead(7)),
            Step::WritesWords(3),
            Step::Asks(Ask::Unmap(FRAME)),
            Step::Told(Answer::Done),
            Step::Done(Some((1, 5, 0, Status::Okay))),
        ],
    );
}

// Words of a sector that a job moves next.
fn part(mapping: Mapping, word: u32, count: u32, writes: bool) -> Option<SectorPart> {
    Some(SectorPart {
        mapping,
        word,
        count,
        writes,
    })
}

#[test]
fn words_are_read_many_at_once_as_one_by_one(rt: HostRuntime) {
    plays(
        &rt,
        rt.alloc(),
        false,
        &[
            Step::Starts(1, 1, 6),
            Step::Part(None),
            Step::Told(Answer::Mapped(READ_ONLY)),
            // its first sector at once
            Step::Part(part(READ_ONLY, 256, 128, false)),
            Step::ReadsPart(128),
            Step::Part(None),
            Step::DiskWritesWords(6),
            Step::Tells(Answer::Done, Effect::Moved { id: 5, index: 0 }),
            // the other one in parts, with a word by itself between them
            Step::ReadsPart(0),
            Step::ReadsPart(100),
            Step::Asks(Ask::Read(READ_ONLY, 484)),
            Step::Told(Answer::Word(100)),
            Step::Part(part(READ_ONLY, 485, 27, false)),
            Step::ReadsPart(27),
            Step::DiskWritesWords(7),
            Step::Tells(Answer::Done, Effect::Moved { id: 5, index: 1 }),
            Step::Asks(Ask::Unmap(READ_ONLY)),
        ],
    );
}

#[test]
fn words_are_written_many_at_once_as_one_by_one(rt: HostRuntime) {
    plays(
        &rt,
        rt.alloc(),
        false,
        &[
            Step::Starts(1, 0, 6),
            Step::Told(Answer::Mapped(FRAME)),
            Step::Part(None),
            Step::Sector,
            Step::Part(part(FRAME, 256, 128, true)),
            Step::WritesPart(128),
            Step::Asks(Ask::DiskRead(7)),
            Step::Sector,
            Step::WritesPart(0),
            Step::WritesPart(127),
            Step::Asks(Ask::Write(FRAME, 511, 9)),
            Step::Part(part(FRAME, 511, 1, true)),
            Step::WritesPart(1),
            Step::Asks(Ask::Unmap(FRAME)),
            Step::Told(Answer::Done),
            Step::Done(Some((1, 5, 0, Status::Okay))),
        ],
    );
}

#[test]
fn what_is_not_served_is_done_at_once(rt: HostRuntime) {
    plays(
        &rt,
        rt.alloc(),
        false,
        &[
            Step::Starts(1, 1, 7),
            Step::Done(Some((1, 5, 1, Status::Error))),
            Step::Taken(Some((1, 5, 1, Status::Error))),
            Step::Starts(1, 3, 0),
            Step::Taken(Some((1, 5, 3, Status::Unsupported))),
            // the map that it asks for is refused, and no other job is held
            Step::Starts(1, 1, 0),
            Step::Told(Answer::MapRefused(-1)),
            Step::Done(Some((1, 5, 1, Status::Error))),
            Step::NextAfter(0, Some(1)),
            Step::NextAfter(1, None),
            Step::GivesNothingUp,
        ],
    );
}

#[test]
fn those_that_are_done_leave_in_order(rt: HostRuntime) {
    plays(
        &rt,
        rt.alloc(),
        false,
        &[
            Step::Starts(1, 1, 0),
            Step::Starts(2, 3, 0),
            Step::Starts(3, 3, 0),
            Step::Starts(4, 3, 0),
            // the lowest that is done leaves first
            Step::Taken(Some((2, 5, 3, Status::Unsupported))),
            Step::Told(Answer::MapRefused(-1)),
            Step::Done(Some((1, 5, 1, Status::Error))),
            Step::Taken(Some((1, 5, 1, Status::Error))),
            Step::Taken(Some((3, 5, 3, Status::Unsupported))),
            Step::Taken(Some((4, 5, 3, Status::Unsupported))),
            Step::Taken(None),
        ],
    );
}

// The disk fails its one call.
const FAILED: Effect = Effect::Failed { id: 5, index: 0 };

#[test]
fn a_flush_is_one_call_of_the_disk(rt: HostRuntime) {
    plays(
        &rt,
        rt.alloc(),
        true,
        &[
            Step::Flushes,
            Step::Asks(Ask::Flush),
            Step::Done(None),
            Step::Tells(Answer::Done, Effect::Flushed { id: 5 }),
            Step::Taken(Some((1, 5, 3, Status::Okay))),
            Step::Flushes,
            Step::Tells(Answer::DiskFailed, FAILED),
            Step::Taken(Some((1, 5, 3, Status::Error))),
        ],
    );
}

#[test]
fn a_discard_trims_its_sectors(rt: HostRuntime) {
    plays(
        &rt,
        rt.alloc(),
        true,
        &[
            Step::Discards(2, 6),
            Step::Asks(Ask::Trim(2, 6)),
            Step::Tells(Answer::Done, Effect::Trimmed { id: 5 }),
            Step::Taken(Some((1, 5, 5, Status::Okay))),
            Step::Discards(0, 8),
            Step::Tells(Answer::DiskFailed, FAILED),
            Step::Taken(Some((1, 5, 5, Status::Error))),
            Step::Discards(3, 6),
            Step::Taken(Some((1, 5, 5, Status::Error))),
        ],
    );
}

#[test]
fn a_barrier_stands_between_the_writes_before_and_after_it(rt: HostRuntime) {
    plays(
        &rt,
        rt.alloc(),
        true,
        &[
            Step::Starts(1, 1, 0),
            Step::Starts(2, 1, 0),
            Step::Starts(3, 2, 0),
            Step::Starts(4, 0, 0),
            Step::Starts(5, 1, 0),
            Step::GoOn([true, true, false, true, false]),
            Step::ToldTo(2, Answer::MapRefused(-1)),
            Step::GoOn([true, false, false, true, false]),
            Step::Told(Answer::MapRefused(-1)),
            Step::GoOn([false, false, true, true, false]),
            Step::ToldTo(3, Answer::MapRefused(-1)),
            Step::GoOn([false, false, false, true, true]),
        ],
    );
}

#[test]
fn segments_are_copied_from_a_page(rt: HostRuntime) {
    plays_on(
        &rt,
        rt.alloc(),
        (12, false, 12),
        &[
            Step::Indirect(13),
            Step::Taken(Some((1, 5, 1, Status::Error))),
            Step::Indirect(12),
            Step::Copies(40, 12, 0),
            Step::Asks(MAP),
        ],
    );
}

#[test]
fn copied_segments_are_tested_when_all_are_copied(rt: HostRuntime) {
    plays_on(
        &rt,
        rt.alloc(),
        (12, false, 12),
        &[
            Step::Indirect(7),
            Step::Copies(40, 7, 0x800),
            Step::Taken(Some((1, 5, 1, Status::Error))),
            Step::Indirect(7),
            Step::Copies(40, 7, 0x100),
            Step::Taken(Some((1, 5, 1, Status::Error))),
        ],
    );
}

#[test]
fn a_second_page_goes_on_where_the_first_ends(rt: HostRuntime) {
    plays_on(
        &rt,
        rt.alloc(),
        (513, false, 960),
        &[
            Step::Indirect(513),
            Step::Copies(40, 512, 0),
            Step::Copies(41, 1, 0),
            Step::Asks(MAP),
        ],
    );
}

// The frame of reference 25, mapped for writing too.
const OTHER: Mapping = Mapping {
    number: 8,
    gref: 25,
    mode: Mode::ReadWrite,
};

#[test]
fn a_kept_mapping_serves_the_next_request_and_goes_for_a_newer_one(rt: HostRuntime) {
    plays_keeping_one(
        &rt,
        rt.alloc(),
        &[
            // a write maps its frame for writing too, and keeps the mapping
            Step::StartsOn(1, 24),
            Step::JobAsks(1, Ask::Map(24, Mode::ReadWrite)),
            Step::ToldTo(1, Answer::Mapped(FRAME)),
            Step::Moves(1, FRAME),
            Step::Taken(Some((1, 5, 1, Status::Okay))),
            // the next one uses it, and maps nothing
            Step::StartsOn(2, 24),
            Step::Moves(2, FRAME),
            Step::Taken(Some((2, 5, 1, Status::Okay))),
            // one of another frame maps that, and the former mapping goes
            Step::StartsOn(3, 25),
            Step::JobAsks(3, Ask::Map(25, Mode::ReadWrite)),
            Step::ToldTo(3, Answer::Mapped(OTHER)),
            Step::Moves(3, OTHER),
            Step::JobAsks(3, Ask::Unmap(FRAME)),
            Step::ToldTo(3, Answer::Done),
            Step::Taken(Some((3, 5, 1, Status::Okay))),
            Step::GivesUp(OTHER),
            Step::GivesNothingUp,
        ],
    );
}

#[test]
fn a_kept_mapping_is_put_back_when_the_disk_fails(rt: HostRuntime) {
    plays_keeping_one(
        &rt,
        rt.alloc(),
        &[
            Step::Starts(1, 0, 0),
            Step::Told(Answer::Mapped(FRAME)),
            Step::Asks(Ask::DiskRead(0)),
            Step::Tells(Answer::DiskFailed, Effect::Failed { id: 5, index: 0 }),
            Step::Taken(Some((1, 5, 0, Status::Error))),
            // a barrier takes it; a write after the barrier waits, and found none to take
            Step::Starts(2, 2, 0),
            Step::StartsOn(3, 24),
            Step::JobAsks(3, Ask::Wait),
            Step::Moves(2, FRAME),
            Step::Taken(Some((2, 5, 2, Status::Okay))),
            Step::JobAsks(3, Ask::Map(24, Mode::ReadWrite)),
            Step::GivesUp(FRAME),
        ],
    );
}
