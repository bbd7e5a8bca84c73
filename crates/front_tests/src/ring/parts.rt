// Words of a sector, and of an entry, that are moved many at once: what comes of them is what comes of single moves.
use super::reads::ANSWERED;
use super::script::{Ask, Data, EIGHT, News, Step, Work, plays, plays_after};
use blk_front::{EntryPart, SectorPart};

// The first sector of request 1, in the pool's first frame; each word is written to be 7.
const WRITTEN: SectorPart = SectorPart {
    id: 1,
    index: 0,
    frame: 18,
    word: 0,
    count: 128,
    value: Some(7),
};

// The same, where it is read.
const READ: SectorPart = SectorPart {
    id: 1,
    index: 0,
    frame: 18,
    word: 0,
    count: 128,
    value: None,
};

#[test]
fn the_sectors_of_a_write_are_written_one_after_another(rt: HostRuntime) {
    const STEPS: &[Step<'static>] = &[
        Step::Part(None),
        Step::Connects(19),
        Step::Sleeps,
        Step::Part(None),
        Step::Takes(Work::Write(0, 2, 7), 1),
        Step::Part(Some(WRITTEN)),
        Step::WritesPart(128),
        Step::Part(Some(SectorPart {
            index: 1,
            word: 128,
            value: Some(8),
            ..WRITTEN
        })),
        Step::WritesPart(128),
        Step::Word(18, 0, 7),
        Step::Word(18, 127, 7),
        Step::Word(18, 128, 8),
        Step::Word(18, 255, 8),
        // its grant
        Step::Part(None),
        Step::AsksAll(&[Ask::Write(0, 49, 18), Ask::Fence, Ask::Write(0, 48, 5)]),
    ];
    plays(&rt, rt.alloc(), &EIGHT, STEPS);
}

#[test]
fn a_part_goes_on_where_single_moves_end(rt: HostRuntime) {
    const STEPS: &[Step<'static>] = &[
        Step::Connects(19),
        Step::Sleeps,
        Step::Takes(Work::Write(0, 1, 7), 1),
        Step::WritesPart(0),
        Step::Part(Some(WRITTEN)),
        Step::Asks(Ask::Write(18, 0, 7)),
        Step::WritesPart(100),
        Step::Part(Some(SectorPart {
            word: 101,
            count: 27,
            ..WRITTEN
        })),
        Step::Asks(Ask::Write(18, 101, 7)),
        Step::WritesPart(26),
        Step::Asks(Ask::Write(0, 49, 18)),
    ];
    plays(&rt, rt.alloc(), &EIGHT, STEPS);
}

#[test]
fn the_sector_that_is_told_has_the_words_of_both_its_parts(rt: HostRuntime) {
    const STEPS: &[Step<'static>] = &[
        Step::Part(Some(READ)),
        Step::ReadsPart(100),
        Step::HasTold(false),
        Step::Part(Some(SectorPart {
            word: 100,
            count: 28,
            ..READ
        })),
        Step::ReadsPart(28),
        Step::Taken(News::Sector(1, 0, Data::Counted)),
        Step::Part(None),
        Step::Owed(0, 0),
    ];
    plays_after(&rt, rt.alloc(), &ANSWERED, STEPS);
}

#[test]
fn data_that_a_suspend_left_are_read_so_too(rt: HostRuntime) {
    const STEPS: &[Step<'static>] = &[
        Step::Moves(5),
        Step::Suspends,
        Step::Part(Some(SectorPart {
            word: 5,
            count: 123,
            ..READ
        })),
        Step::ReadsPart(123),
        Step::Taken(News::Sector(1, 0, Data::Counted)),
        // the ring is made anew
        Step::Part(None),
        Step::Asks(Ask::Write(2, 0, 0)),
    ];
    plays_after(&rt, rt.alloc(), &ANSWERED, STEPS);
}

// The first entry of the ring: 28 words from the ring's word 16 on.
const ENTRY: EntryPart = EntryPart {
    frame: 2,
    word: 16,
    count: 28,
};

// A WRITE (1) of one segment of device 51712, as request 1 of the grant 24.
#[test]
fn the_words_of_an_entry_are_written_one_after_another(rt: HostRuntime) {
    const STEPS: &[Step<'static>] = &[
        Step::Connects(19),
        Step::Sleeps,
        Step::Entry(None),
        Step::Takes(Work::Write(0, 1, 7), 1),
        Step::WritesPart(128),
        Step::Entry(None),
        Step::AsksAll(&[Ask::Write(0, 49, 18), Ask::Fence, Ask::Write(0, 48, 5)]),
        Step::Entry(Some(ENTRY)),
        Step::WritesEntry(0),
        Step::WritesEntry(10),
        Step::Entry(Some(EntryPart {
            word: 26,
            count: 18,
            ..ENTRY
        })),
        Step::Asks(Ask::Write(2, 26, 0)),
        Step::WritesEntry(17),
        Step::Entry(None),
        Step::Word(2, 16, 0xca000101),
        Step::Word(2, 18, 1),
        Step::Word(2, 22, 24),
        // the push
        Step::Asks(Ask::Write(2, 0, 1)),
    ];
    plays(&rt, rt.alloc(), &EIGHT, STEPS);
}
