// Words of a sector that are moved many at once: what comes of them is what comes of single moves.
use super::script::{Ask, Step, plays};
use super::{CONNECTS, LOOK, PUBLISHES, READS, READS_ORDER};
use blk_front::{SectorPart, Told};

// The sector of request 1, in the pool's first frame; each word is written to be 7.
const WRITTEN: SectorPart = SectorPart {
    id: 1,
    index: 0,
    frame: 18,
    word: 0,
    count: 128,
    value: Some(7),
};

// The same, where it is read.
const READ: SectorPart = SectorPart {
    id: 1,
    index: 0,
    frame: 18,
    word: 0,
    count: 128,
    value: None,
};

#[test]
fn a_sector_is_written_at_once_where_the_ring_has_the_move(rt: HostRuntime) {
    const PARTS: &[&[Step<'static>]] = &[
        &[Step::Part(None), Step::Watches, Step::Part(None)],
        READS,
        READS_ORDER,
        PUBLISHES,
        CONNECTS,
        &[
            Step::Part(None),
            Step::Writing(Ok(1)),
            Step::Part(Some(WRITTEN)),
            Step::WritesPart(100),
            // a front that is to close finishes its requests first
            Step::Closes,
            Step::IsAsking(Ask::Write(18, 100, 7)),
            Step::Part(Some(SectorPart {
                word: 100,
                count: 28,
                ..WRITTEN
            })),
            Step::WritesPart(28),
            Step::Part(None),
            Step::Asks(Ask::Write(0, 49, 18)),
        ],
    ];
    plays(&rt, rt.alloc(), 0, PARTS);
}

#[test]
fn a_sector_is_read_at_once_before_and_after_a_suspend(rt: HostRuntime) {
    const PARTS: &[&[Step<'static>]] = &[
        &[Step::Watches],
        READS,
        READS_ORDER,
        PUBLISHES,
        CONNECTS,
        &[
            Step::Reading(Ok(1)),
            // its grant, its entry and the push, where no event is waited for
            Step::Moves(34),
            // the response, and the end of the grant
            Step::Reads(LOOK, 8),
            Step::Reads(Ask::Read(2, 212), 1),
            Step::Reads(Ask::Read(2, 213), 0),
            Step::Reads(Ask::Read(2, 214), 0),
            Step::Reads(Ask::Read(0, 48), 1),
            Step::Part(None),
            Step::Answers(Ask::Cas(0, 48, 1, 0), 1),
            Step::Part(Some(READ)),
            Step::ReadsPart(100, 5, None),
            Step::Suspends,
            Step::Part(Some(SectorPart {
                word: 100,
                count: 28,
                ..READ
            })),
            Step::ReadsPart(
                28,
                5,
                Some(Told::Sector {
                    id: 1,
                    index: 0,
                    words: [5; 128],
                }),
            ),
            // the front sets its watch anew
            Step::Part(None),
            Step::Watches,
        ],
    ];
    plays(&rt, rt.alloc(), 0, PARTS);
}
