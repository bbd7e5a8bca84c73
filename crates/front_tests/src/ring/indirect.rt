// Reads and writes whose segments lie in indirect pages (`BLKIF_OP_INDIRECT`).
use super::script::{Ask, EIGHT, News, Step, Work, plays};
use blk_base::{Config, Refusal, Status};
use blk_front::Offers;

// The entry of a write of 89 sectors from sector 5 on with id 1: twelve segments, which the page of
// reference 36 names; zeros follow.
const ENTRY: [u32; 8] = [0x000c_0106, 0, 1, 0, 5, 0, 0xca00, 36];

// A disk of 3000 sectors.
const LARGE: Config = Config {
    sectors: 3000,
    ..EIGHT
};

// A back of that disk that takes 256 segments in indirect pages.
const OFFERS: Offers = Offers {
    sectors: 3000,
    read_only: false,
    barrier: true,
    flush: false,
    discard: false,
    indirect: 256,
    persistent: false,
};

#[test]
fn a_write_of_89_sectors_names_its_segments_in_a_page(rt: HostRuntime) {
    const STEPS: &[Step<'static>] = &[
        Step::Offered(OFFERS),
        Step::Takes(Work::Write(5, 89, 7), 1),
        Step::Moves(89 * 128),
        Step::Word(18, 0, 7),
        Step::Word(29, 127, 95),
        Step::Names(30, 24, 23),
        Step::Grants(18, 13),
        Step::Writes(2, 16, 28, &ENTRY),
    ];
    plays(&rt, rt.alloc(), &LARGE, STEPS);
}

#[test]
fn a_read_of_2048_sectors_has_one_page_for_reading_alone(rt: HostRuntime) {
    const STEPS: &[Step<'static>] = &[
        Step::Offered(OFFERS),
        Step::Takes(Work::Read(0, 2048), 1),
        Step::Names(274, 512, 512),
        Step::Moves(257 * 3),
        Step::Word(0, 558, 1),
        Step::Word(0, 560, 5),
        Step::Moves(28),
        Step::Word(2, 16, 0x0100_0006),
        Step::Word(2, 23, 280),
    ];
    plays(&rt, rt.alloc(), &LARGE, STEPS);
}

#[test]
fn what_the_back_does_not_take_in_pages_is_long(rt: HostRuntime) {
    const STEPS: &[Step<'static>] = &[
        Step::Offered(OFFERS),
        Step::Refuses(Work::Read(0, 2049), Refusal::Long),
        Step::Refuses(Work::Write(0, 2049, 7), Refusal::Long),
        Step::Refuses(Work::Barrier(0, 89, 7), Refusal::Long),
    ];
    plays(&rt, rt.alloc(), &LARGE, STEPS);
}

#[test]
fn after_its_answer_all_its_frames_are_free(rt: HostRuntime) {
    const STEPS: &[Step<'static>] = &[
        Step::Offered(OFFERS),
        Step::Takes(Work::Write(5, 89, 7), 1),
        // its data, its page, thirteen grants, its entry, and the push
        Step::Moves(11392 + 24 + 39 + 28 + 4),
        Step::Responds(0, [1, 0, 6]),
        // the producer and the response, and twelve grants of thirteen; the last is looked at
        Step::Moves(4 + 25),
        Step::Owed(1, 89),
        Step::Told(News::Answer(1, Status::Okay)),
        Step::Takes(Work::Read(0, 89), 2),
        Step::Asks(Ask::Write(30, 0, 24)),
    ];
    plays(&rt, rt.alloc(), &LARGE, STEPS);
}
