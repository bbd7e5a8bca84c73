// Flushes and discards, which have no frames, and barriers, which have them.
use super::script::{Ask, EIGHT, NOTHING, News, Step, Work, plays};
use blk_base::{Refusal, Status};
use blk_front::Offers;

// The first request is pushed.
const PUSH: [Ask; 4] = [Ask::Write(2, 0, 1), Ask::Fence, Ask::Read(2, 1), Ask::Send];

// The response is read, up to its last word.
const RESPONSE: [Ask; 3] = [Ask::Read(2, 2), Ask::Read(2, 16), Ask::Read(2, 17)];

// Its last word.
const LAST: Ask = Ask::Read(2, 18);

#[test]
fn a_flush_is_an_entry_without_segments(rt: HostRuntime) {
    const STEPS: &[Step<'static>] = &[
        Step::Offered(Offers {
            flush: true,
            ..NOTHING
        }),
        Step::Refuses(Work::Discard(0, 1), Refusal::Unsupported),
        Step::Takes(Work::Flush, 1),
        Step::Writes(2, 16, 28, &[0xca00_0003, 0, 1, 0, 0, 0, 0, 0]),
        Step::AsksAll(&PUSH),
        Step::Owed(1, 0),
        Step::Responds(0, [1, 0, 0x0000_0003]),
        Step::AsksAll(&RESPONSE),
        Step::Tells(LAST, News::Answer(1, Status::Okay)),
        Step::Owed(0, 0),
    ];
    plays(&rt, rt.alloc(), &EIGHT, STEPS);
}

#[test]
fn a_discard_is_an_entry_with_a_number_of_sectors(rt: HostRuntime) {
    const STEPS: &[Step<'static>] = &[
        Step::Offered(Offers {
            discard: true,
            ..NOTHING
        }),
        Step::Refuses(Work::Flush, Refusal::Unsupported),
        Step::Refuses(Work::Discard(3, 6), Refusal::Range),
        Step::Takes(Work::Discard(2, 6), 1),
        Step::Writes(2, 16, 28, &[0xca00_0005, 0, 1, 0, 2, 0, 6, 0]),
        Step::AsksAll(&PUSH),
        Step::Owed(1, 0),
        Step::Responds(0, [1, 0, 0xffff_0005]),
        Step::AsksAll(&RESPONSE),
        Step::Tells(LAST, News::Answer(1, Status::Error)),
        Step::Owed(0, 0),
    ];
    plays(&rt, rt.alloc(), &EIGHT, STEPS);
}

#[test]
fn a_barrier_is_a_write_of_another_operation(rt: HostRuntime) {
    const STEPS: &[Step<'static>] = &[
        Step::Offered(Offers {
            barrier: true,
            ..NOTHING
        }),
        Step::Refuses(Work::Flush, Refusal::Unsupported),
        Step::Takes(Work::Barrier(5, 1, 7), 1),
        // its 128 words, and the 3 moves of its grant
        Step::Moves(131),
        Step::Word(18, 127, 7),
        Step::Word(0, 49, 18),
        Step::Word(0, 48, 5),
        Step::Writes(2, 16, 28, &[0xca00_0102, 0, 1, 0, 5, 0, 0x18, 0]),
        Step::AsksAll(&PUSH),
    ];
    plays(&rt, rt.alloc(), &EIGHT, STEPS);
}
