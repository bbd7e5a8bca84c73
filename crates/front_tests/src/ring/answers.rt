// What the front makes of a back's responses, right and wrong ones.
use super::script::{Ask, EIGHT, News, Step, Work, plays, plays_after};
use blk_base::{Config, Refusal, Status};
use std::alloc::Global;
use std::process::Abort;

// One write of sector 0 is under way, and the front sleeps.
const ONE_WRITE: [Step<'static>; 6] = [
    Step::Connects(19),
    Step::Sleeps,
    Step::Takes(Work::Write(0, 1, 7), 1),
    Step::Moves(163),
    Step::Owed(1, 1),
    Step::Idle(true),
];

// The response with this last word is told as this answer.
fn is_answered(rt: &impl Abort, alloc: Global, last: u32, status: Status) {
    plays_after(
        rt,
        alloc,
        &ONE_WRITE,
        &[
            Step::Responds(0, [1, 0, last]),
            Step::AsksAll(&[
                Ask::Wait,
                Ask::Read(2, 2),
                Ask::Read(2, 16),
                Ask::Read(2, 17),
            ]),
            Step::AsksAll(&[Ask::Read(2, 18), Ask::Read(0, 48)]),
            Step::Owed(1, 1),
            Step::Tells(Ask::Cas(0, 48, 5, 0), News::Answer(1, status)),
            Step::Word(0, 48, 0),
            Step::Owed(0, 0),
            // its frame is the lowest free one again
            Step::Takes(Work::Write(3, 1, 9), 2),
            Step::Asks(Ask::Write(18, 0, 9)),
        ],
    );
}

#[test]
fn a_response_ends_the_grant_and_is_told_as_an_answer(rt: HostRuntime) {
    is_answered(&rt, rt.alloc(), 0x0000_0001, Status::Okay);
    is_answered(&rt, rt.alloc(), 0xffff_0001, Status::Error);
    is_answered(&rt, rt.alloc(), 0xfffe_0001, Status::Unsupported);
}

// A producer, a response and the word of the grant that break the front, each time with this word.
fn each_breaks(rt: &impl Abort, alloc: Global, cases: &[(u32, [u32; 3], u32, u32)]) {
    for (producer, response, flags, word) in cases {
        plays_after(
            rt,
            alloc,
            &ONE_WRITE,
            &[
                Step::Responds(0, *response),
                Step::Puts(2, 2, *producer),
                Step::Puts(0, 48, *flags),
                Step::ToldSoon(News::Broken(*word)),
                Step::AsksAll(&[Ask::Wait, Ask::Wait]),
                Step::Refuses(Work::Write(0, 1, 7), Refusal::NotReady),
            ],
        );
    }
}

#[test]
fn a_back_that_is_not_honest_breaks_it_with_the_word_found(rt: HostRuntime) {
    each_breaks(
        &rt,
        rt.alloc(),
        &[
            // more responses than requests
            (2, [1, 0, 1], 5, 2),
            (32, [1, 0, 1], 5, 32),
            (4294967295, [1, 0, 1], 5, 4294967295),
            // an id that wasn't issued, by its low word, also where the status is unknown too
            (1, [2, 0, 1], 5, 2),
            (1, [1, 1, 1], 5, 1),
            (1, [3, 0, 0x0007_0001], 5, 3),
            // an unknown status, by the third word
            (1, [1, 0, 0x0007_0001], 5, 0x0007_0001),
            (1, [1, 0, 0xfffd_0001], 5, 0xfffd_0001),
            // a grant whose frame is read or written still, by its word
            (1, [1, 0, 1], 0x0d, 0x0d),
            (1, [1, 0, 1], 0x15, 0x15),
        ],
    );
}

#[test]
fn a_grant_that_changes_while_it_is_ended_breaks_it(rt: HostRuntime) {
    const STEPS: &[Step<'static>] = &[
        Step::Responds(0, [1, 0, 1]),
        Step::Moves(6),
        Step::Puts(0, 48, 0x0d),
        Step::Told(News::Broken(0x0d)),
        Step::Word(0, 48, 0x0d),
    ];
    plays_after(&rt, rt.alloc(), &ONE_WRITE, STEPS);
}

#[test]
fn three_writes_go_round_the_wrap_of_the_indices(rt: HostRuntime) {
    const STEPS: &[Step<'static>] = &[
        Step::Connects(19),
        Step::Sleeps,
        Step::Takes(Work::Write(0, 1, 7), 1),
        Step::Moves(163),
        Step::Word(2, 884, 0xca00_0101),
        Step::Word(2, 886, 1),
        Step::Word(2, 0, 0),
        Step::Puts(2, 1, 1),
        Step::Responds(4294967295, [1, 0, 1]),
        Step::ToldSoon(News::Answer(1, Status::Okay)),
        Step::Moves(4),
        Step::Idle(true),
        // in the first slot
        Step::Takes(Work::Write(0, 1, 7), 2),
        Step::Moves(163),
        Step::Word(2, 16, 0xca00_0101),
        Step::Word(2, 18, 2),
        Step::Word(2, 0, 1),
        Step::Puts(2, 1, 2),
        Step::Responds(0, [2, 0, 1]),
        Step::ToldSoon(News::Answer(2, Status::Okay)),
        Step::Moves(4),
        Step::Idle(true),
        // in the second one
        Step::Takes(Work::Write(0, 1, 7), 3),
        Step::Moves(163),
        Step::Word(2, 44, 0xca00_0101),
        Step::Word(2, 46, 3),
        Step::Word(2, 0, 2),
        Step::Puts(2, 1, 3),
        Step::Responds(1, [3, 0, 1]),
        Step::ToldSoon(News::Answer(3, Status::Okay)),
        Step::Moves(4),
        Step::Idle(true),
        Step::Word(2, 0, 2),
        Step::Word(2, 1, 3),
        Step::Word(2, 2, 2),
        Step::Word(2, 3, 3),
    ];
    plays(
        &rt,
        rt.alloc(),
        &Config {
            start: 4294967295,
            ..EIGHT
        },
        STEPS,
    );
}
