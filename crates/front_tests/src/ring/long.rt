// Requests of several sectors: eight to a frame, and a segment for each frame.
use super::script::{Ask, Data, EIGHT, News, Step, Work, plays};
use blk_base::{Config, Refusal, Status};

// The word of each sector of a write of nine sectors whose tag is the first.
const WORDS: [u32; 9] = [
    0xffff_fffa,
    0xffff_fffb,
    0xffff_fffc,
    0xffff_fffd,
    0xffff_fffe,
    0xffff_ffff,
    0,
    1,
    2,
];

// The entry of a write of nine sectors from sector 3 on with id 1, in the frames of references 24
// and 25, up to its first two words of zeros.
const ENTRY: [u32; 10] = [0xca00_0201, 0, 1, 0, 3, 0, 0x18, 0x0700, 0x19, 0];

#[test]
fn a_write_of_nine_sectors_fills_two_frames_and_names_two_segments(rt: HostRuntime) {
    const STEPS: &[Step<'static>] = &[
        Step::Connects(19),
        Step::Sleeps,
        Step::Takes(Work::Write(3, 9, 0xffff_fffa), 1),
        Step::Fills(18, &WORDS),
        Step::AsksAll(&[Ask::Write(0, 49, 18), Ask::Fence, Ask::Write(0, 48, 5)]),
        Step::AsksAll(&[Ask::Write(0, 51, 19), Ask::Fence, Ask::Write(0, 50, 5)]),
        Step::Writes(2, 16, 28, &ENTRY),
        Step::Asks(Ask::Write(2, 0, 1)),
    ];
    plays(
        &rt,
        rt.alloc(),
        &Config {
            sectors: 12,
            ..EIGHT
        },
        STEPS,
    );
}

#[test]
fn a_read_of_nine_sectors_is_told_as_nine_sectors_after_its_answer(rt: HostRuntime) {
    const STEPS: &[Step<'static>] = &[
        Step::Connects(19),
        Step::Sleeps,
        Step::Takes(Work::Read(3, 9), 1),
        // two grants of 3 moves, 28 words of the entry, and the push
        Step::Moves(38),
        Step::Lays(Data::Mixed, 18, 1152),
        Step::Responds(0, [1, 0, 0]),
        // the event and the response, and the grants, of which the last is ended with the answer
        Step::AsksAll(&[
            Ask::Wait,
            Ask::Read(2, 2),
            Ask::Read(2, 16),
            Ask::Read(2, 17),
        ]),
        Step::AsksAll(&[Ask::Read(2, 18), Ask::Read(0, 48), Ask::Cas(0, 48, 1, 0)]),
        Step::Asks(Ask::Read(0, 50)),
        Step::Tells(Ask::Cas(0, 50, 1, 0), News::Answer(1, Status::Okay)),
        // the words of a sector are read, and it is told with the last one
        Step::TellsSectors(9, Data::Mixed, (1, 9)),
        Step::Owed(0, 0),
        // both frames are free again
        Step::Takes(Work::Write(0, 9, 7), 2),
        Step::Moves(1152),
        Step::Word(18, 0, 7),
        Step::Word(19, 127, 15),
    ];
    plays(
        &rt,
        rt.alloc(),
        &Config {
            sectors: 12,
            ..EIGHT
        },
        STEPS,
    );
}

#[test]
fn a_request_has_88_sectors_at_most(rt: HostRuntime) {
    const STEPS: &[Step<'static>] = &[
        Step::Connects(19),
        Step::Sleeps,
        Step::RefusesEach(&[
            (Work::Read(0, 89), Refusal::Long),
            (Work::Write(11, 89, 7), Refusal::Long),
            (Work::Read(0, 100), Refusal::Long),
        ]),
        Step::Refuses(Work::Read(12, 89), Refusal::Range),
        Step::Takes(Work::Read(12, 88), 1),
        Step::Owed(1, 88),
        // eleven grants and the entry: eleven segments, the last in the frame of reference 34
        Step::Moves(33 + 28),
        Step::Word(2, 16, 0xca00_0b00),
        Step::Word(2, 42, 0x22),
        Step::Word(2, 43, 0x0700),
    ];
    plays(
        &rt,
        rt.alloc(),
        &Config {
            sectors: 100,
            ..EIGHT
        },
        STEPS,
    );
}

#[test]
fn the_sectors_of_all_requests_are_owed(rt: HostRuntime) {
    const STEPS: &[Step<'static>] = &[
        Step::Connects(19),
        Step::Sleeps,
        Step::Takes(Work::Write(0, 9, 7), 1),
        Step::Takes(Work::Write(11, 1, 7), 2),
        Step::Owed(2, 10),
    ];
    plays(
        &rt,
        rt.alloc(),
        &Config {
            sectors: 12,
            ..EIGHT
        },
        STEPS,
    );
}
