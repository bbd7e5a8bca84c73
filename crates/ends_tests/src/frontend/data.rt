// What is asked where it is a word of a request's data.
use super::script::{Ask, Step, plays};
use super::{CONNECTS, LOOK, PUBLISHES, READS, READS_ORDER};

#[test]
fn a_write_asks_for_each_word_of_its_data_but_the_first_as_data(rt: HostRuntime) {
    const PARTS: &[&[Step<'static>]] = &[
        &[Step::Watches, Step::DataAsked(None)],
        READS,
        READS_ORDER,
        PUBLISHES,
        CONNECTS,
        &[
            Step::Writing(Ok(1)),
            Step::DataAsked(None),
            Step::Asks(Ask::Write(18, 0, 7)),
            Step::DataAsked(Some(Ask::Write(18, 1, 7))),
            Step::Asks(Ask::Write(18, 1, 7)),
            Step::Moves(126),
            // its grant
            Step::DataAsked(None),
            Step::Asks(Ask::Write(0, 49, 18)),
        ],
    ];
    plays(&rt, rt.alloc(), 0, PARTS);
}

#[test]
fn a_read_asks_for_each_word_of_its_data_as_data(rt: HostRuntime) {
    const PARTS: &[&[Step<'static>]] = &[
        &[Step::Watches],
        READS,
        READS_ORDER,
        PUBLISHES,
        CONNECTS,
        &[
            // a word of the ring
            Step::DataAsked(None),
            Step::Reading(Ok(1)),
            // its grant, its entry and the push, where no event is waited for
            Step::AsksAll(&[Ask::Write(0, 49, 18), Ask::Fence, Ask::Write(0, 48, 1)]),
            Step::Writes(2, 212, 28, &[0xca00_0100, 0, 1, 0, 0, 0, 0x18, 0]),
            Step::AsksAll(&[Ask::Write(2, 0, 8), Ask::Fence, Ask::Read(2, 1)]),
            // the response, and the end of the grant
            Step::Reads(LOOK, 8),
            Step::Reads(Ask::Read(2, 212), 1),
            Step::Reads(Ask::Read(2, 213), 0),
            Step::Reads(Ask::Read(2, 214), 0),
            Step::Reads(Ask::Read(0, 48), 1),
            Step::DataAsked(None),
            Step::Answers(Ask::Cas(0, 48, 1, 0), 1),
            Step::DataAsked(Some(Ask::Read(18, 0))),
            Step::Asks(Ask::Read(18, 0)),
            Step::DataAsked(Some(Ask::Read(18, 1))),
            // what a suspend leaves to be told
            Step::Suspends,
            Step::DataAsked(None),
            Step::Asks(Ask::Read(18, 1)),
        ],
    ];
    plays(&rt, rt.alloc(), 0, PARTS);
}
