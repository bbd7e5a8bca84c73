// What lies under the ends, as the machine uses it.
mod answer;
mod script;
mod world;

use blk_base::{BackMover, Mode};
use script::{Step, plays};
use world::{
    bound, fresh, has_words, maps_and_reads, maps_and_writes, overwrite, refuses_map, written,
};

#[test]
fn an_event_is_sent_through_a_bound_port_and_taken_once(rt: HostRuntime) {
    plays(
        &rt,
        &mut bound(&rt, rt.alloc()),
        &[
            Step::Sends,
            Step::Pending(false, true),
            Step::Waits(BackMover::Job(1)),
            Step::TakesEvent,
            Step::Waits(BackMover::Back),
        ],
    );
}

#[test]
fn a_word_is_written_read_and_exchanged(rt: HostRuntime) {
    plays(
        &rt,
        &mut fresh(&rt, rt.alloc()),
        &[
            Step::Puts(18, 3, 5),
            Step::Writes(18, 3, 7),
            Step::Exchanges(18, 3, 7, 9, 7),
            Step::Word(18, 3, 9),
            Step::Reads(18, 3, 9),
        ],
    );
}

#[test]
fn a_reference_that_grants_nothing_is_refused(rt: HostRuntime) {
    refuses_map(&rt, &mut fresh(&rt, rt.alloc()), 24, Mode::ReadWrite, -1);
}

// Reference 24 grants frame 18: words 48 and 49 of frame 0.
const GRANTED: &[(u32, u32, u32)] = &[(0, 49, 18), (0, 48, 1)];

// The same, and the frame has 7 at word 3.
const FILLED: &[(u32, u32, u32)] = &[(0, 49, 18), (0, 48, 1), (18, 3, 7)];

#[test]
fn a_mapped_word_is_read_and_shown_with_its_frame(rt: HostRuntime) {
    maps_and_reads(&rt, &mut written(&rt, rt.alloc(), FILLED), 24, 18, 7);
}

#[test]
fn a_word_is_written_through_a_mapping(rt: HostRuntime) {
    let mut world = written(&rt, rt.alloc(), GRANTED);
    maps_and_writes(&rt, &mut world, 24, 18, 7);
    has_words(&rt, &world, &[(18, 3, 7), (18, 4, 0)]);
}

#[test]
fn a_hostile_hand_overwrites_a_grant_and_no_other_word(rt: HostRuntime) {
    let mut world = written(&rt, rt.alloc(), GRANTED);
    overwrite(&rt, &mut world, 0, 48, 5);
    has_words(&rt, &world, &[(0, 48, 5), (0, 49, 18)]);
    // 5 grants for reading alone (GTF_permit_access, GTF_readonly).
    refuses_map(&rt, &mut world, 24, Mode::ReadWrite, -1);
    overwrite(&rt, &mut world, 1023, 1023, 7);
    has_words(&rt, &world, &[(1017, 1023, 0)]);
}

const FRONT_STATE: &str = "/local/domain/1/device/vbd/51712/state";

#[test]
fn a_watch_fires_when_it_is_set_and_when_its_key_is(rt: HostRuntime) {
    plays(
        &rt,
        &mut fresh(&rt, rt.alloc()),
        &[
            Step::Watches(FRONT_STATE),
            Step::TakesWatch(FRONT_STATE),
            Step::WatchesPending(false, false),
            Step::SetsKey(FRONT_STATE, "3"),
            Step::WatchesPending(false, true),
        ],
    );
}

const BACK_STATE: &str = "/local/domain/0/backend/vbd/1/51712/state";

#[test]
fn a_key_of_the_other_end_is_read_and_not_written(rt: HostRuntime) {
    plays(
        &rt,
        &mut fresh(&rt, rt.alloc()),
        &[
            // XenbusStateInitialising and XenbusStateInitWait of `io/xenbus.h`.
            Step::RefusesKey(BACK_STATE, "2"),
            Step::GetsKey(BACK_STATE, "1"),
        ],
    );
}

// The same grant, and a word on each side of the end of the grant table.
const BESIDE: &[(u32, u32, u32)] = &[(0, 49, 18), (0, 48, 1), (1, 1023, 5), (2, 0, 7)];

#[test]
fn a_suspend_clears_the_grants_and_no_other_frame(rt: HostRuntime) {
    let mut world = written(&rt, rt.alloc(), BESIDE);
    maps_and_reads(&rt, &mut world, 24, 18, 0);
    plays(
        &rt,
        &mut world,
        &[
            Step::Suspends("1"),
            Step::Word(0, 48, 0),
            Step::Word(0, 49, 0),
            Step::Word(1, 1023, 0),
            Step::Word(2, 0, 7),
        ],
    );
}

const RING_REFERENCE: &str = "/local/domain/1/device/vbd/51712/ring-ref";

#[test]
fn a_suspend_leaves_both_states_and_no_other_key_event_or_watch(rt: HostRuntime) {
    plays(
        &rt,
        &mut bound(&rt, rt.alloc()),
        &[
            Step::Sends,
            Step::Watches(FRONT_STATE),
            Step::SetsKey(RING_REFERENCE, "8"),
            Step::Suspends("6"),
            Step::Pending(false, false),
            Step::WatchesPending(false, false),
            Step::MissesKey(RING_REFERENCE),
            Step::GetsKey(FRONT_STATE, "6"),
            // nor is there a port that could be bound
            Step::RefusesBind(1),
        ],
    );
}
