// A client: both ends watch each other's keys. A test is one call over an array of steps; the calls that
// play them promise nothing, and are proved once.
use crate::expected::{holds, same};
use blk_base::{End, OutOfMemory, Path, ShortText, Text};
use key_directory::{KeyStop, Keys};
use std::alloc::Global;
use std::process::Abort;

const FRONT_STATE: &str = "/local/domain/1/device/vbd/51712/state";

const BACK_STATE: &str = "/local/domain/0/backend/vbd/1/51712/state";

#[derive(Clone, Copy)]
enum Step<'a> {
    // A key has this text, or isn't there.
    Reads(&'a str, Option<&'a str>),
    // An end writes a text at a path.
    Writes(End, &'a str, &'a str),
    // An end may not write at a path.
    Refuses(End, &'a str),
    // An end watches a path.
    Watches(End, &'a str),
    // An end takes this watch, or has none to take.
    Takes(End, Option<&'a str>),
    // Whether the front has a watch to take, and whether the back has.
    Pending(bool, bool),
    // All begins anew, with this text at both states.
    Restarts(&'a str),
}

fn start(alloc: Global) -> Result<Keys, OutOfMemory> {
    Keys::new(alloc)
}

fn short<const N: usize>(rt: &impl Abort, text: &str) -> ShortText<N> {
    holds(rt, text.len() <= N);
    ShortText::of(text)
}

fn read<'a>(keys: &'a Keys, at: &Path) -> Option<&'a str> {
    match keys.read(at) {
        Some(text) => Some(text.as_str()),
        None => None,
    }
}

fn reads(rt: &impl Abort, keys: &Keys, at: &str, wanted: Option<&str>) {
    same(rt, (at, read(keys, &short(rt, at))), (at, wanted));
}

fn write(keys: &mut Keys, who: End, at: &Path, text: &Text) -> Result<(), KeyStop> {
    keys.write(who, at, text)
}

// Writes a text at a path, with this outcome.
fn writes(
    rt: &impl Abort,
    keys: &mut Keys,
    who: End,
    (at, text): (&str, &str),
    wanted: Result<(), KeyStop>,
) {
    let outcome = write(keys, who, &short(rt, at), &short(rt, text));
    same(rt, (at, outcome), (at, wanted));
}

fn watches(rt: &impl Abort, keys: &mut Keys, who: End, at: &str) {
    keys.watch(who, &short(rt, at)).expect(rt, "memory");
}

fn take(keys: &mut Keys, who: End) -> Option<&str> {
    if keys.take_watch(who) {
        match keys.taken_watch(who) {
            Some(path) => Some(path.as_str()),
            None => None,
        }
    } else {
        None
    }
}

fn pending(keys: &Keys) -> (bool, bool) {
    (
        keys.watch_pending(End::Front),
        keys.watch_pending(End::Back),
    )
}

fn restarts(rt: &impl Abort, keys: &mut Keys, text: &str) {
    keys.reset(&short(rt, text)).expect(rt, "memory");
}

fn takes(rt: &impl Abort, keys: &mut Keys, step: &Step) {
    match *step {
        Step::Reads(at, wanted) => reads(rt, keys, at, wanted),
        Step::Writes(who, at, text) => writes(rt, keys, who, (at, text), Ok(())),
        Step::Refuses(who, at) => writes(rt, keys, who, (at, "8"), Err(KeyStop::NotOwner)),
        Step::Watches(who, at) => watches(rt, keys, who, at),
        Step::Takes(who, wanted) => same(rt, take(keys, who), wanted),
        Step::Pending(front, back) => same(rt, pending(keys), (front, back)),
        Step::Restarts(text) => restarts(rt, keys, text),
    }
}

fn plays(rt: &impl Abort, alloc: Global, steps: &[Step]) {
    let mut keys = start(alloc).expect(rt, "memory");
    for step in steps {
        takes(rt, &mut keys, step);
    }
}

#[test]
fn a_write_fires_the_other_ends_watch(rt: HostRuntime) {
    plays(
        &rt,
        rt.alloc(),
        &[
            Step::Reads(FRONT_STATE, Some("1")),
            Step::Reads(BACK_STATE, Some("1")),
            // it fires once when it is set
            Step::Watches(End::Back, FRONT_STATE),
            Step::Takes(End::Back, Some(FRONT_STATE)),
            Step::Pending(false, false),
            // two writes fire one watch
            Step::Writes(End::Front, FRONT_STATE, "3"),
            Step::Writes(End::Front, FRONT_STATE, "4"),
            Step::Reads(FRONT_STATE, Some("4")),
            Step::Pending(false, true),
            Step::Takes(End::Back, Some(FRONT_STATE)),
            Step::Takes(End::Back, None),
        ],
    );
}

#[test]
fn an_end_writes_under_its_own_directory_alone(rt: HostRuntime) {
    plays(
        &rt,
        rt.alloc(),
        &[
            Step::Writes(End::Front, "/local/domain/1/device/vbd/51712/ring-ref", "8"),
            Step::Refuses(End::Front, BACK_STATE),
            Step::Refuses(End::Front, "/local/domain/1/device/vbd/51712"),
            Step::Refuses(End::Front, "/local/domain/1/device/vbd/517120/state"),
            Step::Writes(
                End::Back,
                "/local/domain/0/backend/vbd/1/51712/sectors",
                "8",
            ),
            Step::Refuses(End::Back, FRONT_STATE),
            Step::Reads(BACK_STATE, Some("1")),
        ],
    );
}

// The key that is watched.
const WATCHED: &str = "/local/domain/1/device/vbd/51712/a";

#[test]
fn a_watch_sees_what_is_below_it_and_no_sibling(rt: HostRuntime) {
    plays(
        &rt,
        rt.alloc(),
        &[
            Step::Watches(End::Back, WATCHED),
            Step::Takes(End::Back, Some(WATCHED)),
            // a sibling's name begins alike
            Step::Writes(End::Front, "/local/domain/1/device/vbd/51712/ab", "1"),
            Step::Pending(false, false),
            Step::Writes(End::Front, "/local/domain/1/device/vbd/51712/a/b", "1"),
            Step::Takes(End::Back, Some(WATCHED)),
        ],
    );
}

const PROTOCOL: &str = "/local/domain/1/device/vbd/51712/protocol";

#[test]
fn the_oldest_watch_is_taken_first_and_a_reset_leaves_none(rt: HostRuntime) {
    plays(
        &rt,
        rt.alloc(),
        &[
            Step::Watches(End::Front, "/a"),
            Step::Watches(End::Front, "/b"),
            Step::Watches(End::Front, "/a"),
            Step::Takes(End::Front, Some("/a")),
            Step::Writes(End::Front, PROTOCOL, "x86_32-abi"),
            Step::Restarts("6"),
            Step::Pending(false, false),
            Step::Reads(FRONT_STATE, Some("6")),
            Step::Reads(BACK_STATE, Some("6")),
            Step::Reads(PROTOCOL, None),
        ],
    );
}
