// Tables of texts, and of what each end does on reading the other's state.
mod client;

use crate::expected::{same, same_of};
use blk_base::{Abi, End, Lent, Text};
use std::process::Abort;
use xenbus_state::{
    BackAction, BackHalt, BackKey, BusState, DiskFacts, Features, FrontAction, FrontKey,
    FrontTerms, back_action, back_path, back_value, front_action, front_path, front_value,
    read_long, read_number, read_state, state_path,
};

fn short(text: &str) -> Text {
    if text.len() <= 64 {
        Text::of(text)
    } else {
        Text::new()
    }
}

fn number(text: &str) -> Option<u32> {
    read_number(&short(text))
}

fn long(text: &str) -> Option<u64> {
    read_long(&short(text))
}

fn state(text: &str) -> Option<BusState> {
    read_state(&Some(Lent::at(&short(text))))
}

const TERMS: FrontTerms = FrontTerms {
    abi: Abi::X32,
    order: 1,
    persistent: true,
    port: 3,
};

fn front_keys_are(rt: &impl Abort, keys: &[(FrontKey, &str, &str)]) {
    for (key, path, text) in keys {
        same(rt, front_path(*key).as_str(), *path);
        same(rt, front_value(&TERMS, *key).text(), short(text));
    }
}

#[test]
fn each_key_of_the_front_has_its_text(rt: HostRuntime) {
    front_keys_are(
        &rt,
        &[
            (
                FrontKey::RingRef,
                "/local/domain/1/device/vbd/51712/ring-ref",
                "8",
            ),
            (
                FrontKey::RingPageOrder,
                "/local/domain/1/device/vbd/51712/ring-page-order",
                "1",
            ),
            (
                FrontKey::RingRefOf(0),
                "/local/domain/1/device/vbd/51712/ring-ref0",
                "8",
            ),
            (
                FrontKey::RingRefOf(15),
                "/local/domain/1/device/vbd/51712/ring-ref15",
                "23",
            ),
            (
                FrontKey::EventChannel,
                "/local/domain/1/device/vbd/51712/event-channel",
                "3",
            ),
            (
                FrontKey::Protocol,
                "/local/domain/1/device/vbd/51712/protocol",
                "x86_32-abi",
            ),
            (
                FrontKey::FeaturePersistent,
                "/local/domain/1/device/vbd/51712/feature-persistent",
                "1",
            ),
        ],
    );
    same(
        &rt,
        state_path(End::Front).as_str(),
        "/local/domain/1/device/vbd/51712/state",
    );
}

const OFFER: Features = Features {
    barrier: true,
    flush: false,
    discard: true,
    persistent: true,
    indirect: 256,
    order: 4,
};

const DISK: DiskFacts = DiskFacts {
    sectors: 18446744073709551615,
    read_only: true,
};

fn back_keys_are(rt: &impl Abort, keys: &[(BackKey, &str, &str)]) {
    for (key, path, text) in keys {
        same(rt, back_path(*key).as_str(), *path);
        same(rt, back_value(&OFFER, &DISK, *key).text(), short(text));
    }
}

#[test]
fn each_feature_of_the_back_has_its_text(rt: HostRuntime) {
    back_keys_are(
        &rt,
        &[
            (
                BackKey::FeatureBarrier,
                "/local/domain/0/backend/vbd/1/51712/feature-barrier",
                "1",
            ),
            (
                BackKey::FeatureFlushCache,
                "/local/domain/0/backend/vbd/1/51712/feature-flush-cache",
                "0",
            ),
            (
                BackKey::FeatureDiscard,
                "/local/domain/0/backend/vbd/1/51712/feature-discard",
                "1",
            ),
            (
                BackKey::FeaturePersistent,
                "/local/domain/0/backend/vbd/1/51712/feature-persistent",
                "1",
            ),
            (
                BackKey::FeatureMaxIndirectSegments,
                "/local/domain/0/backend/vbd/1/51712/feature-max-indirect-segments",
                "256",
            ),
            (
                BackKey::MaxRingPageOrder,
                "/local/domain/0/backend/vbd/1/51712/max-ring-page-order",
                "4",
            ),
        ],
    );
}

#[test]
fn each_fact_of_the_disk_has_its_text(rt: HostRuntime) {
    back_keys_are(
        &rt,
        &[
            (
                BackKey::Sectors,
                "/local/domain/0/backend/vbd/1/51712/sectors",
                "18446744073709551615",
            ),
            (
                BackKey::SectorSize,
                "/local/domain/0/backend/vbd/1/51712/sector-size",
                "512",
            ),
            (
                BackKey::Info,
                "/local/domain/0/backend/vbd/1/51712/info",
                "4",
            ),
        ],
    );
    same(
        &rt,
        state_path(End::Back).as_str(),
        "/local/domain/0/backend/vbd/1/51712/state",
    );
}

fn numbers_are(rt: &impl Abort, cases: &[(&str, Option<u32>)]) {
    for (text, want) in cases {
        same_of(rt, text, number(text), *want);
    }
}

#[test]
fn a_number_is_1_to_10_digits(rt: HostRuntime) {
    numbers_are(
        &rt,
        &[
            ("0", Some(0)),
            ("0000000012", Some(12)),
            ("4294967295", Some(4294967295)),
            ("4294967296", None),
            ("00000000012", None),
            ("", None),
            ("+1", None),
            ("-1", None),
            (" 1", None),
            ("1x", None),
        ],
    );
    same(
        &rt,
        long("18446744073709551615"),
        Some(18446744073709551615),
    );
    same(&rt, long("18446744073709551616"), None);
    same(&rt, long("018446744073709551615"), None);
}

fn states_are(rt: &impl Abort, cases: &[(&str, Option<BusState>)]) {
    for (text, want) in cases {
        same_of(rt, text, state(text), *want);
    }
}

#[test]
fn a_state_is_a_number_up_to_8(rt: HostRuntime) {
    states_are(
        &rt,
        &[
            ("0", Some(BusState::Unknown)),
            ("1", Some(BusState::Initialising)),
            ("2", Some(BusState::InitWait)),
            ("3", Some(BusState::Initialised)),
            ("04", Some(BusState::Connected)),
            ("5", Some(BusState::Closing)),
            ("6", Some(BusState::Closed)),
            ("7", Some(BusState::Reconfiguring)),
            ("8", Some(BusState::Reconfigured)),
            ("9", None),
            ("x", None),
        ],
    );
    same(&rt, read_state(&None), Some(BusState::Unknown));
    same(&rt, BusState::Reconfigured.text().as_str(), "8");
}

// The front's own state, whether it closes, whether it is idle, the back's state, and what it does.
type FrontCase<'a> = (BusState, bool, bool, &'a str, FrontAction);

fn front_actions_are(rt: &impl Abort, cases: &[FrontCase]) {
    for (own, closing, idle, text, want) in cases {
        let action = front_action(*own, *closing, *idle, state(text));
        same_of(rt, text, action, *want);
    }
}

const NEW: BusState = BusState::Initialising;

const PUBLISHED: BusState = BusState::Initialised;

const CONNECTED: BusState = BusState::Connected;

#[test]
fn the_front_goes_by_the_backs_state(rt: HostRuntime) {
    front_actions_are(
        &rt,
        &[
            (NEW, false, true, "1", FrontAction::Nothing),
            (NEW, false, true, "2", FrontAction::Publish),
            (NEW, true, true, "2", FrontAction::Nothing),
            (NEW, true, false, "2", FrontAction::Publish),
            (PUBLISHED, false, true, "2", FrontAction::Nothing),
            (PUBLISHED, false, true, "3", FrontAction::Nothing),
            (NEW, false, true, "4", FrontAction::Nothing),
            (PUBLISHED, false, true, "4", FrontAction::Connect),
            (PUBLISHED, true, true, "4", FrontAction::Nothing),
            (PUBLISHED, false, false, "5", FrontAction::CloseAndConnect),
            (CONNECTED, false, false, "5", FrontAction::Close),
            (CONNECTED, false, true, "6", FrontAction::Leave),
            (CONNECTED, false, false, "6", FrontAction::Break(6)),
            (CONNECTED, true, false, "0", FrontAction::Break(0)),
            (CONNECTED, false, true, "7", FrontAction::Nothing),
            (CONNECTED, false, true, "8", FrontAction::Nothing),
            (CONNECTED, false, true, "9", FrontAction::Break(9)),
        ],
    );
}

// The back's own state, whether it was unplugged, the front's state, and what it does.
type BackCase<'a> = (BusState, bool, &'a str, BackAction);

fn back_actions_are(rt: &impl Abort, cases: &[BackCase]) {
    for (own, unplugged, text, want) in cases {
        let action = back_action(*own, *unplugged, state(text));
        same_of(rt, text, action, *want);
    }
}

const WAITING: BusState = BusState::InitWait;

#[test]
fn the_back_goes_by_the_fronts_state(rt: HostRuntime) {
    back_actions_are(
        &rt,
        &[
            (WAITING, false, "1", BackAction::Nothing),
            (
                CONNECTED,
                false,
                "1",
                BackAction::Halt(BackHalt::BadOrder(BusState::Initialising)),
            ),
            (
                WAITING,
                false,
                "2",
                BackAction::Halt(BackHalt::BadOrder(BusState::InitWait)),
            ),
            (WAITING, false, "3", BackAction::Connect),
            (WAITING, false, "4", BackAction::Connect),
            (CONNECTED, false, "3", BackAction::Nothing),
            (BusState::Closing, true, "4", BackAction::Nothing),
            (
                WAITING,
                false,
                "5",
                BackAction::Halt(BackHalt::Gone(BusState::Closing)),
            ),
            (
                WAITING,
                true,
                "6",
                BackAction::Halt(BackHalt::Unplugged(BusState::Closed)),
            ),
            (
                CONNECTED,
                false,
                "0",
                BackAction::Halt(BackHalt::Gone(BusState::Unknown)),
            ),
            (
                CONNECTED,
                false,
                "7",
                BackAction::Halt(BackHalt::BadOrder(BusState::Reconfiguring)),
            ),
            (
                CONNECTED,
                false,
                "8",
                BackAction::Halt(BackHalt::BadOrder(BusState::Reconfigured)),
            ),
            (WAITING, false, "x", BackAction::Halt(BackHalt::BadState)),
        ],
    );
}
