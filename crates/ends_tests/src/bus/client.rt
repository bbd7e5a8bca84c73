// A client: both ends over one directory of keys, and a back over keys that are written by hand.
use super::{DISK, OFFER, short};
use crate::expected::{holds, same};
use blk_base::{Abi, BackAnswer, Config, End, FrontAnswer, Lent, Mapping, Mode, Path, Text};
use key_directory::Keys;
use std::process::Abort;
use xenbus_state::{
    BackBus, BackBusAsk, BackHalt, BusState, DiskFacts, Features, FrontBus, FrontBusAsk, FrontKey,
    FrontNews, FrontTerms, back_path, front_path, state_path,
};

fn read<'a>(keys: &'a Keys, path: &Path) -> Option<Lent<'a, Text>> {
    match keys.read(path) {
        Some(text) => Some(Lent::at(text)),
        None => None,
    }
}

fn write(rt: &impl Abort, keys: &mut Keys, who: End, path: &Path, text: &Text) {
    keys.write(who, path, text).expect(rt, "a key of its own");
}

fn watch(rt: &impl Abort, keys: &mut Keys, who: End, path: &Path) {
    keys.watch(who, path).expect(rt, "memory");
}

fn take(keys: &mut Keys, who: End) -> Option<Path> {
    if keys.take_watch(who) {
        keys.taken_watch(who).copied()
    } else {
        None
    }
}

// One move of an idle front; `None` where it only waits.
fn move_front(rt: &impl Abort, front: &mut FrontBus, keys: &mut Keys) -> Option<FrontNews> {
    match front.ask(true) {
        FrontBusAsk::Wait => match take(keys, End::Front) {
            Some(path) => front.tell(true, &FrontAnswer::Watched(Lent::at(&path))),
            None => None,
        },
        FrontBusAsk::Watch => {
            watch(rt, keys, End::Front, &state_path(End::Back));
            front.tell(true, &FrontAnswer::Done)
        }
        FrontBusAsk::GetState => {
            let text = read(keys, &state_path(End::Back));
            front.tell(true, &FrontAnswer::Key(text))
        }
        FrontBusAsk::GetKey(key) => {
            let text = read(keys, &back_path(key));
            front.tell(true, &FrontAnswer::Key(text))
        }
        FrontBusAsk::SetState(state) => {
            write(rt, keys, End::Front, &state_path(End::Front), &state.text());
            front.tell(true, &FrontAnswer::Done)
        }
        FrontBusAsk::SetKey(key, value) => {
            write(rt, keys, End::Front, &front_path(key), &value.text());
            front.tell(true, &FrontAnswer::Done)
        }
        FrontBusAsk::NewPort => front.tell(true, &FrontAnswer::Port(1)),
        _ => front.tell(true, &FrontAnswer::Done),
    }
}

// One move of a back.
fn move_back(rt: &impl Abort, back: &mut BackBus, keys: &mut Keys) -> Option<BackHalt> {
    match back.ask() {
        BackBusAsk::Wait => match take(keys, End::Back) {
            Some(path) => back.tell(&BackAnswer::Watched(Lent::at(&path))),
            None => None,
        },
        BackBusAsk::Watch => {
            watch(rt, keys, End::Back, &state_path(End::Front));
            back.tell(&BackAnswer::Done)
        }
        BackBusAsk::GetState => {
            let text = read(keys, &state_path(End::Front));
            back.tell(&BackAnswer::Key(text))
        }
        BackBusAsk::GetKey(key) => {
            let text = read(keys, &front_path(key));
            back.tell(&BackAnswer::Key(text))
        }
        BackBusAsk::SetState(state) => {
            write(rt, keys, End::Back, &state_path(End::Back), &state.text());
            back.tell(&BackAnswer::Done)
        }
        BackBusAsk::SetKey(key, value) => {
            write(rt, keys, End::Back, &back_path(key), &value.text());
            back.tell(&BackAnswer::Done)
        }
        BackBusAsk::Map(gref) => back.tell(&BackAnswer::Mapped(Mapping {
            number: u64::from(gref),
            gref,
            mode: Mode::ReadWrite,
        })),
        _ => back.tell(&BackAnswer::Done),
    }
}

// Moves both ends by turns, and gives the last news of each.
fn settle(
    rt: &impl Abort,
    front: &mut FrontBus,
    back: &mut BackBus,
    keys: &mut Keys,
) -> (Option<FrontNews>, Option<BackHalt>) {
    let (mut news, mut halt) = (None, None);
    for _ in 0..100 {
        if let Some(latest) = move_front(rt, front, keys) {
            news = Some(latest);
        }
        if let Some(reason) = move_back(rt, back, keys) {
            halt = Some(reason);
        }
    }
    (news, halt)
}

#[test]
fn both_ends_agree_and_close(rt: HostRuntime) {
    let config = Config {
        abi: Abi::X32,
        order: 1,
        persistent: 5,
        indirect: 32,
        start: 0,
        read_only: false,
        sectors: 8,
    };
    let mut keys = Keys::new(rt.alloc()).expect(&rt, "memory");
    let mut front = FrontBus::new(&config);
    let mut back = BackBus::new(Features::of(&config), DiskFacts::of(&config));
    let (news, halt) = settle(&rt, &mut front, &mut back, &mut keys);
    same(&rt, (news, halt), (Some(FrontNews::Ready), None));
    same(&rt, back.state(), BusState::Connected);
    same(
        &rt,
        back.terms(),
        FrontTerms {
            abi: Abi::X32,
            order: 1,
            persistent: true,
            port: 1,
        },
    );
    same(&rt, back.pages().len(), 2);
    same(&rt, front.features(), Features::of(&config));
    same(&rt, front.disk(), DiskFacts::of(&config));
    holds(&rt, front.keeps_grants() && back.keeps_grants());

    same(&rt, front.close(), Some(FrontNews::Closing));
    let (news, halt) = settle(&rt, &mut front, &mut back, &mut keys);
    same(&rt, news, Some(FrontNews::Closed));
    same(&rt, halt, Some(BackHalt::Gone(BusState::Closing)));
    same(
        &rt,
        (front.state(), back.state()),
        (BusState::Closed, BusState::Closed),
    );
    holds(&rt, back.pages().is_empty() && back.is_halted());
}

// A front says that its ring has two pages, whose references are 12 and 9.
fn says_two_pages(rt: &impl Abort, keys: &mut Keys) {
    for (key, text) in [
        (FrontKey::RingPageOrder, "1"),
        (FrontKey::RingRefOf(0), "12"),
        (FrontKey::RingRefOf(1), "9"),
        (FrontKey::EventChannel, "1"),
    ] {
        write(rt, keys, End::Front, &front_path(key), &short(text));
    }
    write(rt, keys, End::Front, &state_path(End::Front), &short("3"));
}

#[test]
fn the_references_that_were_read_are_given_in_order(rt: HostRuntime) {
    let mut keys = Keys::new(rt.alloc()).expect(&rt, "memory");
    says_two_pages(&rt, &mut keys);
    let mut back = BackBus::new(OFFER, DISK);
    holds(&rt, back.grefs().is_empty());
    for _ in 0..40 {
        let _ = move_back(&rt, &mut back, &mut keys);
    }
    same(&rt, back.grefs(), [12, 9].as_slice());
    same(&rt, back.pages().len(), 2);
}
