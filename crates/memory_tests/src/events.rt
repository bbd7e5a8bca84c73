// A client: the two ends find each other and send events. The steps go through calls that promise nothing.
use crate::expected::same;
use blk_base::End;
use event_channel::{BadPort, Channels, Port};
use std::process::Abort;

#[derive(Clone, Copy)]
enum Step {
    // The back binds a port.
    Binds(u32),
    // It may not bind one.
    Refuses(u32),
    Sends(End),
    // Whether the front has an event to take, and whether the back has.
    Pending(bool, bool),
    // An end takes its event, or has none.
    Takes(End, bool),
    Closes(End),
}

fn bind(channels: &mut Channels, port: u32) -> Result<Port, BadPort> {
    channels.bind(Port(port))
}

fn send(channels: &mut Channels, who: End) {
    channels.send(who);
}

fn pending(channels: &Channels) -> (bool, bool) {
    (channels.pending(End::Front), channels.pending(End::Back))
}

fn take(channels: &mut Channels, who: End) -> bool {
    channels.take(who)
}

fn close(channels: &mut Channels, who: End) {
    channels.close(who);
}

fn takes(rt: &impl Abort, channels: &mut Channels, step: &Step) {
    match *step {
        Step::Binds(port) => same(rt, bind(channels, port), Ok(Port(port))),
        Step::Refuses(port) => same(rt, bind(channels, port), Err(BadPort)),
        Step::Sends(who) => send(channels, who),
        Step::Pending(front, back) => same(rt, pending(channels), (front, back)),
        Step::Takes(who, wanted) => same(rt, take(channels, who), wanted),
        Step::Closes(who) => close(channels, who),
    }
}

fn plays(rt: &impl Abort, channels: &mut Channels, steps: &[Step]) {
    for step in steps {
        takes(rt, channels, step);
    }
}

// The front's first port. Before it is made the front sends an event, which nobody gets.
fn port_after_a_send(rt: &impl Abort) -> Channels {
    let mut channels = Channels::new();
    channels.send(End::Front);
    same(rt, channels.pending(End::Back), false);
    same(rt, channels.alloc_unbound(), Port(1));
    channels
}

#[test]
fn an_event_is_sent_merged_and_taken_once(rt: HostRuntime) {
    plays(
        &rt,
        &mut port_after_a_send(&rt),
        &[
            Step::Refuses(2),
            Step::Refuses(0),
            Step::Binds(1),
            // a port is bound once
            Step::Refuses(1),
            // two sends make one event
            Step::Sends(End::Front),
            Step::Sends(End::Front),
            Step::Pending(false, true),
            Step::Takes(End::Back, true),
            Step::Takes(End::Back, false),
            Step::Sends(End::Back),
            Step::Takes(End::Front, true),
        ],
    );
}

// The front's first port.
fn one_port() -> Channels {
    let mut channels = Channels::new();
    channels.alloc_unbound();
    channels
}

#[test]
fn a_close_unbinds_the_other_end_and_keeps_its_event(rt: HostRuntime) {
    plays(
        &rt,
        &mut one_port(),
        &[
            Step::Binds(1),
            Step::Sends(End::Front),
            Step::Sends(End::Back),
            Step::Closes(End::Back),
            Step::Pending(true, false),
            // the front's port is unbound
            Step::Sends(End::Front),
            Step::Pending(true, false),
            Step::Binds(1),
            // the front's port is closed
            Step::Closes(End::Front),
            Step::Refuses(1),
            Step::Pending(false, false),
        ],
    );
}

#[test]
fn port_numbers_go_on_over_a_reset(rt: HostRuntime) {
    let mut channels = Channels::new();
    let first = channels.alloc_unbound();
    channels.alloc_unbound();
    channels.reset();
    // it vanished
    same(&rt, channels.bind(first), Err(BadPort));
    let third = channels.alloc_unbound();
    same(&rt, third, Port(3));
    same(&rt, channels.bind(third), Ok(third));
}
