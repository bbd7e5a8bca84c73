// The front's ports and the ends' pending marks.
ghost use Rattle.std.specs.Prelude.{◌≡◌, ◌+◌, ◌^◌, ◌<◌, ◌≤◌, ◌↔◌, length, map, IsOk, IfOk, OnErr};
ghost use Rattle.event_channel.specs.Channels.{fresh_channels, with_port, IsUnbound, bound, is_pending, sent, taken, closed, unbound_port, closed_port, reset};

use arrayvec::ArrayVec;
use blk_base::End;
use std::error::Error;
use std::fmt;
use std::marker::Model;

/// A port of the front, from 1; a number is never given again.
#[derive(Clone, Copy, PartialEq, Eq)]
pub struct Port(pub u32);

/// The port is not one that waits to be bound.
#[derive(Clone, Copy, Debug, PartialEq, Eq)]
pub struct BadPort;

impl fmt::Display for BadPort {
    fn fmt<W: fmt::Write>(&self, f: &mut fmt::Formatter<W>) -> fmt::Result {
        write!(f, "the port is not unbound")
    }
}

impl Error for BadPort {}

/// What a port of the front is (`EVTCHNSTAT_*` of `event_channel.h`).
#[derive(Clone, Copy, Default)]
pub enum PortState {
    #[default]
    Closed,
    Unbound,
    Bound,
}

/// The event channels between the ends. A bound port of the front is bound at both ends. Contracts
/// see how many ports were ever made, the states of those made since the last reset, oldest first,
/// and both ends' pending marks.
#[derive(Drop)]
pub struct Channels {
    made: u32,
    ports: ArrayVec<PortState, 4>,
    // Whether one of them is bound.
    any_bound: bool,
    front_pending: bool,
    back_pending: bool,
}

impl Model for Channels {
    ghost use Rattle.std.specs.Prelude.{◌≡◌, ◌≤◌, length};
    ghost use Rattle.std.specs.List.{list_any};
    ghost use Rattle.event_channel.specs.Channels.{ChannelState, is_bound_port};

    ghost Value = { ChannelState };

    ghost view = { λ c. record { made = c.made; ports = c.ports.items; front_pending = c.front_pending; back_pending = c.back_pending } };

    ghost invariant = { λ c. (length c.ports.items ≤ c.made) × (c.any_bound ≡ list_any is_bound_port c.ports.items) };
}

impl Channels {
    /// No ports, and nothing pending.
    pub fn new() -> Self
        ensures { result ≡ fresh_channels }
    {
        Channels {
            made: 0,
            ports: ArrayVec::new(),
            any_bound: false,
            front_pending: false,
            back_pending: false,
        }
    }

    /// How many ports were ever made.
    pub fn made(&self) -> u32
        ensures { result ≡ self.now.made }
    {
        self.made
    }

    /// A new port of the front, for the back to bind. At most 4 are made between two resets.
    pub fn alloc_unbound(&mut self) -> Port
        requires number_left { self.old.made < 4294967295 }
        requires room { length self.old.ports < 4 }
        ensures port { result.0 ≡ self.old.made + 1 }
        ensures made { self.new ≡ with_port self.old }
    {
        self.made += 1;
        self.ports.push(PortState::Unbound);
        Port(self.made)
    }

    /// Binds the back to a port of the front; `BadPort` exactly where that port isn't unbound, and
    /// then nothing changes.
    pub fn bind(&mut self, port: Port) -> Result<Port, BadPort>
        ensures unbound { IsOk result ↔ IsUnbound self.old port.0 }
        ensures bound { IfOk result (λ ours. (ours ≡ port) × (self.new ≡ bound self.old port.0)) }
        ensures refused { OnErr result (self.new ≡ self.old) }
    {
        let before = self.made - self.ports.len() as u32;
        if port.0 <= before || port.0 > self.made {
            return Err(BadPort);
        }
        let place = (port.0 - before - 1) as usize;
        if self.ports[place] != PortState::Unbound {
            return Err(BadPort);
        }
        self.ports[place] = PortState::Bound;
        self.any_bound = true;
        Ok(port)
    }

    /// Sets the other end's pending mark, where a port is bound; marks merge.
    pub fn send(&mut self, who: End)
        ensures { self.new ≡ sent self.old who }
    {
        if self.any_bound {
            match who {
                End::Front => self.back_pending = true,
                End::Back => self.front_pending = true,
            }
        }
    }

    /// Whether an end has an event to take.
    pub fn pending(&self, who: End) -> bool
        ensures { result ≡ is_pending self.now who }
    {
        match who {
            End::Front => self.front_pending,
            End::Back => self.back_pending,
        }
    }

    /// Takes an end's event: whether there was one, which now is gone.
    pub fn take(&mut self, who: End) -> bool
        ensures event { result ≡ is_pending self.old who }
        ensures taken { self.new ≡ taken self.old who }
    {
        let pending = self.pending(who);
        match who {
            End::Front => self.front_pending = false,
            End::Back => self.back_pending = false,
        }
        pending
    }

    /// Closes an end's ports, and drops its own event. The other end has no bound port then: where
    /// the back closes, the front's ports wait to be bound again.
    pub fn close(&mut self, who: End)
        ensures { self.new ≡ closed self.old who }
    {
        match who {
            End::Front => {
                self.front_pending = false;
                close_all(self.ports.as_mut_slice());
                self.any_bound = false;
            }
            End::Back => {
                self.back_pending = false;
                unbind_all(self.ports.as_mut_slice());
                self.any_bound = false;
            }
        }
    }

    /// All ports and events vanish, as at a suspend. The numbers of ports go on.
    pub fn reset(&mut self)
        ensures { self.new ≡ reset self.old }
    {
        self.ports.clear();
        self.any_bound = false;
        self.front_pending = false;
        self.back_pending = false;
    }
}

fn close_all(ports: &mut [PortState])
    ensures { ports.new ≡ map closed_port ports.old }
{
    for port in ports.iter_mut() {
        *port = PortState::Closed;
    }
}

fn unbind_all(ports: &mut [PortState])
    ensures { ports.new ≡ map unbound_port ports.old }
{
    for port in ports.iter_mut() {
        *port = unbound_port(*port);
    }
}

fn unbound_port(port: PortState) -> PortState
    ensures { result ≡ unbound_port port }
{
    match port {
        PortState::Bound => PortState::Unbound,
        PortState::Unbound => PortState::Unbound,
        PortState::Closed => PortState::Closed,
    }
}
