//! Event channels between the two ends (`event_channel.h`: `EVTCHNOP_alloc_unbound`,
//! `EVTCHNOP_bind_interdomain`, `EVTCHNOP_send`, `EVTCHNOP_close`): the front's ports, which the back
//! binds, and one pending mark for each end. The machine carries out each end's event calls here.
//! No call takes memory.
#![tactic(auto)]

mod channels;

pub use channels::{BadPort, Channels, Port};
