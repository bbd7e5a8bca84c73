//! The machine under both ends of the ring: the memory of the domains, the back's grant mappings
//! (`grant_table.h`), the event channels (`event_channel.h`) and the directory of keys, and who
//! answers what an end asks of them, one shared word, hypercall, key, event or call of the disk at a
//! time. The machine of both domains stands on it.
#![tactic(auto)]

mod hypervisor;

pub use hypervisor::{Hypervisor, Room, front_access, front_shown};
