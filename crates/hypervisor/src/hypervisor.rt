// Memory, mappings, event channels and keys, and what is done at an ask.
ghost use Rattle.std.specs.Prelude.{◌≡◌, ◌<◌, IfOk};
ghost use Rattle.event_channel.specs.Channels.{is_pending, sent};
ghost use Rattle.hypervisor.specs.Hypervisor.{fresh};
ghost use Rattle.hypervisor.specs.Act.{with_pages};
ghost use Rattle.xen_pages.specs.Pages.{with_word};

use blk_base::{End, OutOfMemory};
use event_channel::Channels;
use grant_table::Grants;
use key_directory::Keys;
use std::alloc::Global;
use std::marker::Model;
use xen_pages::Pages;

mod back;
mod front;
mod keys;
mod shown;
mod suspend;
mod words;

pub use keys::Room;
pub use shown::{front_access, front_shown};

/// The memory of the domains, the back's mappings, the event channels, and the directory of keys with
/// both ends' watches. Once it is made, only keys and watches take memory.
#[derive(Drop)]
pub struct Hypervisor {
    pages: Pages,
    grants: Grants,
    channels: Channels,
    keys: Keys,
}

impl Model for Hypervisor {
    ghost use Rattle.hypervisor.specs.Hypervisor.{Hypervisor};

    ghost Value = { Hypervisor };

    ghost view = { λ h. record { pages = h.pages; grants = h.grants; channels = h.channels; keys = h.keys } };
}

impl Hypervisor {
    /// Memory of zeros, nothing mapped, made or pending, and both ends' states `1`. It fails only where
    /// there is not enough memory.
    pub fn new(alloc: Global) -> Result<Hypervisor, OutOfMemory>
        ensures { IfOk result (λ hypervisor. hypervisor ≡ fresh) }
    {
        Ok(Hypervisor {
            pages: Pages::new(alloc)?,
            grants: Grants::new(alloc)?,
            channels: Channels::new(),
            keys: Keys::new(alloc)?,
        })
    }

    /// A hostile hand overwrites a word of domain 1, whose memory is frames 0 to 1023 of 1024 words
    /// each; frames 0 and 1 hold its grant table. It notifies nobody.
    pub fn overwrite(&mut self, frame: u32, word: u32, value: u32)
        requires frame_in { frame < 1024 }
        requires word_in { word < 1024 }
        ensures { self.new ≡ with_pages self.old (with_word self.old.pages frame word value) }
    {
        self.pages.write(frame, word, value);
    }

    /// Whether an end has an event to take.
    pub fn pending(&self, who: End) -> bool
        ensures { result ≡ is_pending self.now.channels who }
    {
        self.channels.pending(who)
    }

    /// An end sends an event to the other, where a port is bound; it merges with one that is pending.
    pub fn send(&mut self, who: End)
        ensures { self.new ≡ record self.old { channels = sent self.old.channels who } }
    {
        self.channels.send(who);
    }
}
