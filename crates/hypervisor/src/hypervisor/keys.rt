// Keys and watches.
ghost use Rattle.std.specs.Prelude.{◌≡◌, IfOk, OnOk, OnErr, OnSome, IfNone};
ghost use Rattle.key_directory.specs.Watches.{has_pending};
ghost use Rattle.key_directory.specs.Directory.{watches_of};
ghost use Rattle.hypervisor.specs.Act.{has_to_take, key_at, is_own_path, key_set, watch_set, watch_next, watch_taken};
ghost use Rattle.hypervisor.specs.Act.{set_done};

use super::Hypervisor;
use blk_base::{End, Lent, OutOfMemory, Path, SectorWords, Text};
use key_directory::KeyStop;

/// Where lies what an answer lends: the words of a sector that was read, the path of a watch that was
/// taken, and the text of a key.
#[derive(Drop)]
pub struct Room {
    pub(super) sector: SectorWords,
    path: Path,
    text: Text,
}

impl Room {
    /// Room for one answer at a time.
    pub fn new() -> Room {
        Room {
            sector: [0; 128],
            path: Path::new(),
            text: Text::new(),
        }
    }
}

impl Hypervisor {
    /// Whether an end has a watch to take.
    pub fn watch_pending(&self, who: End) -> bool
        ensures { result ≡ has_pending (watches_of self.now.keys who) }
    {
        self.keys.watch_pending(who)
    }

    /// Whether an end has an event or a watch to take.
    pub fn has_to_take(&self, who: End) -> bool
        ensures { result ≡ has_to_take self.now who }
    {
        self.pending(who) || self.watch_pending(who)
    }

    // The text at a path.
    pub(super) fn key<'a>(&self, path: &Path, room: &'a mut Room) -> Option<Lent<'a, Text>>
        ensures { result ≡ key_at self.now path.now }
    {
        match self.keys.read(path) {
            None => None,
            Some(text) => {
                room.text = *text;
                Some(Lent::at(&room.text))
            }
        }
    }

    // An end writes a text at a path, if that is under its own directory.
    pub(super) fn set_key(
        &mut self,
        who: End,
        path: &Path,
        text: &Text,
    ) -> Result<bool, OutOfMemory>
        ensures own { IfOk result (λ done. done ≡ is_own_path who path.now) }
        ensures set { IfOk result (λ done. self.new ≡ set_done done self.old path.now text.now) }
        ensures unchanged { OnErr result (self.new ≡ self.old) }
    {
        match self.keys.write(who, path, text) {
            Ok(()) => Ok(true),
            Err(KeyStop::NotOwner) => Ok(false),
            Err(KeyStop::OutOfMemory) => Err(OutOfMemory),
        }
    }

    // An end watches a path.
    pub(super) fn watch(&mut self, who: End, path: &Path) -> Result<(), OutOfMemory>
        ensures set { OnOk result (self.new ≡ watch_set self.old who path.now) }
        ensures unchanged { OnErr result (self.new ≡ self.old) }
    {
        self.keys.watch(who, path)
    }

    // An end takes the watch that fired first, if one did.
    pub(super) fn take_watch<'a>(&mut self, who: End, room: &'a mut Room) -> Option<Lent<'a, Path>>
        ensures path { result ≡ watch_next self.old who }
        ensures taken { OnSome result (self.new ≡ watch_taken self.old who) }
        ensures none { IfNone result (self.new ≡ self.old) }
    {
        if !self.keys.take_watch(who) {
            return None;
        }
        let path = self.keys.taken_watch(who)?;
        room.path = *path;
        Some(Lent::at(&room.path))
    }
}
