// The keys and both ends' watches.
ghost use Rattle.std.specs.Prelude.{◌≡◌, ◌↔◌, None, OnOk, OnErr, IfOk, IsErrOf, IsTrue, not, codes};
ghost use Rattle.std.specs.Option.{option_copied};
ghost use Rattle.key_directory.specs.Paths.{is_under, directory_of};
ghost use Rattle.key_directory.specs.Watches.{with_watch, next_watch, last_idle, taken, has_pending};
ghost use Rattle.key_directory.specs.Directory.{fresh_directory, key_of, written, OnlySets, watches_of, with_watches};

use crate::paths::{directory_of, is_under};
use crate::watches::WatchList;
use blk_base::{End, OutOfMemory, Path, Text};
use std::alloc::Global;
use std::collections::BTreeMap;
use std::error::Error;
use std::fmt;
use std::marker::Model;

const FRONT_STATE: &str = "/local/domain/1/device/vbd/51712/state";

const BACK_STATE: &str = "/local/domain/0/backend/vbd/1/51712/state";

/// Why a key isn't written.
#[derive(Clone, Copy, Debug, PartialEq, Eq)]
pub enum KeyStop {
    /// The path is not under the writer's own directory.
    NotOwner,
    /// There is not enough memory for a new key.
    OutOfMemory,
}

impl fmt::Display for KeyStop {
    fn fmt<W: fmt::Write>(&self, f: &mut fmt::Formatter<W>) -> fmt::Result {
        match self {
            KeyStop::NotOwner => write!(f, "the path is not the writer's"),
            KeyStop::OutOfMemory => write!(f, "out of memory"),
        }
    }
}

impl Error for KeyStop {}

/// The directory. Contracts see the paths with their texts, in the order of the paths, and both
/// ends' watches.
#[derive(Drop)]
pub struct Keys {
    alloc: Global,
    keys: BTreeMap<Path, Text>,
    front: WatchList,
    back: WatchList,
}

impl Model for Keys {
    ghost use Rattle.key_directory.specs.Directory.{Directory};

    ghost Value = { Directory };

    ghost view = { λ k. record { keys = k.keys.entries; front = k.front; back = k.back } };
}

impl Keys {
    /// The directory at the start: both ends' states are `1`, and nobody watches.
    pub fn new(alloc: Global) -> Result<Keys, OutOfMemory>
        ensures fresh { IfOk result (λ keys. keys ≡ fresh_directory (codes "1")) }
    {
        let state = Text::of("1");
        Ok(Keys {
            alloc,
            keys: states(alloc, &state)?,
            front: WatchList::new(alloc),
            back: WatchList::new(alloc),
        })
    }

    /// The text last written at a path; `None` exactly where there is none.
    pub fn read(&self, path: &Path) -> Option<&Text>
        ensures { option_copied result ≡ key_of self.now.keys path.now }
    {
        self.keys.get(path)
    }

    /// Writes a text at a path under the writer's own directory, and fires every watch at or above
    /// it, of both ends. `NotOwner` exactly where the path is not under that directory, which is
    /// tested first; `OutOfMemory` never where the path is there. An error changes nothing.
    pub fn write(&mut self, who: End, path: &Path, text: &Text) -> Result<(), KeyStop>
        ensures not_owner { IsErrOf result KeyStop.NotOwner ↔ IsTrue (not (is_under (directory_of who) path.now)) }
        ensures ok { OnOk result (self.new ≡ written self.old path.now text.now) }
        ensures only { OnOk result (OnlySets self.old.keys self.new.keys path.now text.now) }
        ensures err { OnErr result (self.new ≡ self.old) }
        ensures absent { IsErrOf result KeyStop.OutOfMemory → key_of self.old.keys path.now ≡ None }
    {
        if !is_under(directory_of(who), path.as_str()) {
            return Err(KeyStop::NotOwner);
        }
        match self.keys.insert(*path, *text) {
            Ok(_) => {
                self.front.fire(path);
                self.back.fire(path);
                Ok(())
            }
            Err(_) => Err(KeyStop::OutOfMemory),
        }
    }

    /// Sets an end's watch at a path, which fires at once. After an `Err` nothing has changed.
    pub fn watch(&mut self, who: End, path: &Path) -> Result<(), OutOfMemory>
        ensures ok { OnOk result (self.new ≡ with_watches self.old who (with_watch (watches_of self.old who) path.now)) }
        ensures err { OnErr result (self.new ≡ self.old) }
    {
        match who {
            End::Front => self.front.set(path),
            End::Back => self.back.set(path),
        }
    }

    /// Takes the watch of an end that fired first, and says whether there was one. It goes to the end
    /// of the idle ones, where `taken_watch` finds it.
    pub fn take_watch(&mut self, who: End) -> bool
        ensures pending { result ≡ has_pending (watches_of self.old who) }
        ensures watch { IsTrue result → last_idle (watches_of self.new who) ≡ next_watch (watches_of self.old who) }
        ensures taken { self.new ≡ with_watches self.old who (taken (watches_of self.old who)) }
    {
        match who {
            End::Front => self.front.take(),
            End::Back => self.back.take(),
        }
    }

    /// The path of the watch that an end took last, until that watch is set or fires again.
    pub fn taken_watch(&self, who: End) -> Option<&Path>
        ensures { option_copied result ≡ last_idle (watches_of self.now who) }
    {
        match who {
            End::Front => self.front.last_idle(),
            End::Back => self.back.last_idle(),
        }
    }

    /// Whether an end has a watch to take.
    pub fn watch_pending(&self, who: End) -> bool
        ensures { result ≡ has_pending (watches_of self.now who) }
    {
        match who {
            End::Front => self.front.is_pending(),
            End::Back => self.back.is_pending(),
        }
    }

    /// Leaves both ends' states alone, with this text, and no watch, as after a suspend. After an
    /// `Err` nothing has changed.
    pub fn reset(&mut self, state: &Text) -> Result<(), OutOfMemory>
        ensures ok { OnOk result (self.new ≡ fresh_directory state.now) }
        ensures err { OnErr result (self.new ≡ self.old) }
    {
        self.keys = states(self.alloc, state)?;
        self.front = WatchList::new(self.alloc);
        self.back = WatchList::new(self.alloc);
        Ok(())
    }
}

// Both ends' state keys with that text.
fn states(alloc: Global, state: &Text) -> Result<BTreeMap<Path, Text>, OutOfMemory>
    ensures { IfOk result (λ keys. keys.entries ≡ (fresh_directory state.now).keys) }
{
    let mut keys = BTreeMap::new(alloc);
    keys.insert(Path::of(BACK_STATE), *state)?;
    keys.insert(Path::of(FRONT_STATE), *state)?;
    Ok(keys)
}
