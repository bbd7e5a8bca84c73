// One end's watches.
ghost use Rattle.std.specs.Prelude.{◌≡◌, ◌+◌, ◌≤◌, ◌++◌, length, filter, IsTrue, ◌↔◌, IfSome, IfNone, OnOk, OnErr, IsSome, vec_len, vec_capacity};
ghost use Rattle.std.specs.Prelude.{nat_eq};
ghost use Rattle.std.specs.List.{list_any};
ghost use Rattle.std.specs.Option.{option_copied};
ghost use Rattle.std.specs.Cmp.Lexicographic.{pointwise};
ghost use Rattle.key_directory.specs.Paths.{is_at_or_under};
ghost use Rattle.key_directory.specs.Watches.{no_watches, with_watch, fired, next_watch, last_idle, taken, has_pending};

use crate::paths::is_at_or_under;
use blk_base::{OutOfMemory, Path};
use std::alloc::Global;
use std::marker::Model;

/// The watches of one end: those that fired and weren't taken, oldest first, and the others. Both
/// lists have room for all of them, so firing and taking ask for no memory.
#[derive(Drop)]
pub(crate) struct WatchList {
    pending: Vec<Path>,
    idle: Vec<Path>,
}

impl Model for WatchList {
    ghost use Rattle.std.specs.Prelude.{◌+◌, ◌≤◌, length, vec_capacity};
    ghost use Rattle.key_directory.specs.Watches.{Watches};

    ghost Value = { Watches };

    ghost view = { λ w. record { pending = w.pending.items; idle = w.idle.items } };

    ghost invariant = { λ w. (length w.pending.items + length w.idle.items ≤ vec_capacity w.pending)
        × (length w.pending.items + length w.idle.items ≤ vec_capacity w.idle) };
}

impl WatchList {
    pub(crate) fn new(alloc: Global) -> Self
        ensures { result ≡ no_watches }
    {
        WatchList {
            pending: Vec::new(alloc),
            idle: Vec::new(alloc),
        }
    }

    /// Sets a watch, which fires at once: it goes to the end of the pending ones, if it isn't one of
    /// them. After an `Err` the list is as before.
    pub(crate) fn set(&mut self, path: &Path) -> Result<(), OutOfMemory>
        ensures ok { OnOk result (self.new ≡ with_watch self.old path.now) }
        ensures err { OnErr result (self.new ≡ self.old) }
    {
        if has(&self.pending, path) {
            return Ok(());
        }
        let more = self.pending.len() + self.idle.len() + 1;
        self.pending.reserve(more)?;
        self.idle.reserve(more)?;
        self.idle.retain(|watch| path != watch);
        self.pending.push(*path).unwrap();
        Ok(())
    }

    /// Fires the watches at or above a path.
    pub(crate) fn fire(&mut self, path: &Path)
        ensures { self.new ≡ fired self.old path.now }
    {
        move_fired(&mut self.pending, &self.idle, path);
        self.idle
            .retain(|watch| !is_at_or_under(watch.as_str(), path.as_str()));
    }

    /// Takes the watch that fired first, if there is one.
    pub(crate) fn take(&mut self) -> bool
        ensures pending { result ≡ has_pending self.old }
        ensures watch { IsTrue result → last_idle self.new ≡ next_watch self.old }
        ensures taken { self.new ≡ taken self.old }
    {
        if self.pending.is_empty() {
            return false;
        }
        let path = self.pending.remove(0);
        self.idle.push(path).unwrap();
        true
    }

    /// The watch at the end of the idle ones.
    pub(crate) fn last_idle(&self) -> Option<&Path>
        ensures { option_copied result ≡ last_idle self.now }
    {
        self.idle.last()
    }

    pub(crate) fn is_pending(&self) -> bool
        ensures { result ≡ has_pending self.now }
    {
        !self.pending.is_empty()
    }
}

// Adds the watches at or above a path.
fn move_fired(pending: &mut Vec<Path>, idle: &[Path], path: &Path)
    requires { vec_len pending.old + length idle.now ≤ vec_capacity pending.old }
    ensures items { pending.new.items ≡ pending.old.items ++ filter (λ watch. is_at_or_under watch path.now) idle.now }
    ensures capacity { vec_capacity pending.old ≤ vec_capacity pending.new }
{
    for watch in idle {
        if is_at_or_under(watch.as_str(), path.as_str()) {
            pending.push(*watch).unwrap();
        }
    }
}

fn has(watches: &[Path], path: &Path) -> bool
    ensures { result ≡ list_any (λ watch. pointwise nat_eq path.now watch) watches.now }
{
    watches.iter().any(|watch| path == watch)
}
