//! The kept mappings, as a list of fixed capacity.
ghost use Rattle.std.specs.Prelude.{◌≡◌, ◌-◌, ◌<◌, ◌≤◌, ◌∷◌, ◌++◌, ◌==◌, nat_eq, length, take, OnSome, IsPermutation};
ghost use Rattle.std.specs.List.{position_from};
ghost use Rattle.std.specs.Option.{option_to_list};
ghost use Rattle.persist_grants.specs.PutBack.{answer_of};

use arrayvec::ArrayVec;
use blk_base::Mapping;
use std::marker::Model;

/// As many mappings as can ever be kept: one for each frame that the front may grant for data.
const CAPACITY: usize = 1000;

/// What `Kept::put_back` did with a mapping.
#[derive(Clone, Copy, PartialEq, Eq)]
pub enum PutBack {
    /// It is kept, and nothing has to be unmapped.
    Kept,
    /// This mapping is kept no longer and must be unmapped now.
    Out(Mapping),
}

/// Mappings that stay mapped between requests, each under its grant reference, the most recently used first.
///
/// The references stand in an array of their own, so that the search for one passes over words only.
#[derive(Drop)]
pub struct Kept {
    cap: u32,
    references: ArrayVec<u32, CAPACITY>,
    mappings: ArrayVec<Mapping, CAPACITY>,
}

impl Model for Kept {
    ghost use Rattle.std.specs.List.{zip};
    ghost use Rattle.persist_grants.specs.KeptMappings.{KeptMappings};

    ghost Value = { KeptMappings };

    ghost use Rattle.persist_grants.specs.Stored.{IsStored};

    ghost view = { λ k. record { entries = zip k.references.items k.mappings.items; cap = k.cap } };

    ghost invariant = { IsStored };
}

impl Kept {
    ghost use Rattle.persist_grants.specs.KeptMappings.{may_keep, none_kept, mappings_of, IsBounded, mapping_for, without, least_recent, without_least_recent};
    ghost use Rattle.persist_grants.specs.PutBack.{makes_room, handed_out, with_mapping, answer_of, out_of};

    /// Nothing is kept yet, and at most `cap` mappings will be. Where `cap` is 0, grants aren't persistent.
    pub fn new(cap: u32) -> Self
        requires { cap ≤ 1000 }
        ensures { result ≡ none_kept cap }
    {
        Kept {
            cap,
            references: ArrayVec::new(),
            mappings: ArrayVec::new(),
        }
    }

    /// Whether any mapping may be kept: grants are persistent.
    pub fn may_keep(&self) -> bool
        ensures { result ≡ may_keep self.now }
    {
        self.cap != 0
    }

    /// Takes out the mapping that is kept for `gref`; `None` exactly where none is.
    ///
    /// It scans the references.
    pub fn take(&mut self, gref: u32) -> Option<Mapping>
        ensures mapping { result ≡ mapping_for self.old gref }
        ensures rest { self.new ≡ without self.old gref }
        ensures nothing_lost { IsPermutation (mappings_of self.old) (option_to_list result ++ mappings_of self.new) }
        ensures absent { mapping_for self.new gref ≡ None }
        ensures room { OnSome result (length self.new.entries < self.new.cap) }
        ensures bounded { IsBounded self.new }
    {
        let Some(place) = place_of(self.references.as_slice(), gref) else {
            return None;
        };
        self.references.remove(place);
        Some(self.mappings.remove(place))
    }

    /// Keeps `mapping` for `gref` as the most recently used, and says which mapping must be unmapped now: this one where
    /// the cap is 0, else the one that was kept for `gref`, else, where as many were kept as may be, the least recently used.
    ///
    /// It scans the references.
    pub fn put_back(&mut self, gref: u32, mapping: Mapping) -> PutBack
        ensures out { result ≡ answer_of (handed_out self.old gref mapping) }
        ensures kept { self.new ≡ with_mapping self.old gref mapping }
        ensures nothing_lost { IsPermutation (mapping ∷ mappings_of self.old) (out_of result ++ mappings_of self.new) }
        ensures bounded { IsBounded self.new }
    {
        if self.cap == 0 {
            return PutBack::Out(mapping);
        }
        let out = self.make_room(gref);
        self.references.insert(0, gref);
        self.mappings.insert(0, mapping);
        answer(out)
    }

    /// Takes out the least recently used mapping; `None` exactly where none is kept.
    pub fn drain(&mut self) -> Option<Mapping>
        ensures mapping { result ≡ least_recent self.old }
        ensures rest { self.new ≡ without_least_recent self.old }
        ensures nothing_lost { mappings_of self.old ≡ mappings_of self.new ++ option_to_list result }
        ensures bounded { IsBounded self.new }
    {
        self.references.pop();
        self.mappings.pop()
    }

    // Takes out the mapping of `gref`, or else, where as many are kept as may be, the least recently used.
    fn make_room(&mut self, gref: u32) -> Option<Mapping>
        requires { 0 < self.old.cap }
        ensures out { result ≡ makes_room self.old (mapping_for self.old gref) }
        ensures rest { self.new ≡ record self.old { entries = take (self.old.cap - 1) (without self.old gref).entries } }
        ensures absent { mapping_for self.new gref ≡ None }
        ensures room { length self.new.entries < self.new.cap }
        ensures nothing_lost { IsPermutation (mappings_of self.old) (option_to_list result ++ mappings_of self.new) }
        ensures bounded { IsBounded self.new }
    {
        if let Some(replaced) = self.take(gref) {
            return Some(replaced);
        }
        if self.is_full() {
            return self.drain();
        }
        None
    }

    fn is_full(&self) -> bool
        ensures { result ≡ (length self.now.entries == self.now.cap) }
    {
        self.references.len() == self.cap as usize
    }
}

// Where a reference stands.
fn place_of(references: &[u32], gref: u32) -> Option<usize>
    ensures { result ≡ position_from (nat_eq gref) 0 references.now }
{
    references.iter().position(|reference| gref == *reference)
}

fn answer(out: Option<Mapping>) -> PutBack
    ensures { result ≡ answer_of out }
{
    match out {
        Some(mapping) => PutBack::Out(mapping),
        None => PutBack::Kept,
    }
}
