//! The unfinished requests, as a vector in order of number.
ghost use Rattle.std.specs.Prelude.{◌≡◌, ◌≢◌, ◌<◌, ◌≤◌, ◌+◌, ◌++◌, [], ◌∷◌, length, remove, All, IfOk, IfSome, position, slice_get, slice_index_or, take, insert, nat_lt, ◌==◌};
ghost use Rattle.std.specs.Option.{option_copied};
ghost use Rattle.resume_shadow.specs.Unfinished.{IsAscending, by_number, place_of};

use crate::numbered::Numbered;
use blk_base::OutOfMemory;
use std::alloc::Global;
use std::marker::Model;

/// Requests whose answer is still to be told, each number once, in ascending order. After `reserve` it takes no
/// memory.
#[derive(Drop)]
pub struct Shadow<T: Numbered + Drop> {
    held: Vec<T>,
    room: u32,
}

impl<T: Numbered + Drop> Model for Shadow<T> {
    ghost use Rattle.resume_shadow.specs.Unfinished.{Unfinished};

    ghost Value = { Unfinished T };

    ghost use Rattle.std.specs.Prelude.{vec_capacity};
    ghost use Rattle.resume_shadow.specs.Stored.{IsStored};

    ghost view = { λ s. record { held = s.held.items; room = s.room } };

    ghost invariant = { λ s. IsStored T.number_of s.room (vec_capacity s.held) s.held.items };
}

impl<T: Numbered + Drop> Shadow<T> {
    ghost use Rattle.resume_shadow.specs.Unfinished.{none_held};

    /// Nothing is held yet, and there is room for so many requests. It fails only where there is not enough memory.
    pub fn reserve(alloc: Global, room: u32) -> Result<Shadow<T>, OutOfMemory>
        ensures { IfOk result (λ shadow. shadow ≡ none_held room) }
    {
        let held = Vec::with_capacity(alloc, room as usize)?;
        Ok(Shadow { held, room })
    }

    /// How many are held.
    pub fn len(&self) -> usize
        ensures count { result ≡ length self.now.held }
        ensures room { result ≤ self.now.room }
    {
        self.held.len()
    }

    /// Whether none is held.
    pub fn is_empty(&self) -> bool
        ensures { result ≡ (length self.now.held == 0) }
    {
        self.held.is_empty()
    }

    /// Holds a request with a number above every one that is held.
    pub fn add(&mut self, request: T)
        requires room { length self.old.held < self.old.room }
        requires above { All (λ r. T.number_of r < T.number_of request) self.old.held }
        ensures held { self.new.held ≡ self.old.held ++ request ∷ [] }
        ensures count { length self.new.held ≡ length self.old.held + 1 }
        ensures room { self.new.room ≡ self.old.room }
        ensures ascending { IsAscending T.number_of self.new.held }
    {
        self.held.push_reserved(request);
    }

    /// Where the request with this id stands among the first so many; `None` exactly where none of them has it, as
    /// where the id has more than 32 bits.
    ///
    /// It takes a number of steps that is logarithmic in the number of those held.
    pub fn find(&self, first: usize, id: u64) -> Option<usize>
        requires { first ≤ length self.now.held }
        ensures place { result ≡ place_of T.number_of id (take first self.now.held) }
        ensures within { IfSome result (λ place. place < length self.now.held) }
    {
        place_of(&self.held[..first], id)
    }

    /// The request at this place, in order of number; `None` exactly where there are no more.
    pub fn get(&self, place: usize) -> Option<&T>
        ensures { option_copied result ≡ slice_get self.now.held place }
    {
        self.held.get(place)
    }

    /// Holds the request at this place no longer, and hands it out. Those after it move down by one place in memory.
    pub fn finish(&mut self, place: usize) -> T
        requires { place < length self.old.held }
        ensures value { result ≡ slice_index_or self.old.held place result }
        ensures rest { self.new.held ≡ remove self.old.held place }
        ensures count { length self.new.held + 1 ≡ length self.old.held }
        ensures room { self.new.room ≡ self.old.room }
        ensures ascending { IsAscending T.number_of self.new.held }
    {
        self.held.remove(place)
    }

    /// Holds a request again that was handed out, before the first with a number above its own.
    pub fn put_back(&mut self, request: T)
        requires room { length self.old.held < self.old.room }
        requires apart { All (λ r. T.number_of r ≢ T.number_of request) self.old.held }
        ensures held { self.new.held ≡ by_number T.number_of request self.old.held }
        ensures room { self.new.room ≡ self.old.room }
        ensures ascending { IsAscending T.number_of self.new.held }
    {
        let place = place_for(&self.held[..], request.number());
        self.held.insert(place, request).unwrap();
    }

    /// The requests that are held, in order of number.
    pub fn in_order(&self) -> &[T]
        ensures held { result.now ≡ self.now.held }
        ensures ascending { IsAscending T.number_of self.now.held }
    {
        self.held.as_slice()
    }
}

// Where the request with this id stands, among requests whose numbers ascend: a binary search.
fn place_of<T: Numbered + Drop>(held: &[T], id: u64) -> Option<usize>
    requires { IsAscending T.number_of held.now }
    ensures value { result ≡ place_of T.number_of id held.now }
    ensures within { IfSome result (λ place. place < length held.now) }
{
    held.binary_search_by_key(&id, |r| u64::from(r.number()))
        .ok()
}

// Where a request of this number belongs, among requests that are in order of number.
fn place_for<T: Numbered + Drop>(held: &[T], number: u32) -> usize
    ensures within { result ≤ length held.now }
    ensures place { (r : T) → T.number_of r ≡ number → insert held.now result r ≡ by_number T.number_of r held.now }
{
    match first_above(held, number) {
        Some(place) => place,
        None => held.len(),
    }
}

// The first of them whose number is above this one.
fn first_above<T: Numbered + Drop>(held: &[T], number: u32) -> Option<usize>
    ensures { result ≡ position (λ r. nat_lt number (T.number_of r)) held.now }
{
    held.iter().position(|r| number < r.number())
}
