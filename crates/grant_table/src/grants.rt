// The back's live mappings, and the calls through them.
ghost use Rattle.std.specs.Prelude.{◌≡◌, ℕ, ◌+◌, ◌^◌, ◌<◌, ◌≤◌, ◌↔◌, length, slice_index, IsTrue, IsSomeAnd, IfSome, IfNone, None, Ok, IfOk, OnErr};
ghost use Rattle.xen_pages.specs.Pages.{word_of, with_word};
ghost use Rattle.grant_table.specs.Entry.{writer_count};
ghost use Rattle.grant_table.specs.Table.{fresh_table, entry_word0, entry_word1, with_entry_word0, held_of, IsLive, frame_of, mappings_of, writers_of, verdict_at, next_mapping, with_mapping, map_answer, map_table, map_pages, unmap_table, unmap_pages, revoked_table};
ghost use Rattle.grant_table.specs.Sound.{IsAscending, IsPlace, IsPlaceOf};
ghost use Rattle.blk_base.specs.declared.parts.Mode.TheVariants.{ReadWrite};

use crate::entry::{LAST_REFERENCE, MapRefusal, mapped, unmapped, verdict};
use crate::held::Held;
use blk_base::{Mapping, Mode, OutOfMemory};
use std::alloc::Global;
use std::marker::Model;
use xen_pages::Pages;

mod words;

const REFERENCES: usize = 1024;

const ROOM: usize = 8192;

/// The mappings of one back (`GNTTABOP_map_grant_ref` and `GNTTABOP_unmap_grant_ref` of
/// `grant_table.h`, as far as this machine has them). Contracts see the number of mappings ever made
/// and the live ones in the order of their numbers.
#[derive(Drop)]
pub struct Grants {
    made: u64,
    held: Vec<Held>,
    // how many live mappings each reference has, and how many of those may write
    mappings: Vec<u32>,
    writers: Vec<u32>,
}

impl Model for Grants {
    ghost use Rattle.std.specs.Prelude.{vec_capacity};
    ghost use Rattle.grant_table.specs.Table.{GrantTable};
    ghost use Rattle.grant_table.specs.Sound.{IsSound};

    ghost Value = { GrantTable };

    ghost view = { λ g. record { made = g.made; live = g.held.items } };

    ghost invariant = { λ g. IsSound g.made g.held.items (vec_capacity g.held) g.mappings.items g.writers.items };
}

impl Grants {
    /// No mappings, and room for 8192 live ones: no other call asks for memory.
    pub fn new(alloc: Global) -> Result<Grants, OutOfMemory>
        ensures fresh { IfOk result (λ grants. grants ≡ fresh_table) }
    {
        Ok(Grants {
            made: 0,
            held: Vec::with_capacity(alloc, ROOM)?,
            mappings: no_counts(alloc)?,
            writers: no_counts(alloc)?,
        })
    }

    /// How many mappings were made, those that ended counted too.
    pub fn made(&self) -> u64
        ensures { result ≡ self.now.made }
    {
        self.made
    }

    /// How many mappings live.
    pub fn live(&self) -> usize
        ensures { result ≡ length self.now.live }
    {
        self.held.len()
    }

    /// Whether the mapping lives: `map` gave it, and it didn't end since.
    pub fn is_live(&self, mapping: Mapping) -> bool
        ensures { IsTrue result ↔ IsLive self.now mapping }
    {
        match search(&self.held, mapping.number) {
            Some(place) => self.held[place].mapping == mapping,
            None => false,
        }
    }

    /// Maps the frame that the reference `gref` grants, by its entry as it stands now: the first
    /// mapping has number 1, each other the next. The entry then has reading set, and writing too
    /// where the mode is `ReadWrite`. A refusal changes nothing.
    pub fn map(&mut self, pages: &mut Pages, gref: u32, mode: Mode) -> Result<Mapping, MapRefusal>
        requires number_left { self.old.made + 1 < 2 ^ 64 }
        requires room { length self.old.live < 8192 }
        ensures answer { result ≡ map_answer self.old gref mode (verdict_at pages.old gref mode) }
        ensures table { self.new ≡ map_table self.old gref mode (verdict_at pages.old gref mode) }
        ensures pages { pages.new ≡ map_pages pages.old gref mode (verdict_at pages.old gref mode) }
        ensures live { IfOk result (λ mapping. IsLive self.new mapping) }
        ensures frame { IfOk result (λ mapping. verdict_at pages.old gref mode ≡ Ok (frame_of self.new mapping)) }
        ensures refused { OnErr result ((self.new ≡ self.old) × (pages.new ≡ pages.old)) }
    {
        let frame = verdict_now(pages, gref, mode)?;
        let word0 = read_word0(pages, gref);
        write_word0(pages, gref, mapped(word0, mode));
        Ok(self.hold(gref, mode, frame))
    }

    /// Ends a live mapping. Its entry then has writing cleared where no mapping of the reference for
    /// writing is left, and reading where no mapping of it is left.
    pub fn unmap(&mut self, pages: &mut Pages, mapping: Mapping)
        requires { IsLive self.old mapping }
        ensures table { self.new ≡ unmap_table self.old mapping }
        ensures pages { pages.new ≡ unmap_pages self.old pages.old mapping }
    {
        self.let_go(mapping);
        let gref = mapping.gref;
        let word0 = read_word0(pages, gref);
        let left = unmapped(word0, self.mappings_of(gref), self.writers_of(gref));
        write_word0(pages, gref, left);
    }

    /// The word `word` of a live mapping's frame.
    pub fn read(&self, pages: &Pages, mapping: Mapping, word: u32) -> u32
        requires live { IsLive self.now mapping }
        requires word_in { word < 1024 }
        ensures { result ≡ word_of pages.now (frame_of self.now mapping) word }
    {
        pages.read(self.frame_of(mapping), word)
    }

    /// Writes the word `word` of the frame of a live mapping for writing.
    pub fn write(&self, pages: &mut Pages, mapping: Mapping, word: u32, value: u32)
        requires live { IsLive self.now mapping }
        requires writable { mapping.mode ≡ ReadWrite }
        requires word_in { word < 1024 }
        ensures { pages.new ≡ with_word pages.old (frame_of self.now mapping) word value }
    {
        pages.write(self.frame_of(mapping), word, value);
    }

    /// The frame of a live mapping: the one that it was given when it was made, whatever its entry
    /// says now.
    pub fn frame_of(&self, mapping: Mapping) -> u32
        requires { IsLive self.now mapping }
        ensures frame { result ≡ frame_of self.now mapping }
        ensures grantable { (2 ≤ result) × (result ≤ 1023) }
    {
        let place = place_of(&self.held, mapping);
        self.held[place].frame
    }

    /// Ends all mappings, as a suspend does. Their numbers are not used again.
    pub fn revoke_all(&mut self)
        ensures { self.new ≡ revoked_table self.old }
    {
        self.held.clear();
        clear_counts(&mut self.mappings);
        clear_counts(&mut self.writers);
    }

    fn hold(&mut self, gref: u32, mode: Mode, frame: u32) -> Mapping
        requires number_left { self.old.made + 1 < 2 ^ 64 }
        requires room { length self.old.live < 8192 }
        requires reference { gref < 1024 }
        requires grantable { (2 ≤ frame) × (frame ≤ 1023) }
        ensures answer { result ≡ next_mapping self.old gref mode }
        ensures live { IsLive self.new result }
        ensures frame { frame_of self.new result ≡ frame }
        ensures table { self.new ≡ with_mapping self.old gref mode frame }
    {
        self.made += 1;
        let mapping = Mapping {
            number: self.made,
            gref,
            mode,
        };
        self.held.push(Held { mapping, frame }).unwrap();
        self.mappings[gref as usize] += 1;
        self.writers[gref as usize] += writer_count(mode);
        mapping
    }

    fn let_go(&mut self, mapping: Mapping)
        requires { IsLive self.old mapping }
        ensures table { self.new ≡ unmap_table self.old mapping }
        ensures reference { mapping.gref < 1024 }
    {
        let place = place_of(&self.held, mapping);
        self.held.remove(place);
        self.mappings[mapping.gref as usize] -= 1;
        self.writers[mapping.gref as usize] -= writer_count(mapping.mode);
    }

    fn mappings_of(&self, gref: u32) -> u32
        requires { gref < 1024 }
        ensures { result ≡ mappings_of gref self.now.live }
    {
        self.mappings[gref as usize]
    }

    fn writers_of(&self, gref: u32) -> u32
        requires { gref < 1024 }
        ensures { result ≡ writers_of gref self.now.live }
    {
        self.writers[gref as usize]
    }
}

// How many writers a mapping in that mode is.
fn writer_count(mode: Mode) -> u32
    ensures value { result ≡ writer_count mode }
    ensures at_most_one { result ≤ 1 }
{
    match mode {
        Mode::ReadOnly => 0,
        Mode::ReadWrite => 1,
    }
}

fn no_counts(alloc: Global) -> Result<Vec<u32>, OutOfMemory>
    ensures len { IfOk result (λ counts. length counts.items ≡ 1024) }
    ensures zero { IfOk result (λ counts. (gref : ℕ) → slice_index counts.items gref ≡ 0) }
{
    Ok(vec![in alloc; 0; REFERENCES]?)
}

fn clear_counts(counts: &mut [u32])
    ensures { (gref : ℕ) → slice_index counts.new gref ≡ 0 }
{
    for count in counts.iter_mut() {
        *count = 0;
    }
}

// Where a live mapping stands.
fn place_of(held: &[Held], mapping: Mapping) -> usize
    requires ascending { IsAscending 0 held.now }
    requires live { IsSomeAnd (held_of mapping.number held.now) (λ held. held.mapping ≡ mapping) }
    ensures { IsPlaceOf held.now mapping result }
{
    search(held, mapping.number).unwrap()
}

// Where the live mapping of that number stands.
fn search(held: &[Held], number: u64) -> Option<usize>
    requires { IsAscending 0 held.now }
    ensures found { IfSome result (IsPlace held.now number) }
    ensures absent { IfNone result (held_of number held.now ≡ None) }
{
    if let Some(place) = guess(held, number) {
        return Some(place);
    }
    search_by_halves(held, number)
}

// The place as far before the last one as the number is before the last number, where it stands if
// all mappings that were made since live.
fn guess(held: &[Held], number: u64) -> Option<usize>
    requires { IsAscending 0 held.now }
    ensures { IfSome result (IsPlace held.now number) }
{
    let newest = held.last()?.mapping.number;
    // Where none is as far before the last one, this is no place.
    let place = (held.len() - 1).wrapping_sub(newest.wrapping_sub(number) as usize);
    if place < held.len() && held[place].mapping.number == number {
        Some(place)
    } else {
        None
    }
}

fn search_by_halves(held: &[Held], number: u64) -> Option<usize>
    requires { IsAscending 0 held.now }
    ensures found { IfSome result (IsPlace held.now number) }
    ensures absent { IfNone result (held_of number held.now ≡ None) }
{
    held.binary_search_by_key(&number, |held| held.mapping.number)
        .ok()
}

fn verdict_now(pages: &Pages, gref: u32, mode: Mode) -> Result<u32, MapRefusal>
    ensures { result ≡ verdict_at pages.now gref mode }
{
    if gref > LAST_REFERENCE {
        return Err(MapRefusal::BadRef);
    }
    verdict(gref, read_word0(pages, gref), read_word1(pages, gref), mode)
}

// The entry of reference r is at frame r / 512, words 2 (r mod 512) and the next.
fn read_word0(pages: &Pages, gref: u32) -> u32
    requires { gref < 1024 }
    ensures { result ≡ entry_word0 pages.now gref }
{
    pages.read(gref / 512, gref % 512 * 2)
}

fn read_word1(pages: &Pages, gref: u32) -> u32
    requires { gref < 1024 }
    ensures { result ≡ entry_word1 pages.now gref }
{
    pages.read(gref / 512, gref % 512 * 2 + 1)
}

fn write_word0(pages: &mut Pages, gref: u32, value: u32)
    requires { gref < 1024 }
    ensures { pages.new ≡ with_entry_word0 pages.old gref value }
{
    pages.write(gref / 512, gref % 512 * 2, value);
}
