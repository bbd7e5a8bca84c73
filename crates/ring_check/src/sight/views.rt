// What a reader sees of the ring.
ghost use Rattle.std.specs.Prelude.{◌≡◌, ◌<◌, ◌≤◌, IfSome};
ghost use Rattle.ring_check.specs.State.{order_seen, shape_seen, replied_seen, produced_seen, word_seen, is_page_on, is_first_on, index_seen};

use super::RingSight;
use crate::pages::{place_of, word_in};
use blk_base::Abi;
use report_rules::{Overrun, order_of};
use ring_words::RingShape;

impl RingSight {
    /// The index at which rings start.
    pub fn start(&self) -> u32
        ensures { result ≡ self.now.start }
    {
        self.start
    }

    /// The layout of entries in this epoch, where the protocol that the back read names one.
    pub fn abi(&self) -> Option<Abi>
        ensures { result ≡ self.now.abi }
    {
        self.abi
    }

    /// The order of the ring in this epoch, where its pages have one.
    pub fn order(&self) -> Option<u32>
        ensures value { result ≡ order_seen self.now }
        ensures small { IfSome result (λ order. order ≤ 4) }
    {
        order_of(self.pages.len())
    }

    /// The shape of the ring in this epoch, where it has one.
    pub fn shape(&self) -> Option<RingShape>
        ensures { result ≡ shape_seen self.now }
    {
        match (self.abi, self.order()) {
            (Some(abi), Some(order)) => Some(RingShape::of(abi, order)),
            _ => None,
        }
    }

    /// The responses' producer as the back wrote it last in this epoch, or the start.
    pub fn replied(&self) -> u32
        ensures { result ≡ replied_seen self.now }
    {
        self.written.unwrap_or(self.start)
    }

    /// The requests' producer as the back was shown it last in this epoch, or the start.
    pub fn produced(&self) -> u32
        ensures { result ≡ produced_seen self.now }
    {
        self.shown.unwrap_or(self.start)
    }

    /// The word of the ring that a word of a mapping is, if the mapping is a page of the ring.
    pub fn word_of(&self, number: u64, word: u32) -> Option<u128>
        ensures { result ≡ word_seen self.now number word }
    {
        word_in(place_of(self.pages.as_slice(), number), word)
    }

    /// Whether a mapping is a page of the ring.
    pub fn is_page(&self, number: u64) -> bool
        ensures { result ≡ is_page_on self.now.pages number }
    {
        place_of(self.pages.as_slice(), number).is_some()
    }

    /// Whether a mapping is page 0 of the ring.
    pub fn is_first_page(&self, number: u64) -> bool
        ensures { result ≡ is_first_on self.now.pages number }
    {
        match self.pages.as_slice().first() {
            None => false,
            Some(page) => page.number == number,
        }
    }

    /// The index whose entry is fetched next, or is being fetched.
    pub fn next_index(&self) -> u32
        ensures { result ≡ index_seen self.now }
    {
        self.start.wrapping_add((self.fetched % 4294967296) as u32)
    }

    /// How many words of that entry were read: 0 between two stretches.
    pub fn words_within(&self) -> u64
        ensures { result ≡ self.now.within }
    {
        self.within
    }

    /// The overrun that the last line shows.
    pub fn overrun(&self) -> Option<Overrun>
        ensures { result ≡ self.now.overrun }
    {
        self.overrun
    }

    /// Whether a producer overran in this epoch.
    pub fn overran(&self) -> bool
        ensures { result ≡ self.now.overran }
    {
        self.overran
    }
}
