// How many entries a ring has, and where they lie.
ghost use Rattle.std.specs.Prelude.{◌≡◌, ◌+◌, ◌*◌, ◌%◌, ◌^◌, ◌<◌, ◌≤◌};
ghost use Rattle.ring_words.specs.Shape.{IsRingSize, entries_of, entry_words_of, ring_word_of, slot_word_of};

use blk_base::Abi;
use std::marker::Model;

/// Words of a page, and the power of two that they are.
const PAGE_WORDS: u32 = 1024;

const PAGE_SHIFT: u32 = 10;

/// Words before the first entry: the two producers, the two events, and room (`struct blkif_sring`
/// of `io/blkif.h`, by `DEFINE_RING_TYPES` of `io/ring.h`).
const INDEX_WORDS: u32 = 16;

/// The shape of a ring of `2^order` pages under a layout of entries. Contracts see its layout and
/// its order.
#[derive(Clone, Copy)]
pub struct RingShape {
    abi: Abi,
    order: u32,
}

impl Model for RingShape {
    ghost use Rattle.std.specs.Prelude.{◌≤◌};
    ghost use Rattle.ring_words.specs.Shape.{Shape};

    ghost Value = { Shape };

    ghost view = { λ s. record { abi = s.abi; order = s.order } };

    ghost invariant = { λ s. s.order ≤ 4 };

    ghost inverse = { λ s. record { abi = s.abi; order = s.order } };
}

impl RingShape {
    /// The shape of a ring of `2^order` pages of 4096 bytes; orders go from 0 to 4.
    pub fn of(abi: Abi, order: u32) -> RingShape
        requires { order ≤ 4 }
        ensures { result ≡ record { abi = abi; order = order } }
    {
        RingShape { abi, order }
    }

    /// The entries of the ring, 32 to 512: the greatest power of two for which the pages have room
    /// (`__RING_SIZE` of `io/ring.h`).
    pub fn entries(&self) -> u32
        ensures value { result ≡ entries_of self.now.order }
        ensures greatest { IsRingSize self.now.abi self.now.order result }
        ensures within { self.now.order ≤ 4 }
    {
        32 << self.order
    }

    /// The words of an entry, 28 or 27 (`io/blkif.h`).
    pub fn entry_words(&self) -> u32
        ensures { result ≡ entry_words_of self.now.abi }
    {
        match self.abi {
            Abi::X64 => 28,
            Abi::X32 => 27,
        }
    }

    /// Where word `i` of the entry of index `k` lies (`RING_GET_REQUEST` of `io/ring.h`): the page,
    /// counted from the ring's first, and the word in it. Entries run on from a page to the next.
    pub fn slot_word(&self, k: u32, i: u32) -> (u32, u32)
        requires { i < entry_words_of self.now.abi }
        ensures value { result ≡ slot_word_of self.now k i }
        ensures place { result.0 * 1024 + result.1 ≡ ring_word_of self.now k i }
        ensures page { result.0 < 2 ^ self.now.order }
        ensures word { result.1 < 1024 }
    {
        let place = INDEX_WORDS + self.slot(k) * self.entry_words() + i;
        (place >> PAGE_SHIFT, place & (PAGE_WORDS - 1))
    }

    // The place of an index among the entries, whose number is a power of two.
    fn slot(&self, k: u32) -> u32
        ensures value { result ≡ k % entries_of self.now.order }
        ensures within { result < entries_of self.now.order }
        ensures order { self.now.order ≤ 4 }
    {
        k & (self.entries() - 1)
    }
}
