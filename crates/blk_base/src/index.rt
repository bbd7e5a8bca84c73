// Indices that run on past 2^32.
ghost use Rattle.std.specs.Prelude.{◌≡◌, ◌+◌, ◌%◌, ◌^◌};
ghost use Rattle.blk_base.specs.Distance.{distance_of, IsDistance};

/// A ring index (`RING_IDX` of `io/ring.h`): it runs freely through all 32 bits and wraps; entry
/// `k` of a ring of `N` entries is at place `k` modulo `N`.
#[derive(Clone, Copy, PartialEq, Eq)]
pub struct Idx(pub u32);

impl Idx {
    /// How far `other` is ahead of this index, going up and wrapping: 0 to 4294967295.
    pub fn dist(self, other: Idx) -> u32
        ensures satisfies { IsDistance self.0 other.0 result }
        ensures value { result ≡ distance_of self.0 other.0 }
    {
        other.0.wrapping_sub(self.0)
    }

    /// The index `count` places further on, wrapping.
    pub fn add(self, count: u32) -> Idx
        ensures { result.0 ≡ (self.0 + count) % 2 ^ 32 }
    {
        Idx(self.0.wrapping_add(count))
    }
}
