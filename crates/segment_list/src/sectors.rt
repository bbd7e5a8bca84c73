//! The sectors that segments name, and the segments that name given sectors.
ghost use Rattle.std.specs.Prelude.{◌≡◌, ◌+◌, ◌/◌, ◌^◌, ◌<◌, length, All};
ghost use Rattle.segment_list.specs.Segments.{IsSound, sectors_of};
ghost use Rattle.segment_list.specs.Places.{places_of};
ghost use Rattle.segment_list.specs.Cut.{cut_of, packed_places};

use crate::packing::Cut;
use crate::place::Extent;
use blk_layout::Segment;

/// The places of the sectors of these segments, in order, of which the first is `sector` on the disk.
/// Each segment has a sector and none beyond its frame of eight, and there are fewer than 2^32 of them, since a place
/// has the index of its segment.
pub fn extent(sector: u64, segments: &[Segment]) -> Extent<'_>
    requires sound { All IsSound segments.now }
    requires fits { sector + sectors_of segments.now < 2 ^ 64 }
    requires few { length segments.now < 2 ^ 32 }
    ensures { result ≡ places_of sector segments.now }
{
    Extent::new(sector, segments)
}

/// The segments of `count` sectors from `sector` on, eight to a frame, with a `gref` of 0 for the caller to fill in.
/// Sector `i` lies in segment `i / 8` as sector `i % 8` of its frame.
pub fn cut(sector: u64, count: u32) -> Cut
    requires positive { 0 < count }
    requires fits { sector + count < 2 ^ 64 }
    ensures segments { result ≡ cut_of count }
    ensures number { length result ≡ (count + 7) / 8 }
    ensures sound { All IsSound result }
    ensures packed { places_of sector result ≡ packed_places sector count }
{
    Cut::new(count)
}
