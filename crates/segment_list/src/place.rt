//! The sectors of a request, in order.
ghost use Rattle.std.specs.Prelude.{◌≡◌, ◌+◌, ◌^◌, ◌<◌, [], ◌∷◌, length, All, IfSome, IfNone};
ghost use Rattle.std.specs.Iterator.{YieldsFirst, item_count};
ghost use Rattle.segment_list.specs.Segments.{IsSound, sectors_of};
ghost use Rattle.segment_list.specs.Places.{places_of};
ghost use Rattle.segment_list.specs.Remaining.{first_sector};

use blk_layout::Segment;
use std::marker::Model;

/// Where one sector of a request lies.
#[derive(Clone, Copy, PartialEq, Eq)]
pub struct Place {
    /// The sector on the disk.
    pub disk: u64,
    /// The index of its segment.
    pub segment: u32,
    /// The sector in the segment's frame, 0 to 7.
    pub within: u32,
}

/// The places of a request's sectors, in order, seen as the list of those that are left.
#[derive(Drop)]
pub struct Extent<'a> {
    disk: u64,
    segment: u32,
    within: u32,
    rest: &'a [Segment],
}

impl<'a> Model for Extent<'a> {
    ghost use Rattle.std.specs.Prelude.{List};
    ghost use Rattle.segment_list.specs.declared.place.Place.{Place};

    ghost Value = { List Place };

    ghost use Rattle.segment_list.specs.Remaining.{places_left, IsUnderWay};

    ghost view = { places_left };

    ghost invariant = { IsUnderWay };
}

impl<'a> Extent<'a> {
    pub(crate) fn new(sector: u64, segments: &'a [Segment]) -> Self
        requires sound { All IsSound segments.now }
        requires fits { sector + sectors_of segments.now < 2 ^ 64 }
        requires few { length segments.now < 2 ^ 32 }
        ensures { result ≡ places_of sector segments.now }
    {
        Extent {
            disk: sector,
            segment: 0,
            within: first_sector(segments),
            rest: segments,
        }
    }

    // The first place that is left, which is not left afterwards.
    fn advance(&mut self) -> Option<Place>
        ensures first { IfSome result (λ place. self.old ≡ place ∷ self.new) }
        ensures none { IfNone result ((self.old ≡ []) × (self.new ≡ [])) }
    {
        let Some((segment, later)) = self.rest.split_first() else {
            return None;
        };
        let place = Place {
            disk: self.disk,
            segment: self.segment,
            within: self.within,
        };
        self.disk += 1;
        if self.within < u32::from(segment.last) {
            self.within += 1;
        } else {
            self.within = first_sector(later);
            self.segment += 1;
            self.rest = later;
        }
        Some(place)
    }
}

impl Iterator for Extent<'_> {
    type Item = Place;

    ghost next_gives = { YieldsFirst (λ rest. rest) };

    ghost remaining = { item_count (λ rest. rest) };

    fn next(&mut self) -> Option<Place> {
        self.advance()
    }
}

fn first_sector(segments: &[Segment]) -> u32
    ensures { result ≡ first_sector segments.now }
{
    match segments.first() {
        Some(segment) => u32::from(segment.first),
        None => 0,
    }
}
