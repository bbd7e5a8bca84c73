//! The segments that a front cuts a request into.
ghost use Rattle.std.specs.Prelude.{◌≡◌, [], ◌∷◌, IfSome, IfNone};
ghost use Rattle.std.specs.Iterator.{YieldsFirst, item_count};
ghost use Rattle.segment_list.specs.Cut.{cut_of};

use blk_layout::Segment;
use std::marker::Model;

/// Sectors in a frame.
const FRAME: u32 = 8;

/// The segments of a front's request, in order, seen as the list of those that are left.
#[derive(Drop)]
pub struct Cut {
    left: u32,
}

impl Model for Cut {
    ghost use Rattle.std.specs.Prelude.{List};
    ghost use Rattle.blk_layout.specs.declared.segment.Segment.{Segment};
    ghost use Rattle.segment_list.specs.Cut.{cut_of};

    ghost Value = { List Segment };

    ghost view = { λ cut. cut_of cut.left };
}

impl Cut {
    pub(crate) fn new(count: u32) -> Self
        ensures { result ≡ cut_of count }
    {
        Cut { left: count }
    }

    // The first segment that is left, which is not left afterwards.
    fn advance(&mut self) -> Option<Segment>
        ensures first { IfSome result (λ segment. self.old ≡ segment ∷ self.new) }
        ensures none { IfNone result ((self.old ≡ []) × (self.new ≡ [])) }
    {
        if self.left == 0 {
            return None;
        }
        let sectors = self.left.min(FRAME);
        self.left -= sectors;
        Some(Segment {
            gref: 0,
            first: 0,
            last: (sectors - 1) as u8,
        })
    }
}

impl Iterator for Cut {
    type Item = Segment;

    ghost next_gives = { YieldsFirst (λ rest. rest) };

    ghost remaining = { item_count (λ rest. rest) };

    fn next(&mut self) -> Option<Segment> {
        self.advance()
    }
}
