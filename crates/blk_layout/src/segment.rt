// The sectors of one frame that a request is about.
ghost use Rattle.std.specs.Prelude.{◌≡◌, [], ◌∷◌, slice_index};
ghost use Rattle.blk_layout.specs.Field.{StandFor, written_from};
ghost use Rattle.blk_layout.specs.Entry.{segment_of, segment_fields};
ghost use Rattle.blk_layout.specs.Written.{segment_words_of};

/// The sectors `first` to `last` of a granted frame of eight (`struct blkif_request_segment` of
/// `io/blkif.h`). `gref` is the frame's grant reference. As read from a guest's words, `first` and
/// `last` may be any bytes.
#[derive(Clone, Copy, Default, PartialEq, Eq)]
pub struct Segment {
    pub gref: u32,
    pub first: u8,
    pub last: u8,
}

/// The two words of a segment, in an entry or in an indirect page.
pub fn segment_words(segment: &Segment) -> [u32; 2]
    ensures value { result ≡ segment_words_of segment.now }
    ensures written { result ≡ written_from (segment_fields 0 segment.now) 0 2 }
{
    [
        segment.gref,
        u32::from(segment.first) | u32::from(segment.last) << 8,
    ]
}

/// What two words are read as; the upper half of the second is ignored.
pub fn read_segment(words: [u32; 2]) -> Segment
    ensures value { result ≡ segment_of (slice_index words 0) (slice_index words 1) }
    ensures stands { StandFor words (segment_fields 0 result) }
{
    let [gref, sectors] = words;
    of_words(gref, sectors)
}

fn of_words(gref: u32, sectors: u32) -> Segment
    ensures value { result ≡ segment_of gref sectors }
    ensures stands { StandFor (gref ∷ sectors ∷ []) (segment_fields 0 result) }
{
    Segment {
        gref,
        first: (sectors & 0xff) as u8,
        last: (sectors >> 8 & 0xff) as u8,
    }
}
