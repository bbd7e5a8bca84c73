// What holds of writing and reading together.
ghost use Rattle.std.specs.Prelude.{◌≡◌, ℕ, ◌^◌, ◌<◌, List, length, slice_index};
ghost use Rattle.blk_base.specs.declared.operation.Abi.{Abi};
ghost use Rattle.blk_layout.specs.declared.request.RawRequest.{RawRequest};
ghost use Rattle.blk_layout.specs.Field.{StandFor};
ghost use Rattle.blk_layout.specs.Places.{places_of};
ghost use Rattle.blk_layout.specs.Entry.{fields_of, words_of, request_of, segment_of};
ghost use Rattle.blk_layout.specs.Written.{segment_words_of};
ghost use Rattle.blk_layout.specs.Response.{response_of, response_words_of};
ghost use Rattle.blk_layout.specs.declared.segment.Segment.{Segment};
ghost use Rattle.blk_layout.specs.declared.response.Response.{Response};
ghost use Rattle.blk_layout.specs.Range.{IsInRange};

/// Reading the words of a written entry gives the request's fields back, each field stands in its
/// bits, and the entry has as many words as its layout.
pub fn reading_gives_back_what_was_written()
    ensures back { (abi : Abi) (raw : RawRequest) → IsInRange raw → request_of abi (words_of abi raw) ≡ raw }
    ensures stands { (abi : Abi) (raw : RawRequest) → IsInRange raw → StandFor (words_of abi raw) (fields_of abi raw) }
    ensures long { (abi : Abi) (raw : RawRequest) → length (words_of abi raw) ≡ (places_of abi).end }
{}

/// Reading the words of a written segment, or of a written response, gives it back.
pub fn reading_gives_back_segments_and_responses()
    ensures segment { (s : Segment) → s.first < 2 ^ 8 → s.last < 2 ^ 8
        → segment_of (slice_index (segment_words_of s) 0) (slice_index (segment_words_of s) 1) ≡ s }
    ensures response { (r : Response) → r.op < 2 ^ 8 → response_of (response_words_of r) ≡ Ok r }
{}
