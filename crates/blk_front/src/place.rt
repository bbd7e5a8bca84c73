// Where the front's words lie.
ghost use Rattle.std.specs.Prelude.{◌≡◌, ◌<◌, ◌≤◌};
ghost use Rattle.ring_words.specs.Shape.{entry_words_of};
ghost use Rattle.blk_front.specs.View.{ring_page_frame, entry_frame, entry_word, slot_frame, slot_word, fresh_word};

use crate::pool::PoolFrame;
use ring_words::{REQ_EVENT, REQ_PROD, RSP_EVENT, RSP_PROD, RingShape};

/// The first frame of the ring.
pub const RING_FRAME: u32 = 2;

/// The frame of a page of the ring.
pub fn ring_page(page: u32) -> u32
    requires { page < 16 }
    ensures value { result ≡ ring_page_frame page }
    ensures low { result < 18 }
{
    RING_FRAME + page
}

/// The frame and the first word of its grant entry.
pub fn ring_entry(page: u32) -> (u32, u32)
    requires { page < 16 }
    ensures frame { result.0 ≡ entry_frame (ring_page_frame page) }
    ensures word { result.1 ≡ entry_word (ring_page_frame page) }
    ensures low { result.0 < 2 }
    ensures within { result.1 < 1023 }
{
    (0, 16 + 2 * page)
}

/// The frame and the first word of the grant entry of a frame.
pub fn entry(frame: &PoolFrame) -> (u32, u32)
    ensures frame { result.0 ≡ entry_frame frame.now }
    ensures word { result.1 ≡ entry_word frame.now }
    ensures low { result.0 < 2 }
    ensures within { result.1 < 1023 }
{
    let reference = frame.reference();
    (reference / 512, reference % 512 * 2)
}

/// The frame and the word of a word of the entry of an index.
#[tactic(auto, using(crate::proofs::Shapes::few_pages))]
pub fn slot(shape: RingShape, index: u32, word: u32) -> (u32, u32)
    requires order { shape.order ≤ 4 }
    requires word { word < entry_words_of shape.abi }
    ensures frame { result.0 ≡ slot_frame shape index word }
    ensures word { result.1 ≡ slot_word shape index word }
    ensures low { result.0 < 18 }
    ensures within { result.1 < 1024 }
{
    let (page, place) = shape.slot_word(index, word);
    (RING_FRAME + page, place)
}

/// A word of a fresh ring.
pub fn fresh(start: u32, word: u32) -> u32
    ensures { result ≡ fresh_word start word }
{
    match word {
        REQ_PROD | RSP_PROD => start,
        REQ_EVENT | RSP_EVENT => start.wrapping_add(1),
        _ => 0,
    }
}
