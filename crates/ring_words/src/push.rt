// When a push is to be followed by an event.
ghost use Rattle.std.specs.Prelude.{◌≡◌, ℕ, ◌<◌, ◌↔◌, IsTrue};
ghost use Rattle.blk_base.specs.Distance.{IsDistance};
ghost use Rattle.ring_words.specs.Ring.{notifies};

use blk_base::Idx;

/// Whether the other end is to be sent an event after a push that moved a producer from `old` to
/// `new`, where its event word reads `event` (`RING_PUSH_REQUESTS_AND_CHECK_NOTIFY` of `io/ring.h`):
/// exactly where the index that it waits for is among those that the push passed, wrapping.
pub fn notify(old: u32, new: u32, event: u32) -> bool
    ensures value { result ≡ notifies old new event }
    ensures passed { (d e : ℕ) → IsDistance event new d → IsDistance old new e → (IsTrue result ↔ (d < e)) }
{
    Idx(event).dist(Idx(new)) < Idx(old).dist(Idx(new))
}
