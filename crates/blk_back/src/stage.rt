// What the back is doing.
use blk_base::{Mapping, Status};

/// The response to a request whose job is done: the request's id, the operation that is answered,
/// and how it ended.
#[derive(Clone, Copy)]
pub struct Reply {
    pub id: u64,
    pub op: u8,
    pub status: Status,
}

/// What the back is doing. Each has exactly one thing to ask next.
#[derive(Clone, Copy)]
pub enum BackStage {
    /// Waits for the terms of its front (XenbusStateInitWait of `io/xenbus.h`).
    InitWait,
    /// Maps the ring's next page.
    MapRing,
    /// Binds the front's port.
    Bind,
    /// Is connected, and at nothing in particular.
    Loop,
    /// Copies the next entry: its word of this number is read next, 1 to 27 (to 26 under
    /// x86_32).
    Fetch(u32),
    /// Replies: the response's second word, its third, and then the producer.
    ReplyHigh(Reply),
    ReplyLast(Reply),
    Producer(Reply),
    /// Pushes: a fence, the event word, and an event where it is due. The fence has the producer seen
    /// before the event word is read (`RING_PUSH_RESPONSES_AND_CHECK_NOTIFY`). The producer was this
    /// before.
    ProducerFence(u32),
    ResponseEvent(u32),
    Send,
    /// Looks for requests a last time: the event word, a fence, the producer again. The fence has the
    /// event word seen before the producer is read (`RING_FINAL_CHECK_FOR_REQUESTS`).
    StoreEvent,
    EventFence,
    LookAgain,
    /// Has halted: unmaps this mapping, which an aborted job had in its hand, or which was kept; then the
    /// ring's pages, the first that is still mapped; then closes its port; then does nothing more.
    Abort(Mapping),
    UnmapRing,
    ClosePort,
    /// Has halted before the port was bound: unmaps the ring's pages.
    UnmapUnbound,
    Halted,
}
