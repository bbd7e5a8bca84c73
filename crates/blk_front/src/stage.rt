// What the front is doing.
use crate::request::Request;
use blk_base::Status;

/// A request whose response was taken, and whose grants are being ended or whose data are told.
#[derive(Drop)]
pub struct Ending {
    pub request: Request,
    pub status: Status,
}

/// What the front is doing. Each has exactly one thing to ask next. The request that is being issued is
/// the first that waits; the one that is ending has a place of its own.
#[derive(Clone, Copy)]
pub enum FrontStage {
    /// Makes the ring: its word of this number is written next, 0 to 15.
    RingWord(u32),
    /// Grants the frame of the ring's page of this number, 0 to 15: its entry's second word, a fence,
    /// its first word. The fence has the frame stand in the entry before its flags permit access.
    RingFrame(u32),
    RingFence(u32),
    RingFlags(u32),
    /// Makes the port of its events.
    NewPort,
    /// Has made its ring and its port, and waits until it is connected (XenbusStateInitialised and
    /// XenbusStateConnected of `io/xenbus.h`).
    Initialised,
    /// Is connected, and at nothing in particular.
    Loop,
    /// Writes the data of a write, 128 words a sector: the word of this number is written next, 1 to
    /// 983039.
    Data(u32),
    /// Writes the segments into the request's indirect pages, two words each: the word of this number is
    /// written next, 0 to 1919.
    Pages(u32),
    /// Grants the request's frame of this place, 0 to 961: its entry's second word, a fence, its first
    /// word. The fence has the frame stand in the entry before its flags permit access.
    GrantFrame(u32),
    GrantFence(u32),
    GrantFlags(u32),
    /// Writes the request's entry: its word of this number is written next, 0 to 27, or to 26 under the x86_32 layout.
    Slot(u32),
    /// Pushes: the producer, a fence, the event word, and an event where it is due. The fence has the
    /// producer seen before the event word is read (`RING_PUSH_REQUESTS_AND_CHECK_NOTIFY`). The
    /// producer was this before.
    Producer,
    ProducerFence(u32),
    RequestEvent(u32),
    Send,
    /// Reads a response: its second word, knowing the first, and then its third.
    ResponseHigh(u32),
    ResponseLast(u32, u32),
    /// Ends the grant of the ending request's frame of this place, 0 to 961: reads its entry's first
    /// word, and exchanges it for 0 if it is still this one.
    GrantRead(u32),
    GrantEnd(u32, u32),
    /// Reads the data of a read that was answered: the word of this number is read next, 0 to 983039.
    ReadData(u32),
    /// The same after a suspend, before the ring is made anew: the data in hand are told first.
    LeftData(u32),
    /// Looks for responses a last time: the event word, a fence, the producer again. The fence has the
    /// event word seen before the producer is read (`RING_FINAL_CHECK_FOR_RESPONSES`).
    StoreEvent,
    EventFence,
    LookAgain,
    /// Leaves: ends the grants of the ring's pages, one after another. It reads the first word of the
    /// entry of this page's frame, 0 to 15, and exchanges it for 0 if it is still this one; then it
    /// ends the grants that it kept, and closes its port.
    RingRead(u32),
    RingEnd(u32, u32),
    /// Ends the kept grant of the pool's frame of this number, 18 to 1017, after those of the ring:
    /// reads its entry's first word, and exchanges it for 0 if it is still this one.
    KeptRead(u32),
    KeptEnd(u32, u32),
    ClosePort,
    /// Has ended its grants and closed its port.
    Left,
    /// Is closed (XenbusStateClosed of `io/xenbus.h`), and does nothing more.
    Closed,
    /// Found this word, which no honest back leaves, and does nothing more.
    Broken(u32),
}
