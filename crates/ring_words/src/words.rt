// The words that both ends share at the head of a ring (`struct blkif_sring` of `io/blkif.h`, by
// `DEFINE_RING_TYPES` of `io/ring.h`), by their numbers in the ring's first page.

/// The requests' producer: how far the frontend pushed.
pub const REQ_PROD: u32 = 0;

/// The index of the request at which the backend wants an event.
pub const REQ_EVENT: u32 = 1;

/// The responses' producer: how far the backend pushed.
pub const RSP_PROD: u32 = 2;

/// The index of the response at which the frontend wants an event.
pub const RSP_EVENT: u32 = 3;
