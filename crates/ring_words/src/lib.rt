//! The arithmetic of a block ring (`io/ring.h`): how many entries a ring has, where the words of an
//! entry lie, and what each end reckons with its indices, which run freely and wrap at 32 bits. No
//! call takes memory or is refused. Both ends' machines and the inspector of rings stand on it.
#![tactic(auto)]

mod back;
mod front;
mod push;
mod shape;
mod words;

pub use back::BackRing;
pub use front::FrontRing;
pub use push::notify;
pub use shape::RingShape;
pub use words::{REQ_EVENT, REQ_PROD, RSP_EVENT, RSP_PROD};
