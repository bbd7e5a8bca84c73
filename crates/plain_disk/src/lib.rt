//! What a reader of a report must believe: the plain disk, whose sectors change by the report's
//! effects alone, the step that each line is for it (the operations of `io/blkif.h`), when a
//! request is refused, how a report echoes a schedule, and which part of a report is honest.
//! Nothing here knows how the two ends work. Beside the definitions stands the plain, slow program.
#![tactic(auto)]

mod disk;
mod limits;
mod looking;
mod request;
mod sectors;
mod sight;

pub use disk::{PlainDisk, Stand};
pub use limits::{frames_of, is_long, is_past_end, is_refused_write, is_unsupported};
pub use looking::{
    are_noted, count_of, filling, is_barrier, is_discard, is_finished, is_flush, is_next, is_open,
    is_ordered, is_read, is_status, is_write, next_stage, places_of, reopened, sector_of,
    told_stage,
};
pub use request::{Change, DiskRequest, Extent, Noted, Place, RequestStage};
pub use sectors::may_hold;
pub use sight::Sight;
