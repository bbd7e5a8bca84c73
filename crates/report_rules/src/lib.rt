//! The rules that a reader of a report must believe about its moves, in the words of Xen's public
//! headers (`grant_table.h`, `io/ring.h`, `io/blkif.h`). They are definitions: each looks back over
//! the lines before a line, and none knows how the two ends work. Beside them stand functions that
//! look at one line, or at the work of one request, which the readers share.
#![tactic(auto)]

mod effect;
mod job;
mod overrun;
mod published;
mod reply;
mod ring;
mod standing;
mod step;
mod stretch;
mod value;
mod walk;
mod work;

pub use effect::{DiskCall, DiskMove, Outcome, disk_move_of, outcome_of};
pub use job::{Fetched, entry_of, id_of};
pub use overrun::{Overrun, is_service};
pub use published::{Keeping, info_told, keeping_after};
pub use reply::{end_of, is_event, is_like, is_reply};
pub use ring::{abi_after, order_of, page_made, start_told};
pub use standing::{Standing, is_epoch};
pub use step::{Step, is_step_at};
pub use stretch::{is_back_move, of_entries};
pub use value::{Cell, entry_mapped, entry_unmapped};
pub use walk::{Spot, advanced, gref_of, is_unmapped_step, stepper, touched_by};
pub use work::{Task, status_by, work_response, work_tasks, work_verdict};
