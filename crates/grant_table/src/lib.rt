//! Grants of version 1 (`grant_table.h`): what an entry's two words permit, and the back's live
//! mappings. An entry is judged afresh at each map; a mapping keeps its frame and mode until its
//! unmap, whatever the entry says later. The machine carries out every touch of the back here.
#![tactic(auto)]

mod entry;
mod grants;
mod held;

pub use entry::{GTF_PERMIT_ACCESS, GTF_READONLY, MapRefusal, verdict};
pub use grants::Grants;
