//! A front's requests whose answer is still to be told, each under its number, the `id` that a response echoes
//! (`io/blkif.h`). An id that a response carries is looked up here, and after a suspend those that are left are issued
//! again in order of number.
#![tactic(auto)]

mod numbered;
mod shadow;

pub use numbered::Numbered;
pub use shadow::Shadow;
