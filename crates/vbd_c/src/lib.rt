//! Both ends of a Xen block device for programs in C: a back or a front behind a handle, which a program moves on memory of
//! its own. Each call asks for one thing or answers it; nothing blocks, and nothing is called back. `include/vbd.h` and
//! `include/vbd_front.h` are its headers.
#![tactic(auto)]

mod allowed;
mod answer;
mod ask;
mod bytes;
mod exports;
mod front_ask;
mod front_exports;
mod front_handle;
mod front_held;
mod front_part;
mod front_place;
mod front_told;
mod halt;
mod handle;
mod held;
mod options;
mod owed;
mod part;
mod part_exports;
mod parts;
mod place;
mod status;
mod submission;
mod told;
