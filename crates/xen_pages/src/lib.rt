//! The memory of the modelled machine: 1088 frames of 1024 words of 32 bits, read and written an
//! aligned word at a time (`xen.h`: a page is 4096 bytes). Both domains' frames stand in it; the
//! grant table reads its entries here, and the machine carries out each end's reads and writes here.
#![tactic(auto)]

mod laws;
mod pages;

pub use laws::{words_of_a_frame_go_one_by_one, words_of_two_frames_are_apart};
pub use pages::Pages;
