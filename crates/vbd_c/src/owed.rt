// What is unfinished, as the numbers that C reads.

/// How many requests are unfinished, and how many sectors they move.
#[repr(C)]
#[derive(Clone, Copy)]
pub struct OwedNumbers {
    pub requests: u32,
    pub sectors: u64,
}
