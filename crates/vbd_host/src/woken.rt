// What wakes a back.
use blk_base::Path;

/// What a back that waits is woken by.
#[derive(Clone, Copy)]
pub enum Woken {
    /// An event came at its port.
    Event,
    /// The watch of this path fired.
    Watched(Path),
}
