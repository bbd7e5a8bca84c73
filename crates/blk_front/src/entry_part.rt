// Words of an entry that are written one after another.

/// The words of the entry in hand that the front writes next, one after another in one frame of its ring, up to the
/// entry's last word, or to the last one of their frame where the entry goes on in the next.
#[derive(Clone, Copy, PartialEq, Eq)]
pub struct EntryPart {
    /// Their frame, 2 to 17, the first of them in it, 0 to 1023, and how many they are, 1 to 28.
    pub frame: u32,
    pub word: u32,
    pub count: u32,
}
