// Words of a sector that are moved one after another.

/// The words of a request's data that the front asks for next, one after another in one frame, up to the last
/// word of their sector.
#[derive(Clone, Copy, PartialEq, Eq)]
pub struct SectorPart {
    /// The request's number, and which of its sectors it is, from 0 on.
    pub id: u32,
    pub index: u32,
    /// Their frame, 18 to 1017, the first of them in it, 0 to 1023, and how many they are, 1 to 128.
    pub frame: u32,
    pub word: u32,
    pub count: u32,
    /// What each of them is to be where they are written; `None` where they are read.
    pub value: Option<u32>,
}
