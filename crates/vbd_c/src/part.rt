// The part of a sector that a job asks for, as the numbers that C reads.
ghost use Rattle.std.specs.Prelude.{◌≡◌, length};
ghost use Rattle.vbd_c.specs.Part.{numbers_of_part, takes, values_copied, copied_values};

use back_jobs::SectorPart;

/// The words that a job asks for next, one after another: the number of the mapping that they are read from or written
/// through, the reference that it was made of, the first word, how many, and whether they are written.
#[repr(C)]
#[derive(Clone, Copy)]
pub struct PartNumbers {
    pub mapping: u64,
    pub gref: u32,
    pub word: u32,
    pub count: u32,
    pub writes: bool,
}

/// The numbers of a part.
pub fn numbers_of_part(part: SectorPart) -> PartNumbers
    ensures { result ≡ numbers_of_part part }
{
    PartNumbers {
        mapping: part.mapping.number,
        gref: part.mapping.gref,
        word: part.word,
        count: part.count,
        writes: part.writes,
    }
}

/// Whether so many words of a part may be answered as read, or as written.
pub fn takes(part: Option<SectorPart>, writes: bool, count: usize) -> bool
    ensures { result ≡ takes part writes count }
{
    match part {
        None => false,
        Some(part) => part.writes == writes && count <= part.count as usize,
    }
}

/// Copies as many of these values as there is room for to the front of these words, and answers how many.
pub fn copy_values(values: &[u32], words: &mut [u32]) -> usize
    ensures words { words.new ≡ values_copied values.now words.old }
    ensures count { result ≡ copied_values values.now words.old }
{
    let count = values.len().min(words.len());
    words[..count].copy_from_slice(&values[..count]);
    count
}
