// A word of memory, and the first word of a grant entry.
ghost use Rattle.std.specs.Prelude.{◌≡◌};
ghost use Rattle.grant_table.specs.Entry.{mapped_entry, unmapped_entry, with_reading, with_writing, without_reading, without_writing};

use blk_base::Mode;

/// A word of a frame, as the rules name it.
#[derive(Clone, Copy)]
pub struct Cell {
    pub frame: u32,
    pub word: u32,
}

fn with_reading(word0: u32) -> u32
    ensures { result ≡ with_reading word0 }
{
    if word0 / 8 % 2 == 1 { word0 } else { word0 + 8 }
}

fn with_writing(word0: u32) -> u32
    ensures { result ≡ with_writing word0 }
{
    if word0 / 16 % 2 == 1 {
        word0
    } else {
        word0 + 16
    }
}

/// The first word of a grant entry after a map (GTF_reading, GTF_writing).
pub fn entry_mapped(word0: u32, mode: Mode) -> u32
    ensures { result ≡ mapped_entry word0 mode }
{
    match mode {
        Mode::ReadOnly => with_reading(word0),
        Mode::ReadWrite => with_writing(with_reading(word0)),
    }
}

fn without_reading(word0: u32) -> u32
    ensures { result ≡ without_reading word0 }
{
    if word0 / 8 % 2 == 1 { word0 - 8 } else { word0 }
}

fn without_writing(word0: u32) -> u32
    ensures { result ≡ without_writing word0 }
{
    if word0 / 16 % 2 == 1 {
        word0 - 16
    } else {
        word0
    }
}

/// The first word of a grant entry after an unmap that leaves so many mappings of it, and so many
/// of them for writing.
pub fn entry_unmapped(word0: u32, mappings: usize, writers: usize) -> u32
    ensures { result ≡ unmapped_entry word0 mappings writers }
{
    let kept = if writers == 0 {
        without_writing(word0)
    } else {
        word0
    };
    if mappings == 0 {
        without_reading(kept)
    } else {
        kept
    }
}
