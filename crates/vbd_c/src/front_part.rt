// Words of a sector that the front moves many at once, as the numbers that C reads.
ghost use Rattle.std.specs.Prelude.{◌≡◌};
ghost use Rattle.vbd_c.specs.FrontPart.{numbers_of, part_of};

use blk_front::SectorPart;

/// The words of a request's data that the front asks for next, as numbers: the request's number, which of its sectors it
/// is, their frame, the first of them in it, how many they are, what each is to be where they are written, 0 where they
/// are read, and whether they are written, 1 or 0.
#[repr(C)]
#[derive(Clone, Copy)]
pub struct SectorPartNumbers {
    pub id: u32,
    pub index: u32,
    pub frame: u32,
    pub word: u32,
    pub count: u32,
    pub value: u32,
    pub writes: u32,
}

impl SectorPartNumbers {
    /// The numbers of a part, which say the whole of it.
    pub fn of(part: &SectorPart) -> SectorPartNumbers
        ensures value { result ≡ numbers_of part.now }
        ensures whole { part_of result ≡ part.now }
    {
        SectorPartNumbers {
            id: part.id,
            index: part.index,
            frame: part.frame,
            word: part.word,
            count: part.count,
            value: part.value.unwrap_or(0),
            writes: u32::from(part.value.is_some()),
        }
    }
}
