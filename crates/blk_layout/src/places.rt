// Where the fields of an entry lie under each layout.
ghost use Rattle.std.specs.Prelude.{◌≡◌};
ghost use Rattle.blk_layout.specs.Places.{places_of};

use blk_base::Abi;

/// The first word of each field, and the words of the entry.
#[derive(Clone, Copy)]
pub struct Places {
    pub id: usize,
    pub sector: usize,
    pub segments: usize,
    pub discard_count: usize,
    pub indirect_device: usize,
    pub pages: usize,
    pub end: usize,
}

impl Places {
    /// The places under a layout: 64-bit fields begin at a multiple of 8 bytes under x86_64, and of
    /// 4 bytes under x86_32.
    pub fn of(abi: Abi) -> Places
        ensures { result ≡ places_of abi }
    {
        match abi {
            Abi::X64 => Places {
                id: 2,
                sector: 4,
                segments: 6,
                discard_count: 6,
                indirect_device: 6,
                pages: 7,
                end: 28,
            },
            Abi::X32 => Places {
                id: 1,
                sector: 3,
                segments: 5,
                discard_count: 5,
                indirect_device: 5,
                pages: 6,
                end: 27,
            },
        }
    }
}
