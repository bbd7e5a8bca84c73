// What the two words of a grant entry permit.
ghost use Rattle.std.specs.Prelude.{◌≡◌};
ghost use Rattle.grant_table.specs.Entry.{verdict_of, status_of, mapped_entry, unmapped_entry, type_of, domid_of, other_flags_of, is_readonly, with_reading, with_writing, without_reading, without_writing};

use blk_base::Mode;

/// Grant references run from 0 to 1023: the table of domain 1 has two frames of 512 entries.
pub(crate) const LAST_REFERENCE: u32 = 1023;

// Frames 0 and 1 hold the table itself, and domain 1 has the frames up to 1023.
const FIRST_GRANTABLE_FRAME: u32 = 2;

const LAST_GRANTABLE_FRAME: u32 = 1023;

// The bits of an entry's type (`GTF_type_mask` of `grant_table.h`).
const GTF_TYPE_MASK: u32 = 3;

/// The type of an entry that lets a domain map its frame (`GTF_permit_access` of `grant_table.h`).
pub const GTF_PERMIT_ACCESS: u32 = 1;

/// The frame may only be read (`GTF_readonly`).
pub const GTF_READONLY: u32 = 4;

// The frame is mapped, and mapped for writing (`GTF_reading`, `GTF_writing`).
const GTF_READING: u32 = 8;

const GTF_WRITING: u32 = 16;

// Flag bits 5 to 15, of which this table knows none (`GTF_PWT`, `GTF_sub_page` and others).
const OTHER_FLAGS: u32 = 0xffe0;

// The domain that an entry is for stands in bits 16 to 31.
const DOMID_SHIFT: u32 = 16;

/// Why a map is refused (`GNTST_*` of `grant_table.h`).
#[derive(Clone, Copy, PartialEq, Eq)]
pub enum MapRefusal {
    /// The entry doesn't grant this frame in this mode (`GNTST_general_error`).
    General,
    /// There is no such reference (`GNTST_bad_gntref`).
    BadRef,
}

impl MapRefusal {
    /// The status that the hypercall answers: -1 or -3.
    pub fn status(self) -> i32
        ensures { result ≡ status_of self }
    {
        match self {
            MapRefusal::General => -1,
            MapRefusal::BadRef => -3,
        }
    }
}

/// What a map of the reference `gref` in that mode is answered where its entry is the words `word0`
/// and `word1`: the granted frame, or the first refusal that applies.
pub fn verdict(gref: u32, word0: u32, word1: u32, mode: Mode) -> Result<u32, MapRefusal>
    ensures { result ≡ verdict_of gref word0 word1 mode }
{
    if gref > LAST_REFERENCE {
        return Err(MapRefusal::BadRef);
    }
    if type_bits(word0) != GTF_PERMIT_ACCESS || other_flags(word0) != 0 || domain(word0) != 0 {
        return Err(MapRefusal::General);
    }
    if mode == Mode::ReadWrite && readonly(word0) {
        return Err(MapRefusal::General);
    }
    if word1 < FIRST_GRANTABLE_FRAME || word1 > LAST_GRANTABLE_FRAME {
        return Err(MapRefusal::General);
    }
    Ok(word1)
}

/// Word 0 of an entry once it is mapped in that mode.
pub(crate) fn mapped(word0: u32, mode: Mode) -> u32
    ensures { result ≡ mapped_entry word0 mode }
{
    match mode {
        Mode::ReadOnly => set_reading(word0),
        Mode::ReadWrite => set_writing(set_reading(word0)),
    }
}

/// Word 0 of an entry once a mapping of it ended, with so many mappings of it left, of which so
/// many may write.
pub(crate) fn unmapped(word0: u32, mappings: u32, writers: u32) -> u32
    ensures { result ≡ unmapped_entry word0 mappings writers }
{
    let word0 = if writers == 0 {
        clear_writing(word0)
    } else {
        word0
    };
    if mappings == 0 {
        clear_reading(word0)
    } else {
        word0
    }
}

fn type_bits(word0: u32) -> u32
    ensures { result ≡ type_of word0 }
{
    word0 & GTF_TYPE_MASK
}

#[tactic(auto, using(crate::proofs::Bits::and_other_flags))]
fn other_flags(word0: u32) -> u32
    ensures { result ≡ other_flags_of word0 }
{
    (word0 & OTHER_FLAGS) >> 5
}

fn domain(word0: u32) -> u32
    ensures { result ≡ domid_of word0 }
{
    word0 >> DOMID_SHIFT
}

#[tactic(auto, using(crate::proofs::Bits::and_readonly))]
fn readonly(word0: u32) -> bool
    ensures { result ≡ is_readonly word0 }
{
    word0 & GTF_READONLY != 0
}

#[tactic(auto, using(crate::proofs::Bits::or_reading))]
fn set_reading(word0: u32) -> u32
    ensures { result ≡ with_reading word0 }
{
    word0 | GTF_READING
}

#[tactic(auto, using(crate::proofs::Bits::or_writing))]
fn set_writing(word0: u32) -> u32
    ensures { result ≡ with_writing word0 }
{
    word0 | GTF_WRITING
}

#[tactic(auto, using(crate::proofs::Bits::and_not_reading))]
fn clear_reading(word0: u32) -> u32
    ensures { result ≡ without_reading word0 }
{
    word0 & !GTF_READING
}

#[tactic(auto, using(crate::proofs::Bits::and_not_writing))]
fn clear_writing(word0: u32) -> u32
    ensures { result ≡ without_writing word0 }
{
    word0 & !GTF_WRITING
}
