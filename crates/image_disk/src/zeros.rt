// Sectors of a file made zeros.
use std::io;
use std::os::unix::fs::FileExt;

/// The bytes of a sector.
pub const SECTOR: usize = 512;

/// How many bytes are looked at in one call.
const PIECE: usize = 65536;

/// Makes the bytes of `count` sectors zeros, from the byte `place` on. They are read first, many at
/// once, and a sector that holds zeros already isn't written: so the holes of a sparse file stay.
#[inline(never)]
pub fn zero_sectors<F: FileExt>(file: &F, place: u64, count: u64) -> io::Result<()> {
    let mut bytes = [0u8; PIECE];
    let mut place = place;
    let mut left = count.saturating_mul(SECTOR as u64);
    while left > 0 {
        let length = left.min(PIECE as u64);
        let piece = &mut bytes[..length as usize];
        file.read_exact_at(piece, place)?;
        zero_piece(file, place, piece)?;
        place = place.saturating_add(length);
        left -= length;
    }
    Ok(())
}

// Makes those sectors of a piece zeros that aren't: the file holds these bytes from `place` on.
fn zero_piece<F: FileExt>(file: &F, place: u64, piece: &[u8]) -> io::Result<()> {
    let zeros = [0u8; SECTOR];
    let mut place = place;
    for sector in piece.chunks(SECTOR) {
        if !is_zero(sector) {
            file.write_all_at(&zeros, place)?;
        }
        place = place.saturating_add(SECTOR as u64);
    }
    Ok(())
}

// Whether all bytes are zeros. It looks at each, with no way out of the loop, so many are looked at together.
fn is_zero(bytes: &[u8]) -> bool {
    let mut all = 0;
    for byte in bytes {
        all |= *byte;
    }
    all == 0
}
