// What the words of an entry are read as.
ghost use Rattle.std.specs.Prelude.{◌≡◌, ◌+◌, ◌^◌, ◌<◌, length, slice_index};
ghost use Rattle.blk_layout.specs.Places.{places_of};
ghost use Rattle.blk_layout.specs.Entry.{double_at, segments_at, pages_at, request_of, fields_of};
ghost use Rattle.blk_layout.specs.Field.{StandFor};

use crate::places::Places;
use crate::request::RawRequest;
use crate::segment::{Segment, read_segment};
use blk_base::Abi;

/// Reads an entry. Any words are read as the fields that lie in them, by the operation in the low
/// byte of the first; all other bits are ignored. `words` are an entry's, 28 or 27.
pub fn read_request(abi: Abi, words: &[u32]) -> RawRequest
    requires { length words.now ≡ (places_of abi).end }
    ensures value { result ≡ request_of abi words.now }
    ensures stands { StandFor words.now (fields_of abi result) }
{
    let at = Places::of(abi);
    let op = (words[0] & 0xff) as u8;
    let second = (words[0] >> 8 & 0xff) as u8;
    let third = (words[0] >> 16) as u16;
    let id = double(words, at.id);
    let sector = double(words, at.sector);
    match op {
        5 => RawRequest::Discard {
            flag: second,
            device: third,
            id,
            sector,
            count: double(words, at.discard_count),
        },
        6 => RawRequest::Indirect {
            op: second,
            count: third,
            device: (words[at.indirect_device] & 0xffff) as u16,
            id,
            sector,
            pages: pages(words, at.pages),
        },
        _ => RawRequest::Direct {
            op,
            count: second,
            device: third,
            id,
            sector,
            segments: segments(words, at.segments),
        },
    }
}

/// A field of 64 bits, its low word first.
pub fn double(words: &[u32], at: usize) -> u64
    requires { at + 1 < length words.now }
    ensures value { result ≡ double_at words.now at }
    ensures low { slice_index words.now at < 2 ^ 32 }
    ensures high { slice_index words.now (at + 1) < 2 ^ 32 }
{
    u64::from(words[at]) | u64::from(words[at + 1]) << 32
}

fn segments(words: &[u32], at: usize) -> [Segment; 11]
    requires { at + 21 < length words.now }
    ensures { result ≡ segments_at words.now at 11 }
{
    let mut segments = [Segment::default(); 11];
    for i in 0..segments.len() {
        segments[i] = read_segment([words[at + 2 * i], words[at + 2 * i + 1]]);
    }
    segments
}

fn pages(words: &[u32], at: usize) -> [u32; 8]
    requires { at + 7 < length words.now }
    ensures { result ≡ pages_at words.now at 8 }
{
    let mut pages = [0; 8];
    for (i, page) in pages.iter_mut().enumerate() {
        *page = words[at + i];
    }
    pages
}
