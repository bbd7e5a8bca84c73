// The words of an entry.
ghost use Rattle.std.specs.Prelude.{◌≡◌, ◌+◌, ◌-◌, ◌≤◌, ◌∷◌, [], ◌++◌, length, replicate};
ghost use Rattle.arrayvec.specs.ArrayVec.{array_vec_len};
ghost use Rattle.blk_layout.specs.Places.{places_of};
ghost use Rattle.blk_layout.specs.Entry.{direct_code, indirect_code, raw_of, words_of};
ghost use Rattle.blk_layout.specs.Written.{head_of, double_of, segments_words, begun_of};

use crate::places::Places;
use crate::request::{DirectOp, IndirectOp, WrittenRequest};
use crate::segment::{Segment, segment_words};
use arrayvec::ArrayVec;
use blk_base::Abi;

/// How many words the longest entry has, that of the x86_64 layout (`struct blkif_request` of
/// `io/blkif.h`, 112 bytes).
pub const MOST_ENTRY_WORDS: usize = 28;

type Words = ArrayVec<u32, MOST_ENTRY_WORDS>;

/// The words of a request's entry, 28 or 27: each field at its bits, and 0 in all others.
pub fn request_words(abi: Abi, request: &WrittenRequest) -> ArrayVec<u32, MOST_ENTRY_WORDS>
    ensures words { result.items ≡ words_of abi (raw_of request.now) }
    ensures long { length result.items ≡ (places_of abi).end }
{
    match *request {
        WrittenRequest::Direct {
            op,
            count,
            device,
            id,
            sector,
            segments,
        } => {
            let mut words = begin(abi, head(direct_number(op), count, device), id, sector);
            put_segments(&mut words, &segments);
            words
        }
        WrittenRequest::Discard {
            flag,
            device,
            id,
            sector,
            count,
        } => {
            let mut words = begin(abi, head(5, flag, device), id, sector);
            put_double(&mut words, count);
            padded(abi, words)
        }
        WrittenRequest::Indirect {
            op,
            count,
            device,
            id,
            sector,
            pages,
        } => {
            let mut words = begin(abi, head(6, indirect_number(op), count), id, sector);
            words.push(u32::from(device));
            put_pages(&mut words, &pages);
            padded(abi, words)
        }
    }
}

fn direct_number(op: DirectOp) -> u8
    ensures { result ≡ direct_code op }
{
    match op {
        DirectOp::Read => 0,
        DirectOp::Write => 1,
        DirectOp::Barrier => 2,
        DirectOp::Flush => 3,
    }
}

fn indirect_number(op: IndirectOp) -> u8
    ensures { result ≡ indirect_code op }
{
    match op {
        IndirectOp::Read => 0,
        IndirectOp::Write => 1,
    }
}

fn head(op: u8, second: u8, third: u16) -> u32
    ensures { result ≡ head_of op second third }
{
    u32::from(op) | u32::from(second) << 8 | u32::from(third) << 16
}

// What all forms begin with.
fn begin(abi: Abi, head: u32, id: u64, sector: u64) -> Words
    ensures { result.items ≡ begun_of (places_of abi) head id sector }
{
    let mut words = Words::new();
    words.push(head);
    pad_to(&mut words, Places::of(abi).id);
    put_double(&mut words, id);
    put_double(&mut words, sector);
    words
}

fn put_double(words: &mut Words, value: u64)
    requires { array_vec_len words.old + 2 ≤ 28 }
    ensures { words.new.items ≡ words.old.items ++ double_of value }
{
    words.push((value & 0xffff_ffff) as u32);
    words.push((value >> 32) as u32);
}

fn put_segments(words: &mut Words, segments: &[Segment; 11])
    requires { array_vec_len words.old + 22 ≤ 28 }
    ensures appended { words.new.items ≡ words.old.items ++ segments_words segments.now }
    ensures whole { length segments.now ≡ 11 }
{
    for segment in segments {
        let [gref, sectors] = segment_words(segment);
        words.push(gref);
        words.push(sectors);
    }
}

fn put_pages(words: &mut Words, pages: &[u32; 8])
    requires { array_vec_len words.old + 8 ≤ 28 }
    ensures appended { words.new.items ≡ words.old.items ++ pages.now }
    ensures whole { length pages.now ≡ 8 }
{
    for page in pages {
        words.push(*page);
    }
}

// Zeros up to the entry's end.
fn padded(abi: Abi, words: Words) -> Words
    requires { array_vec_len words ≤ (places_of abi).end }
    ensures { result.items ≡ words.items ++ replicate ((places_of abi).end - length words.items) 0 }
{
    let mut words = words;
    pad_to(&mut words, Places::of(abi).end);
    words
}

// Zeros up to a place, where no field lies.
fn pad_to(words: &mut Words, place: usize)
    requires ahead { array_vec_len words.old ≤ place }
    requires room { place ≤ 28 }
    ensures { words.new.items ≡ words.old.items ++ replicate (place - length words.old.items) 0 }
{
    for _ in words.len()..place {
        words.push(0);
    }
}
