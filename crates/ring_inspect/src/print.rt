// A ring's text, line by line.
ghost use Rattle.std.specs.Prelude.{◌≡◌, ◌≢◌, ◌+◌, ◌*◌, ◌%◌, ◌^◌, ◌<◌, ◌≤◌, ◌++◌, OnOk, IfErr, length};
ghost use Rattle.std.specs.List.{flat_map};
ghost use Rattle.blk_io.specs.Outside.{WritesBytes};
ghost use Rattle.ring_words.specs.Shape.{entry_words_of, ring_word_of};
ghost use Rattle.ring_inspect.specs.Text.{segment_text, page_text, named_lines, request_text};
ghost use Rattle.ring_inspect.specs.Ring.{word_of, words_from, request_at, listed, body_text, ring_text};
ghost use Rattle.ring_inspect.specs.Stop.{bytes_of, IsShown, Stopped};

use crate::line::{self, Line};
use crate::read::read_ring;
use crate::stop::InspectStop;
use arrayvec::ArrayVec;
use blk_base::{Abi, Idx};
use blk_io::{Failed, Sink, Source};
use blk_layout::{MOST_ENTRY_WORDS, RawRequest, Segment, read_request};
use byteorder::{ByteOrder, LittleEndian};
use ring_words::RingShape;
use std::alloc::Global;

/// Reads a ring of `2^order` pages of 4096 bytes from a source and writes its text to a sink, one
/// line a call.
pub fn inspect<S: Source, O: Sink>(
    alloc: Global,
    source: &mut S,
    abi: Abi,
    order: u32,
    sink: &mut O,
) -> Result<(), InspectStop>
    requires { order ≤ 4 }
    ensures shown { OnOk result (IsShown (record { abi = abi; order = order }) (S.seen source.old) (S.seen source.new) (O.seen sink.old) (O.seen sink.new)) }
    ensures stopped { IfErr result (Stopped (record { abi = abi; order = order }) (S.seen source.old) (S.seen source.new) (O.seen sink.old) (O.seen sink.new)) }
    // Nothing is asked of the sink before the ring was read.
    ensures untouched { IfErr result (λ stop. stop ≢ InspectStop.Sink → sink.new ≡ sink.old) }
{
    let shape = RingShape::of(abi, order);
    let bytes = read_ring(alloc, source, 4096 << order)?;
    match print_ring(sink, abi, &shape, bytes.as_slice()) {
        Ok(()) => Ok(()),
        Err(Failed) => Err(InspectStop::Sink),
    }
}

fn print_ring<O: Sink>(
    sink: &mut O,
    abi: Abi,
    shape: &RingShape,
    bytes: &[u8],
) -> Result<(), Failed>
    requires abi { abi ≡ shape.now.abi }
    requires size { length bytes.now ≡ bytes_of shape.now.order }
    ensures { WritesBytes (ring_text shape.now bytes.now) result (O.seen sink.old) (O.seen sink.new) }
{
    let req_prod = word(bytes, 0);
    let rsp_prod = word(bytes, 2);
    let indices = line::indices(req_prod, word(bytes, 1), rsp_prod, word(bytes, 3));
    print(sink, &indices)?;
    print(sink, &line::entries(shape.entries()))?;
    let count = Idx(rsp_prod).dist(Idx(req_prod));
    print_body(sink, abi, shape, bytes, rsp_prod, count)
}

// One line.
fn print<O: Sink>(sink: &mut O, line: &Line) -> Result<(), Failed>
    ensures { WritesBytes line.now.bytes result (O.seen sink.old) (O.seen sink.new) }
{
    sink.write(line.as_str().as_bytes())
}

fn print_body<O: Sink>(
    sink: &mut O,
    abi: Abi,
    shape: &RingShape,
    bytes: &[u8],
    rsp_prod: u32,
    count: u32,
) -> Result<(), Failed>
    requires abi { abi ≡ shape.now.abi }
    requires size { length bytes.now ≡ bytes_of shape.now.order }
    ensures { WritesBytes (body_text shape.now bytes.now rsp_prod count) result (O.seen sink.old) (O.seen sink.new) }
{
    if count > shape.entries() {
        return print(sink, &line::overrun(count));
    }
    print(sink, &line::requests(count))?;
    print_requests(sink, abi, shape, bytes, rsp_prod, count)
}

fn print_requests<O: Sink>(
    sink: &mut O,
    abi: Abi,
    shape: &RingShape,
    bytes: &[u8],
    from: u32,
    count: u32,
) -> Result<(), Failed>
    requires abi { abi ≡ shape.now.abi }
    requires size { length bytes.now ≡ bytes_of shape.now.order }
    ensures { WritesBytes (listed shape.now bytes.now from count) result (O.seen sink.old) (O.seen sink.new) }
{
    for i in 0..count {
        let index = from.wrapping_add(i);
        let request = request(abi, shape, bytes, index);
        print_request(sink, index, &request)?;
    }
    Ok(())
}

fn print_request<O: Sink>(sink: &mut O, index: u32, request: &RawRequest) -> Result<(), Failed>
    ensures { WritesBytes (request_text index request.now) result (O.seen sink.old) (O.seen sink.new) }
{
    print(sink, &line::request(index, request))?;
    print_named(sink, request)
}

// The segments or the pages that a request names.
fn print_named<O: Sink>(sink: &mut O, request: &RawRequest) -> Result<(), Failed>
    ensures { WritesBytes (named_lines request.now) result (O.seen sink.old) (O.seen sink.new) }
{
    match request {
        RawRequest::Direct {
            count,
            segments,
            ..
        } => {
            let shown = usize::from(*count).min(11);
            print_segments(sink, &segments[..shown])
        }
        RawRequest::Discard { .. } => Ok(()),
        RawRequest::Indirect { count, pages, .. } => {
            let shown = usize::from(*count).div_ceil(512).min(8);
            print_pages(sink, &pages[..shown])
        }
    }
}

fn print_segments<O: Sink>(sink: &mut O, segments: &[Segment]) -> Result<(), Failed>
    ensures { WritesBytes (flat_map segment_text segments.now) result (O.seen sink.old) (O.seen sink.new) }
{
    for segment in segments {
        print(sink, &line::segment(segment))?;
    }
    Ok(())
}

fn print_pages<O: Sink>(sink: &mut O, pages: &[u32]) -> Result<(), Failed>
    ensures { WritesBytes (flat_map page_text pages.now) result (O.seen sink.old) (O.seen sink.new) }
{
    for page in pages {
        print(sink, &line::page(*page))?;
    }
    Ok(())
}

// The request in the entry of an index.
fn request(abi: Abi, shape: &RingShape, bytes: &[u8], index: u32) -> RawRequest
    requires abi { abi ≡ shape.now.abi }
    requires size { length bytes.now ≡ bytes_of shape.now.order }
    ensures { result ≡ request_at shape.now bytes.now index }
{
    let (page, first) = shape.slot_word(index, 0);
    let at = page as usize * 1024 + first as usize;
    let words = words(bytes, at, shape.entry_words());
    read_request(abi, words.as_slice())
}

fn words(bytes: &[u8], at: usize, count: u32) -> ArrayVec<u32, MOST_ENTRY_WORDS>
    requires count { count ≤ entry_words_of Abi.X64 }
    requires within { 4 * (at + count) ≤ length bytes.now }
    ensures { result.items ≡ words_from bytes.now at count }
{
    let mut words = ArrayVec::new();
    for i in 0..count as usize {
        words.push(word(bytes, at + i));
    }
    words
}

// A word of the ring.
fn word(bytes: &[u8], at: usize) -> u32
    requires { 4 * at + 4 ≤ length bytes.now }
    ensures { result ≡ word_of bytes.now at }
{
    LittleEndian::read_u32(&bytes[4 * at..])
}
