// Rings in memory, and what is shown of them.
use crate::expected::{holds, same_of};
use blk_base::{Abi, Idx};
use blk_io::{FailsAt, MemorySink, MemorySource};
use blk_layout::{DirectOp, Segment, WrittenRequest, request_words};
use byteorder::{ByteOrder, LittleEndian};
use ring_inspect::{InspectStop, inspect};
use ring_words::{FrontRing, RingShape};
use std::alloc::Global;
use std::process::Abort;

// So many bytes of zeros but for these words; the layout, and which calls of the source and of the
// sink fail; how the showing ends, and the text that came.
struct Case {
    name: &'static str,
    length: usize,
    words: &'static [(usize, u32)],
    abi: Abi,
    source_fails: &'static [u64],
    sink_fails: &'static [u64],
    shown: Result<(), InspectStop>,
    text: &'static str,
}

fn put(bytes: &mut [u8], at: usize, word: u32) {
    if at < 1024 && bytes.len() >= 4096 {
        LittleEndian::write_u32(&mut bytes[4 * at..], word);
    }
}

fn bytes_with(rt: &impl Abort, alloc: Global, length: usize, words: &[(usize, u32)]) -> Vec<u8> {
    let mut bytes = vec![in alloc; 0u8; length].expect(rt, "memory");
    for (at, word) in words {
        put(bytes.as_mut_slice(), *at, *word);
    }
    bytes
}

fn show(rt: &impl Abort, alloc: Global, bytes: Vec<u8>, case: &Case) {
    let source_fails = Vec::from_slice(alloc, case.source_fails).expect(rt, "memory");
    let mut source = FailsAt::new(MemorySource::new(bytes), source_fails);
    let room = MemorySink::with_room(alloc, 4096).expect(rt, "memory");
    let sink_fails = Vec::from_slice(alloc, case.sink_fails).expect(rt, "memory");
    let mut sink = FailsAt::new(room, sink_fails);
    let shown = inspect(alloc, &mut source, case.abi, 0, &mut sink);
    same_of(rt, case.name, shown, case.shown);
    same_of(rt, case.name, sink.inside.bytes(), case.text.as_bytes());
}

// One write of sector 0 through one segment.
const ONE_WRITE: &[(usize, u32)] = &[
    (0, 1),
    (1, 1),
    (3, 1),
    (16, 0xca000101),
    (18, 1),
    (22, 0x18),
];

const CASES: &[Case] = &[
    Case {
        name: "one write",
        length: 4096,
        words: ONE_WRITE,
        abi: Abi::X64,
        source_fails: &[],
        sink_fails: &[],
        shown: Ok(()),
        text: "indices 1 1 0 1
entries 32
requests 1
request 0 op 1 count 1 device 51712 id 1 sector 0
segment 24 0 0
",
    },
    Case {
        name: "no bytes",
        length: 0,
        words: &[],
        abi: Abi::X32,
        source_fails: &[],
        sink_fails: &[],
        shown: Err(InspectStop::Length(0)),
        text: "",
    },
    Case {
        name: "a byte less than a page",
        length: 4095,
        words: &[],
        abi: Abi::X32,
        source_fails: &[],
        sink_fails: &[],
        shown: Err(InspectStop::Length(4095)),
        text: "",
    },
    Case {
        name: "a byte more than a page",
        length: 4097,
        words: &[],
        abi: Abi::X32,
        source_fails: &[],
        sink_fails: &[],
        shown: Err(InspectStop::Length(4097)),
        text: "",
    },
    Case {
        name: "more than two pages",
        length: 9000,
        words: &[],
        abi: Abi::X32,
        source_fails: &[],
        sink_fails: &[],
        shown: Err(InspectStop::Length(4097)),
        text: "",
    },
    Case {
        name: "a source that fails",
        length: 4096,
        words: ONE_WRITE,
        abi: Abi::X64,
        source_fails: &[2],
        sink_fails: &[],
        shown: Err(InspectStop::Source),
        text: "",
    },
    Case {
        name: "a sink that fails",
        length: 4096,
        words: ONE_WRITE,
        abi: Abi::X64,
        source_fails: &[],
        sink_fails: &[4],
        shown: Err(InspectStop::Sink),
        text: "indices 1 1 0 1
entries 32
requests 1
",
    },
];

fn show_all(rt: &impl Abort, alloc: Global, cases: &[Case]) {
    for case in cases {
        let bytes = bytes_with(rt, alloc, case.length, case.words);
        show(rt, alloc, bytes, case);
    }
}

#[test]
fn a_ring_is_shown_or_the_reason_is_told_why_not(rt: HostRuntime) {
    show_all(&rt, rt.alloc(), CASES);
}

// Lays a flush of that number in the next entry, and moves on.
fn push(rt: &impl Abort, bytes: &mut [u8], shape: RingShape, front: &mut FrontRing, id: u64) {
    let flush = WrittenRequest::Direct {
        op: DirectOp::Flush,
        count: 0,
        device: 1,
        id,
        sector: 0,
        segments: [Segment::default(); 11],
    };
    let words = request_words(Abi::X32, &flush);
    for (i, word) in (0..27).zip(words.as_slice()) {
        holds(rt, i < 27);
        let (_, at) = shape.slot_word(front.prod(), i);
        put(bytes, at as usize, *word);
    }
    holds(rt, front.free() > 0);
    front.produce();
}

const WRAPPED: &Case = &Case {
    name: "three flushes round the wrap",
    length: 4096,
    words: &[(1, 0xffffffff), (2, 0xfffffffe), (3, 0xffffffff)],
    abi: Abi::X32,
    source_fails: &[],
    sink_fails: &[],
    shown: Ok(()),
    text: "indices 1 4294967295 4294967294 4294967295
entries 32
requests 3
request 4294967294 op 3 count 0 device 1 id 7 sector 0
request 4294967295 op 3 count 0 device 1 id 8 sector 0
request 0 op 3 count 0 device 1 id 9 sector 0
",
};

// Flushes of the numbers 7, 8 and 9.
fn show_wrapped(rt: &impl Abort, alloc: Global, case: &Case) {
    let shape = RingShape::of(Abi::X32, 0);
    let mut front = FrontRing::attach(shape, 4294967294);
    let mut bytes = bytes_with(rt, alloc, case.length, case.words);
    for id in 7..10 {
        push(rt, bytes.as_mut_slice(), shape, &mut front, id);
    }
    same_of(rt, case.name, Idx(4294967294).dist(Idx(front.prod())), 3);
    put(bytes.as_mut_slice(), 0, front.prod());
    show(rt, alloc, bytes, case);
}

#[test]
fn three_flushes_round_the_wrap_are_shown(rt: HostRuntime) {
    show_wrapped(&rt, rt.alloc(), WRAPPED);
}
