// A client, and the worked vectors.

use crate::expected::same;
use blk_base::{Abi, Status};
use blk_layout::{
    DirectOp, IndirectOp, RawRequest, Response, Segment, WrittenRequest, read_request,
    read_response, read_segment, request_words, response_words, segment_words,
};

const NO_SEGMENT: Segment = Segment {
    gref: 0,
    first: 0,
    last: 0,
};

// A write of sector 0 through the first sector of the frame that reference 24 grants.
const SEGMENTS: [Segment; 11] = [
    Segment {
        gref: 24,
        first: 0,
        last: 0,
    },
    NO_SEGMENT,
    NO_SEGMENT,
    NO_SEGMENT,
    NO_SEGMENT,
    NO_SEGMENT,
    NO_SEGMENT,
    NO_SEGMENT,
    NO_SEGMENT,
    NO_SEGMENT,
    NO_SEGMENT,
];

#[test]
fn a_write_has_these_words(rt: HostRuntime) {
    let write = WrittenRequest::Direct {
        op: DirectOp::Write,
        count: 1,
        device: 51712,
        id: 1,
        sector: 0,
        segments: SEGMENTS,
    };
    let words = request_words(Abi::X64, &write);
    same(
        &rt,
        words.as_slice(),
        [
            0xca000101, 0, 1, 0, 0, 0, 0x18, 0, 0, 0, 0, 0, 0, 0, 0, 0, 0, 0, 0, 0, 0, 0, 0, 0, 0,
            0, 0, 0,
        ]
        .as_slice(),
    );
    let words = request_words(Abi::X32, &write);
    same(
        &rt,
        words.as_slice(),
        [
            0xca000101, 1, 0, 0, 0, 0x18, 0, 0, 0, 0, 0, 0, 0, 0, 0, 0, 0, 0, 0, 0, 0, 0, 0, 0, 0,
            0, 0,
        ]
        .as_slice(),
    );
}

#[test]
fn three_requests_are_read_back(rt: HostRuntime) {
    for abi in [Abi::X64, Abi::X32] {
        let discard = WrittenRequest::Discard {
            flag: 1,
            device: 7,
            id: 0x0123_4567_89ab_cdef,
            sector: 9,
            count: 0x1_0000_0002,
        };
        let words = request_words(abi, &discard);
        same(
            &rt,
            read_request(abi, words.as_slice()),
            RawRequest::Discard {
                flag: 1,
                device: 7,
                id: 0x0123_4567_89ab_cdef,
                sector: 9,
                count: 0x1_0000_0002,
            },
        );

        let indirect = WrittenRequest::Indirect {
            op: IndirectOp::Write,
            count: 513,
            device: 51712,
            id: 2,
            sector: 0xffff_ffff_ffff_ffff,
            pages: [1, 2, 3, 4, 5, 6, 7, 0xffff_ffff],
        };
        let words = request_words(abi, &indirect);
        same(
            &rt,
            read_request(abi, words.as_slice()),
            RawRequest::Indirect {
                op: 1,
                count: 513,
                device: 51712,
                id: 2,
                sector: 0xffff_ffff_ffff_ffff,
                pages: [1, 2, 3, 4, 5, 6, 7, 0xffff_ffff],
            },
        );

        let flush = WrittenRequest::Direct {
            op: DirectOp::Flush,
            count: 0,
            device: 51712,
            id: 3,
            sector: 0,
            segments: SEGMENTS,
        };
        let words = request_words(abi, &flush);
        same(
            &rt,
            read_request(abi, words.as_slice()),
            RawRequest::Direct {
                op: 3,
                count: 0,
                device: 51712,
                id: 3,
                sector: 0,
                segments: SEGMENTS,
            },
        );
    }
}

#[test]
fn responses_have_these_words(rt: HostRuntime) {
    for (status, last) in [
        (Status::Okay, 0x0000_0001),
        (Status::Error, 0xffff_0001),
        (Status::Unsupported, 0xfffe_0001),
    ] {
        let response = Response {
            id: 1,
            op: 1,
            status,
        };
        same(&rt, response_words(&response), [1, 0, last]);
        same(&rt, read_response([1, 0, last]), Ok(response));
    }
    same(&rt, read_response([1, 0, 0xfffd_0001]), Err(0xfffd_0001));
    same(&rt, read_response([1, 0, 0x0001_0001]), Err(0x0001_0001));
}

#[test]
fn the_rest_of_a_segment_is_ignored(rt: HostRuntime) {
    let segment = Segment {
        gref: 24,
        first: 1,
        last: 7,
    };
    same(&rt, segment_words(&segment), [24, 0x0701]);
    same(&rt, read_segment([24, 0x1234_0701]), segment);
}
