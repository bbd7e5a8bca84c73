// Lines on a request: its fields, its segments or pages, and then its words.

use crate::numbers::{decimals, low, words};
use blk_base::Abi;
use blk_layout::{
    DirectOp, IndirectOp, RawRequest, Segment, WrittenRequest, read_request, request_words,
};

/// The request that the lines so far speak of.
#[derive(Drop)]
pub struct Pending {
    numbers: [u64; 6],
    segments: [Segment; 11],
    pages: [u32; 8],
    named: usize,
}

impl Pending {
    pub fn new() -> Pending {
        Pending {
            numbers: [0; 6],
            segments: [Segment::default(); 11],
            pages: [0; 8],
            named: 0,
        }
    }

    /// Takes a line; with the words, says whether they are the request's both ways.
    pub fn take(&mut self, abi: Abi, kind: &str, line: &str) -> Option<bool> {
        let found = decimals(line);
        match kind {
            "entry" => self.begin(found.as_slice()),
            "segment" => self.segment(found.as_slice()),
            "page" => self.page(found.as_slice()),
            _ => self.words(abi, line),
        }
    }

    fn begin(&mut self, n: &[u64]) -> Option<bool> {
        *self = Pending::new();
        for (kept, number) in self.numbers.iter_mut().zip(n) {
            *kept = *number;
        }
        None
    }

    fn segment(&mut self, n: &[u64]) -> Option<bool> {
        let &[gref, first, last] = n else {
            return None;
        };
        if self.named < 11 {
            self.segments[self.named] = Segment {
                gref: low(gref),
                first: u8::try_from(first).ok()?,
                last: u8::try_from(last).ok()?,
            };
            self.named += 1;
        }
        None
    }

    fn page(&mut self, n: &[u64]) -> Option<bool> {
        let &[gref] = n else {
            return None;
        };
        if self.named < 8 {
            self.pages[self.named] = low(gref);
            self.named += 1;
        }
        None
    }

    fn words(&self, abi: Abi, line: &str) -> Option<bool> {
        let (_, hexes) = line.split_once(' ')?;
        let words = words(hexes);
        let length = match abi {
            Abi::X64 => 28,
            Abi::X32 => 27,
        };
        if words.len() != length {
            return Some(false);
        }
        let (raw, request) = self.request()?;
        let written = match request {
            Some(request) => request_words(abi, &request).as_slice() == words.as_slice(),
            None => true,
        };
        Some(written && read_request(abi, words.as_slice()) == raw)
    }

    // The request as it is read, and as it is written where a front writes such a one.
    fn request(&self) -> Option<(RawRequest, Option<WrittenRequest>)> {
        let [op, second, ..] = self.numbers;
        match op {
            5 => self.discard(),
            6 => self.indirect(),
            _ => self.direct(op, second),
        }
    }

    // entry op O count C device D id I sector S
    fn direct(&self, op: u64, count: u64) -> Option<(RawRequest, Option<WrittenRequest>)> {
        let [_, _, device, id, sector, _] = self.numbers;
        let count = u8::try_from(count).ok()?;
        let device = u16::try_from(device).ok()?;
        let raw = RawRequest::Direct {
            op: u8::try_from(op).ok()?,
            count,
            device,
            id,
            sector,
            segments: self.segments,
        };
        let op = match op {
            0 => DirectOp::Read,
            1 => DirectOp::Write,
            2 => DirectOp::Barrier,
            3 => DirectOp::Flush,
            _ => return Some((raw, None)),
        };
        let request = WrittenRequest::Direct {
            op,
            count,
            device,
            id,
            sector,
            segments: self.segments,
        };
        Some((raw, Some(request)))
    }

    // entry op 5 flag F device D id I sector S count C
    fn discard(&self) -> Option<(RawRequest, Option<WrittenRequest>)> {
        let [_, flag, device, id, sector, count] = self.numbers;
        let flag = u8::try_from(flag).ok()?;
        let device = u16::try_from(device).ok()?;
        let raw = RawRequest::Discard {
            flag,
            device,
            id,
            sector,
            count,
        };
        let request = WrittenRequest::Discard {
            flag,
            device,
            id,
            sector,
            count,
        };
        Some((raw, Some(request)))
    }

    // entry op 6 inner O count C device D id I sector S
    fn indirect(&self) -> Option<(RawRequest, Option<WrittenRequest>)> {
        let [_, inner, count, device, id, sector] = self.numbers;
        let count = u16::try_from(count).ok()?;
        let device = u16::try_from(device).ok()?;
        let raw = RawRequest::Indirect {
            op: u8::try_from(inner).ok()?,
            count,
            device,
            id,
            sector,
            pages: self.pages,
        };
        let op = match inner {
            0 => IndirectOp::Read,
            1 => IndirectOp::Write,
            _ => return Some((raw, None)),
        };
        let request = WrittenRequest::Indirect {
            op,
            count,
            device,
            id,
            sector,
            pages: self.pages,
        };
        Some((raw, Some(request)))
    }
}
