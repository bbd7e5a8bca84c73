// The lines of a ring's text.
ghost use Rattle.std.specs.Prelude.{◌≡◌, ◌+◌, ◌≤◌, ◌++◌, length, codes, decimal};
ghost use Rattle.arrayvec.specs.ArrayString.{array_string_len};
ghost use Rattle.ring_inspect.specs.Text.{line_feed, indices_text, entries_text, overrun_text, requests_text, segment_text, page_text, request_line};

use arrayvec::ArrayString;
use blk_layout::{RawRequest, Segment};
use itoa::Buffer;

/// A line; none is longer than 160 bytes.
pub type Line = ArrayString<192>;

// Adds a label and a decimal number.
fn put(line: &mut Line, label: &str, number: u64)
    requires { array_string_len line.old + length label.now + 20 ≤ 192 }
    ensures appended { line.new.bytes ≡ line.old.bytes ++ label.now ++ decimal number }
    ensures short { array_string_len line.new ≤ array_string_len line.old + length label.now + 20 }
{
    let mut buffer = Buffer::new();
    line.push_str(label);
    line.push_str(buffer.format(number));
}

fn begin(label: &str, number: u64) -> Line
    requires { length label.now ≤ 20 }
    ensures text { result.bytes ≡ label.now ++ decimal number }
    ensures short { array_string_len result ≤ length label.now + 20 }
{
    let mut line = Line::new();
    put(&mut line, label, number);
    line
}

fn end(line: Line) -> Line
    requires { array_string_len line + 1 ≤ 192 }
    ensures { result.bytes ≡ line.bytes ++ line_feed }
{
    let mut line = line;
    line.push_str("\n");
    line
}

pub fn indices(req_prod: u32, req_event: u32, rsp_prod: u32, rsp_event: u32) -> Line
    ensures { result.bytes ≡ indices_text req_prod req_event rsp_prod rsp_event }
{
    let mut line = begin("indices ", u64::from(req_prod));
    put(&mut line, " ", u64::from(req_event));
    put(&mut line, " ", u64::from(rsp_prod));
    put(&mut line, " ", u64::from(rsp_event));
    end(line)
}

pub fn entries(entries: u32) -> Line
    ensures { result.bytes ≡ entries_text entries }
{
    end(begin("entries ", u64::from(entries)))
}

pub fn overrun(count: u32) -> Line
    ensures { result.bytes ≡ overrun_text count }
{
    end(begin("overrun ", u64::from(count)))
}

pub fn requests(count: u32) -> Line
    ensures { result.bytes ≡ requests_text count }
{
    end(begin("requests ", u64::from(count)))
}

pub fn segment(segment: &Segment) -> Line
    ensures { result.bytes ≡ segment_text segment.now }
{
    let mut line = begin("segment ", u64::from(segment.gref));
    put(&mut line, " ", u64::from(segment.first));
    put(&mut line, " ", u64::from(segment.last));
    end(line)
}

pub fn page(gref: u32) -> Line
    ensures { result.bytes ≡ page_text gref }
{
    end(begin("page ", u64::from(gref)))
}

// Adds what requests of all forms have: the device, the front's number and the first sector.
fn put_common(line: &mut Line, device: u16, id: u64, sector: u64)
    requires { array_string_len line.old ≤ 111 }
    ensures appended { line.new.bytes ≡ line.old.bytes ++ codes " device " ++ decimal device ++ codes " id " ++ decimal id
        ++ codes " sector " ++ decimal sector }
    ensures short { array_string_len line.new ≤ array_string_len line.old + 80 }
{
    put(line, " device ", u64::from(device));
    put(line, " id ", id);
    put(line, " sector ", sector);
}

pub fn request(index: u32, request: &RawRequest) -> Line
    ensures { result.bytes ≡ request_line index request.now }
{
    let mut line = begin("request ", u64::from(index));
    match *request {
        RawRequest::Direct {
            op,
            count,
            device,
            id,
            sector,
            ..
        } => {
            put(&mut line, " op ", u64::from(op));
            put(&mut line, " count ", u64::from(count));
            put_common(&mut line, device, id, sector);
        }
        RawRequest::Discard {
            flag,
            device,
            id,
            sector,
            count,
        } => {
            put(&mut line, " op 5 flag ", u64::from(flag));
            put_common(&mut line, device, id, sector);
            put(&mut line, " count ", count);
        }
        RawRequest::Indirect {
            op,
            count,
            device,
            id,
            sector,
            ..
        } => {
            put(&mut line, " op 6 inner ", u64::from(op));
            put(&mut line, " count ", u64::from(count));
            put_common(&mut line, device, id, sector);
        }
    }
    end(line)
}
