// What a line shows of the ring: its pages, where its indices start, and its layout.
ghost use Rattle.std.specs.Prelude.{◌≡◌, ◌≤◌, IfSome};
ghost use Rattle.report_rules.specs.Ring.{page_made, order_of, is_protocol, abi_named, abi_after, start_told};

use crate::standing::Standing;
use blk_base::{Abi, BackMover, Move, Mover, Path, Text};
use schedule_text::Line;

/// The page of the ring that a line made: a mapping of the back's own.
pub fn page_made(line: &Line) -> Option<Standing>
    ensures { result ≡ page_made line.now }
{
    match *line {
        Line::Move(
            Move::Map {
                who: BackMover::Back,
                gref,
                mode,
                mapping,
                frame,
            },
        ) => Some(Standing {
            number: mapping,
            gref,
            mode,
            frame,
        }),
        _ => None,
    }
}

/// The order of a ring of so many pages, at most 4; none of another number of pages has one.
pub fn order_of(pages: usize) -> Option<u32>
    ensures value { result ≡ order_of pages }
    ensures small { IfSome result (λ order. order ≤ 4) }
{
    match pages {
        1 => Some(0),
        2 => Some(1),
        4 => Some(2),
        8 => Some(3),
        16 => Some(4),
        _ => None,
    }
}

/// The index at which rings start, after a line more.
pub fn start_told(start: u32, line: &Line) -> u32
    ensures { result ≡ start_told start line.now }
{
    match *line {
        Line::Begin { config, .. } => config.start,
        _ => start,
    }
}

// Whether a path is that of the front's key `protocol`.
fn is_protocol(path: &Path) -> bool
    ensures { result ≡ is_protocol path.now }
{
    path.as_str() == "/local/domain/1/device/vbd/51712/protocol"
}

// The layout that a text of the key `protocol` names (`io/blkif.h`, XEN_IO_PROTO_ABI_*).
fn abi_named(text: &Option<Text>) -> Option<Abi>
    ensures { result ≡ abi_named text.now }
{
    match text {
        None => Some(Abi::X64),
        Some(text) if text.as_str() == "x86_64-abi" => Some(Abi::X64),
        Some(text) if text.as_str() == "x86_32-abi" => Some(Abi::X32),
        Some(_) => None,
    }
}

/// The layout of entries, after a line more.
pub fn abi_after(abi: Option<Abi>, line: &Line) -> Option<Abi>
    ensures { result ≡ abi_after abi line.now }
{
    match line {
        Line::Move(Move::GetKey(Mover::Back, path, text)) if is_protocol(path) => abi_named(text),
        _ => abi,
    }
}
