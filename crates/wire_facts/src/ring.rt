// Lines on the ring's arithmetic, and on words that stand alone.

use crate::numbers::{decimals, low, words};
use blk_base::{Abi, Idx, Status};
use blk_layout::{Response, Segment, read_response, read_segment, response_words, segment_words};
use ring_words::{BackRing, FrontRing, RingShape, notify};

/// Whether a line holds; `None` where it speaks of nothing here, or of indices that no call may meet.
pub fn holds(abi: Abi, kind: &str, line: &str) -> Option<bool> {
    let found = decimals(line);
    let n = found.as_slice();
    match kind {
        "ring" => ring(abi, n),
        "slot" => slot(abi, n),
        "push_req" | "push_rsp" => push(n),
        "free" => free(abi, n),
        "full" => full(abi, n),
        "unconsumed_rsp" => unconsumed_rsp(abi, n),
        "unconsumed_req" => unconsumed_req(abi, n),
        "prod_over" => prod_over(abi, n),
        "final_req" => final_req(abi, n),
        "final_rsp" => final_rsp(abi, n),
        "response" => response(line),
        "seg" => seg(line),
        _ => None,
    }
}

fn shape(abi: Abi, order: u64) -> Option<RingShape> {
    if order > 4 {
        return None;
    }
    Some(RingShape::of(abi, order as u32))
}

fn shape_of_entries(abi: Abi, entries: u64) -> Option<RingShape> {
    match entries {
        32 => shape(abi, 0),
        64 => shape(abi, 1),
        128 => shape(abi, 2),
        256 => shape(abi, 3),
        512 => shape(abi, 4),
        _ => None,
    }
}

fn ring(abi: Abi, n: &[u64]) -> Option<bool> {
    let &[order, bytes, entries, entry] = n else {
        return None;
    };
    let shape = shape(abi, order)?;
    Some(
        u64::from(shape.entries()) == entries
            && u64::from(shape.entry_words()) * 4 == entry
            && 4096u64.checked_shl(low(order)) == Some(bytes),
    )
}

fn slot(abi: Abi, n: &[u64]) -> Option<bool> {
    let &[order, index, offset] = n else {
        return None;
    };
    let (page, word) = shape(abi, order)?.slot_word(low(index), 0);
    Some(u64::from(page) * 4096 + u64::from(word) * 4 == offset)
}

fn push(n: &[u64]) -> Option<bool> {
    let &[old, new, event, due] = n else {
        return None;
    };
    Some(notify(low(old), low(new), low(event)) == (due == 1))
}

// A front with these indices, where a ring may have them.
fn front(abi: Abi, entries: u64, prod: u64, cons: u64) -> Option<FrontRing> {
    let mut front = FrontRing::attach(shape_of_entries(abi, entries)?, low(cons));
    let ahead = Idx(low(cons)).dist(Idx(low(prod)));
    for _ in 0..ahead {
        if front.free() == 0 {
            return None;
        }
        front.produce();
    }
    Some(front)
}

// A back with these indices, where a ring may have them.
fn back(abi: Abi, entries: u64, prod: u64, cons: u64) -> Option<BackRing> {
    let mut back = BackRing::attach(shape_of_entries(abi, entries)?, low(prod));
    let ahead = Idx(low(prod)).dist(Idx(low(cons)));
    for _ in 0..ahead {
        if !back.can_consume() {
            return None;
        }
        back.consume();
    }
    Some(back)
}

fn free(abi: Abi, n: &[u64]) -> Option<bool> {
    let &[entries, prod, cons, value] = n else {
        return None;
    };
    Some(u64::from(front(abi, entries, prod, cons)?.free()) == value)
}

fn full(abi: Abi, n: &[u64]) -> Option<bool> {
    let &[entries, prod, cons, yes] = n else {
        return None;
    };
    Some((front(abi, entries, prod, cons)?.free() == 0) == (yes == 1))
}

fn unconsumed_rsp(abi: Abi, n: &[u64]) -> Option<bool> {
    let &[prod, cons, value] = n else {
        return None;
    };
    let front = FrontRing::attach(shape(abi, 0)?, low(cons));
    Some(u64::from(front.unconsumed(low(prod))) == value)
}

fn unconsumed_req(abi: Abi, n: &[u64]) -> Option<bool> {
    let &[entries, prod, cons, rsp_pvt, value] = n else {
        return None;
    };
    let back = back(abi, entries, rsp_pvt, cons)?;
    Some(u64::from(back.unconsumed(low(prod))) == value)
}

fn prod_over(abi: Abi, n: &[u64]) -> Option<bool> {
    let &[entries, prod, rsp_pvt, yes] = n else {
        return None;
    };
    let back = BackRing::attach(shape_of_entries(abi, entries)?, low(rsp_pvt));
    Some(back.overran(low(prod)) == (yes == 1))
}

// The event is the next index where nothing is unconsumed, else as before.
fn final_req(abi: Abi, n: &[u64]) -> Option<bool> {
    let &[entries, prod, cons, rsp_pvt, before, after, work] = n else {
        return None;
    };
    let work_left = back(abi, entries, rsp_pvt, cons)?.unconsumed(low(prod));
    Some(is_checked(work_left, cons, before, after, work))
}

fn final_rsp(abi: Abi, n: &[u64]) -> Option<bool> {
    let &[prod, cons, before, after, work] = n else {
        return None;
    };
    let work_left = FrontRing::attach(shape(abi, 0)?, low(cons)).unconsumed(low(prod));
    Some(is_checked(work_left, cons, before, after, work))
}

fn is_checked(work_left: u32, cons: u64, before: u64, after: u64, work: u64) -> bool {
    let event = if work_left == 0 {
        u64::from(Idx(low(cons)).add(1).0)
    } else {
        before
    };
    (work_left > 0) == (work == 1) && event == after
}

fn response(line: &str) -> Option<bool> {
    let (fields, hexes) = line.split_once(':')?;
    let found = decimals(fields);
    let &[id, op, status] = found.as_slice() else {
        return None;
    };
    let found = words(hexes);
    let &[first, second, third] = found.as_slice() else {
        return None;
    };
    let status = match status {
        0 => Status::Okay,
        0xffff => Status::Error,
        0xfffe => Status::Unsupported,
        _ => return None,
    };
    let response = Response {
        id,
        op: u8::try_from(op).ok()?,
        status,
    };
    let words = [first, second, third];
    Some(response_words(&response) == words && read_response(words) == Ok(response))
}

fn seg(line: &str) -> Option<bool> {
    let (fields, hexes) = line.split_once(':')?;
    let found = decimals(fields);
    let &[gref, first, last] = found.as_slice() else {
        return None;
    };
    let found = words(hexes);
    let &[one, two] = found.as_slice() else {
        return None;
    };
    let segment = Segment {
        gref: low(gref),
        first: u8::try_from(first).ok()?,
        last: u8::try_from(last).ok()?,
    };
    Some(segment_words(&segment) == [one, two] && read_segment([one, two]) == segment)
}
