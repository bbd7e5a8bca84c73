// A client, and what the headers' own macros gave.

use crate::expected::{holds, same};
use blk_base::Abi;
use ring_words::{BackRing, FrontRing, RingShape, notify};

#[test]
fn three_requests_go_round_the_wrap(rt: HostRuntime) {
    let shape = RingShape::of(Abi::X64, 0);
    let mut front = FrontRing::attach(shape, 4294967294);
    let mut back = BackRing::attach(shape, 4294967294);
    for (index, place) in [(4294967294, 856), (4294967295, 884), (0, 16)] {
        holds(&rt, front.free() > 0);
        same(&rt, front.prod(), index);
        same(&rt, shape.slot_word(front.prod(), 0), (0, place));
        front.produce();
    }
    same(&rt, front.free(), 29);
    holds(&rt, notify(4294967294, front.prod(), 4294967295));
    holds(&rt, !back.overran(front.prod()));
    same(&rt, back.unconsumed(front.prod()), 3);
    for _ in 0..3 {
        holds(&rt, back.can_consume());
        back.consume();
    }
    same(&rt, back.cons(), 1);
    for _ in 0..3 {
        holds(&rt, back.can_produce());
        back.produce();
    }
    same(&rt, front.unconsumed(back.prod()), 3);
    for _ in 0..3 {
        holds(&rt, front.can_consume());
        front.consume();
    }
    same(&rt, (front.cons(), front.free()), (1, 32));
    same(&rt, back.waiting(), 0);
}

#[test]
fn a_ring_has_the_headers_entries(rt: HostRuntime) {
    for (order, entries) in [(0, 32), (1, 64), (2, 128), (3, 256), (4, 512)] {
        holds(&rt, order <= 4);
        for (abi, words) in [(Abi::X64, 28), (Abi::X32, 27)] {
            let shape = RingShape::of(abi, order);
            same(
                &rt,
                (shape.entries(), shape.entry_words()),
                (entries, words),
            );
        }
    }
}

#[test]
fn a_producer_too_far_ahead_overruns(rt: HostRuntime) {
    let back = BackRing::attach(RingShape::of(Abi::X32, 0), 0);
    for (req_prod, overran, unconsumed) in [
        (0, false, 0),
        (32, false, 32),
        (33, true, 32),
        (4294967295, true, 32),
    ] {
        assert_eq!(rt; back.overran(req_prod), overran, "at {req_prod}");
        assert_eq!(rt; back.unconsumed(req_prod), unconsumed, "at {req_prod}");
    }
}

#[test]
fn an_event_is_due_where_the_push_passed_it(rt: HostRuntime) {
    for (old, new, event, due) in [
        (0, 1, 1, true),
        (1, 2, 1, false),
        (1, 2, 3, false),
        (4294967295, 1, 0, true),
        (4294967295, 1, 4294967295, false),
        (5, 5, 5, false),
    ] {
        assert_eq!(rt; notify(old, new, event), due, "{old} to {new} at {event}");
    }
}
