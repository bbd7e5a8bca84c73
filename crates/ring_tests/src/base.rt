use crate::expected::{holds, same};
use blk_base::{Idx, Lent, Op, SectorCount, ShortText, Status};
use std::test::Fail;

#[test]
fn a_distance_goes_round_the_wrap(rt: HostRuntime) {
    same(&rt, Idx(4294967295).dist(Idx(1)), 2);
    same(&rt, Idx(1).dist(Idx(4294967295)), 4294967294);
    same(&rt, Idx(7).dist(Idx(7)), 0);
    same(&rt, Idx(4294967295).add(3), Idx(2));
}

#[test]
fn operations_have_the_numbers_of_the_header(rt: HostRuntime) {
    same(&rt, Op::Read.code(), 0);
    same(&rt, Op::Discard.code(), 5);
    same(&rt, Op::from_code(6), Some(Op::Indirect));
    same(&rt, Op::from_code(4), None);
    same(&rt, Status::Unsupported.code(), -2);
    same(&rt, Status::from_code(-1), Some(Status::Error));
    same(&rt, Status::from_code(-3), None);
}

#[test]
fn no_request_moves_nothing(rt: HostRuntime) -> Result<(), Fail> {
    same(&rt, SectorCount::new(0), None);
    same(&rt, SectorCount::new(8).ok_or("eight")?.get(), 8);
    Ok(())
}

#[test]
fn what_is_lent_is_the_value_that_lies_there(rt: HostRuntime) {
    let sectors = [7, 51712];
    let others = [7, 51712];
    let lent = Lent::at(&sectors);
    same(&rt, *lent.get(), [7, 51712]);
    holds(&rt, lent == Lent::at(&others));
    holds(&rt, lent != Lent::at(&[7, 51713]));
}

#[test]
fn a_short_text_is_its_bytes(rt: HostRuntime) {
    let state: ShortText<5> = ShortText::of("state");
    same(&rt, state.as_str(), "state");
    holds(&rt, ShortText::<5>::new() < state);
    holds(&rt, state == ShortText::of("state"));
    holds(&rt, state > ShortText::of("stat"));
}
