// The pages of the ring and its entries.
use crate::expected::{same_at, same_of};
use report_rules::{of_entries, order_of};
use std::process::Abort;

const ORDERS: &[(usize, Option<u32>)] = &[
    (0, None),
    (1, Some(0)),
    (2, Some(1)),
    (3, None),
    (4, Some(2)),
    (8, Some(3)),
    (16, Some(4)),
    (32, None),
];

fn order(rt: &impl Abort, cases: &[(usize, Option<u32>)]) {
    for (pages, wanted) in cases {
        same_at(rt, *pages as u64, order_of(*pages), *wanted);
    }
}

#[test]
fn a_ring_has_a_power_of_two_of_pages(rt: HostRuntime) {
    order(&rt, ORDERS);
}

const WORDS: &[(Option<u128>, Option<u128>)] = &[
    (None, None),
    (Some(15), None),
    (Some(16), Some(16)),
    (Some(16383), Some(16383)),
];

fn begin(rt: &impl Abort, cases: &[(Option<u128>, Option<u128>)]) {
    for (word, of) in cases {
        same_of(rt, "a word", of_entries(*word), *of);
    }
}

#[test]
fn entries_begin_at_word_16(rt: HostRuntime) {
    begin(&rt, WORDS);
}
