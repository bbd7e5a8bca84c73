// Mappings, and what a grant entry shows of them (`grant_table.h`: GTF_reading is 8, GTF_writing 16).
use crate::expected::same_at;
use blk_base::Mode;
use report_rules::{entry_mapped, entry_unmapped};
use std::process::Abort;

const MAPS: &[(u32, Mode, u32)] = &[
    (0x5, Mode::ReadOnly, 0xd),
    (0xd, Mode::ReadOnly, 0xd),
    (0x19, Mode::ReadOnly, 0x19),
    (0x1, Mode::ReadWrite, 0x19),
    (0x9, Mode::ReadWrite, 0x19),
];

fn map(rt: &impl Abort, cases: &[(u32, Mode, u32)]) {
    for (word0, mode, shown) in cases {
        same_at(rt, u64::from(*word0), entry_mapped(*word0, *mode), *shown);
    }
}

#[test]
fn a_map_is_shown_in_its_entry(rt: HostRuntime) {
    map(&rt, MAPS);
}

const UNMAPS: &[(u32, usize, usize, u32)] = &[
    (0x19, 0, 0, 0x1),
    (0x19, 1, 0, 0x9),
    (0x19, 2, 1, 0x19),
    (0xd, 1, 0, 0xd),
    (0xd, 0, 0, 0x5),
];

fn unmap(rt: &impl Abort, cases: &[(u32, usize, usize, u32)]) {
    for (word0, mappings, writers, shown) in cases {
        let left = entry_unmapped(*word0, *mappings, *writers);
        assert_eq!(rt; left, *shown, "{word0} {mappings} {writers}");
    }
}

#[test]
fn an_unmap_takes_back_what_no_mapping_needs(rt: HostRuntime) {
    unmap(&rt, UNMAPS);
}
