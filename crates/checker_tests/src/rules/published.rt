// What one line tells of the disk, and of what both ends publish of grants (`io/blkif.h`).
use crate::expected::holds_of;
use crate::given::line_of;
use report_rules::{Keeping, info_told, keeping_after};
use schedule_text::Line;
use segment_list::DiskInfo;
use std::process::Abort;

const DISK: DiskInfo = DiskInfo {
    sectors: 16,
    read_only: false,
    barrier: true,
    flush: true,
    discard: true,
    max_indirect: 960,
};

const READ_ONLY: DiskInfo = DiskInfo {
    sectors: 8,
    read_only: true,
    barrier: false,
    flush: false,
    discard: false,
    max_indirect: 32,
};

// What is told after a line.
#[derive(Clone, Copy)]
enum Told {
    // The disk, where another was told before.
    Disk(DiskInfo, DiskInfo),
    // Whether the back offered to keep grants and the front asked for it, where neither did before.
    Keeps(bool, bool),
}

fn is_kept(line: &Line, offered: bool, asked: bool) -> bool {
    let s = Keeping {
        offered: false,
        asked: false,
    };
    let s = keeping_after(s, line);
    s.offered == offered && s.asked == asked
}

fn is_told(line: &Line, told: Told) -> bool {
    match told {
        Told::Disk(before, after) => info_told(before, line) == after,
        Told::Keeps(offered, asked) => is_kept(line, offered, asked),
    }
}

const CASES: &[(&str, Told)] = &[
    // The options say what the disk is.
    (
        "begin 64 0 0 960 0 rw 16 moves",
        Told::Disk(READ_ONLY, DISK),
    ),
    ("begin 64 0 0 32 0 ro 8 moves", Told::Disk(DISK, READ_ONLY)),
    ("epoch", Told::Disk(DISK, DISK)),
    // No key changes them.
    (
        "m back setkey /local/domain/0/backend/vbd/1/51712/feature-barrier =0",
        Told::Disk(DISK, DISK),
    ),
    // Grants are kept where both ends publish 1.
    (
        "m back setkey /local/domain/0/backend/vbd/1/51712/feature-persistent =1",
        Told::Keeps(true, false),
    ),
    (
        "m back setkey /local/domain/0/backend/vbd/1/51712/feature-persistent =2",
        Told::Keeps(false, false),
    ),
    (
        "m back getkey /local/domain/1/device/vbd/51712/feature-persistent =01",
        Told::Keeps(false, true),
    ),
    (
        "m back getkey /local/domain/1/device/vbd/51712/feature-persistent",
        Told::Keeps(false, false),
    ),
    (
        "m front setkey /local/domain/1/device/vbd/51712/feature-persistent =1",
        Told::Keeps(false, false),
    ),
];

fn tell(rt: &impl Abort, cases: &[(&str, Told)]) {
    for (text, told) in cases {
        holds_of(rt, text, is_told(&line_of(rt, text), *told));
    }
}

#[test]
fn the_options_say_the_disk_and_the_keys_what_is_kept(rt: HostRuntime) {
    tell(&rt, CASES);
}
