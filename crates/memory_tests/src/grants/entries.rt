// Entries that were filled through the struct of Xen's own header.
use crate::expected::same;
use blk_base::Mode;
use grant_table::{MapRefusal, verdict};
use std::process::Abort;

// Flags, domain and frame of a `grant_entry_v1`, and its two words, as a program built with
// `xen/grant_table.h` (Debian's libxen-dev 4.17.7) printed them.
const ENTRIES: &[(u32, u32, u32, u32, u32)] = &[
    (5, 0, 3817016609, 0x00000005, 0xe3830d21),
    (5, 7058, 3842005179, 0x1b920005, 0xe50058bb),
    (5, 20220, 2654575169, 0x4efc0005, 0x9e399a41),
    (6733, 0, 610115413, 0x00001a4d, 0x245d9f55),
    (62563, 0, 298, 0x0000f463, 0x0000012a),
    (5, 0, 1244027861, 0x00000005, 0x4a265bd5),
    (1, 0, 895, 0x00000001, 0x0000037f),
    (61231, 0, 1544447792, 0x0000ef2f, 0x5c0e6730),
    (1, 35312, 2491525566, 0x89f00001, 0x9481a9be),
    (41762, 10252, 3555164671, 0x280ca322, 0xd3e781ff),
    (5, 0, 2335751645, 0x00000005, 0x8b38bddd),
    (5, 0, 3222006682, 0x00000005, 0xc00beb9a),
    (1, 48684, 2064241483, 0xbe2c0001, 0x7b09d34b),
    (7891, 61896, 117045603, 0xf1c81ed3, 0x06f9f963),
    (5, 27071, 675, 0x69bf0005, 0x000002a3),
    (1, 34987, 41, 0x88ab0001, 0x00000029),
    (1, 0, 1710333606, 0x00000001, 0x65f19ea6),
    (1, 30002, 899, 0x75320001, 0x00000383),
    (3081, 22482, 826, 0x57d20c09, 0x0000033a),
    (20176, 0, 322, 0x00004ed0, 0x00000142),
    (5, 9519, 805, 0x252f0005, 0x00000325),
    (60160, 0, 1090295440, 0x0000eb00, 0x40fc9690),
    (5, 0, 2531590535, 0x00000005, 0x96e50187),
    (37627, 0, 652, 0x000092fb, 0x0000028c),
    (1, 17195, 584, 0x432b0001, 0x00000248),
    (46828, 0, 1093057446, 0x0000b6ec, 0x4126bba6),
    (5, 31088, 146, 0x79700005, 0x00000092),
    (5, 0, 70, 0x00000005, 0x00000046),
    (1, 50976, 1436492984, 0xc7200001, 0x559f24b8),
    (38890, 0, 330, 0x000097ea, 0x0000014a),
    (1, 0, 193, 0x00000001, 0x000000c1),
    (5, 44101, 3980594484, 0xac450005, 0xed430d34),
    (5, 20712, 83, 0x50e80005, 0x00000053),
    (38611, 0, 935, 0x000096d3, 0x000003a7),
    (5, 0, 123619891, 0x00000005, 0x075e4a33),
    (16086, 0, 2469554919, 0x00003ed6, 0x93326ae7),
    (21080, 59609, 1397515107, 0xe8d95258, 0x534c6363),
    (1, 54665, 562, 0xd5890001, 0x00000232),
    (9245, 51732, 1594127501, 0xca14241d, 0x5f04748d),
    (30221, 0, 637, 0x0000760d, 0x0000027d),
    (1, 36913, 2734748089, 0x90310001, 0xa300f1b9),
    (5, 41683, 1733382514, 0xa2d30005, 0x67515172),
    (1, 33862, 342, 0x84460001, 0x00000156),
    (5, 43463, 868, 0xa9c70005, 0x00000364),
    (5, 33545, 891, 0x83090005, 0x0000037b),
    (1, 38483, 332, 0x96530001, 0x0000014c),
    (1, 42987, 419, 0xa7eb0001, 0x000001a3),
    (58065, 59258, 4071552429, 0xe77ae2d1, 0xf2aef5ad),
];

// What a map of an entry with these fields is answered.
fn expected(flags: u32, domid: u32, frame: u32, mode: Mode) -> Result<u32, MapRefusal> {
    let permits = flags % 4 == 1 && flags / 32 == 0 && domid == 0;
    let in_mode = mode == Mode::ReadOnly || flags / 4 % 2 == 0;
    if permits && in_mode && frame >= 2 && frame <= 1023 {
        Ok(frame)
    } else {
        Err(MapRefusal::General)
    }
}

// A map of a reference whose entry has these words is answered so.
fn judges(
    rt: &impl Abort,
    (gref, word0, word1): (u32, u32, u32),
    mode: Mode,
    wanted: Result<u32, MapRefusal>,
) {
    let found = verdict(gref, word0, word1, mode);
    assert!(rt; found == wanted, "{gref} {word0:08x} {word1:08x}");
}

// The words of each entry, its flags alone and its domain alone are judged as its fields say.
fn judges_fields(rt: &impl Abort, entries: &[(u32, u32, u32, u32, u32)], mode: Mode) {
    for (flags, domid, frame, word0, word1) in entries {
        let low = *word0 % 65536;
        let (whole, by_flags, by_domain) = (
            expected(*flags, *domid, *frame, mode),
            expected(*flags, 0, 895, mode),
            expected(1, *domid, 895, mode),
        );
        judges(rt, (24, *word0, *word1), mode, whole);
        judges(rt, (24, low, 895), mode, by_flags);
        judges(rt, (24, *word0 - low + 1, 895), mode, by_domain);
    }
}

#[test]
fn judges_the_fields_that_the_header_wrote(rt: HostRuntime) {
    judges_fields(&rt, ENTRIES, Mode::ReadOnly);
    judges_fields(&rt, ENTRIES, Mode::ReadWrite);
}

type Answer = Result<u32, MapRefusal>;

const GENERAL: Answer = Err(MapRefusal::General);

const UNKNOWN: Answer = Err(MapRefusal::BadRef);

// A reference and the two words of its entry, and how a map for reading and one for writing are answered.
const ROWS: &[(u32, u32, u32, Answer, Answer)] = &[
    // no such reference, whatever stands there
    (1024, 1, 895, UNKNOWN, UNKNOWN),
    (4294967295, 0, 0, UNKNOWN, UNKNOWN),
    // granted, for both modes or for reading
    (1023, 0x1, 0x37f, Ok(895), Ok(895)),
    (24, 0x1, 0xc1, Ok(193), Ok(193)),
    (24, 0x5, 0x46, Ok(70), GENERAL),
    // a mapping that lives doesn't stand in the way of another
    (24, 0x19, 2, Ok(2), Ok(2)),
    // of another type: invalid, transfer, transitive
    (24, 0x0, 18, GENERAL, GENERAL),
    (24, 0x2, 18, GENERAL, GENERAL),
    (24, 0x3, 18, GENERAL, GENERAL),
    // with another flag: GTF_PWT, GTF_sub_page, bit 15
    (24, 0x21, 18, GENERAL, GENERAL),
    (24, 0x101, 18, GENERAL, GENERAL),
    (24, 0x8001, 18, GENERAL, GENERAL),
    // for another domain
    (24, 0x10001, 18, GENERAL, GENERAL),
    (24, 0x89f00001, 18, GENERAL, GENERAL),
    // frames of the table itself, and those past the guest's own
    (24, 0x1, 1, GENERAL, GENERAL),
    (24, 0x1, 1024, GENERAL, GENERAL),
    (24, 0x1, 0xe3830d21, GENERAL, GENERAL),
];

fn answers(rt: &impl Abort, rows: &[(u32, u32, u32, Answer, Answer)]) {
    for (gref, word0, word1, for_reading, for_writing) in rows {
        let entry = (*gref, *word0, *word1);
        judges(rt, entry, Mode::ReadOnly, *for_reading);
        judges(rt, entry, Mode::ReadWrite, *for_writing);
    }
}

#[test]
fn answers_by_the_first_row_that_applies(rt: HostRuntime) {
    answers(&rt, ROWS);
}

#[test]
fn refusals_have_the_statuses_of_the_header(rt: HostRuntime) {
    same(&rt, MapRefusal::General.status(), -1);
    same(&rt, MapRefusal::BadRef.status(), -3);
}
