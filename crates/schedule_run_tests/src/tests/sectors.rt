// Sectors that are written, read and discarded, and requests that are refused.
use super::report::{Case, EIGHT, Wanted, plays, report_of};
use crate::expected::same;
use std::alloc::Global;
use std::process::Abort;

const SERVED: &[Case] = &[
    Case {
        name: "one sector is written and answered",
        schedule: "settle
submit write 0 1 00000007
settle
",
        report: Wanted::Whole(
            "begin 64 0 0 0 0 rw 8 lines
ready
quiet
submit 1 write 0 1 00000007
effect 1 0
reply 1 ok
answer 1 ok
quiet
end
",
        ),
        ..EIGHT
    },
    Case {
        name: "a read shows what the disk holds",
        schedule: "settle
submit write 0 1 00000007
settle
submit read 0 1
settle
",
        report: Wanted::EndsWith(
            "
quiet
submit 2 read 0 1
effect 2 0 fill 00000007
reply 2 ok
answer 2 ok
data 2 0 fill 00000007
quiet
end
",
        ),
        ..EIGHT
    },
    Case {
        name: "nine sectors are written and read back",
        sectors: 9,
        schedule: "settle
submit write 0 9 fffffffe
settle
submit read 0 9
settle
",
        report: Wanted::Whole(
            "begin 64 0 0 0 0 rw 9 lines
ready
quiet
submit 1 write 0 9 fffffffe
effect 1 0
effect 1 1
effect 1 2
effect 1 3
effect 1 4
effect 1 5
effect 1 6
effect 1 7
effect 1 8
reply 1 ok
answer 1 ok
quiet
submit 2 read 0 9
effect 2 0 fill fffffffe
effect 2 1 fill ffffffff
effect 2 2 fill 00000000
effect 2 3 fill 00000001
effect 2 4 fill 00000002
effect 2 5 fill 00000003
effect 2 6 fill 00000004
effect 2 7 fill 00000005
effect 2 8 fill 00000006
reply 2 ok
answer 2 ok
data 2 0 fill fffffffe
data 2 1 fill ffffffff
data 2 2 fill 00000000
data 2 3 fill 00000001
data 2 4 fill 00000002
data 2 5 fill 00000003
data 2 6 fill 00000004
data 2 7 fill 00000005
data 2 8 fill 00000006
quiet
end
",
        ),
        ..EIGHT
    },
    Case {
        name: "a discarded sector reads as zeros",
        schedule: "settle
submit write 0 2 00000005
settle
submit discard 0 1
settle
submit read 0 2
settle
",
        report: Wanted::EndsWith(
            "
submit 2 discard 0 1
trimmed 2
reply 2 ok
answer 2 ok
quiet
submit 3 read 0 2
effect 3 0 fill 00000000
effect 3 1 fill 00000006
reply 3 ok
answer 3 ok
data 3 0 fill 00000000
data 3 1 fill 00000006
quiet
end
",
        ),
        ..EIGHT
    },
];

#[test]
fn sectors_are_written_read_back_and_discarded(rt: HostRuntime) {
    plays(&rt, rt.alloc(), SERVED);
}

const REFUSED: &[Case] = &[
    Case {
        name: "a read past the end of the disk is refused",
        schedule: "settle
submit read 7 1
submit read 8 1
settle
",
        report: Wanted::Whole(
            "begin 64 0 0 0 0 rw 8 lines
ready
quiet
submit 1 read 7 1
refuse range
effect 1 0 fill 00000000
reply 1 ok
answer 1 ok
data 1 0 fill 00000000
quiet
end
",
        ),
        ..EIGHT
    },
    Case {
        name: "more sectors than an entry names are refused",
        sectors: 200,
        schedule: "settle
submit read 0 89
submit write 112 89 00000000
submit read 0 201
submit read 112 88
",
        report: Wanted::Whole(
            "begin 64 0 0 0 0 rw 200 lines
ready
quiet
refuse long
refuse range
refuse range
submit 1 read 112 88
end
",
        ),
        ..EIGHT
    },
    Case {
        name: "a discard and a barrier out of range are refused, and a flush is served",
        schedule: "settle
submit discard 7 2
submit barrier 0 89 00000000
submit flush
settle
",
        report: Wanted::Whole(
            "begin 64 0 0 0 0 rw 8 lines
ready
quiet
refuse range
refuse range
submit 1 flush
flushed 1
reply 1 ok
answer 1 ok
quiet
end
",
        ),
        ..EIGHT
    },
];

#[test]
fn requests_past_the_end_or_of_too_many_sectors_are_refused(rt: HostRuntime) {
    plays(&rt, rt.alloc(), REFUSED);
}

// The whole report of a case has each byte of the one sector that it reads, twice.
fn shows_each_byte(rt: &impl Abort, alloc: Global, case: &Case) {
    let sector = format!(in alloc; "01{:0>1022}", "").expect(rt, "memory");
    let wanted = format!(in alloc;
        "begin 64 0 0 0 0 rw 1 lines\nready\nquiet\nsubmit 1 read 0 1\neffect 1 0 {sector}\nreply 1 ok\nanswer 1 ok\ndata 1 0 {sector}\nquiet\nend\n"
    ).expect(rt, "memory");
    same(rt, report_of(rt, alloc, case).bytes(), wanted.as_bytes());
}

#[test]
fn a_read_shows_each_byte_of_its_sector(rt: HostRuntime) {
    let case = Case {
        sectors: 1,
        word: 1,
        schedule: "settle\nsubmit read 0 1\nsettle\n",
        ..EIGHT
    };
    shows_each_byte(&rt, rt.alloc(), &case);
}
