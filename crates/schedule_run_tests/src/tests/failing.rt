// Calls that the disk fails.
use super::report::{Case, EIGHT, Wanted, plays};

const FAILING: &[Case] = &[
    Case {
        name: "a write that the disk fails is answered with an error",
        writes: &[2],
        schedule: "settle
submit write 0 1 00000001
settle
submit write 1 1 00000002
settle
",
        report: Wanted::EndsWith(
            "
submit 2 write 1 1 00000002
fault 2 0
reply 2 error
answer 2 error
quiet
end
",
        ),
        ..EIGHT
    },
    Case {
        name: "a read of three sectors ends where the disk fails",
        reads: &[2],
        schedule: "settle
submit read 0 3
settle
",
        report: Wanted::Whole(
            "begin 64 0 0 0 0 rw 8 lines
ready
quiet
submit 1 read 0 3
effect 1 0 fill 00000000
fault 1 1
reply 1 error
answer 1 error
quiet
end
",
        ),
        ..EIGHT
    },
    Case {
        name: "a read that the disk fails shows no data",
        reads: &[1],
        schedule: "settle
submit read 0 1
settle
submit read 0 1
settle
",
        report: Wanted::Whole(
            "begin 64 0 0 0 0 rw 8 lines
ready
quiet
submit 1 read 0 1
fault 1 0
reply 1 error
answer 1 error
quiet
submit 2 read 0 1
effect 2 0 fill 00000000
reply 2 ok
answer 2 ok
data 2 0 fill 00000000
quiet
end
",
        ),
        ..EIGHT
    },
    Case {
        name: "a flush and a discard that the disk fails are answered with an error",
        flushes: &[1],
        trims: &[1],
        schedule: "settle
submit flush
settle
submit discard 0 8
settle
",
        report: Wanted::Whole(
            "begin 64 0 0 0 0 rw 8 lines
ready
quiet
submit 1 flush
fault 1 0
reply 1 error
answer 1 error
quiet
submit 2 discard 0 8
fault 2 0
reply 2 error
answer 2 error
quiet
end
",
        ),
        ..EIGHT
    },
];

#[test]
fn what_the_disk_fails_is_answered_with_an_error(rt: HostRuntime) {
    plays(&rt, rt.alloc(), FAILING);
}
