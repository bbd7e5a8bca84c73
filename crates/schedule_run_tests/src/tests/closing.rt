// Ends that are asked to close.
use super::report::{Case, EIGHT, Wanted, plays};

const CLOSING: &[Case] = &[
    Case {
        name: "a front that is asked to close finishes its request and takes no more",
        schedule: "settle
submit write 0 1 00000007
front 1000
close front
submit read 0 1
settle
",
        report: Wanted::Whole(
            "begin 64 0 0 0 0 rw 8 lines
ready
quiet
submit 1 write 0 1 00000007
closing
refuse closing
effect 1 0
reply 1 ok
answer 1 ok
halt gone 5
closed
quiet
end
",
        ),
        ..EIGHT
    },
    Case {
        name: "a back that is asked to close serves on until the front closes",
        schedule: "settle
submit write 0 1 00000007
front 1000
close back
settle
submit read 0 1
",
        report: Wanted::Whole(
            "begin 64 0 0 0 0 rw 8 lines
ready
quiet
submit 1 write 0 1 00000007
closing
effect 1 0
reply 1 ok
answer 1 ok
halt unplugged 5
closed
quiet
refuse closing
end
",
        ),
        ..EIGHT
    },
];

#[test]
fn an_end_that_is_asked_to_close_finishes_what_it_took(rt: HostRuntime) {
    plays(&rt, rt.alloc(), CLOSING);
}
