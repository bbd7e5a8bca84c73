// Rings of each layout and of many pages, and their dumps.
use super::report::{Case, EIGHT, Wanted, plays};
use blk_base::Abi;

// A write of one sector, after which the front closes.
const WRITE: &str = "settle
submit write 0 1 00000007
settle
close front
settle
";

const SHAPES: &[Case] = &[
    Case {
        name: "a ring of one page of the 32-bit layout is served",
        abi: Abi::X32,
        schedule: WRITE,
        report: Wanted::Whole(
            "begin 32 0 0 0 0 rw 8 lines
ready
quiet
submit 1 write 0 1 00000007
effect 1 0
reply 1 ok
answer 1 ok
quiet
closing
halt gone 5
closed
quiet
end
",
        ),
        ..EIGHT
    },
    Case {
        name: "a ring of two pages is served",
        order: 1,
        schedule: WRITE,
        report: Wanted::Whole(
            "begin 64 1 0 0 0 rw 8 lines
ready
quiet
submit 1 write 0 1 00000007
effect 1 0
reply 1 ok
answer 1 ok
quiet
closing
halt gone 5
closed
quiet
end
",
        ),
        ..EIGHT
    },
    Case {
        name: "a ring of eight pages of the 32-bit layout is served",
        abi: Abi::X32,
        order: 3,
        schedule: WRITE,
        report: Wanted::Whole(
            "begin 32 3 0 0 0 rw 8 lines
ready
quiet
submit 1 write 0 1 00000007
effect 1 0
reply 1 ok
answer 1 ok
quiet
closing
halt gone 5
closed
quiet
end
",
        ),
        ..EIGHT
    },
    Case {
        name: "a ring of sixteen pages is served",
        order: 4,
        schedule: WRITE,
        report: Wanted::Whole(
            "begin 64 4 0 0 0 rw 8 lines
ready
quiet
submit 1 write 0 1 00000007
effect 1 0
reply 1 ok
answer 1 ok
quiet
closing
halt gone 5
closed
quiet
end
",
        ),
        ..EIGHT
    },
];

#[test]
fn rings_of_each_layout_and_of_many_pages_are_served(rt: HostRuntime) {
    plays(&rt, rt.alloc(), SHAPES);
}

const DUMPS: &[Case] = &[
    Case {
        name: "a dump shows the words of the ring in order",
        start: 4294967295,
        schedule: "settle
submit write 0 1 00000007
settle
submit write 0 1 00000007
settle
submit write 0 1 00000007
settle
dump
",
        report: Wanted::BeginsWith(
            "begin 64 0 0 0 4294967295 rw 8 lines
ready
quiet
submit 1 write 0 1 00000007
effect 1 0
reply 1 ok
answer 1 ok
quiet
submit 2 write 0 1 00000007
effect 2 0
reply 2 ok
answer 2 ok
quiet
submit 3 write 0 1 00000007
effect 3 0
reply 3 ok
answer 3 ok
quiet
word 2 0 00000002
word 2 1 00000003
word 2 2 00000002
word 2 3 00000003
",
        ),
        ..EIGHT
    },
    Case {
        name: "a dump shows each page of the ring",
        order: 2,
        schedule: "settle
poke 5 1023 9
dump
",
        report: Wanted::EndsWith("word 5 1023 00000009\nend\n"),
        ..EIGHT
    },
];

#[test]
fn a_dump_shows_the_words_of_each_page_in_order(rt: HostRuntime) {
    plays(&rt, rt.alloc(), DUMPS);
}
