// Words and keys that a hostile hand overwrites.
use super::report::{Case, EIGHT, Wanted, plays};

const HALTS: &[Case] = &[
    Case {
        name: "a producer that overruns halts the back",
        schedule: "settle
poke 2 0 33
notify back
settle
",
        report: Wanted::Whole(
            "begin 64 0 0 0 0 rw 8 lines
ready
quiet
poke 2 0 33
halt overrun 33 0
closing
closed
quiet
end
",
        ),
        ..EIGHT
    },
    Case {
        name: "a key that says a state out of order halts the back",
        schedule: "settle
key state 7
settle
",
        report: Wanted::Whole(
            "begin 64 0 0 0 0 rw 8 lines
ready
quiet
key state 7
halt badorder 7
closing
closed
quiet
end
",
        ),
        ..EIGHT
    },
    Case {
        name: "a key that says closed halts the back",
        schedule: "settle
key state 6
settle
",
        report: Wanted::Whole(
            "begin 64 0 0 0 0 rw 8 lines
ready
quiet
key state 6
halt gone 6
closing
closed
quiet
end
",
        ),
        ..EIGHT
    },
    Case {
        name: "a key that says no state halts the back",
        schedule: "settle
key state x
settle
",
        report: Wanted::Whole(
            "begin 64 0 0 0 0 rw 8 lines
ready
quiet
key state x
halt badkey state
closing
closed
quiet
end
",
        ),
        ..EIGHT
    },
];

#[test]
fn an_overrun_and_a_bad_state_halt_the_back(rt: HostRuntime) {
    plays(&rt, rt.alloc(), HALTS);
}

const ENTRIES: &[Case] = &[
    Case {
        name: "an operation changed while its entry is fetched is served as first read",
        schedule: "settle
submit write 0 1 00000007
front 163
back 3
poke 2 16 3388997888
settle
",
        report: Wanted::Whole(
            "begin 64 0 0 0 0 rw 8 lines
ready
quiet
submit 1 write 0 1 00000007
poke 2 16 3388997888
effect 1 0
reply 1 ok
answer 1 ok
quiet
end
",
        ),
        ..EIGHT
    },
    Case {
        name: "an id that nobody has breaks the front",
        schedule: "settle
submit write 0 1 00000007
front 1000
poke 2 18 9
settle
",
        report: Wanted::Whole(
            "begin 64 0 0 0 0 rw 8 lines
ready
quiet
submit 1 write 0 1 00000007
poke 2 18 9
effect 9 0
reply 9 ok
broken 00000009
quiet
end
",
        ),
        ..EIGHT
    },
    Case {
        name: "a grant taken away before the map is an error",
        schedule: "settle
submit write 0 1 00000007
front 1000
poke 0 48 0
settle
",
        report: Wanted::Whole(
            "begin 64 0 0 0 0 rw 8 lines
ready
quiet
submit 1 write 0 1 00000007
poke 0 48 0
reply 1 error
answer 1 error
quiet
end
",
        ),
        ..EIGHT
    },
];

#[test]
fn an_entry_or_its_grant_that_is_overwritten_is_served_or_told(rt: HostRuntime) {
    plays(&rt, rt.alloc(), ENTRIES);
}
