// Moves in other orders than a settle makes them.
use super::report::{Case, EIGHT, Wanted, plays};
use schedule_text::Detail;

const JOBS: &[Case] = &[
    Case {
        name: "jobs of several segments are served in another order",
        sectors: 9,
        schedule: "settle
submit write 0 9 00000001
submit write 7 2 00000010
front 4000
back 4000
job 2 4000
job 1 4000
back 4000
submit read 7 2
settle
",
        report: Wanted::EndsWith(
            "
effect 1 8
reply 1 ok
reply 2 ok
submit 3 read 7 2
answer 1 ok
answer 2 ok
effect 3 0 fill 00000008
effect 3 1 fill 00000009
reply 3 ok
answer 3 ok
data 3 0 fill 00000008
data 3 1 fill 00000009
quiet
end
",
        ),
        ..EIGHT
    },
    Case {
        name: "a barrier stands between jobs that are moved against their order",
        schedule: "settle
submit write 0 1 00000001
submit barrier 1 1 00000002
submit write 2 1 00000003
front 1000
back 1000
job 3 1000
job 2 1000
job 1 1000
job 3 1000
job 2 1000
job 3 1000
back 1000
settle
",
        report: Wanted::Whole(
            "begin 64 0 0 0 0 rw 8 lines
ready
quiet
submit 1 write 0 1 00000001
submit 2 barrier 1 1 00000002
submit 3 write 2 1 00000003
effect 1 0
effect 2 0
effect 3 0
reply 1 ok
reply 2 ok
reply 3 ok
answer 1 ok
answer 2 ok
answer 3 ok
quiet
end
",
        ),
        ..EIGHT
    },
    Case {
        name: "a suspend between an effect and its reply issues again in order of number",
        schedule: "settle
submit write 0 1 00000001
submit write 0 1 00000002
front 1000
back 1000
job 2 1000
suspend
settle
",
        report: Wanted::Whole(
            "begin 64 0 0 0 0 rw 8 lines
ready
quiet
submit 1 write 0 1 00000001
submit 2 write 0 1 00000002
effect 2 0
epoch
ready
effect 1 0
reply 1 ok
answer 1 ok
effect 2 0
reply 2 ok
answer 2 ok
quiet
end
",
        ),
        ..EIGHT
    },
];

#[test]
fn jobs_that_are_moved_in_another_order_obey_barriers_and_suspends(rt: HostRuntime) {
    plays(&rt, rt.alloc(), JOBS);
}

const PUSHES: &[Case] = &[
    Case {
        name: "the first push sends an event",
        detail: Detail::Moves,
        schedule: "settle
submit write 0 1 00000001
front 163
",
        report: Wanted::EndsWith(
            "
m front read 2 1 00000001
m front send
end
",
        ),
        ..EIGHT
    },
    Case {
        name: "the second push sends none",
        detail: Detail::Moves,
        schedule: "settle
submit write 0 1 00000001
front 163
back 2
submit write 1 1 00000002
front 162
",
        report: Wanted::EndsWith(
            "
m front write 2 0 00000002
m front fence
m front read 2 1 00000001
end
",
        ),
        ..EIGHT
    },
];

#[test]
fn the_first_push_sends_an_event_and_the_second_none(rt: HostRuntime) {
    plays(&rt, rt.alloc(), PUSHES);
}
