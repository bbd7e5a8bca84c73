// Rounds that go at once and rounds that go one by one.
use super::report::{Case, EIGHT, Wanted, plays};

const REPORT: &str = "begin 64 0 0 0 0 rw 8 lines
ready
quiet
submit 1 write 0 1 00000007
submit 2 write 1 1 00000008
word 2 0 00000001
word 2 1 00000002
word 2 3 00000001
word 2 16 ca000101
word 2 18 00000001
word 2 22 00000018
effect 1 0
reply 1 ok
answer 1 ok
effect 2 0
reply 2 ok
answer 2 ok
quiet
end
";

const ENTERED: &str = "begin 64 0 0 0 0 rw 8 lines
ready
quiet
submit 1 write 0 1 00000007
submit 2 write 1 1 00000008
word 2 0 00000001
word 2 1 00000002
word 2 3 00000001
word 2 16 ca000101
word 2 18 00000001
word 2 22 00000018
word 2 44 ca000101
word 2 46 00000002
word 2 48 00000001
effect 1 0
reply 1 ok
answer 1 ok
effect 2 0
reply 2 ok
answer 2 ok
quiet
end
";

// In the rounds after the first 165 the back copies the first entry while the front writes the second sector; in
// those after the first 296 the front writes the second entry, of which it wrote one word, while a job reads the first
// sector.
const TURNS: &[Case] = &[
    Case {
        name: "forty rounds at once",
        schedule: "settle
submit write 0 1 00000007
submit write 1 1 00000008
turn 165
turn 40
dump
settle
",
        report: Wanted::Whole(REPORT),
        ..EIGHT
    },
    Case {
        name: "forty rounds one by one",
        schedule: "settle
submit write 0 1 00000007
submit write 1 1 00000008
turn 165
turn 1
turn 1
turn 1
turn 1
turn 1
turn 1
turn 1
turn 1
turn 1
turn 1
turn 1
turn 1
turn 1
turn 1
turn 1
turn 1
turn 1
turn 1
turn 1
turn 1
turn 1
turn 1
turn 1
turn 1
turn 1
turn 1
turn 1
turn 1
turn 1
turn 1
turn 1
turn 1
turn 1
turn 1
turn 1
turn 1
turn 1
turn 1
turn 1
turn 1
dump
settle
",
        report: Wanted::Whole(REPORT),
        ..EIGHT
    },
    Case {
        name: "four words of an entry at once",
        schedule: "settle
submit write 0 1 00000007
submit write 1 1 00000008
turn 296
turn 4
dump
settle
",
        report: Wanted::Whole(ENTERED),
        ..EIGHT
    },
    Case {
        name: "four words of an entry one by one",
        schedule: "settle
submit write 0 1 00000007
submit write 1 1 00000008
turn 296
turn 1
turn 1
turn 1
turn 1
dump
settle
",
        report: Wanted::Whole(ENTERED),
        ..EIGHT
    },
];

#[test]
fn rounds_at_once_report_what_single_ones_do(rt: HostRuntime) {
    plays(&rt, rt.alloc(), TURNS);
}
