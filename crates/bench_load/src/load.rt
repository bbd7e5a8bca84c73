// The generated schedule, as a source of its text.
ghost use Rattle.std.specs.Prelude.{◌≡◌};
ghost use Rattle.bench_load.specs.Text.{IsShort, schedule_bytes, line_bytes};

use crate::schedule::BenchSchedule;
use blk_io::{Failed, Source};
use line_text::LineText;
use schedule_text::{Event, write_event};
use std::marker::Model;

/// The text of the generated schedule of a seed and a count: a source that never fails. It holds
/// the line in hand, how much of it is given, and what comes after it. A read gives bytes of one
/// line.
#[derive(Drop)]
pub struct BenchLoad {
    line: LineText,
    at: usize,
    rest: BenchSchedule,
}

impl Model for BenchLoad {
    ghost use Rattle.std.specs.Prelude.{ℕ, ◌≤◌, ◌++◌, List, drop, length};
    ghost use Rattle.bench_load.specs.Text.{bytes_of};

    ghost Value = { List ℕ };

    ghost view = { λ s. drop s.at s.line.bytes ++ bytes_of s.rest };

    ghost invariant = { λ s. s.at ≤ length s.line.bytes };
}

impl BenchLoad {
    /// A source that gives the text of the schedule of this seed and this count.
    pub fn new(seed: u64, count: u64) -> BenchLoad
        ensures { result ≡ schedule_bytes seed count }
    {
        BenchLoad {
            line: LineText::new(),
            at: 0,
            rest: BenchSchedule::new(seed, count),
        }
    }
}

impl Source for BenchLoad {
    ghost use Rattle.std.specs.Prelude.{Some};

    ghost seen = { λ s. record { left = Some s; faults = 0 } };

    fn read(&mut self, buf: &mut [u8]) -> Result<usize, Failed> {
        if self.at == self.line.len() {
            if let Some(event) = self.rest.next_event() {
                self.line = line_of(event);
                self.at = 0;
            }
        }
        let left = &self.line.as_str().as_bytes()[self.at..];
        let n = left.len().min(buf.len());
        buf[..n].copy_from_slice(&left[..n]);
        self.at += n;
        Ok(n)
    }
}

// The text of a line, with its line feed.
fn line_of(event: Event) -> LineText
    requires { IsShort event }
    ensures { result.bytes ≡ line_bytes event }
{
    let mut text = LineText::new();
    write_event(&event, &mut text);
    text.push_str("\n");
    text
}
