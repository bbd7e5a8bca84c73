// A report is checked line by line.
ghost use Rattle.std.specs.Prelude.{◌≡◌, ◌≤◌};
ghost use Rattle.trace_check.specs.Found.{Finds, stop_at, finding_at};

use crate::trace::Trace;
use blk_base::OutOfMemory;
use blk_io::Source;
use checked_rules::Rule;
use report_lines::{ReadStop, ReportLines};
use schedule_text::Line;
use std::alloc::Global;

/// What a check finds.
#[derive(Clone, Copy, PartialEq, Eq)]
pub enum Finding {
    /// Each line keeps all rules, and the last is `end`.
    Legal,
    /// The first line that breaks a rule, from 1, and the first rule that it breaks; where a report
    /// ends without `end`, the line after its last breaks `Rule::Order`.
    Broken { line: u64, rule: Rule },
}

/// Why a check finds nothing.
#[derive(Clone, Copy, PartialEq, Eq)]
pub enum CheckStop {
    /// This line, from 1, is no line of a report, or lacks its line feed.
    BadLine(u64),
    /// The source failed.
    Source,
    /// As many bytes were taken as may be.
    TooLong,
    /// There is not enough memory.
    OutOfMemory,
}

impl From<OutOfMemory> for CheckStop {
    ghost use Rattle.trace_check.specs.declared.finding.CheckStop.TheVariants.{OutOfMemory};

    ghost from_gives = { λ _ stop. stop ≡ OutOfMemory };

    fn from(_e: OutOfMemory) -> CheckStop {
        CheckStop::OutOfMemory
    }
}

// Why no line could be read where the line of this number was to come.
fn stop_at(number: u64, stop: ReadStop) -> CheckStop
    ensures { result ≡ stop_at number stop }
{
    match stop {
        ReadStop::BadLine => CheckStop::BadLine(number),
        ReadStop::Source => CheckStop::Source,
        ReadStop::TooLong => CheckStop::TooLong,
        ReadStop::OutOfMemory => CheckStop::OutOfMemory,
    }
}

// The finding where the source has come to its end, and the line of this number was to come.
fn finding_at(number: u64, ended: bool) -> Finding
    ensures { result ≡ finding_at number ended }
{
    if ended {
        Finding::Legal
    } else {
        Finding::Broken {
            line: number,
            rule: Rule::Order,
        }
    }
}

/// Reads a report of the source, in its bytes up to `bytes_limit`, which is at most 4294967296, and
/// finds the first line that breaks a rule. It reads up to that line, or to the source's end.
/// `BadLine` where a line comes first that is none of a report; `Source` where the source failed;
/// `TooLong` where `bytes_limit` bytes were taken and neither the end nor such a line came;
/// `OutOfMemory` for want of memory.
pub fn check<S: Source>(
    alloc: Global,
    bytes_limit: u64,
    source: &mut S,
) -> Result<Finding, CheckStop>
    requires limit { bytes_limit ≤ 4294967296 }
    ensures finds { Finds bytes_limit result (S.seen source.old) (S.seen source.new) }
{
    let mut report = ReportLines::new(alloc, bytes_limit);
    let mut trace = Trace::new(alloc);
    let mut line = Line::End;
    let mut number = 1;
    loop {
        match report.next_into(source, &mut line) {
            Ok(true) => {}
            Ok(false) => return Ok(finding_at(number, trace.has_ended())),
            Err(stop) => return Err(stop_at(number, stop)),
        }
        if let Some(rule) = trace.take(&line)? {
            return Ok(Finding::Broken { line: number, rule });
        }
        number += 1;
    }
}
