// The command `check`.
ghost use Rattle.std.specs.Prelude.{◌≡◌};
ghost use Rattle.commands.specs.Check.{CheckEnds, check_stop};

use crate::status::Stop;
use crate::top::hand_on;
use blk_io::{Failed, Sink, Source};
use line_text::LineText;
use std::alloc::Global;
use trace_check::{CheckStop, Finding, check, write_finding};

/// Holds the report that the source gives against the rules, and writes what it finds: `legal`, or
/// `broken`, the number of the first line that breaks a rule, and the word of the first rule that it
/// breaks.
pub fn check_report<S: Source, O: Sink>(alloc: Global, src: &mut S, out: &mut O) -> Result<(), Stop>
    ensures { CheckEnds result (S.seen src.old) (S.seen src.new) (O.seen out.old) (O.seen out.new) }
{
    let finding = match check(alloc, 4_294_967_296, src) {
        Ok(finding) => finding,
        Err(stop) => return Err(check_stop(stop)),
    };
    let mut text = LineText::new();
    write_finding(finding, &mut text);
    if let Err(Failed) = out.write(text.as_str().as_bytes()) {
        return Err(Stop::Sink);
    }
    hand_on(out)?;
    match finding {
        Finding::Legal => Ok(()),
        Finding::Broken { .. } => Err(Stop::Broken),
    }
}

// Why the program stops where the check did.
fn check_stop(stop: CheckStop) -> Stop
    ensures { result ≡ check_stop stop }
{
    match stop {
        CheckStop::BadLine(number) => Stop::BadLine(number),
        CheckStop::Source => Stop::Source,
        CheckStop::TooLong => Stop::TooLong,
        CheckStop::OutOfMemory => Stop::OutOfMemory,
    }
}
