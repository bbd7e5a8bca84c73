// The line of a finding.
ghost use Rattle.std.specs.Prelude.{◌≡◌};
ghost use Rattle.trace_check.specs.Text.{finding_line};

use crate::finding::Finding;
use line_text::{LineText, put_number};

/// Writes the line of a finding, with its line feed: `legal`, or `broken`, the number of the line and
/// the word of the rule.
pub fn write_finding(finding: Finding, text: &mut LineText)
    ensures { text.new.bytes ≡ finding_line finding }
{
    text.clear();
    match finding {
        Finding::Legal => text.push_str("legal\n"),
        Finding::Broken { line, rule } => {
            text.push_str("broken");
            put_number(text, line);
            text.push_str(" ");
            text.push_str(rule.word());
            text.push_str("\n");
        }
    }
}
