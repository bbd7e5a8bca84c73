// The summary of a run.
ghost use Rattle.std.specs.Prelude.{◌≡◌, ◌≤◌, ◌+◌, ◌++◌, length};
ghost use Rattle.arrayvec.specs.ArrayString.{array_string_len};
ghost use Rattle.bench_load.specs.Summary.{summary_of, count_line, word_line};

use line_text::{LineText, put_number};
use schedule_text::{RoundsEnd, Tally};

/// Writes the summary of a tally: `submitted`, `refused`, `effects` and `answered` with their counts,
/// and the last word of `quiet` and `unsettled`, each on a line of its own.
pub fn write_summary(tally: &Tally, text: &mut LineText)
    ensures { text.new.bytes ≡ summary_of tally.now }
{
    text.clear();
    add_count(text, "submitted", tally.submitted);
    add_count(text, "refused", tally.refused);
    add_count(text, "effects", tally.effects);
    add_count(text, "answered", tally.answered);
    text.push_str(word_line(tally.last));
}

// Adds the line of a count.
fn add_count(text: &mut LineText, name: &str, count: u64)
    requires { array_string_len text.old + length name.now + 22 ≤ 1152 }
    ensures bytes { text.new.bytes ≡ text.old.bytes ++ count_line name.now count }
    ensures len { array_string_len text.new ≤ array_string_len text.old + length name.now + 22 }
{
    text.push_str(name);
    put_number(text, count);
    text.push_str("\n");
}

// The line of the last word.
fn word_line(last: Option<RoundsEnd>) -> &'static str
    ensures line { result.now ≡ word_line last }
    ensures short { length result.now ≤ 10 }
{
    match last {
        None => "",
        Some(RoundsEnd::Quiet) => "quiet\n",
        Some(RoundsEnd::Unsettled) => "unsettled\n",
    }
}
