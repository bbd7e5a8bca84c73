// The lines of a report.
ghost use Rattle.std.specs.Prelude.{◌≡◌, ◌<◌, ◌^◌, []};
ghost use Rattle.report_lines.specs.Filling.{Ahead};
ghost use Rattle.report_lines.specs.Giving.{GivesLine, given};

use crate::reader::{LineReader, ReadStop};
use blk_io::Source;
use line_text::LineText;
use schedule_text::{BadLine, Line, read_line_into};
use std::alloc::Global;
use std::marker::Model;

/// The lines of a report that a source gives. Contracts see the bytes that were taken of the source
/// and not read yet, and how many more may be taken.
#[derive(Drop)]
pub struct ReportLines {
    reader: LineReader,
    text: LineText,
}

impl Model for ReportLines {
    ghost use Rattle.report_lines.specs.Filling.{Ahead};

    ghost Value = { Ahead };

    ghost view = { λ r. r.reader };
}

impl ReportLines {
    /// Before the first line; at most `bytes_limit` bytes will be taken of the source.
    pub fn new(alloc: Global, bytes_limit: u64) -> ReportLines
        ensures { result ≡ record { bytes = []; room = bytes_limit } }
    {
        ReportLines {
            reader: LineReader::new(alloc, bytes_limit),
            text: LineText::new(),
        }
    }

    /// The next line; `None` exactly where the source has come to its end after a whole line, or at
    /// once. `BadLine` exactly where what comes next is no line of a report, or lacks its line feed;
    /// `TooLong` where no more bytes may be taken and the line isn't whole; `Source` where the source
    /// failed, and `OutOfMemory` for want of memory. After an error no line is read any more: bytes
    /// may be lost.
    pub fn next<S: Source>(&mut self, source: &mut S) -> Result<Option<Line>, ReadStop>
        ensures { GivesLine result self.old self.new (S.seen source.old) (S.seen source.new) }
    {
        let mut line = Line::End;
        match self.next_into(source, &mut line) {
            Ok(true) => Ok(Some(line)),
            Ok(false) => Ok(None),
            Err(stop) => Err(stop),
        }
    }

    /// Puts the next line in place of `line`, which a reader of many lines keeps; `false`, and an
    /// error, come where `next` gives no line.
    pub fn next_into<S: Source>(
        &mut self,
        source: &mut S,
        line: &mut Line,
    ) -> Result<bool, ReadStop>
        ensures { GivesLine (given result line.new) self.old self.new (S.seen source.old) (S.seen source.new) }
    {
        let Some(count) = self.reader.fill(source)? else {
            return Ok(false);
        };
        match read_line_into(&self.reader.ahead()[..count], line, &mut self.text) {
            Ok(()) => {
                self.reader.skip(count + 1);
                Ok(true)
            }
            Err(BadLine) => Err(ReadStop::BadLine),
        }
    }
}
