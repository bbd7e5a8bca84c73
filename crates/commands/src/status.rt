// Why the program stops, its exit status, and what it then says.
ghost use Rattle.std.specs.Prelude.{◌≡◌, ◌+◌, ◌≤◌, ◌++◌, length, decimal, Some, option_map};
ghost use Rattle.arrayvec.specs.ArrayString.{array_string_len};
ghost use Rattle.commands.specs.Status.{status_of, error_line, line_of};

use arrayvec::ArrayString;
use blk_base::OutOfMemory;
use itoa::Buffer;
use std::alloc::AllocError;

/// A line of the error output.
pub type ErrorLine = ArrayString<96>;

/// Why the status of the program isn't 0.
#[derive(Clone, Copy)]
pub enum Stop {
    /// A line of the report breaks a rule. The output says which, and the error output nothing.
    Broken,
    /// The input has `count` bytes and not the `expected` ones, where one too many stand for more.
    Length { count: u64, expected: u64 },
    /// The words of the command line ask for nothing, or for help.
    Words,
    /// The schedule's line of this number isn't one that is carried out.
    BadLine(u64),
    /// The input failed.
    Source,
    /// The output failed.
    Sink,
    /// There was no memory.
    OutOfMemory,
    /// The image failed where it was attached.
    Image,
    /// 4294967296 bytes of the schedule were taken, and the input didn't end before.
    TooLong,
}

impl From<AllocError> for Stop {
    ghost use Rattle.commands.specs.declared.status.Stop.TheVariants.{OutOfMemory};

    ghost from_gives = { λ _ stop. stop ≡ OutOfMemory };

    fn from(_e: AllocError) -> Stop {
        Stop::OutOfMemory
    }
}

impl From<OutOfMemory> for Stop {
    ghost use Rattle.commands.specs.declared.status.Stop.TheVariants.{OutOfMemory};

    ghost from_gives = { λ _ stop. stop ≡ OutOfMemory };

    fn from(_e: OutOfMemory) -> Stop {
        Stop::OutOfMemory
    }
}

impl Stop {
    /// The exit status.
    pub fn status(self) -> u8
        ensures { result ≡ status_of self }
    {
        match self {
            Stop::Broken | Stop::Length { .. } => 1,
            Stop::Words => 2,
            Stop::BadLine(_) => 3,
            Stop::Source => 4,
            Stop::Sink => 5,
            Stop::OutOfMemory => 6,
            Stop::Image => 7,
            Stop::TooLong => 8,
        }
    }

    /// The line of the error output, with its line feed; none where a report breaks a rule.
    pub fn line(self) -> Option<ErrorLine>
        ensures { option_map (λ line. line.bytes) result ≡ line_of self }
    {
        let line = match self {
            Stop::Broken => return None,
            Stop::Length { count, expected } => length_line(count, expected),
            Stop::Words => plain_line("bad command line"),
            Stop::BadLine(number) => bad_line(number),
            Stop::Source => plain_line("the input failed"),
            Stop::Sink => plain_line("the output failed"),
            Stop::OutOfMemory => plain_line("out of memory"),
            Stop::Image => plain_line("the image failed"),
            Stop::TooLong => plain_line("the input is too long"),
        };
        Some(line)
    }
}

fn plain_line(reason: &str) -> ErrorLine
    requires { length reason.now ≤ 32 }
    ensures { result.bytes ≡ error_line reason.now }
{
    let mut line = ErrorLine::new();
    line.push_str("blkring: ");
    line.push_str(reason);
    line.push_str("\n");
    line
}

fn length_line(count: u64, expected: u64) -> ErrorLine
    ensures { Some result.bytes ≡ line_of (Stop.Length count expected) }
{
    let mut line = ErrorLine::new();
    line.push_str("blkring: ");
    put(&mut line, count);
    line.push_str(" bytes, expected ");
    put(&mut line, expected);
    line.push_str("\n");
    line
}

fn bad_line(number: u64) -> ErrorLine
    ensures { Some result.bytes ≡ line_of (Stop.BadLine number) }
{
    let mut line = ErrorLine::new();
    line.push_str("blkring: line ");
    put(&mut line, number);
    line.push_str(": not in the grammar");
    line.push_str("\n");
    line
}

// Adds a decimal number.
fn put(line: &mut ErrorLine, number: u64)
    requires { array_string_len line.old + 20 ≤ 96 }
    ensures added { line.new.bytes ≡ line.old.bytes ++ decimal number }
    ensures short { array_string_len line.new ≤ array_string_len line.old + 20 }
{
    let mut buffer = Buffer::new();
    line.push_str(buffer.format(number));
}
