// The lines of a source, one by one.
ghost use Rattle.std.specs.Prelude.{◌≡◌, ◌≢◌, ◌≤◌, ◌<◌, ◌+◌, ◌++◌, [], length, take, drop, IfOk, IfErr, OnOk, OnErr, IfSome, IfNone, Some, None};
ghost use Rattle.blk_io.specs.Outside.{SourceSeen, ReadsBytes};
ghost use Rattle.report_lines.specs.Text.{HasNoLineFeed};
ghost use Rattle.report_lines.specs.Filling.{IsLineAhead, TakesMore, FillsLine};

use blk_io::{Failed, Source};
use memchr::memchr;
use std::alloc::{AllocError, Global};
use std::marker::Model;
use std::mem::swap;

// How many bytes are asked of the source at once.
const PIECE: usize = 16384;

// How many bytes a line has at most.
const LONGEST: usize = 1152;

/// Why no line is ahead.
#[derive(Clone, Copy, PartialEq, Eq)]
pub enum ReadStop {
    /// The bytes ahead are no line, however they go on.
    BadLine,
    /// The source failed.
    Source,
    /// No more bytes may be taken.
    TooLong,
    /// There is not enough memory.
    OutOfMemory,
}

impl From<AllocError> for ReadStop {
    ghost use Rattle.report_lines.specs.declared.reader.ReadStop.TheVariants.{OutOfMemory};

    ghost from_gives = { λ _ stop. stop ≡ OutOfMemory };

    fn from(_e: AllocError) -> ReadStop {
        ReadStop::OutOfMemory
    }
}

/// The bytes of a source that were taken and not yet read as lines, and how many may still be taken.
#[derive(Drop)]
pub struct LineReader {
    bytes: Vec<u8>,
    start: usize,
    spare: Vec<u8>,
    room: u64,
}

impl Model for LineReader {
    ghost use Rattle.std.specs.Prelude.{drop, ◌≤◌, length};
    ghost use Rattle.report_lines.specs.Filling.{Ahead};

    ghost Value = { Ahead };

    ghost view = { λ r. record { bytes = drop r.start r.bytes.items; room = r.room } };

    ghost invariant = { λ r. r.start ≤ length r.bytes.items };
}

// The place of the first line feed.
fn first_feed(bytes: &[u8]) -> Option<usize>
    ensures found { IfSome result (λ n. IsLineAhead n bytes.now) }
    ensures none { IfNone result (HasNoLineFeed bytes.now) }
{
    memchr(b'\n', bytes)
}

// Puts bytes in place of the first of others.
fn put_first(others: &mut [u8], bytes: &[u8])
    requires { length bytes.now ≤ length others.old }
    ensures put { take (length bytes.now) others.new ≡ bytes.now }
    ensures long { length others.new ≡ length others.old }
{
    others[..bytes.len()].copy_from_slice(bytes);
}

// Makes `spare` begin with bytes, and gives it so many more after them: what those are isn't said.
fn begin_with(spare: &mut Vec<u8>, bytes: &[u8], more: usize) -> Result<(), ReadStop>
    requires { more ≤ 16384 }
    ensures begun { OnOk result (take (length bytes.now) spare.new.items ≡ bytes.now) }
    ensures long { OnOk result (length spare.new.items ≡ length bytes.now + more) }
    ensures lack { IfErr result (λ stop. stop ≡ ReadStop.OutOfMemory) }
{
    spare.resize(bytes.len() + more, 0)?;
    put_first(spare.as_mut_slice(), bytes);
    Ok(())
}

// Reads bytes of a source to the place after the first ones of `spare`.
fn read_after<S: Source>(kept: usize, spare: &mut Vec<u8>, source: &mut S) -> Result<usize, Failed>
    requires { kept ≤ length spare.old.items }
    ensures read { ReadsBytes (drop kept spare.new.items) result (S.seen source.old) (S.seen source.new) }
    ensures before { take kept spare.new.items ≡ take kept spare.old.items }
    ensures long { length spare.new.items ≡ length spare.old.items }
{
    source.read(&mut spare.as_mut_slice()[kept..])
}

impl LineReader {
    /// Nothing is ahead, and so many bytes may be taken.
    pub fn new(alloc: Global, room: u64) -> LineReader
        ensures { result ≡ record { bytes = []; room = room } }
    {
        LineReader {
            bytes: Vec::new(alloc),
            start: 0,
            spare: Vec::new(alloc),
            room,
        }
    }

    /// The bytes that are ahead.
    pub fn ahead(&self) -> &[u8]
        ensures { result.now ≡ self.now.bytes }
    {
        &self.bytes.as_slice()[self.start..]
    }

    /// Goes past so many of the bytes ahead.
    pub fn skip(&mut self, count: usize)
        requires { count ≤ length self.old.bytes }
        ensures { self.new ≡ record self.old { bytes = drop count self.old.bytes } }
    {
        self.start += count;
    }

    // Takes more bytes of the source; `false` says that it has come to its end. Its bytes are read to
    // where they stay, after those ahead: none of them is copied, and no place is cleared for them but
    // the first time.
    #[inline(never)]
    fn take_more<S: Source>(&mut self, source: &mut S) -> Result<bool, ReadStop>
        requires { 0 < self.old.room }
        ensures { TakesMore result self.old self.new (S.seen source.old) (S.seen source.new) }
    {
        let kept = self.bytes.len() - self.start;
        let most = self.room.min(PIECE as u64) as usize;
        begin_with(&mut self.spare, &self.bytes.as_slice()[self.start..], most)?;
        let count = match read_after(kept, &mut self.spare, source) {
            Ok(count) => count,
            Err(Failed) => return Err(ReadStop::Source),
        };
        if count == 0 {
            return Ok(false);
        }
        self.room -= count as u64;
        self.spare.truncate(kept + count);
        swap(&mut self.bytes, &mut self.spare);
        self.start = 0;
        Ok(true)
    }

    /// Takes bytes of the source until a line is ahead, and answers how many bytes it has before its
    /// line feed; `None` where the source has come to its end and no line is begun.
    pub fn fill<S: Source>(&mut self, source: &mut S) -> Result<Option<usize>, ReadStop>
        ensures { FillsLine result self.old self.new (S.seen source.old) (S.seen source.new) }
    {
        loop {
            if let Some(count) = first_feed(self.ahead()) {
                return Ok(Some(count));
            }
            if self.ahead().len() > LONGEST {
                return Err(ReadStop::BadLine);
            }
            if self.room == 0 {
                return Err(ReadStop::TooLong);
            }
            if !self.take_more(source)? {
                return self.end();
            }
        }
    }

    // The source has come to its end.
    fn end(&self) -> Result<Option<usize>, ReadStop>
        ensures whole { IfOk result (λ more. (more ≡ None) × (self.now.bytes ≡ [])) }
        ensures amid { IfErr result (λ stop. (stop ≡ ReadStop.BadLine) × (self.now.bytes ≢ [])) }
    {
        if self.ahead().is_empty() {
            Ok(None)
        } else {
            Err(ReadStop::BadLine)
        }
    }
}
