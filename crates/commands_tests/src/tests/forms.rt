// A source and an output that expose nothing, as real ones do.
ghost use Rattle.std.specs.Prelude.{◌≡◌, OnOk, OnErr};
ghost use Rattle.blk_io.specs.Outside.{Rose};

use blk_io::{Failed, MemorySource, Sink, Source};
use std::alloc::Global;

/// A source that gives few bytes a call.
#[derive(Drop)]
pub struct Sips {
    inside: MemorySource,
    most: usize,
}

impl Sips {
    /// A source of these bytes, at most so many a call.
    pub fn new(bytes: Vec<u8>, most: usize) -> Sips {
        Sips {
            inside: MemorySource::new(bytes),
            most,
        }
    }
}

impl Source for Sips {
    ghost use Rattle.std.specs.Prelude.{None};

    ghost seen = { λ _. record { left = None; faults = 0 } };

    fn read(&mut self, buf: &mut [u8]) -> Result<usize, Failed> {
        let most = self.most.min(buf.len());
        self.inside.read(&mut buf[..most])
    }
}

/// An output that keeps back what it takes until it is flushed, as the program's own does. At the flush of
/// a number, from 1, half of what was kept back comes out, and the rest is lost.
#[derive(Drop)]
pub struct KeepsBack {
    kept: Vec<u8>,
    /// What came out.
    pub bytes: Vec<u8>,
    fails_at: u64,
    /// How many flushes there were.
    pub flushes: u64,
    faults: u64,
}

impl KeepsBack {
    /// One that is empty.
    pub fn new(alloc: Global, fails_at: u64) -> KeepsBack {
        KeepsBack {
            kept: Vec::new(alloc),
            bytes: Vec::new(alloc),
            fails_at,
            flushes: 0,
            faults: 0,
        }
    }
}

// So many of the bytes that were kept back come out, and the rest is lost.
fn let_out(kept: &mut Vec<u8>, count: usize, bytes: &mut Vec<u8>) -> bool {
    let count = count.min(kept.len());
    let is_out = bytes.extend_from_slice(&kept[..count]).is_ok();
    kept.clear();
    is_out
}

// Counts a fault where it isn't done.
fn done(is_done: bool, faults: &mut u64) -> Result<(), Failed>
    ensures unfailed { OnOk result (faults.new ≡ faults.old) }
    ensures failed { OnErr result (Rose faults.old faults.new) }
{
    if is_done {
        return Ok(());
    }
    *faults = faults.saturating_add(1);
    Err(Failed)
}

impl Sink for KeepsBack {
    ghost use Rattle.std.specs.Prelude.{None};

    ghost seen = { λ s. record { held = None; kept_back = 0; faults = s.faults } };

    fn write(&mut self, piece: &[u8]) -> Result<(), Failed> {
        let is_kept = self.kept.extend_from_slice(piece).is_ok();
        done(is_kept, &mut self.faults)
    }

    fn flush(&mut self) -> Result<(), Failed> {
        self.flushes = self.flushes.saturating_add(1);
        let fails = self.flushes == self.fails_at;
        let count = if fails {
            self.kept.len() / 2
        } else {
            self.kept.len()
        };
        let is_out = let_out(&mut self.kept, count, &mut self.bytes);
        done(is_out && !fails, &mut self.faults)
    }
}
