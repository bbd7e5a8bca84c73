// Cases: a schedule, the ring, the disk and the detail of its run, and what the report is to be. A test is
// one call over a table of them; the calls that play them are proved once.
ghost use Rattle.std.specs.Prelude.{◌≡◌, true, Some};
ghost use Rattle.blk_io.specs.Disk.{HasLength, attached_of};
ghost use Rattle.vbd_model.specs.Kind.{are_carried};

use crate::expected::holds;
use blk_base::{Abi, Config};
use blk_io::{MemorySink, MemorySource, SectorDisk};
use image_disk::{FailsAtCalls, ListedCalls, MemoryDisk};
use line_text::LineText;
use schedule_run::run;
use schedule_text::{Detail, LineSink};
use std::alloc::Global;
use std::process::Abort;

/// What a report is to be.
#[derive(Clone, Copy)]
pub enum Wanted {
    Whole(&'static str),
    BeginsWith(&'static str),
    EndsWith(&'static str),
}

/// A schedule and its report.
#[derive(Clone, Copy)]
pub struct Case {
    /// What it shows.
    pub name: &'static str,
    pub abi: Abi,
    pub order: u32,
    pub start: u32,
    /// The disk has so many sectors of zeros, but that this is its first word.
    pub sectors: usize,
    pub word: u32,
    /// Which calls of the disk fail: their numbers, from 1, among those of their kind.
    pub reads: &'static [u64],
    pub writes: &'static [u64],
    pub flushes: &'static [u64],
    pub trims: &'static [u64],
    pub detail: Detail,
    pub schedule: &'static str,
    pub report: Wanted,
}

/// A run without options on eight sectors of zeros, of which nothing is told but the lines of requests.
pub const EIGHT: Case = Case {
    name: "",
    abi: Abi::X64,
    order: 0,
    start: 0,
    sectors: 8,
    word: 0,
    reads: &[],
    writes: &[],
    flushes: &[],
    trims: &[],
    detail: Detail::Lines,
    schedule: "",
    report: Wanted::BeginsWith(""),
};

/// The options of a run with none of its own.
pub fn plain_config(sectors: u64) -> Config
    ensures carried { are_carried result ≡ true }
    ensures sectors { result.sectors ≡ sectors }
{
    Config {
        abi: Abi::X64,
        order: 0,
        persistent: 0,
        indirect: 0,
        start: 0,
        read_only: false,
        sectors,
    }
}

fn config(rt: &impl Abort, case: &Case, sectors: u64) -> Config
    ensures carried { are_carried result ≡ true }
    ensures sectors { result.sectors ≡ sectors }
{
    holds(rt, case.order <= 4);
    Config {
        abi: case.abi,
        order: case.order,
        persistent: 0,
        indirect: 0,
        start: case.start,
        read_only: false,
        sectors,
    }
}

fn sectors_of(rt: &impl Abort, alloc: Global, count: usize, word: u32) -> Vec<[u32; 128]> {
    let mut sectors = vec![in alloc; [0; 128]; count].expect(rt, "memory");
    if let Some(first) = sectors.first_mut() {
        first[0] = word;
    }
    sectors
}

/// A disk of so many sectors of zeros.
pub fn zeros(rt: &impl Abort, alloc: Global, count: usize) -> MemoryDisk {
    MemoryDisk::new(alloc, sectors_of(rt, alloc, count, 0)).expect(rt, "memory")
}

/// Attaches a disk; how many sectors it has.
pub fn attached<D: SectorDisk>(rt: &impl Abort, disk: &mut D) -> u64
    ensures attached { attached_of (D.seen disk.new) ≡ Some result }
    ensures sized { let seen = D.seen disk.new in HasLength seen.content result }
{
    disk.attach("image", true).expect(rt, "attached")
}

fn listed(rt: &impl Abort, alloc: Global, calls: &[u64]) -> Vec<u64> {
    Vec::from_slice(alloc, calls).expect(rt, "memory")
}

fn disk_of(rt: &impl Abort, alloc: Global, case: &Case) -> FailsAtCalls<MemoryDisk> {
    let sectors = sectors_of(rt, alloc, case.sectors, case.word);
    let listed = ListedCalls {
        attaches: Vec::new(alloc),
        reads: listed(rt, alloc, case.reads),
        writes: listed(rt, alloc, case.writes),
        flushes: listed(rt, alloc, case.flushes),
        trims: listed(rt, alloc, case.trims),
    };
    FailsAtCalls::new(MemoryDisk::new(alloc, sectors).expect(rt, "memory"), listed)
}

/// A source of these bytes.
pub fn source_of(rt: &impl Abort, alloc: Global, text: &str) -> MemorySource {
    MemorySource::new(Vec::from_slice(alloc, text.as_bytes()).expect(rt, "memory"))
}

/// What the run of a case reports.
pub fn report_of(rt: &impl Abort, alloc: Global, case: &Case) -> MemorySink {
    let mut source = source_of(rt, alloc, case.schedule);
    let mut disk = disk_of(rt, alloc, case);
    let config = config(rt, case, attached(rt, &mut disk));
    let mut sink = MemorySink::with_room(alloc, 65536).expect(rt, "memory");
    let mut recorder = LineSink {
        sink: &mut sink,
        detail: case.detail,
        room: LineText::new(),
    };
    run(
        alloc,
        config,
        4294967296,
        &mut source,
        &mut disk,
        &mut recorder,
    )
    .expect(rt, case.name);
    sink
}

// The part of a report that is looked at.
fn part_of(report: &[u8], wanted: Wanted) -> &[u8] {
    match wanted {
        Wanted::Whole(_) => report,
        Wanted::BeginsWith(text) => &report[..text.len().min(report.len())],
        Wanted::EndsWith(text) => &report[report.len().saturating_sub(text.len())..],
    }
}

fn text_of(wanted: Wanted) -> &'static str {
    match wanted {
        Wanted::Whole(text) | Wanted::BeginsWith(text) | Wanted::EndsWith(text) => text,
    }
}

/// Plays all cases.
pub fn plays(rt: &impl Abort, alloc: Global, cases: &[Case]) {
    for case in cases {
        let sink = report_of(rt, alloc, case);
        let found = part_of(sink.bytes(), case.report);
        assert_eq!(rt; found, text_of(case.report).as_bytes(), "{}", case.name);
    }
}
