// A whole schedule.
ghost use Rattle.std.specs.Prelude.{◌≡◌, ◌≤◌, Some, true};
ghost use Rattle.blk_io.specs.Disk.{HasLength, attached_of};
ghost use Rattle.vbd_model.specs.Kind.{are_carried};
ghost use Rattle.schedule_run.specs.Outcome.{MayRun, Runs, RunsTo, outside, content_of, stop_of};
ghost use Rattle.schedule_run.specs.Lawful.{RunsLawfully};

mod reading;

use crate::machine::Machine;
use arrayvec::ArrayVec;
use blk_base::{Config, OutOfMemory};
use blk_io::{Failed, SectorDisk, Source};
use reading::Reader;
use schedule_text::{Detail, Line, RecordStop, Recorder};
use std::alloc::Global;

/// Why a run stopped before the end of its schedule. What was carried out before it stands.
#[derive(Clone, Copy, Debug, PartialEq, Eq)]
pub enum RunStop {
    /// The line of this number, from 1, isn't one that is carried out.
    BadLine(u64),
    /// The source failed.
    Source,
    /// As many bytes as the limit says were taken, and the source didn't end before.
    TooLong,
    /// The recorder failed.
    Sink,
    /// There is not enough memory.
    OutOfMemory,
}

impl From<OutOfMemory> for RunStop {
    ghost use Rattle.schedule_run.specs.declared.schedule.RunStop.TheVariants.{OutOfMemory};

    ghost from_gives = { λ _ stop. stop ≡ OutOfMemory };

    fn from(_stop: OutOfMemory) -> RunStop {
        RunStop::OutOfMemory
    }
}

/// Carries out a schedule line by line as its bytes come, and gives the recorder the report: a
/// `begin` line with the options, what each event makes happen, and an `end` line. Each whole line is
/// carried out before the source is read again. The options are ones for which `can_serve` holds, the
/// disk is attached with their number of sectors, and `bytes_limit` is at most 4294967296.
///
/// The first reason ends the run: where the recorder fails after it to hand on what it kept back,
/// that reason stays, and the recorder's count of faults rose.
///
/// That the report is lawful rests on this: source, disk and recorder expose what they hold, and nobody
/// else writes the disk meanwhile; shared words are sequentially consistent, and a hypercall is one
/// step.
pub fn run<S: Source, D: SectorDisk, R: Recorder>(
    alloc: Global,
    config: Config,
    bytes_limit: u64,
    source: &mut S,
    disk: &mut D,
    recorder: &mut R,
) -> Result<(), RunStop>
    requires carried { are_carried config ≡ true }
    requires limit { bytes_limit ≤ 4294967296 }
    requires attached { attached_of (D.seen disk.old) ≡ Some config.sectors }
    ensures runs { Runs config bytes_limit result (S.seen source.old) (S.seen source.new)
        (outside (D.seen disk.old) (R.seen recorder.old)) (outside (D.seen disk.new) (R.seen recorder.new)) }
    // What was told is a lawful report: a run of the plain disk, and more; so it is before a stop.
    ensures lawful { HasLength (content_of (outside (D.seen disk.old) (R.seen recorder.old))) config.sectors
        → RunsLawfully config bytes_limit result (S.seen source.old) (S.seen source.new)
        (outside (D.seen disk.old) (R.seen recorder.old)) (outside (D.seen disk.new) (R.seen recorder.new)) }
{
    run_and_hand_on(alloc, config, bytes_limit, source, disk, recorder)
}

// Carries out a schedule, and hands on what the recorder kept back, whatever ended it.
fn run_and_hand_on<S: Source, D: SectorDisk, R: Recorder>(
    alloc: Global,
    config: Config,
    bytes_limit: u64,
    source: &mut S,
    disk: &mut D,
    recorder: &mut R,
) -> Result<(), RunStop>
    requires { MayRun config bytes_limit (D.seen disk.old) }
    ensures { Runs config bytes_limit result (S.seen source.old) (S.seen source.new)
        (outside (D.seen disk.old) (R.seen recorder.old)) (outside (D.seen disk.new) (R.seen recorder.new)) }
{
    let ended = report(alloc, config, bytes_limit, source, disk, recorder);
    // The first reason stands, whatever comes after it.
    match (recorder.flush(), ended) {
        (Err(Failed), Ok(())) => Err(RunStop::Sink),
        (_, ended) => ended,
    }
}

// Carries out a schedule from its first line to its last, with the first and the last line of its report.
fn report<S: Source, D: SectorDisk, R: Recorder>(
    alloc: Global,
    config: Config,
    bytes_limit: u64,
    source: &mut S,
    disk: &mut D,
    recorder: &mut R,
) -> Result<(), RunStop>
    requires { MayRun config bytes_limit (D.seen disk.old) }
    ensures { RunsTo config bytes_limit result (S.seen source.old) (S.seen source.new)
        (outside (D.seen disk.old) (R.seen recorder.old)) (outside (D.seen disk.new) (R.seen recorder.new)) }
{
    let machine = Machine::new(alloc, &config)?;
    // The recorder says its own word there.
    let detail = Detail::Moves;
    if let Err(stop) = recorder.add(&Line::Begin { config, detail }) {
        return Err(stop_of(stop));
    }
    let mut reader = Reader {
        machine,
        part: ArrayVec::new(),
        lines: 0,
    };
    reader.read_all(bytes_limit, source, disk, recorder)?;
    if let Err(stop) = recorder.add(&Line::End) {
        return Err(stop_of(stop));
    }
    Ok(())
}

// Why the run stopped, where the recorder did.
fn stop_of(stop: RecordStop) -> RunStop
    ensures { result ≡ stop_of stop }
{
    match stop {
        RecordStop::Failed => RunStop::Sink,
        RecordStop::OutOfMemory => RunStop::OutOfMemory,
    }
}
