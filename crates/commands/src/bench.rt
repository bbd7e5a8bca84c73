// The command `bench`.
ghost use Rattle.std.specs.Prelude.{◌≡◌, ◌≤◌, IfOk, IfErr};
ghost use Rattle.commands.specs.Bench.{zeros, IsZeroDisk, Tallies, BenchEnds};

use crate::status::Stop;
use crate::top::{hand_on, run_stop};
use bench_load::{BenchLoad, write_summary};
use blk_base::{Abi, Config, OutOfMemory, SectorWords};
use blk_io::{Failed, SectorDisk, Sink};
use image_disk::MemoryDisk;
use line_text::LineText;
use schedule_run::run;
use schedule_text::{LineTally, Tally};
use std::alloc::Global;

/// Runs the schedule of that seed and that many lines on 4096 sectors of zeros in memory, and writes
/// what its report counts: requests submitted and refused, effects, answers, and the last word of
/// `quiet` and `unsettled`.
pub fn bench<O: Sink>(alloc: Global, seed: u64, count: u64, out: &mut O) -> Result<(), Stop>
    requires { count ≤ 100000 }
    ensures { BenchEnds seed count result (O.seen out.old) (O.seen out.new) }
{
    let tally = tally_of(alloc, seed, count)?;
    let mut text = LineText::new();
    write_summary(&tally, &mut text);
    match out.write(text.as_str().as_bytes()) {
        Ok(()) => hand_on(out),
        Err(Failed) => Err(Stop::Sink),
    }
}

// Runs the generated schedule, and gives the counts of its report.
fn tally_of(alloc: Global, seed: u64, count: u64) -> Result<Tally, Stop>
    requires { count ≤ 100000 }
    ensures { Tallies seed count result }
{
    let mut disk = zero_disk(alloc)?;
    let config = Config {
        abi: Abi::X64,
        order: 0,
        persistent: 0,
        indirect: 0,
        start: 0,
        read_only: false,
        sectors: 4096,
    };
    let mut load = BenchLoad::new(seed, count);
    let mut recorder = LineTally::new();
    match run(
        alloc,
        config,
        4_294_967_296,
        &mut load,
        &mut disk,
        &mut recorder,
    ) {
        Ok(()) => Ok(recorder.tally),
        Err(stop) => Err(run_stop(stop)),
    }
}

// The disk of a bench, attached.
fn zero_disk(alloc: Global) -> Result<MemoryDisk, OutOfMemory>
    ensures { IfOk result IsZeroDisk }
{
    let mut disk = MemoryDisk::new(alloc, zeros(alloc)?)?;
    match disk.attach("zeros", true) {
        Ok(_) => Ok(disk),
        Err(_) => Err(OutOfMemory),
    }
}

// The sectors of the disk of a bench.
#[tactic(auto, using(crate::proofs::Zeros::one_more))]
fn zeros(alloc: Global) -> Result<Vec<SectorWords>, OutOfMemory>
    ensures { IfOk result (λ sectors. sectors.items ≡ zeros) }
{
    let mut sectors = Vec::with_capacity(alloc, 4096)?;
    for _sector in 0..4096_u32 {
        sectors.push([0; 128])?;
    }
    Ok(sectors)
}
