// The program over its outside.
ghost use Rattle.std.specs.Prelude.{◌≡◌, ◌≤◌, ◌⊎◌, ℕ, List, map, IfErr};
ghost use Rattle.std.specs.String.{string_bytes};
ghost use Rattle.blk_io.specs.Outside.{HandsOn};
ghost use Rattle.commands.specs.Words.{AsksRun, AsksNothing};
ghost use Rattle.commands.specs.Status.{status_of, line_of};
ghost use Rattle.commands.specs.Scene.{scene};
ghost use Rattle.commands.specs.Ending.{RunEnds, RingEnds, CarriesOut, IsSaid, run_stop};
ghost use Rattle.commands.specs.Reported.{RunReports};
ghost use Rattle.commands.specs.Promises.{Promises};

use crate::bench::bench;
use crate::checking::check_report;
use crate::status::Stop;
use crate::words::{Command, RunOptions, read_command};
use blk_base::{Abi, Config};
use blk_io::{AttachStop, Failed, SectorDisk, Sink, Source};
use line_text::LineText;
use ring_inspect::{InspectStop, inspect};
use schedule_run::{RunStop, run};
use schedule_text::LineSink;
use std::alloc::Global;

/// Carries out the command that the words after the program's name ask for, and answers the exit
/// status; whatever isn't 0 is also said in a line on `err`, whose failing changes no status. A report
/// that breaks a rule is said on the output alone.
///
/// - 0: it is done, and nothing was said. For `run` the output gained the text of a report that
///   echoes the whole schedule and is a run of the plain disk, from what the image held to what it
///   holds; with `--moves` each move in it obeys the rules of the ring, of grants and of the work
///   (`io/ring.h`, `io/blkif.h`, `grant_table.h`).
///   For `check` the output gained the line `legal`: no line of the report that the source gave breaks
///   a rule, and the last is `end`. The image wasn't touched.
///   For `bench` the output gained the summary of a run of exactly the generated schedule on zeros in
///   memory; neither input nor image was touched.
/// - 1: `check` found a line that breaks a rule; the output gained `broken`, the line's number and the
///   rule. Or `inspect` found another number of bytes than the ring's, and nothing was written.
/// - 2: the words ask for nothing, or for help. Nothing was read or written.
/// - 3: a line of the schedule isn't in the grammar. Those before it were carried out, and are reported.
///   For `check` a line is none of a report, and those before it break no rule.
/// - 4: the source failed. The whole lines that were read were carried out, and are reported.
/// - 5: the output failed. A beginning of the text may have been written, lawful as far as its whole
///   lines go.
/// - 6: there was no memory; likewise. Reading the words takes memory too.
/// - 7: the image failed where it was attached. Nothing was read or written.
/// - 8: 4294967296 bytes of the input were taken, and the source didn't end before. Their whole
///   lines were carried out, and are reported.
///
/// The first reason ends the run: an output that fails after it to hand on what it kept back changes
/// no status. The image of a run is the one that the words name, attached for writing unless they say
/// that it is read-only; `inspect` attaches none. Where the image is attached, neither source nor
/// output fails, and the source exposes a whole schedule of lines that are carried out, or a ring's
/// bytes, the status is 0 or 6.
///
/// What a report promises rests on this: source, output and disk expose what they hold, and nobody
/// else writes the image meanwhile; shared words are sequentially consistent, and a hypercall is one
/// step.
pub fn blkring<S: Source, D: SectorDisk, O: Sink, E: Sink>(
    alloc: Global,
    words: &[String],
    src: &mut S,
    disk: &mut D,
    out: &mut O,
    err: &mut E,
) -> u8
    // By the words and the status: what the outside was and is, and what the error output was given.
    ensures promised { Promises (map string_bytes words.now) result
        (scene (S.seen src.old) (D.seen disk.old) (O.seen out.old))
        (scene (S.seen src.new) (D.seen disk.new) (O.seen out.new)) (E.seen err.old) (E.seen err.new) }
    // Words that ask for nothing are status 2, or 6 where there was no memory to read them; and then
    // nothing was done.
    ensures bad_words { result ≡ 2 → AsksNothing (map string_bytes words.now) }
    ensures refused { AsksNothing (map string_bytes words.now) → (result ≡ 2) ⊎ (result ≡ 6) }
    ensures nothing_done { AsksNothing (map string_bytes words.now)
        → (src.new ≡ src.old) × (out.new ≡ out.old) × (disk.new ≡ disk.old) }
{
    match do_command(alloc, words, src, disk, out) {
        Ok(()) => 0,
        Err(stop) => stop_with(err, stop),
    }
}

/// Says why the program stops, and answers its exit status. The line isn't left in a buffer; where
/// saying it fails there is nobody left to tell. Of a report that breaks a rule nothing is said here.
pub fn stop_with<E: Sink>(err: &mut E, stop: Stop) -> u8
    ensures status { result ≡ status_of stop }
    ensures said { IsSaid (line_of stop) (E.seen err.old) (E.seen err.new) }
{
    let Some(line) = stop.line() else {
        return stop.status();
    };
    let _ = err.write(line.as_str().as_bytes());
    let _ = err.flush();
    stop.status()
}

// Does what the words ask for.
fn do_command<S: Source, D: SectorDisk, O: Sink>(
    alloc: Global,
    words: &[String],
    src: &mut S,
    disk: &mut D,
    out: &mut O,
) -> Result<(), Stop>
    ensures carried_out { CarriesOut (map string_bytes words.now) result
        (scene (S.seen src.old) (D.seen disk.old) (O.seen out.old))
        (scene (S.seen src.new) (D.seen disk.new) (O.seen out.new)) }
    ensures reported { (image : List ℕ) → (options : RunOptions) → AsksRun (map string_bytes words.now) image options
        → RunReports image options result
        (scene (S.seen src.old) (D.seen disk.old) (O.seen out.old))
        (scene (S.seen src.new) (D.seen disk.new) (O.seen out.new)) }
    ensures nothing_done { AsksNothing (map string_bytes words.now)
        → (src.new ≡ src.old) × (out.new ≡ out.old) × (disk.new ≡ disk.old) }
{
    match read_command(alloc, words)? {
        Some(Command::Inspect { abi, order }) => show_ring(alloc, src, abi, order, out),
        Some(Command::Run { image, options }) => run_schedule(
            alloc, image, options, src, disk, out,
        ),
        Some(Command::Check) => check_report(alloc, src, out),
        Some(Command::Bench { seed, count }) => bench(alloc, seed, count, out),
        None => Err(Stop::Words),
    }
}

// Shows a ring of that layout and order.
fn show_ring<S: Source, O: Sink>(
    alloc: Global,
    src: &mut S,
    abi: Abi,
    order: u32,
    out: &mut O,
) -> Result<(), Stop>
    requires { order ≤ 4 }
    ensures { RingEnds (record { abi = abi; order = order }) result (S.seen src.old) (S.seen src.new) (O.seen out.old) (O.seen out.new) }
{
    match inspect(alloc, src, abi, order, out) {
        Ok(()) => hand_on(out),
        Err(InspectStop::Length(count)) => Err(Stop::Length {
            count,
            expected: 4096 << order,
        }),
        Err(InspectStop::Source) => Err(Stop::Source),
        Err(InspectStop::Sink) => Err(Stop::Sink),
        Err(InspectStop::OutOfMemory) => Err(Stop::OutOfMemory),
    }
}

/// Hands on what the output keeps back.
pub fn hand_on<O: Sink>(out: &mut O) -> Result<(), Stop>
    ensures handed_on { HandsOn result (O.seen out.old) (O.seen out.new) }
    ensures reason { IfErr result (λ stop. stop ≡ Stop.Sink) }
{
    match out.flush() {
        Ok(()) => Ok(()),
        Err(Failed) => Err(Stop::Sink),
    }
}

// Runs the schedule that the source holds on the image of that name.
fn run_schedule<S: Source, D: SectorDisk, O: Sink>(
    alloc: Global,
    image: &str,
    options: RunOptions,
    src: &mut S,
    disk: &mut D,
    out: &mut O,
) -> Result<(), Stop>
    requires pages { options.order ≤ 4 }
    requires segments { options.indirect ≤ 960 }
    ensures ends { RunEnds image.now options result
        (scene (S.seen src.old) (D.seen disk.old) (O.seen out.old))
        (scene (S.seen src.new) (D.seen disk.new) (O.seen out.new)) }
    ensures reported { RunReports image.now options result
        (scene (S.seen src.old) (D.seen disk.old) (O.seen out.old))
        (scene (S.seen src.new) (D.seen disk.new) (O.seen out.new)) }
{
    let sectors = match disk.attach(image, !options.read_only) {
        Ok(sectors) => sectors,
        Err(AttachStop::Failed) => return Err(Stop::Image),
        Err(AttachStop::OutOfMemory) => return Err(Stop::OutOfMemory),
    };
    let config = Config {
        abi: options.abi,
        order: options.order,
        persistent: 0,
        indirect: options.indirect,
        start: options.start,
        read_only: options.read_only,
        sectors,
    };
    let mut report = LineSink {
        sink: out,
        detail: options.detail,
        room: LineText::new(),
    };
    match run(alloc, config, 4_294_967_296, src, disk, &mut report) {
        Ok(()) => Ok(()),
        Err(stop) => Err(run_stop(stop)),
    }
}

/// Why the program stops where the run did.
pub fn run_stop(stop: RunStop) -> Stop
    ensures { result ≡ run_stop stop }
{
    match stop {
        RunStop::BadLine(number) => Stop::BadLine(number),
        RunStop::Source => Stop::Source,
        RunStop::TooLong => Stop::TooLong,
        RunStop::Sink => Stop::Sink,
        RunStop::OutOfMemory => Stop::OutOfMemory,
    }
}
