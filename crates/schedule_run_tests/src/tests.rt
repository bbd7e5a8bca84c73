// The runner over an outside in memory, as the program holds it.
ghost use Rattle.std.specs.Prelude.{◌≡◌, [], ◌∷◌, length, true, Some, OnOk, IfOk};
ghost use Rattle.blk_io.specs.Disk.{HasLength, attached_of};
ghost use Rattle.image_disk.specs.Image.{image_seen};
ghost use Rattle.schedule_text.specs.declared.line.Detail.TheVariants.{Lines};
ghost use Rattle.schedule_text.specs.declared.event.Event.TheVariants.{Settle, Submit, Look};
ghost use Rattle.vbd_model.specs.World.{start_of};
ghost use Rattle.vbd_model.specs.Kind.{are_carried};
ghost use Rattle.schedule_run.specs.Outcome.{IsServed, outside, content_of};
ghost use Rattle.schedule_run.specs.Lawful.{HasLawfulReport, IsLawful};

mod closing;
mod events;
mod failing;
mod hostile;
mod orders;
mod report;
mod rings;
mod sectors;
mod stops;
mod turns;

use crate::expected::same;
use blk_base::{Config, SectorCount, Submission};
use blk_io::SectorDisk;
use image_disk::MemoryDisk;
use report::{attached, plain_config, zeros};
use schedule_run::{Machine, a_run_begins};
use schedule_text::{Detail, Event, Line, LineList, RecordStop, Recorder};
use std::alloc::Global;
use std::process::Abort;

// What a stranger does with a machine just made: it tells the first line, and carries out events one by one.
fn tells_a_write<D: SectorDisk, R: Recorder>(
    machine: &mut Machine,
    config: Config,
    write: Submission,
    disk: &mut D,
    recorder: &mut R,
) -> Result<(), RecordStop>
    requires new { machine.old ≡ record { world = start_of config; events = 0 } }
    requires served { IsServed config }
    requires attached { attached_of (D.seen disk.old) ≡ Some config.sectors }
    requires sectors { HasLength (content_of (outside (D.seen disk.old) (R.seen recorder.old))) config.sectors }
    ensures { OnOk result (HasLawfulReport config (Settle ∷ Submit write ∷ Settle ∷ Look ∷ [])
        (outside (D.seen disk.old) (R.seen recorder.old)) (outside (D.seen disk.new) (R.seen recorder.new))) }
{
    let detail = Detail::Moves;
    recorder.add(&Line::Begin { config, detail })?;
    a_run_begins();
    machine.event(Event::Settle, disk, recorder)?;
    machine.event(Event::Submit(write), disk, recorder)?;
    machine.event(Event::Settle, disk, recorder)?;
    machine.event(Event::Look, disk, recorder)
}

// What was told is a lawful report, by what the calls promise.
fn writes_a_sector<D: SectorDisk, R: Recorder>(
    alloc: Global,
    config: Config,
    write: Submission,
    disk: &mut D,
    recorder: &mut R,
) -> Result<(), RecordStop>
    requires carried { are_carried config ≡ true }
    requires attached { attached_of (D.seen disk.old) ≡ Some config.sectors }
    requires sectors { HasLength (content_of (outside (D.seen disk.old) (R.seen recorder.old))) config.sectors }
    ensures { OnOk result (HasLawfulReport config (Settle ∷ Submit write ∷ Settle ∷ Look ∷ [])
        (outside (D.seen disk.old) (R.seen recorder.old)) (outside (D.seen disk.new) (R.seen recorder.new))) }
{
    match Machine::new(alloc, &config) {
        Ok(mut machine) => tells_a_write(&mut machine, config, write, disk, recorder),
        Err(_) => Err(RecordStop::OutOfMemory),
    }
}

// So it is over a disk in memory, with a list of lines: the list is that report.
fn lists_a_write(
    alloc: Global,
    config: Config,
    write: Submission,
    disk: &mut MemoryDisk,
) -> Result<LineList, RecordStop>
    requires carried { are_carried config ≡ true }
    requires attached { attached_of (image_seen disk.old) ≡ Some config.sectors }
    requires sectors { length disk.old.content ≡ config.sectors }
    ensures { IfOk result (λ list. IsLawful config Lines (write ∷ []) (Some disk.old.content) (Some disk.new.content) list.lines.items) }
{
    let mut list = LineList::new(alloc, Detail::Lines);
    writes_a_sector(alloc, config, write, disk, &mut list)?;
    Ok(list)
}

fn list_of(rt: &impl Abort, alloc: Global, write: Submission, disk: &mut MemoryDisk) -> LineList {
    let config = plain_config(attached(rt, disk));
    lists_a_write(alloc, config, write, disk).expect(rt, "memory")
}

// On a disk of eight sectors of zeros.
fn lists(rt: &impl Abort, alloc: Global, write: Submission) {
    let mut disk = zeros(rt, alloc, 8);
    let list = list_of(rt, alloc, write, &mut disk);
    same(rt, list.lines.len(), 9);
    same(rt, list.lines.last(), Some(&Line::Quiet));
    same(rt, disk.content().get(3), Some(&[7; 128]));
}

#[test]
fn a_list_holds_a_lawful_report(rt: HostRuntime) {
    let count = SectorCount::new(1).expect(&rt, "a count above 0");
    let write = Submission::Write {
        sector: 3,
        count,
        tag: 7,
    };
    lists(&rt, rt.alloc(), write);
}
