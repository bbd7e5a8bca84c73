// A machine that carries out single events.
ghost use Rattle.std.specs.Prelude.{◌≡◌, true, Some};
ghost use Rattle.blk_io.specs.Disk.{attached_of};
ghost use Rattle.image_disk.specs.Image.{image_seen};
ghost use Rattle.schedule_text.specs.Event.{is_event_allowed};

use super::report::{attached, plain_config, zeros};
use crate::expected::{holds, same};
use blk_base::End;
use blk_io::SectorDisk;
use image_disk::MemoryDisk;
use schedule_run::Machine;
use schedule_text::{Detail, Event, Line, LineList, RecordStop, Recorder};
use std::alloc::Global;
use std::process::Abort;

#[derive(Clone, Copy)]
enum Step {
    Looks,
    Settles,
    NotifiesTheBack,
    Suspends,
}

fn event_of(step: Step) -> Event
    ensures { is_event_allowed result ≡ true }
{
    match step {
        Step::Looks => Event::Look,
        Step::Settles => Event::Settle,
        Step::NotifiesTheBack => Event::Notify(End::Back),
        Step::Suspends => Event::Suspend,
    }
}

// Carries out one event after another; how many the machine counts then.
fn carries_out<D: SectorDisk, R: Recorder>(
    rt: &impl Abort,
    machine: &mut Machine,
    steps: &[Step],
    disk: &mut D,
    lines: &mut R,
) -> Result<u64, RecordStop>
    requires { attached_of (D.seen disk.old) ≡ Some machine.old.world.rings.back.jobs.info.sectors }
{
    for step in steps {
        holds(rt, machine.events() < 10);
        machine.event(event_of(*step), disk, lines)?;
    }
    Ok(machine.events())
}

// A new machine over a disk, which it attaches.
fn machine_over(rt: &impl Abort, alloc: Global, disk: &mut MemoryDisk) -> Machine
    ensures { attached_of (image_seen disk.new) ≡ Some result.world.rings.back.jobs.info.sectors }
{
    let config = plain_config(attached(rt, disk));
    Machine::new(alloc, &config).expect(rt, "memory")
}

fn counted(
    rt: &impl Abort,
    alloc: Global,
    steps: &[Step],
    disk: &mut MemoryDisk,
    lines: &mut LineList,
) -> Result<u64, RecordStop> {
    let mut machine = machine_over(rt, alloc, disk);
    carries_out(rt, &mut machine, steps, disk, lines)
}

// How many events a new machine counts after these, and the lines that it told.
fn told(rt: &impl Abort, alloc: Global, steps: &[Step]) -> (Result<u64, RecordStop>, LineList) {
    let mut disk = zeros(rt, alloc, 8);
    let mut lines = LineList::new(alloc, Detail::Lines);
    let count = counted(rt, alloc, steps, &mut disk, &mut lines);
    (count, lines)
}

fn tells_three_lines(rt: &impl Abort, alloc: Global, steps: &[Step]) {
    let (count, list) = told(rt, alloc, steps);
    let lines = [Line::Busy, Line::Ready, Line::Quiet];
    same(rt, count, Ok(3));
    same(rt, list.lines.as_slice(), lines.as_slice());
}

#[test]
fn a_machine_carries_out_events_and_counts_them(rt: HostRuntime) {
    let steps = [Step::Looks, Step::Settles, Step::NotifiesTheBack];
    tells_three_lines(&rt, rt.alloc(), &steps);
}

fn tells_an_epoch(rt: &impl Abort, alloc: Global, steps: &[Step]) {
    let (count, list) = told(rt, alloc, steps);
    let lines = [Line::Epoch];
    same(
        rt,
        list.lines.as_slice(),
        &lines[..usize::from(count.is_ok())],
    );
}

// With `rt try --test --fail-alloc` each allocation of the suspend fails in turn: then its line is missing.
#[test]
fn a_suspend_that_lacks_memory_tells_no_epoch(rt: HostRuntime) {
    tells_an_epoch(&rt, rt.alloc(), &[Step::Suspends]);
}
