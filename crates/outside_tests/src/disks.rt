// Disks in memory, failing ones, and one over a file. What is done to a disk is an array of calls; what makes
// them is proved once.
ghost use Rattle.std.specs.Prelude.{◌≡◌, Some};
ghost use Rattle.blk_io.specs.Disk.{attached_of};

use crate::expected::{holds, same};
use blk_base::SectorWords;
use blk_io::{Failed, SectorDisk};
use image_disk::{FailsAtCalls, FileDisk, ListedCalls, MemoryDisk};
use std::alloc::Global;
use std::fs;
use std::process::Abort;

// A call of a disk.
#[derive(Clone, Copy)]
enum Call {
    // A sector is read, and full of this word.
    Reads(u64, u32),
    // A sector is filled with this word, or can't be.
    Writes(u64, u32, Result<(), Failed>),
    Trims(u64, u64),
    Flushes,
}

// Attaches a disk of so many sectors.
fn attaches<D: SectorDisk>(rt: &impl Abort, disk: &mut D, name: &str, count: u64)
    ensures { attached_of (D.seen disk.new) ≡ Some count }
{
    let sectors = disk.attach(name, true).expect(rt, "attached");
    holds(rt, sectors == count);
}

fn reads<D: SectorDisk>(rt: &impl Abort, disk: &mut D, count: u64, sector: u64) -> SectorWords
    requires { attached_of (D.seen disk.old) ≡ Some count }
    ensures { attached_of (D.seen disk.new) ≡ Some count }
{
    holds(rt, sector < count);
    let mut words = [0u32; 128];
    disk.read(sector, &mut words).expect(rt, "read");
    words
}

fn writes<D: SectorDisk>(
    rt: &impl Abort,
    disk: &mut D,
    count: u64,
    sector: u64,
    word: u32,
) -> Result<(), Failed>
    requires { attached_of (D.seen disk.old) ≡ Some count }
    ensures { attached_of (D.seen disk.new) ≡ Some count }
{
    holds(rt, sector < count);
    disk.write(sector, &[word; 128])
}

fn trims<D: SectorDisk>(rt: &impl Abort, disk: &mut D, count: u64, sector: u64, trimmed: u64)
    requires { attached_of (D.seen disk.old) ≡ Some count }
    ensures { attached_of (D.seen disk.new) ≡ Some count }
{
    holds(rt, sector <= count && trimmed <= count - sector);
    disk.trim(sector, trimmed).expect(rt, "trimmed");
}

fn does<D: SectorDisk>(rt: &impl Abort, disk: &mut D, count: u64, call: Call)
    requires { attached_of (D.seen disk.old) ≡ Some count }
    ensures { attached_of (D.seen disk.new) ≡ Some count }
{
    match call {
        Call::Reads(sector, word) => same(rt, reads(rt, disk, count, sector), [word; 128]),
        Call::Writes(sector, word, answer) => {
            same(rt, writes(rt, disk, count, sector, word), answer);
        }
        Call::Trims(sector, trimmed) => trims(rt, disk, count, sector, trimmed),
        Call::Flushes => disk.flush().expect(rt, "flushed"),
    }
}

// Makes all calls of a disk of so many sectors, which stays attached.
fn plays<D: SectorDisk>(rt: &impl Abort, disk: &mut D, count: u64, calls: &[Call])
    requires { attached_of (D.seen disk.old) ≡ Some count }
    ensures { attached_of (D.seen disk.new) ≡ Some count }
{
    for call in calls {
        does(rt, disk, count, *call);
    }
}

// A disk in memory of two sectors, the first full of ones.
fn two_sectors(rt: &impl Abort, alloc: Global) -> MemoryDisk {
    let sectors: [SectorWords; 2] = [[1; 128], [0; 128]];
    let sectors = Vec::from_slice(alloc, &sectors).expect(rt, "memory");
    MemoryDisk::new(alloc, sectors).expect(rt, "memory")
}

fn are_sectors(rt: &impl Abort, found: &[SectorWords], count: usize, sector: usize, word: u32) {
    same(rt, found.len(), count);
    same(rt, found.get(sector), Some(&[word; 128]));
}

const DISCARDING: &[Call] = &[
    Call::Writes(1, 7, Ok(())),
    Call::Reads(1, 7),
    Call::Trims(0, 1),
    Call::Reads(0, 0),
];

const FLUSHING: &[Call] = &[Call::Flushes];

fn writes_and_discards(rt: &impl Abort, alloc: Global) {
    let mut disk = two_sectors(rt, alloc);
    attaches(rt, &mut disk, "any", 2);
    plays(rt, &mut disk, 2, DISCARDING);
    are_sectors(rt, disk.stable(), 2, 0, 1);
    plays(rt, &mut disk, 2, FLUSHING);
    are_sectors(rt, disk.content(), 2, 1, 7);
}

#[test]
fn a_disk_in_memory_reads_what_was_written_and_discarded(rt: HostRuntime) {
    writes_and_discards(&rt, rt.alloc());
}

// A disk of two sectors whose second write fails.
fn failing(rt: &impl Abort, alloc: Global) -> FailsAtCalls<MemoryDisk> {
    let listed = ListedCalls {
        attaches: Vec::new(alloc),
        reads: Vec::new(alloc),
        writes: Vec::from_slice(alloc, &[2]).expect(rt, "memory"),
        flushes: Vec::new(alloc),
        trims: Vec::new(alloc),
    };
    FailsAtCalls::new(two_sectors(rt, alloc), listed)
}

const FAILING: &[Call] = &[
    Call::Writes(0, 5, Ok(())),
    Call::Writes(0, 6, Err(Failed)),
    Call::Reads(0, 5),
    Call::Flushes,
    Call::Trims(0, 2),
];

fn fails_once(rt: &impl Abort, alloc: Global) {
    let mut disk = failing(rt, alloc);
    attaches(rt, &mut disk, "any", 2);
    plays(rt, &mut disk, 2, FAILING);
    same(rt, disk.faults, 1);
}

#[test]
fn the_second_write_fails_and_what_comes_after_it_goes_on(rt: HostRuntime) {
    fails_once(&rt, rt.alloc());
}

const TAIL: &[Call] = &[
    Call::Reads(1, 0x0909_0909),
    Call::Writes(1, 0x0403_0201, Ok(())),
    Call::Trims(0, 1),
    Call::Flushes,
];

// A file's first sector is discarded, and its second one written.
fn writes_a_file<D: SectorDisk>(rt: &impl Abort, disk: &mut D) {
    attaches(rt, disk, "tail.image", 2);
    plays(rt, disk, 2, TAIL);
}

const BYTES: &[(usize, u8)] = &[(511, 0), (512, 1), (515, 4), (1024, 9)];

fn are_bytes(rt: &impl Abort, found: &[u8], bytes: &[(usize, u8)]) {
    for (at, byte) in bytes {
        same(rt, found.get(*at), Some(byte));
    }
}

#[test]
fn a_short_tail_of_a_file_is_never_touched(rt: HostRuntime) {
    fs::write(&rt, "tail.image", [9u8; 1100].as_slice()).expect(&rt, "a file");
    let files = rt.clone().expect(&rt, "files");
    writes_a_file(&rt, &mut FileDisk::new(rt.alloc(), files));
    let after = fs::read(&rt, "tail.image").expect(&rt, "a file");
    same(&rt, after.len(), 1100);
    are_bytes(&rt, after.as_slice(), BYTES);
    fs::remove_file(&rt, "tail.image").expect(&rt, "a file");
}
