// A disk over a real file: the trusted edge.
ghost use Rattle.std.specs.Prelude.{◌≡◌, None, OnOk, OnErr};
ghost use Rattle.blk_io.specs.Outside.{Rose};

use crate::attachment::Attached;
use crate::zeros::{SECTOR, zero_sectors};
use blk_base::SectorWords;
use blk_io::{AttachStop, Failed, SectorDisk};
use byteorder::{ByteOrder, LittleEndian};
use std::alloc::Global;
use std::fs::{Metadata, OpenFile, OpenOptions, metadata};
use std::io::{self, Seek, SeekFrom};
use std::os::unix::fs::{FileExt, FileTypeExt};
use std::rt::Files;

/// A raw disk image in a file or on a block device; nothing else is attached, as a folder or a FIFO.
/// Each error of the file is a fault; it exposes what is attached, and nothing of what the file holds.
#[derive(Drop)]
pub struct FileDisk<R: Files + Drop> {
    files: R,
    file: Option<R::File>,
    attached: Option<Attached>,
    faults: u64,
    alloc: Global,
}

impl<R: Files + Drop> FileDisk<R> {
    ghost use Rattle.std.specs.Prelude.{◌≡◌};

    /// A disk to which no file is attached yet, and which has no fault.
    pub fn new(alloc: Global, files: R) -> FileDisk<R>
        ensures unattached { result.attached ≡ None }
        ensures no_faults { result.faults ≡ 0 }
    {
        FileDisk {
            files,
            file: None,
            attached: None,
            faults: 0,
            alloc,
        }
    }
}

// Opens an image, and answers its whole number of sectors. A FIFO is looked at before it is opened, since
// that may wait for whoever writes to it.
fn open<R: Files>(files: &R, name: &str, writable: bool) -> io::Result<(R::File, u64)> {
    holds_sectors(&metadata(files, name)?)?;
    let mut options = OpenOptions::new();
    options.read(true).write(writable);
    let mut file = options.open(files, name)?;
    holds_sectors(&file.metadata()?)?;
    // A device tells its length by its end alone.
    let length = file.seek(SeekFrom::End(0))?;
    Ok((file, length / SECTOR as u64))
}

// Refuses what isn't a regular file or a block device.
fn holds_sectors(found: &Metadata) -> io::Result<()> {
    if found.is_file() || found.file_type().is_block_device() {
        return Ok(());
    }
    Err(io::Error::from(io::ErrorKind::InvalidInput))
}

// Counts an error of the file as a fault.
fn counted(outcome: io::Result<()>, faults: &mut u64) -> Result<(), Failed>
    ensures unfailed { OnOk result (faults.new ≡ faults.old) }
    ensures failed { OnErr result (Rose faults.old faults.new) }
{
    match outcome {
        Ok(()) => Ok(()),
        Err(_) => {
            *faults = faults.saturating_add(1);
            Err(Failed)
        }
    }
}

// The file, and where a sector begins in it.
fn placed<F>(file: &Option<F>, sector: u64) -> io::Result<(&F, u64)> {
    match (file, sector.checked_mul(SECTOR as u64)) {
        (Some(file), Some(place)) => Ok((file, place)),
        _ => Err(io::Error::from(io::ErrorKind::NotFound)),
    }
}

impl<R: Files + Drop> SectorDisk for FileDisk<R>
where
    R::File: FileExt,
{
    ghost use Rattle.std.specs.Prelude.{None};

    ghost seen = { λ d. record { attachment = d.attached; content = None; stable = None; faults = d.faults } };

    fn attach(&mut self, name: &str, writable: bool) -> Result<u64, AttachStop> {
        match open(&self.files, name, writable) {
            Ok((file, sectors)) => {
                self.attached = Some(Attached::new(self.alloc, name, writable, sectors)?);
                self.file = Some(file);
                Ok(sectors)
            }
            Err(_) => {
                self.faults = self.faults.saturating_add(1);
                Err(AttachStop::Failed)
            }
        }
    }

    fn read(&mut self, sector: u64, words: &mut SectorWords) -> Result<(), Failed> {
        let read = read_sector(&self.file, sector, words);
        counted(read, &mut self.faults)
    }

    fn write(&mut self, sector: u64, words: &SectorWords) -> Result<(), Failed> {
        let written = write_sector(&self.file, sector, words);
        counted(written, &mut self.faults)
    }

    fn flush(&mut self) -> Result<(), Failed> {
        let flushed = flush_file(&self.file);
        counted(flushed, &mut self.faults)
    }

    fn trim(&mut self, sector: u64, count: u64) -> Result<(), Failed> {
        let trimmed = trim_sectors(&self.file, sector, count);
        counted(trimmed, &mut self.faults)
    }
}

fn read_sector<F: FileExt>(
    file: &Option<F>,
    sector: u64,
    words: &mut SectorWords,
) -> io::Result<()> {
    let mut bytes = [0u8; 512];
    let (file, place) = placed(file, sector)?;
    file.read_exact_at(&mut bytes, place)?;
    LittleEndian::read_u32_into(&bytes, words);
    Ok(())
}

fn write_sector<F: FileExt>(file: &Option<F>, sector: u64, words: &SectorWords) -> io::Result<()> {
    let mut bytes = [0u8; 512];
    LittleEndian::write_u32_into(words, &mut bytes);
    let (file, place) = placed(file, sector)?;
    file.write_all_at(&bytes, place)
}

fn flush_file<F: OpenFile>(file: &Option<F>) -> io::Result<()> {
    match file {
        Some(file) => file.sync_data(),
        None => Ok(()),
    }
}

fn trim_sectors<F: FileExt>(file: &Option<F>, sector: u64, count: u64) -> io::Result<()> {
    let (file, place) = placed(file, sector)?;
    zero_sectors(file, place, count)
}
