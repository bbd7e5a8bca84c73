// A disk in memory.
ghost use Rattle.std.specs.Prelude.{◌≡◌, ◌≤◌, ◌+◌, IfOk, length, None};
ghost use Rattle.blk_io.specs.Disk.{zeroed};

use crate::attachment::Attached;
use blk_base::{OutOfMemory, SectorWords};
use blk_io::{AttachStop, Failed, SectorDisk};
use std::alloc::Global;
use std::marker::Model;

/// A disk in memory, with a list of what is stable beside its content. It never fails.
#[derive(Drop)]
pub struct MemoryDisk {
    content: Vec<SectorWords>,
    stable: Vec<SectorWords>,
    attached: Option<Attached>,
    alloc: Global,
}

impl Model for MemoryDisk {
    ghost use Rattle.std.specs.Prelude.{◌≡◌, length};
    ghost use Rattle.image_disk.specs.Image.{Image, AreAttached};

    ghost Value = { Image };

    ghost view = { λ d. record { attachment = d.attached; content = d.content.items; stable = d.stable.items } };

    ghost invariant = { λ d. (length d.stable.items ≡ length d.content.items) × AreAttached d.attached (length d.content.items) };
}

impl MemoryDisk {
    /// A disk that holds these sectors, all of them stable, and isn't attached.
    pub fn new(alloc: Global, sectors: Vec<SectorWords>) -> Result<MemoryDisk, OutOfMemory>
        ensures { IfOk result (λ disk. disk ≡ record { attachment = None; content = sectors.items; stable = sectors.items }) }
    {
        let mut stable = Vec::new(alloc);
        stable.extend_from_slice(sectors.as_slice())?;
        Ok(MemoryDisk {
            content: sectors,
            stable,
            attached: None,
            alloc,
        })
    }

    /// The words of each sector.
    pub fn content(&self) -> &[SectorWords]
        ensures { result.now ≡ self.now.content }
    {
        self.content.as_slice()
    }

    /// The words of each sector in stable storage.
    pub fn stable(&self) -> &[SectorWords]
        ensures { result.now ≡ self.now.stable }
    {
        self.stable.as_slice()
    }
}

// Makes `count` sectors zeros.
fn clear(sectors: &mut [SectorWords], sector: usize, count: usize)
    requires { sector + count ≤ length sectors.old }
    ensures { sectors.new ≡ zeroed sectors.old sector count }
{
    for i in 0..count {
        sectors[sector + i] = [0; 128];
    }
}

impl SectorDisk for MemoryDisk {
    ghost use Rattle.image_disk.specs.Image.{image_seen};

    ghost seen = { image_seen };

    fn attach(&mut self, name: &str, writable: bool) -> Result<u64, AttachStop> {
        let sectors = self.content.len() as u64;
        self.attached = Some(Attached::new(self.alloc, name, writable, sectors)?);
        Ok(sectors)
    }

    fn read(&mut self, sector: u64, words: &mut SectorWords) -> Result<(), Failed> {
        *words = self.content[sector as usize];
        Ok(())
    }

    fn write(&mut self, sector: u64, words: &SectorWords) -> Result<(), Failed> {
        self.content[sector as usize] = *words;
        Ok(())
    }

    fn flush(&mut self) -> Result<(), Failed> {
        self.stable.copy_from_slice(self.content.as_slice());
        Ok(())
    }

    fn trim(&mut self, sector: u64, count: u64) -> Result<(), Failed> {
        clear(&mut self.content, sector as usize, count as usize);
        Ok(())
    }
}
