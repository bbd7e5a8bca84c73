// A host's rounds: a host in memory, whose guest has one write in its ring.
use crate::expected::{holds, same};
use blk_back::BackTold;
use blk_base::{Abi, Config, Mapping, Mode, OutOfMemory, Path, SectorWords, Status, Text};
use std::alloc::Global;
use std::process::Abort;
use vbd_back::Backend;
use vbd_host::{AnswerRoom, BackHost, BindRefused, DiskFailed, Woken, round};

// The references that the guest granted: its ring's page, and the frame of the write's data.
const RING: u32 = 8;

const DATA: u32 = 24;

// Words of the ring's page (`struct blkif_sring`), and the first one of its first slot.
const REQ_PROD: usize = 0;

const RSP_PROD: usize = 2;

const RSP_EVENT: usize = 3;

const SLOT: usize = 16;

// The write's entry (`struct blkif_request` of x86_64): operation 1 with one segment, handle 51712; id 7; sector 5;
// and the segment, the first sector of its frame alone.
const ENTRY: [u32; 8] = [0xca00_0101, 0, 7, 0, 5, 0, DATA, 0];

// What the guest's keys say.
const KEYS: [(&str, &str); 5] = [
    ("/local/domain/1/device/vbd/51712/state", "3"),
    ("/local/domain/1/device/vbd/51712/ring-ref", "8"),
    ("/local/domain/1/device/vbd/51712/event-channel", "1"),
    ("/local/domain/1/device/vbd/51712/protocol", "x86_64-abi"),
    ("/local/domain/1/device/vbd/51712/feature-persistent", "0"),
];

// The guest's two frames, sector 5 of its disk, and what the back did to it.
#[derive(Drop)]
struct OneWrite {
    ring: [u32; 1024],
    data: [u32; 1024],
    sector: SectorWords,
    fired: Option<Path>,
    mapped: u32,
    keys_set: u32,
    sent: u32,
    effects: u32,
    replied: Option<(u64, Status)>,
}

impl OneWrite {
    fn new() -> OneWrite {
        let mut ring = [0; 1024];
        ring[REQ_PROD] = 1;
        ring[RSP_EVENT] = 1;
        ring[SLOT..SLOT + 8].copy_from_slice(&ENTRY);
        let mut data = [0; 1024];
        for (i, word) in data.iter_mut().enumerate() {
            *word = 1000 + i as u32;
        }
        OneWrite {
            ring,
            data,
            sector: [0; 128],
            fired: None,
            mapped: 0,
            keys_set: 0,
            sent: 0,
            effects: 0,
            replied: None,
        }
    }
}

impl BackHost for OneWrite {
    fn woken(&mut self) -> Option<Woken> {
        let path = self.fired.take()?;
        Some(Woken::Watched(path))
    }

    fn fence(&mut self) {}

    fn read(&mut self, mapping: Mapping, word: u32) -> u32 {
        if mapping.gref == RING {
            self.ring[word as usize]
        } else {
            self.data[word as usize]
        }
    }

    fn write(&mut self, mapping: Mapping, word: u32, value: u32) {
        if mapping.gref == RING {
            self.ring[word as usize] = value;
        } else {
            self.data[word as usize] = value;
        }
    }

    fn map(&mut self, gref: u32, _mode: Mode) -> Result<u64, i32> {
        if gref != RING && gref != DATA {
            return Err(-3);
        }
        self.mapped = self.mapped.wrapping_add(1);
        Ok(u64::from(gref))
    }

    fn unmap(&mut self, _mapping: Mapping) {
        self.mapped = self.mapped.wrapping_sub(1);
    }

    fn bind(&mut self, port: u32) -> Result<(), BindRefused> {
        if port == 1 { Ok(()) } else { Err(BindRefused) }
    }

    fn send(&mut self) {
        self.sent = self.sent.wrapping_add(1);
    }

    fn close_port(&mut self) {}

    fn get_key(&mut self, path: &Path) -> Option<Text> {
        let (_, text) = KEYS.iter().find(|(name, _)| *name == path.as_str())?;
        text_of(text)
    }

    fn set_key(&mut self, _path: &Path, _text: &Text) {
        self.keys_set = self.keys_set.wrapping_add(1);
    }

    fn watch(&mut self, path: &Path) {
        self.fired = Some(*path);
    }

    fn read_sector(&mut self, _sector: u64, words: &mut SectorWords) -> Result<(), DiskFailed> {
        *words = self.sector;
        Ok(())
    }

    fn write_sector(&mut self, sector: u64, words: &SectorWords) -> Result<(), DiskFailed> {
        if sector != 5 {
            return Err(DiskFailed);
        }
        self.sector = *words;
        Ok(())
    }

    fn flush(&mut self) -> Result<(), DiskFailed> {
        Ok(())
    }

    fn trim(&mut self, _sector: u64, _count: u64) -> Result<(), DiskFailed> {
        Ok(())
    }

    fn told(&mut self, told: BackTold) {
        match told {
            BackTold::Effect { .. } => self.effects = self.effects.wrapping_add(1),
            BackTold::Reply { id, status } => self.replied = Some((id, status)),
            _ => {}
        }
    }
}

fn text_of(text: &str) -> Option<Text> {
    if text.len() <= 64 {
        Some(Text::of(text))
    } else {
        None
    }
}

// A backend of a disk of eight sectors.
fn backend(alloc: Global) -> Result<Backend, OutOfMemory> {
    let config = Config {
        abi: Abi::X64,
        order: 0,
        persistent: 0,
        indirect: 0,
        start: 0,
        read_only: false,
        sectors: 8,
    };
    Backend::new(alloc, &config)
}

// Rounds until nothing moves, a thousand at most; whether that came.
fn settles(back: &mut Backend, host: &mut OneWrite, room: &mut AnswerRoom) -> bool {
    for _ in 0..1000 {
        if !round(back, host, room) {
            return true;
        }
    }
    false
}

// What the guest then finds.
fn is_served(rt: &impl Abort, host: &OneWrite) {
    same(rt, host.sector.as_slice(), &host.data[..128]);
    same(rt, host.effects, 1);
    same(rt, host.replied, Some((7, Status::Okay)));
    // The response (`struct blkif_response`): id 7, operation 1 and status 0.
    same(rt, &host.ring[SLOT..SLOT + 3], [7, 0, 1].as_slice());
    same(rt, host.ring[RSP_PROD], 1);
    same(rt, host.sent, 1);
    // The ring's page alone is mapped; seven keys were set before the watch, and four as it connected.
    same(rt, host.mapped, 1);
    same(rt, host.keys_set, 11);
}

#[test]
fn rounds_connect_a_guest_and_serve_its_write(rt: HostRuntime) -> Result<(), OutOfMemory> {
    let mut back = backend(rt.alloc())?;
    let mut host = OneWrite::new();
    let mut room = AnswerRoom::new();
    holds(&rt, settles(&mut back, &mut host, &mut room));
    is_served(&rt, &host);
    holds(&rt, !round(&mut back, &mut host, &mut room));
    Ok(())
}
