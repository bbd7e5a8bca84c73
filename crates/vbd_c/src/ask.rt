// An ask as the numbers that C reads.
ghost use Rattle.std.specs.Prelude.{◌≡◌};
ghost use Rattle.vbd_c.specs.Ask.{of_kind, through, is_writable, numbers_of, path_of, text_of, ask_from, words_of};

use blk_base::{BackAsk, Mapping, Mode, Path, SectorWords, Text};

/// An ask as numbers: its kind, by the order of `BackAsk` from 0 on, and what the kind has, 0 for all else. What is read
/// from, written to or unmapped is a mapping's number, with the reference and the mode that it was made of.
#[repr(C)]
#[derive(Clone, Copy)]
pub struct AskNumbers {
    pub kind: u32,
    pub gref: u32,
    pub word: u32,
    pub value: u32,
    pub port: u32,
    pub writes: bool,
    pub mapping: u64,
    pub sector: u64,
    pub sectors: u64,
}

impl AskNumbers {
    /// The numbers of an ask. With its path, its text and its sector's words they say the whole of it.
    #[tactic(auto, using(crate::proofs::Asks::whole))]
    pub fn of(ask: &BackAsk) -> AskNumbers
        ensures value { result ≡ numbers_of ask.now }
        ensures whole { ask_from result (path_of ask.now) (text_of ask.now) (words_of ask.now) ≡ ask.now }
    {
        match ask {
            BackAsk::Wait => of_kind(0),
            BackAsk::Fence => of_kind(1),
            BackAsk::Read { mapping, word } => {
                let mut numbers = through(2, mapping);
                numbers.word = *word;
                numbers
            }
            BackAsk::Write {
                mapping,
                word,
                value,
            } => {
                let mut numbers = through(3, mapping);
                numbers.word = *word;
                numbers.value = *value;
                numbers
            }
            BackAsk::Map { gref, mode } => {
                let mut numbers = of_kind(4);
                numbers.gref = *gref;
                numbers.writes = is_writable(*mode);
                numbers
            }
            BackAsk::Unmap(mapping) => through(5, mapping),
            BackAsk::Bind(port) => {
                let mut numbers = of_kind(6);
                numbers.port = *port;
                numbers
            }
            BackAsk::Send => of_kind(7),
            BackAsk::ClosePort => of_kind(8),
            BackAsk::GetKey(_) => of_kind(9),
            BackAsk::SetKey(..) => of_kind(10),
            BackAsk::Watch(_) => of_kind(11),
            BackAsk::DiskRead(sector) => on_disk(12, *sector, 0),
            BackAsk::DiskWrite(sector, _) => on_disk(13, *sector, 0),
            BackAsk::Flush => of_kind(14),
            BackAsk::Trim(sector, sectors) => on_disk(15, *sector, *sectors),
        }
    }
}

// The numbers of an ask of which nothing but its kind is a number.
fn of_kind(kind: u32) -> AskNumbers
    ensures { result ≡ of_kind kind }
{
    AskNumbers {
        kind,
        gref: 0,
        word: 0,
        value: 0,
        port: 0,
        writes: false,
        mapping: 0,
        sector: 0,
        sectors: 0,
    }
}

// The numbers of an ask at a mapping.
fn through(kind: u32, mapping: &Mapping) -> AskNumbers
    ensures { result ≡ through kind mapping.now }
{
    let mut numbers = of_kind(kind);
    numbers.mapping = mapping.number;
    numbers.gref = mapping.gref;
    numbers.writes = is_writable(mapping.mode);
    numbers
}

// The numbers of an ask of the disk.
fn on_disk(kind: u32, sector: u64, sectors: u64) -> AskNumbers
    ensures { result ≡ record (of_kind kind) { sector = sector; sectors = sectors } }
{
    let mut numbers = of_kind(kind);
    numbers.sector = sector;
    numbers.sectors = sectors;
    numbers
}

fn is_writable(mode: Mode) -> bool
    ensures { result ≡ is_writable mode }
{
    match mode {
        Mode::ReadOnly => false,
        Mode::ReadWrite => true,
    }
}

/// The path of a key or of a watch that is asked for; no bytes where none is.
pub fn path_of(ask: &BackAsk) -> Path
    ensures { result ≡ path_of ask.now }
{
    match ask {
        BackAsk::GetKey(path) | BackAsk::SetKey(path, _) | BackAsk::Watch(path) => *path.get(),
        _ => Path::new(),
    }
}

/// The text that a key is to have; no bytes where none is set.
pub fn text_of(ask: &BackAsk) -> Text
    ensures { result ≡ text_of ask.now }
{
    match ask {
        BackAsk::SetKey(_, text) => *text.get(),
        _ => Text::new(),
    }
}

/// The words of the sector that is to be written; `None` where none is.
pub fn words_of(ask: &BackAsk) -> Option<SectorWords>
    ensures { result ≡ words_of ask.now }
{
    match ask {
        BackAsk::DiskWrite(_, words) => Some(*words.get()),
        _ => None,
    }
}
