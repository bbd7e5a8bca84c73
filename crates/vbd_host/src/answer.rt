// What a host gives, as the answer to an ask.
ghost use Rattle.std.specs.Prelude.{◌≡◌, IfSome, IfNone};
ghost use Rattle.back_jobs.specs.Work.{IsAnswer as IsJobAnswer};
ghost use Rattle.back_laws.specs.Happening.{IsNarrow};
ghost use Rattle.vbd_back.specs.Ask.{IsAnswer as IsBackAnswer};
ghost use Rattle.vbd_host.specs.Moves.{Did, DidForBack};
ghost use Rattle.vbd_host.specs.Answer.{woken_answer, map_answer, bind_answer, disk_answer, sector_answer, IsWithin, IsLeft, IsLeftToJob, IsNoMemory, IsNoKey};

use crate::host::{BackHost, BindRefused, DiskFailed};
use crate::woken::Woken;
use blk_base::{BackAnswer, BackAsk, Lent, Mapping, Mode, Path, SectorWords, Text};

/// Where lies what an answer lends: the words of a sector that was read, the path of a watch that fired,
/// and the text of a key.
#[derive(Drop)]
pub struct AnswerRoom {
    sector: SectorWords,
    path: Path,
    text: Text,
}

impl AnswerRoom {
    /// Room for one answer at a time.
    pub fn new() -> AnswerRoom {
        AnswerRoom {
            sector: [0; 128],
            path: Path::new(),
            text: Text::new(),
        }
    }
}

// What a map gave, as the answer to it: the mapping of that number, or the status of its refusal.
fn mapped(gref: u32, mode: Mode, given: Result<u64, i32>) -> BackAnswer<'static>
    ensures { result ≡ map_answer gref mode given }
{
    match given {
        Ok(number) => BackAnswer::Mapped(Mapping { number, gref, mode }),
        Err(status) => BackAnswer::MapRefused(status),
    }
}

// What binding a port gave, as the answer to it.
fn bound(given: Result<(), BindRefused>) -> BackAnswer<'static>
    ensures { result ≡ bind_answer given }
{
    match given {
        Ok(()) => BackAnswer::Done,
        Err(BindRefused) => BackAnswer::BindRefused,
    }
}

// What a write, a flush or a trim of the disk gave, as the answer to it.
fn disk_done(given: Result<(), DiskFailed>) -> BackAnswer<'static>
    ensures { result ≡ disk_answer given }
{
    match given {
        Ok(()) => BackAnswer::Done,
        Err(DiskFailed) => BackAnswer::DiskFailed,
    }
}

// What the back waits for, where it came.
fn woken<'a>(given: Option<Woken>, room: &'a mut AnswerRoom) -> Option<BackAnswer<'a>>
    ensures { result ≡ woken_answer given }
{
    match given? {
        Woken::Event => Some(BackAnswer::Event),
        Woken::Watched(path) => {
            room.path = path;
            Some(BackAnswer::Watched(Lent::at(&room.path)))
        }
    }
}

// The text of a key, where there is one.
fn key_read<'a>(given: Option<Text>, room: &'a mut AnswerRoom) -> BackAnswer<'a>
    ensures { result ≡ BackAnswer.Key given }
{
    match given {
        None => BackAnswer::Key(None),
        Some(text) => {
            room.text = text;
            BackAnswer::Key(Some(Lent::at(&room.text)))
        }
    }
}

// A sector of the disk is read.
fn sector_read<'a, H: BackHost>(
    sector: u64,
    host: &mut H,
    room: &'a mut AnswerRoom,
) -> BackAnswer<'a>
    ensures allowed { IsJobAnswer (BackAsk.DiskRead sector) result }
    ensures done { H.does host.old (BackAsk.DiskRead sector) (Some result) host.new }
{
    match host.read_sector(sector, &mut room.sector) {
        Ok(()) => BackAnswer::Sector(Lent::at(&room.sector)),
        Err(DiskFailed) => BackAnswer::DiskFailed,
    }
}

// Does what the back and its jobs both ask: words, and frames to be mapped and unmapped. `None` where
// something else is asked.
#[inline(always)]
fn answer_memory<H: BackHost>(ask: &BackAsk, host: &mut H) -> Option<BackAnswer<'static>>
    requires { IsWithin ask.now }
    ensures back { IfSome result (λ answer. IsBackAnswer ask.now answer × IsNarrow answer) }
    ensures job { IfSome result (λ answer. IsJobAnswer ask.now answer) }
    ensures done { Did H.does ask.now result host.old host.new }
    ensures none { IfNone result (IsNoMemory ask.now) }
{
    match ask {
        BackAsk::Read { mapping, word } => Some(BackAnswer::Word(host.read(*mapping, *word))),
        BackAsk::Write {
            mapping,
            word,
            value,
        } => {
            host.write(*mapping, *word, *value);
            Some(BackAnswer::Done)
        }
        BackAsk::Map { gref, mode } => Some(mapped(*gref, *mode, host.map(*gref, *mode))),
        BackAsk::Unmap(mapping) => {
            host.unmap(*mapping);
            Some(BackAnswer::Done)
        }
        _ => None,
    }
}

// Does what the back asks of xenstore.
fn answer_keys<'a, H: BackHost>(
    ask: &BackAsk,
    host: &mut H,
    room: &'a mut AnswerRoom,
) -> Option<BackAnswer<'a>>
    ensures allowed { IfSome result (λ answer. IsBackAnswer ask.now answer × IsNarrow answer) }
    ensures done { Did H.does ask.now result host.old host.new }
    ensures none { IfNone result (IsNoKey ask.now) }
{
    match ask {
        BackAsk::GetKey(path) => Some(key_read(host.get_key(path.get()), room)),
        BackAsk::SetKey(path, text) => {
            host.set_key(path.get(), text.get());
            Some(BackAnswer::Done)
        }
        BackAsk::Watch(path) => {
            host.watch(path.get());
            Some(BackAnswer::Done)
        }
        _ => None,
    }
}

// Does what the back asks; `None` where it waits and nothing came, or where only a job asks so.
#[inline(always)]
pub(crate) fn answer_back<'a, H: BackHost>(
    ask: &BackAsk,
    host: &mut H,
    room: &'a mut AnswerRoom,
) -> Option<BackAnswer<'a>>
    requires { IsWithin ask.now }
    ensures allowed { IfSome result (λ answer. IsBackAnswer ask.now answer × IsNarrow answer) }
    ensures done { DidForBack H.does ask.now result host.old host.new }
    ensures none { IfNone result (IsLeft ask.now) }
{
    match ask {
        BackAsk::Wait => woken(host.woken(), room),
        BackAsk::Fence => {
            host.fence();
            Some(BackAnswer::Done)
        }
        BackAsk::Bind(port) => Some(bound(host.bind(*port))),
        BackAsk::Send => {
            host.send();
            Some(BackAnswer::Done)
        }
        BackAsk::ClosePort => {
            host.close_port();
            Some(BackAnswer::Done)
        }
        BackAsk::GetKey(_) | BackAsk::SetKey(..) | BackAsk::Watch(_) => {
            answer_keys(ask, host, room)
        }
        _ => answer_memory(ask, host),
    }
}

// Does what a job asks; `None` where it waits, or where only the back asks so.
#[inline(always)]
pub(crate) fn answer_job<'a, H: BackHost>(
    ask: &BackAsk,
    host: &mut H,
    room: &'a mut AnswerRoom,
) -> Option<BackAnswer<'a>>
    requires { IsWithin ask.now }
    ensures allowed { IfSome result (λ answer. IsJobAnswer ask.now answer) }
    ensures done { Did H.does ask.now result host.old host.new }
    ensures none { IfNone result (IsLeftToJob ask.now) }
{
    match ask {
        BackAsk::DiskRead(sector) => Some(sector_read(*sector, host, room)),
        BackAsk::DiskWrite(sector, words) => {
            Some(disk_done(host.write_sector(*sector, words.get())))
        }
        BackAsk::Flush => Some(disk_done(host.flush())),
        BackAsk::Trim(sector, count) => Some(disk_done(host.trim(*sector, *count))),
        _ => answer_memory(ask, host),
    }
}
