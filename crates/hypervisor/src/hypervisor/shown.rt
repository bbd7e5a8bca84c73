// The moves that a report shows.
ghost use Rattle.std.specs.Prelude.{◌≡◌, None, IfSome, is_some};
ghost use Rattle.blk_base.specs.Access.{move_of, is_access};
ghost use Rattle.hypervisor.specs.Act.{front_shown, front_key_shown, back_shown, mover_of, job_number};
ghost use Rattle.hypervisor.specs.Hypervisor.{Hypervisor};
ghost use Rattle.hypervisor.specs.May.{MayShow, mapping_shown};

use super::Hypervisor;
use blk_base::{
    Access, BackAnswer, BackAsk, BackMover, FrontAnswer, FrontAsk, Lent, Move, Mover, Text,
};

/// The move of the front as a report shows it, by what was asked and answered.
#[inline(always)]
pub fn front_shown(ask: &FrontAsk, answer: &FrontAnswer) -> Move
    ensures { result ≡ front_shown ask.now answer.now }
{
    match (ask, answer) {
        (FrontAsk::Fence, _) => Move::Fence(Mover::Front),
        (FrontAsk::Read { frame, word }, FrontAnswer::Word(value)) => Move::FrontRead {
            frame: *frame,
            word: *word,
            value: *value,
        },
        (FrontAsk::Write { frame, word, value }, _) => Move::FrontWrite {
            frame: *frame,
            word: *word,
            value: *value,
        },
        (
            FrontAsk::Cas {
                frame,
                word,
                old,
                new,
            },
            FrontAnswer::Word(seen),
        ) => Move::FrontCas {
            frame: *frame,
            word: *word,
            old: *old,
            new: *new,
            seen: *seen,
        },
        (FrontAsk::NewPort, FrontAnswer::Port(port)) => Move::FrontPort { port: *port },
        (FrontAsk::Send, _) => Move::Send(Mover::Front),
        (FrontAsk::ClosePort, _) => Move::ClosePort(Mover::Front),
        _ => front_key_shown(ask, answer),
    }
}

/// The front's read or write of a word, which takes less memory than its `Move`; `None` where it
/// does something else.
#[inline(always)]
pub fn front_access(ask: &FrontAsk, answer: &FrontAnswer) -> Option<Access>
    ensures shown { IfSome result (λ access. move_of access ≡ front_shown ask.now answer.now) }
    ensures all { is_some result ≡ is_access (front_shown ask.now answer.now) }
{
    match (ask, answer) {
        (FrontAsk::Read { frame, word }, FrontAnswer::Word(value)) => Some(Access::FrontRead {
            frame: *frame,
            word: *word,
            value: *value,
        }),
        (FrontAsk::Write { frame, word, value }, _) => Some(Access::FrontWrite {
            frame: *frame,
            word: *word,
            value: *value,
        }),
        _ => None,
    }
}

// The move of the front on a key or a watch, or its event.
#[inline(never)]
fn front_key_shown(ask: &FrontAsk, answer: &FrontAnswer) -> Move
    ensures { result ≡ front_key_shown ask.now answer.now }
{
    match (ask, answer) {
        (FrontAsk::GetKey(path), FrontAnswer::Key(text)) => {
            Move::GetKey(Mover::Front, *path.get(), text_of(text))
        }
        (FrontAsk::SetKey(path, text), _) => Move::SetKey(Mover::Front, *path.get(), *text.get()),
        (FrontAsk::Watch(path), _) => Move::Watch(Mover::Front, *path.get()),
        (FrontAsk::Wait, FrontAnswer::Watched(path)) => Move::Watched(Mover::Front, *path.get()),
        _ => Move::Event(Mover::Front),
    }
}

impl Hypervisor {
    /// The move of the back or of a job as a report shows it, by what was asked and answered. Where
    /// the move names a frame, its mapping must live still: what `back` answers may be shown until the
    /// next ask.
    #[inline(always)]
    pub fn back_shown(&self, who: BackMover, ask: &BackAsk, answer: &BackAnswer) -> Move
        requires { MayShow self.now ask.now answer.now }
        ensures { result ≡ back_shown self.now who ask.now answer.now }
    {
        match (ask, answer) {
            (BackAsk::Read { mapping, word }, BackAnswer::Word(value)) => Move::Read {
                who,
                mapping: mapping.number,
                frame: self.grants.frame_of(*mapping),
                word: *word,
                value: *value,
            },
            (
                BackAsk::Write {
                    mapping,
                    word,
                    value,
                },
                _,
            ) => Move::Write {
                who,
                mapping: mapping.number,
                frame: self.grants.frame_of(*mapping),
                word: *word,
                value: *value,
            },
            (BackAsk::Map { gref, mode }, BackAnswer::Mapped(mapping)) => Move::Map {
                who,
                gref: *gref,
                mode: *mode,
                mapping: mapping.number,
                frame: self.grants.frame_of(*mapping),
            },
            _ => call_shown(who, ask, answer),
        }
    }
}

impl Hypervisor {
    /// The read or write of a word by the back or a job, which takes less memory than its `Move`; `None`
    /// where it does something else. Its mapping must live still.
    #[inline(always)]
    pub fn back_access(&self, who: BackMover, ask: &BackAsk, answer: &BackAnswer) -> Option<Access>
        requires { MayShow self.now ask.now answer.now }
        ensures shown { IfSome result (λ access. move_of access ≡ back_shown self.now who ask.now answer.now) }
        ensures all { is_some result ≡ is_access (back_shown self.now who ask.now answer.now) }
    {
        match (ask, answer) {
            (BackAsk::Read { mapping, word }, BackAnswer::Word(value)) => Some(Access::Read {
                who,
                mapping: mapping.number,
                frame: self.grants.frame_of(*mapping),
                word: *word,
                value: *value,
            }),
            (
                BackAsk::Write {
                    mapping,
                    word,
                    value,
                },
                _,
            ) => Some(Access::Write {
                who,
                mapping: mapping.number,
                frame: self.grants.frame_of(*mapping),
                word: *word,
                value: *value,
            }),
            _ => None,
        }
    }
}

// The move where it names no frame.
fn call_shown(who: BackMover, ask: &BackAsk, answer: &BackAnswer) -> Move
    requires { mapping_shown ask.now answer.now ≡ None }
    ensures { (under : Hypervisor) → result ≡ back_shown under who ask.now answer.now }
{
    match (ask, answer) {
        (BackAsk::Fence, _) => Move::Fence(mover(who)),
        (BackAsk::Map { gref, mode }, BackAnswer::MapRefused(status)) => Move::MapRefused {
            who,
            gref: *gref,
            mode: *mode,
            status: *status,
        },
        (BackAsk::Unmap(mapping), _) => Move::Unmap {
            who,
            mapping: mapping.number,
        },
        (BackAsk::Bind(port), BackAnswer::BindRefused) => Move::BindRefused { port: *port },
        (BackAsk::Bind(port), _) => Move::Bind { port: *port },
        (BackAsk::Send, _) => Move::Send(mover(who)),
        (BackAsk::ClosePort, _) => Move::ClosePort(mover(who)),
        (BackAsk::GetKey(path), BackAnswer::Key(text)) => {
            Move::GetKey(mover(who), *path.get(), text_of(text))
        }
        (BackAsk::SetKey(path, text), _) => Move::SetKey(mover(who), *path.get(), *text.get()),
        (BackAsk::Watch(path), _) => Move::Watch(mover(who), *path.get()),
        (BackAsk::Wait, BackAnswer::Watched(path)) => Move::Watched(mover(who), *path.get()),
        (BackAsk::DiskRead(sector), _) => Move::DiskRead {
            job: job(who),
            sector: *sector,
        },
        (BackAsk::DiskWrite(sector, _), _) => Move::DiskWrite {
            job: job(who),
            sector: *sector,
        },
        (BackAsk::Flush, _) => Move::DiskFlush { job: job(who) },
        (BackAsk::Trim(sector, count), _) => Move::DiskTrim {
            job: job(who),
            sector: *sector,
            count: *count,
        },
        _ => Move::Event(mover(who)),
    }
}

// The text that was told.
fn text_of(text: &Option<Lent<Text>>) -> Option<Text>
    ensures { result ≡ text.now }
{
    match text {
        None => None,
        Some(text) => Some(*text.get()),
    }
}

// Who moves, as other moves show it.
fn mover(who: BackMover) -> Mover
    ensures { result ≡ mover_of who }
{
    match who {
        BackMover::Back => Mover::Back,
        BackMover::Job(number) => Mover::Job(number),
    }
}

// The number of a job. The back itself calls no disk.
fn job(who: BackMover) -> u64
    ensures { result ≡ job_number who }
{
    match who {
        BackMover::Back => 0,
        BackMover::Job(number) => number,
    }
}
