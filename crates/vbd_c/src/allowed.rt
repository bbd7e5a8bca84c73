// Which answers an ask allows.
ghost use Rattle.std.specs.Prelude.{◌≡◌, ◌↔◌, IsTrue};
ghost use Rattle.vbd_back.specs.Ask.{IsAnswer as IsBackAnswer};
ghost use Rattle.back_jobs.specs.Work.{IsAnswer as IsJobAnswer};
ghost use Rattle.vbd_front.specs.Ask.{IsAnswer as IsFrontAnswer};
ghost use Rattle.vbd_c.specs.Allowed.{is_same_mode, is_of, memory_allows, back_allows, job_allows, front_allows};

use blk_base::{BackAnswer, BackAsk, FrontAnswer, FrontAsk, Mapping, Mode};

/// Whether an ask of the back allows this answer.
#[tactic(auto, using(crate::proofs::Decided::back_means))]
pub fn back_allows(ask: &BackAsk, answer: &BackAnswer) -> bool
    ensures value { result ≡ back_allows ask.now answer.now }
    ensures means { IsTrue result ↔ IsBackAnswer ask.now answer.now }
{
    match (ask, answer) {
        (BackAsk::Wait, BackAnswer::Event | BackAnswer::Watched(_)) => true,
        (BackAsk::Fence, BackAnswer::Done) => true,
        (BackAsk::Bind(_), BackAnswer::Done | BackAnswer::BindRefused) => true,
        (BackAsk::Send | BackAsk::ClosePort, BackAnswer::Done) => true,
        (BackAsk::GetKey(_), BackAnswer::Key(_)) => true,
        (BackAsk::SetKey(..) | BackAsk::Watch(_), BackAnswer::Done) => true,
        _ => memory_allows(ask, answer),
    }
}

/// Whether an ask of a job allows this answer.
#[tactic(auto, using(crate::proofs::Decided::job_means))]
pub fn job_allows(ask: &BackAsk, answer: &BackAnswer) -> bool
    ensures value { result ≡ job_allows ask.now answer.now }
    ensures means { IsTrue result ↔ IsJobAnswer ask.now answer.now }
{
    match (ask, answer) {
        (BackAsk::DiskRead(_), BackAnswer::Sector(_) | BackAnswer::DiskFailed) => true,
        (BackAsk::DiskWrite(..), BackAnswer::Done | BackAnswer::DiskFailed) => true,
        (BackAsk::Flush | BackAsk::Trim(..), BackAnswer::Done | BackAnswer::DiskFailed) => true,
        _ => memory_allows(ask, answer),
    }
}

// The same of what both ask: words, and frames to be mapped and unmapped.
fn memory_allows(ask: &BackAsk, answer: &BackAnswer) -> bool
    ensures { result ≡ memory_allows ask.now answer.now }
{
    match (ask, answer) {
        (BackAsk::Read { .. }, BackAnswer::Word(_)) => true,
        (BackAsk::Write { .. }, BackAnswer::Done) => true,
        (BackAsk::Map { gref, mode }, BackAnswer::Mapped(mapping)) => is_of(mapping, *gref, *mode),
        (BackAsk::Map { .. }, BackAnswer::MapRefused(_)) => true,
        (BackAsk::Unmap(_), BackAnswer::Done) => true,
        _ => false,
    }
}

// Whether a mapping is one of this reference, made in this mode.
fn is_of(mapping: &Mapping, gref: u32, mode: Mode) -> bool
    ensures { result ≡ is_of mapping.now gref mode }
{
    mapping.gref == gref && is_same_mode(mapping.mode, mode)
}

fn is_same_mode(a: Mode, b: Mode) -> bool
    ensures { result ≡ is_same_mode a b }
{
    match (a, b) {
        (Mode::ReadOnly, Mode::ReadOnly) | (Mode::ReadWrite, Mode::ReadWrite) => true,
        _ => false,
    }
}

/// Whether an ask of the front allows this answer.
#[tactic(auto, using(crate::proofs::Decided::front_means))]
pub fn front_allows(ask: &FrontAsk, answer: &FrontAnswer) -> bool
    ensures value { result ≡ front_allows ask.now answer.now }
    ensures means { IsTrue result ↔ IsFrontAnswer ask.now answer.now }
{
    match (ask, answer) {
        (FrontAsk::Wait, FrontAnswer::Event | FrontAnswer::Watched(_)) => true,
        (FrontAsk::Fence, FrontAnswer::Done) => true,
        (FrontAsk::Read { .. } | FrontAsk::Cas { .. }, FrontAnswer::Word(_)) => true,
        (FrontAsk::Write { .. }, FrontAnswer::Done) => true,
        (FrontAsk::NewPort, FrontAnswer::Port(_)) => true,
        (FrontAsk::Send | FrontAsk::ClosePort, FrontAnswer::Done) => true,
        (FrontAsk::GetKey(_), FrontAnswer::Key(_)) => true,
        (FrontAsk::SetKey(..) | FrontAsk::Watch(_), FrontAnswer::Done) => true,
        _ => false,
    }
}
