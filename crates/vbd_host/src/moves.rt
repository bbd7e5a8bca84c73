// The moves of a back and its jobs.
ghost use Rattle.std.specs.Prelude.{◌≡◌};
ghost use Rattle.vbd_back.specs.View.{heard};
ghost use Rattle.vbd_host.specs.Moves.{Heard, MovesBack, MovesJob, IsRound, IsHistory};

use crate::answer::{AnswerRoom, answer_back, answer_job};
use crate::host::BackHost;
use blk_base::Endpoint;
use vbd_back::Backend;

// The host hears what was told, if anything was.
#[inline(always)]
fn hear<H: BackHost>(back: &mut Backend, host: &mut H)
    ensures taken { back.new ≡ heard back.old }
    ensures told { Heard H.hears back.old.ring.told host.old host.new }
{
    if let Some(told) = back.take_told() {
        host.told(told);
    }
}

/// One move of the back: the host does what it asks, and hears what that told. Whether it moved: `false`
/// exactly where it waits and nothing came for it; then nothing changed. What was told before and not taken
/// the host hears first.
pub fn move_back<H: BackHost>(back: &mut Backend, host: &mut H, room: &mut AnswerRoom) -> bool
    ensures moves { MovesBack H.does H.hears result back.old back.new host.old host.new }
    ensures history { IsHistory back.old back.new }
{
    hear(back, host);
    let Some(answer) = answer_back(&back.ask(), host, room) else {
        return false;
    };
    // A back takes no memory once it is made.
    let _ = back.tell(&answer);
    hear(back, host);
    true
}

/// One move of the job of the `number`-th request that was fetched in this epoch, likewise. Whether it moved:
/// `false` exactly where it waits, or isn't held, or the back has halted.
pub fn move_job<H: BackHost>(
    back: &mut Backend,
    number: u64,
    host: &mut H,
    room: &mut AnswerRoom,
) -> bool
    ensures moves { MovesJob H.does H.hears number result back.old back.new host.old host.new }
    ensures history { IsHistory back.old back.new }
{
    hear(back, host);
    let Some(answer) = answer_job(&back.job_ask(number), host, room) else {
        return false;
    };
    back.job_tell(number, &answer);
    hear(back, host);
    true
}

/// A round: one move of the back, then one of each job that is held, by number. Whether anything moved:
/// where nothing did, nothing is to be done until an event or a watch comes.
pub fn round<H: BackHost>(back: &mut Backend, host: &mut H, room: &mut AnswerRoom) -> bool
    ensures round { IsRound H.does H.hears back.old back.new result host.old host.new }
    ensures history { IsHistory back.old back.new }
{
    let mut moved = move_back(back, host, room);
    let mut last = 0;
    while let Some(number) = back.next_job(last) {
        moved |= move_job(back, number, host, room);
        last = number;
    }
    moved
}
