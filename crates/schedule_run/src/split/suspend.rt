// The domain is suspended and resumes.
ghost use Rattle.std.specs.Prelude.{◌≡◌};
ghost use Rattle.blk_io.specs.Disk.{DiskSeen};
ghost use Rattle.split_model.specs.World.{state_after};
ghost use Rattle.vbd_model.specs.Kind.{IsSuspend, IsSuspendSoFar};
ghost use Rattle.vbd_model.specs.Leads.{Goes, moment};

use super::Split;
use blk_base::{ShortText, Text};
use schedule_text::{Line, RecordStop, Recorder};

impl Split {
    /// The domain is suspended and resumes, and that is shown: everything between the domains vanishes,
    /// a new back begins, and the front goes on with the requests whose answer wasn't told. Where the
    /// front is closed or broken nothing follows. Where there is no memory for a new back or for the
    /// keys, or no number for another port, nothing happens.
    pub fn suspend<R: Recorder>(&mut self, recorder: &mut R) -> Result<(), RecordStop>
        ensures { (disk : DiskSeen) → Goes (IsSuspend self.old) (IsSuspendSoFar self.old) 0 result
            (moment self.old disk (R.seen recorder.old))
            (moment self.new disk (R.seen recorder.new)) }
    {
        if !self.under.may_suspend() {
            return Err(RecordStop::OutOfMemory);
        }
        let going = self.front.is_open();
        let Ok(back) = self.back.renewed(self.alloc, self.front.start(), going) else {
            return Err(RecordStop::OutOfMemory);
        };
        let Ok(()) = self.under.suspend(&state_of(going)) else {
            return Err(RecordStop::OutOfMemory);
        };
        self.front.suspend();
        self.back = back;
        recorder.add(&Line::Epoch)
    }
}

// The state that both keys have after a suspend: Initialising, or Closed where the front is closed or
// broken.
fn state_of(going: bool) -> Text
    ensures { result ≡ state_after going }
{
    ShortText::of(if going { "1" } else { "6" })
}
