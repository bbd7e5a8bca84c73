// What C holds of a front.
ghost use Rattle.std.specs.Prelude.{◌≡◌, Some, None, is_some, MatchOption};
ghost use Rattle.vbd_front.specs.Keep.{start_as};
ghost use Rattle.vbd_c.specs.Handle.{MadeWith};
ghost use Rattle.vbd_c.specs.FrontHeld.{options_of, answered_in, status_in, AnsweredAs};

use crate::front_held::HeldFront;
use crate::front_place::FrontPlace;
use crate::options::FrontOptions;
use crate::parts::Parts;
use crate::status::Status;
use blk_base::FrontAnswer;
use std::alloc::Global;
use std::mem;

/// A front that C holds (`struct vbd_front`), or none: all its bytes are 0 at first.
#[repr(C)]
#[derive(Drop)]
pub struct FrontHandle {
    live: bool,
    pub(crate) place: FrontPlace,
    ghost kept: { live ≡ is_some place.held },
}

impl FrontHandle {
    /// The front, which is put back before the call ends; `None` where there is none.
    pub fn take(&mut self, alloc: Global) -> Option<Box<HeldFront>>
        ensures taken { MatchOption result (self.old.place.held ≡ None) (λ b. self.old.place.held ≡ Some b.value) }
        ensures left { self.new.place.held ≡ None }
    {
        if !self.live {
            return None;
        }
        self.live = false;
        let place = mem::replace(&mut self.place, FrontPlace::empty(alloc));
        Some(place.into_parts().into_box())
    }

    /// A front, where there is none.
    pub fn put(&mut self, held: Box<HeldFront>)
        requires { self.old.place.held ≡ None }
        ensures { self.new.place.held ≡ Some held.value }
    {
        self.place = FrontPlace::of_parts(Parts::of(held));
        self.live = true;
    }

    /// Makes a front in it. `InUse` where it has one, `OutOfRange` where an option is, and `NoMemory` where there is not
    /// enough memory: then nothing changes.
    pub fn make(&mut self, alloc: Global, options: &FrontOptions) -> Status
        ensures { MadeWith start_as (options_of options.now) self.old.place.held self.new.place.held result }
    {
        if self.live {
            return Status::InUse;
        }
        let Some(config) = options.config() else {
            return Status::OutOfRange;
        };
        let Ok(held) = HeldFront::new(alloc, &config) else {
            return Status::NoMemory;
        };
        let Ok(held) = Box::new(alloc, held) else {
            return Status::NoMemory;
        };
        self.put(held);
        Status::Done
    }

    /// Answers what its front asks (`HeldFront::answer`); `NotAllowed` where numbers say no answer.
    pub fn answer(&mut self, alloc: Global, answer: Option<FrontAnswer>) -> Status
        ensures held { self.new.place.held ≡ answered_in self.old.place.held answer.entry }
        ensures status { result ≡ status_in self.old.place.held answer.entry }
        ensures answered { AnsweredAs self.old.place.held answer.entry self.new.place.held }
    {
        let Some(mut held) = self.take(alloc) else {
            return Status::Empty;
        };
        let status = match answer {
            Some(answer) => held.answer(&answer),
            None => Status::NotAllowed,
        };
        self.put(held);
        status
    }
}

// A handle may go to another thread: that this is accepted shows it.
fn handle_crosses() {
    crosses::<FrontHandle>();
}

fn crosses<T: Send>() {}
