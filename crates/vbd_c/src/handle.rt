// What C holds of a back.
ghost use Rattle.std.specs.Prelude.{◌≡◌, Some, None, is_some, MatchOption};
ghost use Rattle.vbd_c.specs.View.{start_of};
ghost use Rattle.vbd_c.specs.Handle.{MadeWith};
ghost use Rattle.vbd_c.specs.Held.{options_of, answered_in, status_in, AnsweredAs};

use crate::held::HeldBack;
use crate::options::BackOptions;
use crate::parts::Parts;
use crate::place::Place;
use crate::status::Status;
use blk_base::BackAnswer;
use std::alloc::Global;
use std::mem;

/// A back that C holds (`struct vbd_back`), or none: all its bytes are 0 at first.
#[repr(C)]
#[derive(Drop)]
pub struct Handle {
    live: bool,
    pub(crate) place: Place,
    ghost kept: { live ≡ is_some place.held },
}

impl Handle {
    /// The back, which is put back before the call ends; `None` where there is none.
    pub fn take(&mut self, alloc: Global) -> Option<Box<HeldBack>>
        ensures taken { MatchOption result (self.old.place.held ≡ None) (λ b. self.old.place.held ≡ Some b.value) }
        ensures left { self.new.place.held ≡ None }
    {
        if !self.live {
            return None;
        }
        self.live = false;
        let place = mem::replace(&mut self.place, Place::empty(alloc));
        Some(place.into_parts().into_box())
    }

    /// A back, where there is none.
    pub fn put(&mut self, held: Box<HeldBack>)
        requires { self.old.place.held ≡ None }
        ensures { self.new.place.held ≡ Some held.value }
    {
        self.place = Place::of_parts(Parts::of(held));
        self.live = true;
    }

    /// Makes a back in it. `InUse` where it has one, `OutOfRange` where an option is, and `NoMemory` where there is not
    /// enough memory: then nothing changes.
    pub fn make(&mut self, alloc: Global, options: &BackOptions) -> Status
        ensures { MadeWith start_of (options_of options.now) self.old.place.held self.new.place.held result }
    {
        if self.live {
            return Status::InUse;
        }
        let Some(config) = options.config() else {
            return Status::OutOfRange;
        };
        let Ok(held) = HeldBack::new(alloc, &config) else {
            return Status::NoMemory;
        };
        let Ok(held) = Box::new(alloc, held) else {
            return Status::NoMemory;
        };
        self.put(held);
        Status::Done
    }

    /// Answers what its back or a job asks (`HeldBack::answer`); `NotAllowed` where numbers say no answer.
    pub fn answer(&mut self, alloc: Global, job: u64, answer: Option<BackAnswer>) -> Status
        ensures held { self.new.place.held ≡ answered_in self.old.place.held job answer.entry }
        ensures status { result ≡ status_in self.old.place.held job answer.entry }
        ensures answered { AnsweredAs self.old.place.held job answer.entry self.new.place.held }
    {
        let Some(mut held) = self.take(alloc) else {
            return Status::Empty;
        };
        let status = match answer {
            Some(answer) => held.answer(job, &answer),
            None => Status::NotAllowed,
        };
        self.put(held);
        status
    }
}

// A handle may go to another thread: that this is accepted shows it.
fn handle_crosses() {
    crosses::<Handle>();
}

fn crosses<T: Send>() {}
