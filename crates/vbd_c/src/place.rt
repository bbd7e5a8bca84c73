// A place for a back, in a struct that can be handed to C.
ghost use Rattle.std.specs.Prelude.{◌≡◌, Option, Some, None, IsSome};
ghost use Rattle.vbd_c.specs.View.{View};
ghost use Rattle.vbd_c.specs.Owned.{place_coded, place_owns};

use crate::held::HeldBack;
use crate::parts::Parts;
use std::alloc::Global;
use std::marker::Model;
use std::ptr::null_mut;

/// A place that owns a back, or is empty.
#[repr(C)]
#[derive(Drop)]
pub struct Place {
    ptr: *mut u8,
    alloc: Global,
    pub ghost held: { Option View } by { place_coded },
}

impl Model for Place {
    ghost also_owns = { λ p. place_owns p.alloc p.ptr p.held };
}

// It may go to another thread with its back.
unsafe impl Send for Place {}

impl Place {
    /// An empty place.
    pub fn empty(alloc: Global) -> Place
        ensures { result.held ≡ None }
    {
        Place {
            ptr: null_mut(),
            alloc,
        }
    }

    /// The place of a back.
    pub fn of_parts(parts: Parts<HeldBack, Global>) -> Place
        ensures { result.held ≡ Some parts.value }
    {
        let Parts { ptr, alloc } = parts;
        Place {
            ptr: ptr as *mut u8,
            alloc,
        }
    }

    /// The back of a place.
    pub fn into_parts(self) -> Parts<HeldBack, Global>
        requires { IsSome self.held }
        ensures { self.held ≡ Some result.value }
    {
        let Place { ptr, alloc } = self;
        Parts {
            ptr: ptr as *mut HeldBack,
            alloc,
        }
    }
}
