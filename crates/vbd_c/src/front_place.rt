// A place for a front, in a struct that can be handed to C.
ghost use Rattle.std.specs.Prelude.{◌≡◌, Option, Some, None, IsSome};
ghost use Rattle.vbd_front.specs.Keep.{KeepingView};
ghost use Rattle.vbd_c.specs.FrontOwned.{place_coded, place_owns};

use crate::front_held::HeldFront;
use crate::parts::Parts;
use std::alloc::Global;
use std::marker::Model;
use std::ptr::null_mut;

/// A place that owns a front, or is empty.
#[repr(C)]
#[derive(Drop)]
pub struct FrontPlace {
    ptr: *mut u8,
    alloc: Global,
    pub ghost held: { Option KeepingView } by { place_coded },
}

impl Model for FrontPlace {
    ghost also_owns = { λ p. place_owns p.alloc p.ptr p.held };
}

// It may go to another thread with its front.
unsafe impl Send for FrontPlace {}

impl FrontPlace {
    /// An empty place.
    pub fn empty(alloc: Global) -> FrontPlace
        ensures { result.held ≡ None }
    {
        FrontPlace {
            ptr: null_mut(),
            alloc,
        }
    }

    /// The place of a front.
    pub fn of_parts(parts: Parts<HeldFront, Global>) -> FrontPlace
        ensures { result.held ≡ Some parts.value }
    {
        let Parts { ptr, alloc } = parts;
        FrontPlace {
            ptr: ptr as *mut u8,
            alloc,
        }
    }

    /// The front of a place.
    pub fn into_parts(self) -> Parts<HeldFront, Global>
        requires { IsSome self.held }
        ensures { self.held ≡ Some result.value }
    {
        let FrontPlace { ptr, alloc } = self;
        Parts {
            ptr: ptr as *mut HeldFront,
            alloc,
        }
    }
}
