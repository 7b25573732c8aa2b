//! A desk as a pointer that C can hold.
ghost use Rattle.std.specs.Prelude.{◌≡◌, Option, Some, None, IsSome};
ghost use Rattle.desk.specs.declared.desk.Desk.{Desk};
ghost use Rattle.txgraph_c.specs.Handles.{handle_owns, desk_coded};

use crate::loose::Loose;
use desk::desk::Desk;
use std::alloc::Global;
use std::marker::Model;

/// A pointer to a desk on the heap, or to none. What it leads to it owns, so it can't be let go, nor copied.
#[repr(C)]
pub struct Handle {
    at: *mut u8,
    alloc: Global,
    pub ghost value: { Option Desk } by { desk_coded },
}

impl Model for Handle {
    ghost also_owns = { λ h. handle_owns h.alloc h.at h.value };
}

impl Handle {
    /// No desk.
    pub(crate) fn empty(alloc: Global) -> Handle
        ensures { result.value ≡ None }
    {
        Handle {
            at: std::ptr::null_mut(),
            alloc,
        }
    }

    /// The pointer of a box that was taken apart.
    pub(crate) fn of_loose(loose: Loose<Desk, Global>) -> Handle
        ensures { result.value ≡ Some loose.value }
    {
        let Loose { at, alloc } = loose;
        Handle {
            at: at as *mut u8,
            alloc,
        }
    }

    /// A box that was taken apart again. There is a desk.
    pub(crate) fn into_loose(self) -> Loose<Desk, Global>
        requires { IsSome self.value }
        ensures { Some result.value ≡ self.value }
    {
        let Handle { at, alloc } = self;
        Loose {
            at: at as *mut Desk,
            alloc,
        }
    }

    /// Lets a handle without a desk go.
    pub(crate) fn discard(self)
        requires { self.value ≡ None }
    {
        let Handle { at: _, alloc: _ } = self;
    }
}
