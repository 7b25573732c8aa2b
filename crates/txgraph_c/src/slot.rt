//! The slot that C owns.
ghost use Rattle.std.specs.Prelude.{◌≡◌, Option, Some, None, MatchOption, is_some};

use crate::handle::Handle;
use crate::loose::Loose;
use desk::desk::Desk;
use std::alloc::Global;
use std::mem::replace;

/// Where C keeps a graph: 16 bytes, all 0 at first. It has a graph exactly where it is live.
#[repr(C)]
pub struct Slot {
    pub live: bool,
    pub handle: Handle,
    ghost in_step: { live ≡ is_some handle.value },
}

impl Slot {
    /// A slot without a desk.
    fn empty(alloc: Global) -> Slot
        ensures { result.handle.value ≡ None }
    {
        Slot {
            live: false,
            handle: Handle::empty(alloc),
        }
    }

    /// A slot with this desk.
    fn holding(desk: Box<Desk>) -> Slot
        ensures { result.handle.value ≡ Some desk.value }
    {
        Slot {
            live: true,
            handle: Handle::of_loose(Loose::of(desk)),
        }
    }

    /// The desk in it, if it has one.
    fn into_desk(self) -> Option<Box<Desk>>
        ensures { MatchOption result (self.handle.value ≡ None) (λ desk. self.handle.value ≡ Some desk.value) }
    {
        let Slot { live, handle } = self;
        if live {
            return Some(handle.into_loose().into_box());
        }
        handle.discard();
        None
    }
}

/// Takes the desk out of a slot.
pub(crate) fn take(alloc: Global, slot: &mut Slot) -> Option<Box<Desk>>
    ensures taken { MatchOption result (slot.old.handle.value ≡ None) (λ desk. slot.old.handle.value ≡ Some desk.value) }
    ensures empty { slot.new.handle.value ≡ None }
{
    replace(slot, Slot::empty(alloc)).into_desk()
}

/// Puts a desk into a slot that has none.
pub(crate) fn put(slot: &mut Slot, desk: Box<Desk>)
    requires { slot.old.handle.value ≡ None }
    ensures { slot.new.handle.value ≡ Some desk.value }
{
    let Slot { live: _, handle } = replace(slot, Slot::holding(desk));
    handle.discard();
}
