//! The handle that C holds: a slot for a session, and whether it is full.
ghost use Rattle.std.specs.Prelude.{◌≡◌, Some, None, MatchOption, is_some};

mod event;
mod event_slot;
mod parts;
mod slot;

use crate::session::GateSession;
pub use event::GateEvent;
pub use event_slot::EventSlot;
use parts::BoxParts;
pub use slot::Slot;
use std::alloc::Global;
use std::mem;

/// A handle. C initializes it with zeros, a null pointer and `false`, which is a closed handle.
#[repr(C)]
pub struct GateHandle {
    pub slot: Slot,
    pub is_open: bool,
    ghost full: { is_open ≡ is_some slot.session },
}

impl Drop for GateHandle {
    fn drop(self) {
        drop(self.into_box());
    }
}

/// Returns its argument, whose type has to be one that may go to another thread.
fn sent<T: Send>(value: T) -> T
    ensures { result ≡ value }
{
    value
}

impl GateHandle {
    fn closed(alloc: Global) -> GateHandle
        ensures { result.slot.session ≡ None }
    {
        GateHandle {
            slot: Slot::empty(alloc),
            is_open: false,
        }
    }

    fn into_box(self) -> Option<Box<GateSession, Global>>
        ensures { MatchOption result (self.slot.session ≡ None) (λ session. self.slot.session ≡ Some session.value) }
    {
        let GateHandle { slot, is_open } = self;
        if is_open {
            Some(slot.into_parts().into_box())
        } else {
            slot.let_go();
            None
        }
    }

    /// Closes the handle, and gives its session if it was open.
    pub fn take(&mut self, alloc: Global) -> Option<Box<GateSession, Global>>
        ensures closed { self.new.slot.session ≡ None }
        ensures taken { MatchOption result (self.old.slot.session ≡ None) (λ session. self.old.slot.session ≡ Some session.value) }
    {
        mem::replace(self, GateHandle::closed(alloc)).into_box()
    }

    /// Opens the handle with a session, which replaces what it holds.
    pub fn put(&mut self, session: Box<GateSession, Global>)
        ensures { self.new.slot.session ≡ Some session.value }
    {
        *self = sent(GateHandle {
            slot: Slot::of_parts(BoxParts::of(session)),
            is_open: true,
        });
    }
}
