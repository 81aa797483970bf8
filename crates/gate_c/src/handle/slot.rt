//! A place for a session behind a pointer, empty or full.
ghost use Rattle.std.specs.Prelude.{◌≡◌, Option, Some, None, true, is_some};
ghost use Rattle.gate_c.specs.declared.session.GateSession.{GateSession};
ghost use Rattle.gate_c.specs.Slots.{session_coded, slot_owns};

use super::parts::BoxParts;
use crate::session::GateSession;
use std::alloc::Global;
use std::marker::Model;
use std::ptr::null_mut;

/// What is behind the pointer has no type here: C gets none whose fields are wider than its numbers.
///
/// It isn't `Drop`: a slot that is full is taken apart, and one that is empty is let go.
#[repr(C)]
pub struct Slot {
    ptr: *mut u8,
    alloc: Global,
    pub ghost session: { Option GateSession } by { session_coded },
}

impl Model for Slot {
    ghost also_owns = { λ s. slot_owns s.alloc s.ptr s.session };
}

// What it owns may go to another thread, and the pointer leads nowhere else.
unsafe impl Send for Slot {}

impl Slot {
    pub fn empty(alloc: Global) -> Slot
        ensures { result.session ≡ None }
    {
        Slot {
            ptr: null_mut(),
            alloc,
        }
    }

    pub(super) fn of_parts(parts: BoxParts<GateSession, Global>) -> Slot
        ensures { result.session ≡ Some parts.value }
    {
        let BoxParts { ptr, alloc } = parts;
        Slot {
            ptr: ptr as *mut u8,
            alloc,
        }
    }

    pub(super) fn into_parts(self) -> BoxParts<GateSession, Global>
        requires { is_some self.session ≡ true }
        ensures { self.session ≡ Some result.value }
    {
        let Slot { ptr, alloc } = self;
        BoxParts {
            ptr: ptr as *mut GateSession,
            alloc,
        }
    }

    /// Lets an empty slot go: there is nothing to free.
    pub(super) fn let_go(self)
        requires { self.session ≡ None }
        ensures { self.session ≡ None }
    {
        let Slot { ptr: _, alloc: _ } = self;
    }
}
