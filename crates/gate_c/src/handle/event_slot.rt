//! A place for what a line asks for behind a pointer, empty or full.
ghost use Rattle.std.specs.Prelude.{◌≡◌, Option, Some, None, true, is_some};
ghost use Rattle.gate_c.specs.declared.reading.Reading.{Reading};
ghost use Rattle.gate_c.specs.EventSlots.{reading_coded, event_owns};

use super::parts::BoxParts;
use crate::reading::Reading;
use std::alloc::Global;
use std::marker::Model;
use std::ptr::null_mut;

/// What is behind the pointer has no type here: C gets none whose fields are wider than its numbers.
///
/// It isn't `Drop`: a slot that is full is taken apart, and one that is empty is let go.
#[repr(C)]
pub struct EventSlot {
    ptr: *mut u8,
    alloc: Global,
    pub ghost reading: { Option Reading } by { reading_coded },
}

impl Model for EventSlot {
    ghost also_owns = { λ s. event_owns s.alloc s.ptr s.reading };
}

// What it owns may go to another thread, and the pointer leads nowhere else.
unsafe impl Send for EventSlot {}

impl EventSlot {
    pub fn empty(alloc: Global) -> EventSlot
        ensures { result.reading ≡ None }
    {
        EventSlot {
            ptr: null_mut(),
            alloc,
        }
    }

    pub(super) fn of_parts(parts: BoxParts<Reading, Global>) -> EventSlot
        ensures { result.reading ≡ Some parts.value }
    {
        let BoxParts { ptr, alloc } = parts;
        EventSlot {
            ptr: ptr as *mut u8,
            alloc,
        }
    }

    pub(super) fn into_parts(self) -> BoxParts<Reading, Global>
        requires { is_some self.reading ≡ true }
        ensures { self.reading ≡ Some result.value }
    {
        let EventSlot { ptr, alloc } = self;
        BoxParts {
            ptr: ptr as *mut Reading,
            alloc,
        }
    }

    /// Lets an empty slot go: there is nothing to free.
    pub(super) fn let_go(self)
        requires { self.reading ≡ None }
        ensures { self.reading ≡ None }
    {
        let EventSlot { ptr: _, alloc: _ } = self;
    }
}
