//! The event that C holds: a slot for what a line asks for, and whether it is full.
ghost use Rattle.std.specs.Prelude.{◌≡◌, Some, None, MatchOption, is_some};

use super::event_slot::EventSlot;
use super::parts::BoxParts;
use super::sent;
use crate::reading::Reading;
use std::alloc::Global;
use std::mem;

/// An event. C initializes it with zeros, a null pointer and `false`, which is a closed event.
#[repr(C)]
pub struct GateEvent {
    pub slot: EventSlot,
    pub is_open: bool,
    ghost full: { is_open ≡ is_some slot.reading },
}

impl Drop for GateEvent {
    fn drop(self) {
        drop(self.into_box());
    }
}

impl GateEvent {
    fn closed(alloc: Global) -> GateEvent
        ensures { result.slot.reading ≡ None }
    {
        GateEvent {
            slot: EventSlot::empty(alloc),
            is_open: false,
        }
    }

    fn into_box(self) -> Option<Box<Reading, Global>>
        ensures { MatchOption result (self.slot.reading ≡ None) (λ reading. self.slot.reading ≡ Some reading.value) }
    {
        let GateEvent { slot, is_open } = self;
        if is_open {
            Some(slot.into_parts().into_box())
        } else {
            slot.let_go();
            None
        }
    }

    /// Closes the event, and gives what it holds if it was open.
    pub fn take(&mut self, alloc: Global) -> Option<Box<Reading, Global>>
        ensures closed { self.new.slot.reading ≡ None }
        ensures taken { MatchOption result (self.old.slot.reading ≡ None) (λ reading. self.old.slot.reading ≡ Some reading.value) }
    {
        mem::replace(self, GateEvent::closed(alloc)).into_box()
    }

    /// Opens the event with what a line asks for, which replaces what it holds.
    pub fn put(&mut self, reading: Box<Reading, Global>)
        ensures { self.new.slot.reading ≡ Some reading.value }
    {
        *self = sent(GateEvent {
            slot: EventSlot::of_parts(BoxParts::of(reading)),
            is_open: true,
        });
    }
}
