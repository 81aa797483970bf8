//! When entries were admitted, of which the earliest is known at once.
ghost use Rattle.std.specs.Prelude.{◌≡◌, ◌<◌, ◌≤◌, ◌+◌, [], ◌∷◌, false, length, Contains, IfOk, IfSome, IfNone, OnOk};
ghost use Rattle.std.specs.List.Sorted.{IsPermutation};
ghost use Rattle.gate_pool.specs.Arrivals.{arrival_of, HaveArrived, IsTaken};
ghost use Rattle.gate_pool.specs.Places.{standing};
ghost use Rattle.gate_pool.specs.declared.arrivals.Arrival.{Arrival as Came};

use crate::entry::Entry;
use gate_bytes::Memory;
use gate_graph::Held;
use gate_tx::Txid;
use std::alloc::Global;
use std::cmp::Ordering;
use std::collections::BinaryHeap;
use std::marker::Model;

/// The second at which an entry was admitted, and its id. Arrivals compare by their seconds alone, the earlier as the
/// greater, so that it is the first of a heap.
#[derive(Clone, Copy)]
pub(crate) struct Arrival {
    time: u64,
    txid: Txid,
}

impl PartialEq for Arrival {
    ghost use Rattle.gate_pool.specs.Arrivals.{arrival_eq, arrival_eq_equiv};
    ghost use Rattle.std.specs.Cmp.{partial_equiv_from_equiv};

    ghost eq = { arrival_eq };

    ghost laws = { partial_equiv_from_equiv arrival_eq_equiv };

    fn eq(&self, other: &Arrival) -> bool {
        self.cmp(other) == Ordering::Equal
    }
}

impl Eq for Arrival {
    ghost use Rattle.gate_pool.specs.Arrivals.{arrival_eq_equiv};

    ghost laws = { arrival_eq_equiv };
}

impl PartialOrd for Arrival {
    ghost use Rattle.std.specs.Prelude.{refl};
    ghost use Rattle.std.specs.Ordering.{as_partial_cmp};
    ghost use Rattle.std.specs.Cmp.{partial_order_from_agreeing_total};
    ghost use Rattle.gate_pool.specs.Arrivals.{arrival_cmp, arrival_cmp_total, arrival_eq_is};

    ghost partial_cmp = { as_partial_cmp arrival_cmp };

    ghost laws = { partial_order_from_agreeing_total arrival_cmp arrival_cmp_total (λ x y. refl) arrival_eq_is };

    fn partial_cmp(&self, other: &Arrival) -> Option<Ordering> {
        Some(self.cmp(other))
    }
}

impl Ord for Arrival {
    ghost use Rattle.std.specs.Prelude.{refl};
    ghost use Rattle.gate_pool.specs.Arrivals.{arrival_cmp, arrival_cmp_total, arrival_eq_is};

    ghost cmp = { arrival_cmp };

    ghost total = { arrival_cmp_total };

    ghost matches_partial_cmp = { λ x y. refl };

    ghost matches_eq = { arrival_eq_is };

    fn cmp(&self, other: &Arrival) -> Ordering {
        other.time.cmp(&self.time)
    }
}

/// Arrivals of entries. That of an entry that leaves stays until it is the earliest, or until all are listed anew.
#[derive(Drop)]
pub(crate) struct Arrivals {
    heap: BinaryHeap<Arrival>,
}

impl Model for Arrivals {
    ghost use Rattle.std.specs.Prelude.{◌-◌};
    ghost use Rattle.std.specs.BinaryHeap.{heap_items, heap_len, heap_capacity, IsHeap};
    ghost use Rattle.gate_pool.specs.Arrivals.{Arrived, arrival_cmp};

    ghost Value = { Arrived };

    ghost view = { λ a. record { list = heap_items a.heap; room = heap_capacity a.heap - heap_len a.heap } };

    ghost invariant = { λ a. IsHeap arrival_cmp (heap_items a.heap) };
}

impl Arrivals {
    pub(crate) fn new(alloc: Global) -> Arrivals
        ensures { result.list ≡ [] }
    {
        Arrivals {
            heap: BinaryHeap::new(alloc),
        }
    }

    pub(crate) fn with_capacity(alloc: Global, places: usize) -> Result<Arrivals, Memory>
        ensures list { IfOk result (λ arrivals. arrivals.list ≡ []) }
        ensures room { IfOk result (λ arrivals. places ≤ arrivals.room) }
    {
        let heap = BinaryHeap::with_capacity(alloc, places)?;
        Ok(Arrivals { heap })
    }

    pub(crate) fn len(&self) -> usize
        ensures { result ≡ length self.now.list }
    {
        self.heap.len()
    }

    /// Takes the memory for this many more.
    pub(crate) fn reserve(&mut self, more: usize) -> Result<(), Memory>
        ensures list { self.new.list ≡ self.old.list }
        ensures kept { self.old.room ≤ self.new.room }
        ensures room { OnOk result (more ≤ self.new.room) }
    {
        self.heap.reserve(more)?;
        Ok(())
    }

    /// Puts in the arrival of an entry, for which there is room.
    pub(crate) fn push(&mut self, entry: &Entry)
        requires { 0 < self.old.room }
        ensures pushed { IsPermutation (arrival_of entry.now ∷ self.old.list) self.new.list }
        ensures room { self.old.room ≤ self.new.room + 1 }
    {
        let arrival = Arrival {
            time: entry.time(),
            txid: entry.txid(),
        };
        let put: Result<_, _> = self.heap.push(arrival);
        let _ = put.unwrap();
    }

    /// Whether an arrival was before a second.
    pub(crate) fn has_before(&self, time: u64) -> bool
        ensures { result ≡ false → (a : Came) → Contains self.now.list a → time ≤ a.time }
    {
        match self.heap.peek() {
            Some(earliest) => earliest.time < time,
            None => false,
        }
    }

    /// Takes out the earliest arrival if it was before a second, and returns its id.
    pub(crate) fn take_before(&mut self, time: u64) -> Option<Txid>
        ensures some { IfSome result (λ txid. IsTaken time self.old.list txid self.new.list) }
        ensures none { IfNone result ((a : Came) → Contains self.old.list a → time ≤ a.time) }
        ensures same { IfNone result (self.new.list ≡ self.old.list) }
    {
        let earliest = self.heap.peek()?;
        if earliest.time >= time {
            return None;
        }
        let arrival = self.heap.pop()?;
        Some(arrival.txid)
    }

    fn clear(&mut self)
        ensures list { self.new.list ≡ [] }
        ensures room { self.new.room ≡ length self.old.list + self.old.room }
    {
        self.heap.clear();
    }

    /// Writes the arrivals of the entries in these slots over those that are there.
    pub(crate) fn list_anew(&mut self, slots: &[Option<Held<Entry>>])
        requires { length (standing slots.now) ≤ length self.old.list + self.old.room }
        ensures arrived { HaveArrived (standing slots.now) self.new.list }
        ensures room { length self.old.list + self.old.room ≤ length (standing slots.now) + self.new.room }
    {
        self.clear();
        for slot in slots {
            match slot {
                Some(held) => self.push(&held.load),
                None => {}
            }
        }
    }
}
