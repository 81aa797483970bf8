//! The entries in their order.
ghost use Rattle.std.specs.Prelude.{◌≡◌, ◌<◌, ◌≤◌, ◌↔◌, [], ◌∷◌, ◌++◌, length, IsTrue, IfOk, OnOk};
ghost use Rattle.gate_journal.specs.Legal.{entry_limit};

use crate::entry::Entry;
use gate_bytes::{Copied, Memory};
use std::alloc::Global;
use std::marker::Model;

/// The most entries of a journal.
pub const MAX_ENTRIES: usize = 100_000;

/// At most 100,000 entries, oldest first: contracts see them, and how many more can be pushed without memory.
#[derive(Drop)]
pub struct Journal {
    entries: Vec<Entry>,
}

impl Model for Journal {
    ghost use Rattle.std.specs.Prelude.{◌-◌, ◌≤◌, length};
    ghost use Rattle.std.specs.Vec.{vec_len, vec_capacity};
    ghost use Rattle.gate_journal.specs.Legal.{Recorded, entry_limit};

    ghost Value = { Recorded };

    ghost view = { λ j. record { entries = j.entries.items; room = vec_capacity j.entries - vec_len j.entries } };

    ghost invariant = { λ j. length j.entries.items ≤ entry_limit };
}

impl Journal {
    /// A journal without entries.
    pub fn new(alloc: Global) -> Journal
        ensures { result.entries ≡ [] }
    {
        Journal {
            entries: Vec::new(alloc),
        }
    }

    pub fn entries(&self) -> &[Entry]
        ensures entries { result.now ≡ self.now.entries }
        ensures few { length self.now.entries ≤ entry_limit }
    {
        self.entries.as_slice()
    }

    pub fn len(&self) -> usize
        ensures len { result ≡ length self.now.entries }
        ensures few { result ≤ entry_limit }
    {
        self.entries.len()
    }

    pub fn is_empty(&self) -> bool
        ensures { IsTrue result ↔ (self.now.entries ≡ []) }
    {
        self.entries.is_empty()
    }

    /// Whether it has 100,000 entries, the most that it may have.
    pub fn is_full(&self) -> bool
        ensures { IsTrue result ↔ (entry_limit ≤ length self.now.entries) }
    {
        self.entries.len() >= MAX_ENTRIES
    }

    /// Makes room for one more entry.
    pub fn reserve(&mut self) -> Result<(), Memory>
        ensures entries { self.new.entries ≡ self.old.entries }
        ensures room { OnOk result (0 < self.new.room) }
    {
        self.entries.reserve(1)?;
        Ok(())
    }

    /// Adds an entry, into room that was made for it: it takes no memory.
    pub fn push(&mut self, entry: Entry)
        requires room { 0 < self.old.room }
        requires few { length self.old.entries < entry_limit }
        ensures { self.new.entries ≡ self.old.entries ++ entry ∷ [] }
    {
        self.entries.push_reserved(entry);
    }

    /// A journal with the same entries.
    pub fn copy(&self, alloc: Global) -> Result<Journal, Memory>
        ensures { IfOk result (λ copy. copy.entries ≡ self.now.entries) }
    {
        let entries = Entry::copy_list(self.entries.as_slice(), alloc)?;
        Ok(Journal { entries })
    }
}
