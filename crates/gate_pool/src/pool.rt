ghost use Rattle.std.specs.Prelude.{◌≡◌, ◌<◌, ◌≤◌, ◌+◌, ◌^◌, ◌&&◌, None, [], not, filter, length, is_some, IfOk, IfSome, OnOk};
ghost use Rattle.std.specs.List.{list_any};
ghost use Rattle.std.specs.List.Sorted.{IsPermutation};
ghost use Rattle.std.specs.Option.{option_copied};
ghost use Rattle.gate_tx.specs.Ids.{txid_of, wtxid_of};
ghost use Rattle.gate_pool.specs.Pool.{IsNotLess, IsRewindable, all_of, entry_by_txid, entry_by_wtxid, inputs_of, spender_of, has_txid, listing_of, room_of, size_of, is_before};
ghost use Rattle.gate_pool.specs.Family.{names, spends_one_of, totals_of, without_family, without_below, entered, OfThese};
ghost use Rattle.gate_pool.specs.Counting.{entered_beside};
ghost use Rattle.gate_pool.specs.Scores.{AreBounded, least_of};
ghost use Rattle.gate_pool.specs.Distinct.{AreDistinct};
ghost use Rattle.gate_pool.specs.Moves.{departed, arrived};

use crate::arrivals::Arrivals;
use crate::choice::Test;
use crate::entry::Entry;
use crate::naming::node_id;
use crate::scores::Score;
use crate::store::Store;
use crate::view::FamilyView;
use gate_bytes::{Kept, Memory};
use gate_graph::{NodeId, Totals};
use gate_tx::{OutPoint, TxIn, Txid, Wtxid};
use std::alloc::Global;
use std::hash::BuildHasher;
use std::marker::Model;

/// The transactions that wait for a block, in order of admission.
#[derive(Drop)]
pub struct Pool<S: BuildHasher + Copy + Drop> {
    store: Store<S>,
    /// Room for the ids of entries that are chosen.
    chosen: Vec<NodeId>,
    /// The least score of all entries, of equal ones that of the last.
    least: Option<Score>,
    /// When the entries were admitted.
    arrivals: Arrivals,
}

impl<S: BuildHasher + Copy + Drop> Model for Pool<S> {
    ghost use Rattle.std.specs.Vec.{vec_capacity};
    ghost use Rattle.gate_pool.specs.Pool.{Pooled};
    ghost use Rattle.gate_pool.specs.Keeping.{IsReady};

    ghost Value = { Pooled };

    ghost view = { λ p. p.store };

    ghost invariant = { λ p. IsReady p.store.entries p.store.room.entries (vec_capacity p.chosen) p.arrivals p.least };
}

impl<S: BuildHasher + Copy + Drop> Pool<S> {
    /// A pool without entries, whose tables hash by `hasher`.
    pub fn new(alloc: Global, hasher: S) -> Result<Pool<S>, Memory>
        ensures entries { IfOk result (λ pool. pool.entries ≡ []) }
        ensures before { IfOk result (λ pool. pool.before ≡ []) }
    {
        Ok(Pool {
            store: Store::new(alloc, hasher),
            chosen: Vec::new(alloc),
            least: None,
            arrivals: Arrivals::new(alloc),
        })
    }

    pub fn entry(&self, txid: &Txid) -> Option<&Entry>
        ensures { option_copied result ≡ entry_by_txid self.now.entries txid.now }
    {
        self.store.entry(txid)
    }

    /// Whether an entry has an id. The one that came last is asked first: if it has the id, this is no look-up.
    pub fn contains(&self, txid: &Txid) -> bool
        ensures { result ≡ is_some (entry_by_txid self.now.entries txid.now) }
    {
        let mut near = self.store.last_place();
        self.store.entry_near(txid, &mut near).is_some()
    }

    pub fn by_wtxid(&self, wtxid: &Wtxid) -> Option<&Entry>
        ensures { option_copied result ≡ entry_by_wtxid self.now.entries wtxid.now }
    {
        self.store.by_wtxid(wtxid)
    }

    /// The entry that spends an outpoint.
    pub fn spender(&self, point: &OutPoint) -> Option<&Entry>
        ensures { option_copied result ≡ spender_of self.now.entries point.now }
    {
        self.store.spender(point)
    }

    /// The totals of an entry's ancestors and of its descendants, each with the entry itself, which are stored; none
    /// for an id that no entry has.
    pub fn totals(&self, txid: &Txid) -> Option<&Totals>
        ensures found { is_some result ≡ is_some (entry_by_txid self.now.entries txid.now) }
        ensures totals { IfSome result (λ totals. totals.now ≡ totals_of self.now.entries txid.now) }
        ensures small { IfSome result (λ totals. totals.now.below.size < 2 ^ 100) }
    {
        self.store.totals(txid)
    }

    /// The totals of an entry, as `totals` finds them. It is looked for at the place `near` first, over which is written
    /// where an entry that it spends from may stand: so a walk up a chain needs one look-up.
    pub fn totals_near(&self, txid: &Txid, near: &mut Option<usize>) -> Option<&Totals>
        ensures found { is_some result ≡ is_some (entry_by_txid self.now.entries txid.now) }
        ensures totals { IfSome result (λ totals. totals.now ≡ totals_of self.now.entries txid.now) }
        ensures small { IfSome result (λ totals. totals.now.below.size < 2 ^ 100) }
    {
        self.store.totals_near(txid, near)
    }

    pub fn count(&self) -> usize
        ensures { result ≡ length self.now.entries }
    {
        self.store.count()
    }

    /// The sizes of all entries, added up, in virtual bytes.
    pub fn size(&self) -> u128
        ensures { result ≡ size_of self.now.entries }
    {
        self.store.size()
    }

    /// The txids, in order of admission.
    pub fn listing(&self, alloc: Global) -> Result<Kept<Txid>, Memory>
        ensures { IfOk result (λ txids. txids ≡ listing_of self.now.entries) }
    {
        self.store.listing(alloc)
    }

    /// Puts the ids of entries in order of admission, in place.
    pub fn sort_by_admission(&self, txids: &mut [Txid])
        ensures order { OfThese self.now.entries txids.old (λ these. txids.new ≡ listing_of these) }
        ensures same { IsPermutation txids.old txids.new }
        ensures len { length txids.new ≡ length txids.old }
    {
        self.store.sort_by_admission(txids);
    }

    /// The state that the hashers are made from.
    pub fn hasher(&self) -> S {
        self.store.hasher()
    }

    /// States that no two entries share an id or spend one outpoint, for proofs: it does nothing.
    pub fn recall_distinct(&self)
        ensures { AreDistinct self.now.entries }
    {
        self.store.recall_distinct();
    }

    /// Takes the memory for this many entries more, of this many inputs together, of which the next newcomer may have all.
    /// If memory runs out, there is as much room as before.
    pub fn reserve(&mut self, entries: usize, inputs: usize) -> Result<(), Memory>
        ensures entries { self.new.entries ≡ self.old.entries }
        ensures before { self.new.before ≡ self.old.before }
        ensures left { self.new.left ≡ self.old.left }
        ensures kept { IsNotLess self.old.room self.new.room }
        ensures next_kept { self.old.next ≤ self.new.next }
        ensures room { OnOk result (entries ≤ self.new.room.entries) }
        ensures inputs { OnOk result (inputs ≤ self.new.room.inputs) }
        ensures next { OnOk result (inputs ≤ self.new.next) }
    {
        self.take_room(entries, inputs, inputs)
    }

    /// Takes the memory for this many entries more, of this many inputs together, of which the next newcomer may have all,
    /// and for all that has left since the log began and what leaves with the entries of some ids, so that the pool can
    /// still be rewound then. If memory runs out, there is as much room as before. It looks at each entry that has left.
    pub fn reserve_to_rewind(
        &mut self,
        leaving: &[Txid],
        entries: usize,
        inputs: usize,
    ) -> Result<(), Memory>
        ensures entries { self.new.entries ≡ self.old.entries }
        ensures before { self.new.before ≡ self.old.before }
        ensures left { self.new.left ≡ self.old.left }
        ensures kept { IsNotLess self.old.room self.new.room }
        ensures next_kept { self.old.next ≤ self.new.next }
        ensures room { OnOk result (self.old.left.entries + length leaving.now + entries ≤ self.new.room.entries) }
        ensures inputs { OnOk result (self.old.left.inputs + inputs_of self.old.entries leaving.now + inputs ≤ self.new.room.inputs) }
        ensures next { OnOk result (inputs ≤ self.new.next) }
    {
        let leave = self.store.entries_left(leaving.len())?;
        let enter = leave.checked_add(entries).ok_or(Memory)?;
        let spend = self.store.inputs_left(leaving, inputs)?;
        self.take_room(enter, spend, inputs)
    }

    /// Takes the memory for this many entries more, of this many inputs together, of which the next newcomer has no more
    /// than `next`. If memory runs out, there is as much room as before.
    fn take_room(&mut self, entries: usize, inputs: usize, next: usize) -> Result<(), Memory>
        ensures entries { self.new.entries ≡ self.old.entries }
        ensures before { self.new.before ≡ self.old.before }
        ensures left { self.new.left ≡ self.old.left }
        ensures kept { IsNotLess self.old.room self.new.room }
        ensures next_kept { self.old.next ≤ self.new.next }
        ensures room { OnOk result (entries ≤ self.new.room.entries) }
        ensures inputs { OnOk result (inputs ≤ self.new.room.inputs) }
        ensures next { OnOk result (next ≤ self.new.next) }
    {
        let Some(places) = self.store.count().checked_add(entries) else {
            return Err(Memory);
        };
        self.chosen.clear();
        self.chosen.reserve(places)?;
        self.store.reserve_arrivals(&mut self.arrivals, entries)?;
        self.store.reserve(entries, inputs, next)
    }

    /// Puts an entry at the end, in place of all entries that conflict with it and of all that are below these. It
    /// takes no memory, and uses up its own of the room that was taken.
    pub fn replace(&mut self, entry: Entry)
        requires room { 0 < self.old.room.entries }
        requires inputs { length entry.tx.inputs ≤ self.old.room.inputs }
        requires next { length entry.tx.inputs ≤ self.old.next }
        requires txid { entry_by_txid self.old.entries (txid_of entry.tx) ≡ None }
        requires wtxid { entry_by_wtxid self.old.entries (wtxid_of entry.tx) ≡ None }
        ensures entries { self.new.entries ≡ entered self.old.entries entry }
        ensures before { self.new.before ≡ self.old.before }
        ensures room { self.old.room.entries ≤ self.new.room.entries + 1 }
        ensures room_inputs { self.old.room.inputs ≤ self.new.room.inputs + length entry.tx.inputs }
        ensures left { (all_of self.new).entries ≡ (all_of self.old).entries + 1 }
        ensures left_inputs { (all_of self.new).inputs ≡ (all_of self.old).inputs + length entry.tx.inputs }
    {
        self.replace_beside(None, entry);
    }

    /// Puts an entry at the end, in place of all entries that conflict with it, of the entry of this id, and of all that
    /// are below these. It takes no memory, and uses up its own of the room that was taken.
    pub fn replace_beside(&mut self, sibling: Option<Txid>, entry: Entry)
        requires room { 0 < self.old.room.entries }
        requires inputs { length entry.tx.inputs ≤ self.old.room.inputs }
        requires next { length entry.tx.inputs ≤ self.old.next }
        requires txid { entry_by_txid self.old.entries (txid_of entry.tx) ≡ None }
        requires wtxid { entry_by_wtxid self.old.entries (wtxid_of entry.tx) ≡ None }
        ensures entries { self.new.entries ≡ entered_beside self.old.entries sibling entry }
        ensures before { self.new.before ≡ self.old.before }
        ensures room { self.old.room.entries ≤ self.new.room.entries + 1 }
        ensures room_inputs { self.old.room.inputs ≤ self.new.room.inputs + length entry.tx.inputs }
        ensures left { (all_of self.new).entries ≡ (all_of self.old).entries + 1 }
        ensures left_inputs { (all_of self.new).inputs ≡ (all_of self.old).inputs + length entry.tx.inputs }
    {
        self.arrivals.push(&entry);
        self.store.take_sibling(sibling);
        self.store.take_conflicts(entry.transaction().inputs());
        self.store.put(entry);
        self.least = self.store.least();
    }

    /// Takes out the entry of an id and all that is below the id. It takes no memory, and gives up the room that was
    /// taken.
    pub fn take_family(&mut self, txid: &Txid)
        ensures entries { self.new.entries ≡ without_family self.old.entries txid.now }
        ensures before { self.new.before ≡ self.old.before }
    {
        self.store.take_out(&node_id(txid));
        self.least = self.store.settle();
    }

    /// Takes out the entry of an id alone: entries that spend its outputs stay. It takes no memory, and gives up the
    /// room that was taken.
    pub fn remove_root(&mut self, txid: &Txid)
        ensures entries { self.new.entries ≡ filter (λ e. not (has_txid e txid.now)) self.old.entries }
        ensures before { self.new.before ≡ self.old.before }
    {
        self.store.take_one(txid);
        self.least = self.store.settle();
    }

    /// Takes out the entries that spend what one of the inputs spends, and all that is below them. It takes no memory,
    /// and keeps the room that was taken. The entries are found by index, not by a search of the pool.
    pub fn take_spenders(&mut self, inputs: &[TxIn])
        ensures entries { self.new.entries ≡ without_below (spends_one_of inputs.now) self.old.entries }
        ensures before { self.new.before ≡ self.old.before }
        ensures room { self.new.room ≡ self.old.room }
        ensures next { self.new.next ≡ self.old.next }
        ensures left { all_of self.new ≡ all_of self.old }
    {
        self.store.take_conflicts(inputs);
        self.least = self.store.least();
    }

    /// Takes out the entries that spend outputs of a transaction, whether that is an entry or not, and all that is
    /// below them. It takes no memory, and gives up the room that was taken. The entries are found by index, not by a
    /// search of the pool.
    pub fn take_children(&mut self, txid: &Txid)
        ensures entries { self.new.entries ≡ without_below (λ e. names e txid.now) self.old.entries }
        ensures before { self.new.before ≡ self.old.before }
    {
        self.store.take_children(txid);
        self.least = self.store.settle();
    }

    /// Takes out the entries that pass a test and all that is below them. It takes no memory, and gives up the room
    /// that was taken.
    pub fn take_below<T: Test>(&mut self, test: &T)
        ensures entries { self.new.entries ≡ without_below (T.chosen test.now) self.old.entries }
        ensures before { self.new.before ≡ self.old.before }
    {
        self.store.choose(test, &mut self.chosen);
        self.store.take_chosen(self.chosen.as_slice());
        self.least = self.store.settle();
    }

    /// Takes out the entries that were admitted before a second and all that is below them. It takes no memory, and
    /// gives up the room that was taken if anything is taken out. The oldest entry is known at once, so that this costs
    /// what is taken out.
    pub fn take_before(&mut self, time: u64)
        ensures entries { self.new.entries ≡ without_below (is_before time) self.old.entries }
        ensures before { self.new.before ≡ self.old.before }
    {
        if self.arrivals.has_before(time) {
            self.store.take_before(&mut self.arrivals, time);
            self.least = self.store.settle();
        }
    }

    /// Whether the entry with the id `child` spends outputs of a transaction. It is one look-up, however many children
    /// and inputs there are.
    pub fn is_child(&self, txid: &Txid, child: &Txid) -> bool
        ensures { result ≡ list_any (λ e. names e txid.now && has_txid e child.now) self.now.entries }
    {
        self.store.is_child(txid, child)
    }

    /// The least score of all entries, of equal ones that of the entry that was admitted last; none for an empty pool.
    /// It is kept, so that this looks at no entry.
    pub fn least(&self) -> Option<&Score>
        ensures value { option_copied result ≡ least_of self.now.entries }
        ensures bounded { IfSome result (λ score. AreBounded score.now.family) }
    {
        self.least.as_ref()
    }

    /// Begins the log of what leaves the pool anew: what is an entry now was there when it began. It takes no memory, and
    /// gives up the room that was taken. Only this lets go of what left, and closes the holes that it left, if they are
    /// more than half of all places, by a walk over these.
    pub fn mark(&mut self)
        ensures entries { self.new.entries ≡ self.old.entries }
        ensures before { self.new.before ≡ self.old.entries }
        ensures left { self.new.left ≡ room_of [] }
    {
        self.store.mark();
    }

    /// Takes the pool back to what it was when its log began: what has come since leaves, and what has left comes back to
    /// its place. It takes no memory, and gives up the room that was taken. It costs what has left and come since.
    pub fn rewind(&mut self)
        requires { IsRewindable self.old }
        ensures entries { self.new.entries ≡ self.old.before }
        ensures before { self.new.before ≡ self.old.before }
    {
        self.store.rewind(&mut self.arrivals);
        self.least = self.store.least();
    }

    /// The ids of the entries that were there when the log began and that no entry has now, in order of admission. It
    /// costs what has left since, and the sort of that.
    pub fn departed(&self, alloc: Global) -> Result<Vec<Txid>, Memory>
        ensures { IfOk result (λ txids. txids.items ≡ departed self.now.before self.now.entries) }
    {
        self.store.departed(alloc)
    }

    /// The ids of the entries that are there now and that no entry had when the log began, in order of admission. It
    /// costs what has left and come since.
    pub fn arrived(&self, alloc: Global) -> Result<Vec<Txid>, Memory>
        ensures { IfOk result (λ txids. txids.items ≡ arrived self.now.before self.now.entries) }
    {
        self.store.arrived(alloc)
    }

    /// A pool with the same entries, whose tables hash alike. The transactions are shared, and the totals are copied. Its
    /// log begins with it.
    pub fn copy(&self, alloc: Global) -> Result<Pool<S>, Memory>
        ensures entries { IfOk result (λ pool. pool.entries ≡ self.now.entries) }
        ensures before { IfOk result (λ pool. pool.before ≡ self.now.entries) }
    {
        let chosen = Vec::with_capacity(alloc, self.store.count())?;
        let arrivals = self.store.arrivals(alloc)?;
        let store = self.store.copy(alloc)?;
        Ok(Pool {
            store,
            chosen,
            least: self.least,
            arrivals,
        })
    }
}

impl<S: BuildHasher + Copy + Drop> FamilyView for Pool<S> {
    ghost entries = { λ pool. pool.entries };

    fn entry(&self, txid: &Txid) -> Option<&Entry> {
        self.store.entry(txid)
    }

    fn entry_near(&self, txid: &Txid, near: &mut Option<usize>) -> Option<&Entry> {
        self.store.entry_near(txid, near)
    }

    fn children(&self, alloc: Global, txid: &Txid) -> Result<Vec<Txid>, Memory> {
        self.store.children(alloc, txid)
    }

    fn recall_apart(&self) {
        self.store.recall_distinct();
    }
}
