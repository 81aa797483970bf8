ghost use Rattle.std.specs.Prelude.{◌≡◌, ◌<◌, ◌≤◌, ◌+◌, ◌^◌, ◌++◌, ◌∷◌, ◌&&◌, [], max, not, filter, length, is_some, IfOk, IfSome, IfNone, OnOk, OnErr, Contains, None, false};
ghost use Rattle.std.specs.List.{list_any};
ghost use Rattle.std.specs.List.Sorted.{IsPermutation};
ghost use Rattle.std.specs.Option.{option_copied};
ghost use Rattle.std.specs.Vec.{vec_capacity};
ghost use Rattle.gate_tx.specs.Coins.{spends};
ghost use Rattle.gate_pool.specs.Pool.{Admitted, IsNotLess, IsRewindable, all_of, entry_by_txid, entry_by_wtxid, inputs_in, inputs_of, spender_of, has_txid, listing_of, room_of, size_of};
ghost use Rattle.gate_pool.specs.Arrivals.{HaveArrived};
ghost use Rattle.gate_pool.specs.Keeping.{IsNew};
ghost use Rattle.gate_pool.specs.Family.{names, children_of, totals_of, without_family, AreIdsOf, OfThese};
ghost use Rattle.gate_pool.specs.Scores.{AreBounded, least_of};
ghost use Rattle.gate_pool.specs.Distinct.{AreDistinct};
ghost use Rattle.gate_pool.specs.Moves.{departed, arrived};
ghost use Rattle.gate_pool.specs.Search.{IsChild};

use crate::arrivals::Arrivals;
use crate::choice::Test;
use crate::entry::Entry;
use crate::moves::{sort_by_seat, txids_at, txids_beside, txids_left};
use crate::naming::{list_parents, node_id, txids_of};
use crate::places::{drop_each, drop_entry, put_entry};
use crate::reading::{choose, index_each, sort_by_place, txids_in};
use crate::rewinding::{inputs_gone, put_each_back, take_late};
use crate::scores::Score;
use gate_bytes::{Kept, Memory};
use gate_graph::{Gone, NodeId, Nodes, Totals};
use gate_tx::{OutPoint, Txid, Wtxid};
use indexmap::IndexMap;
use std::alloc::Global;
use std::hash::BuildHasher;
use std::marker::Model;

/// Entries in order of admission, each with the totals of its families, found by their ids and by what they spend.
#[derive(Drop)]
pub(crate) struct Store<S: BuildHasher + Copy + Drop> {
    /// Each entry as a node, which names the transactions whose outputs the entry spends.
    nodes: Nodes<Entry, S>,
    /// The txid of the entry that has a witness id.
    wtxids: IndexMap<Wtxid, Txid, S>,
    /// The txid of the entry that spends an outpoint.
    spent: IndexMap<OutPoint, Txid, S>,
    /// Room for the ids that the next entry names.
    parents: Vec<NodeId>,
    /// The log: the entries that left since the pool was marked, in the order in which they left. There is room in it
    /// for all entries.
    gone: Vec<Gone<Entry>>,
    /// How many places there were when the log began. Places stay where they are until it begins anew.
    mark: usize,
    /// How many entries there is room for.
    room: usize,
    /// How many inputs these may have together.
    inputs: usize,
}

impl<S: BuildHasher + Copy + Drop> Model for Store<S> {
    ghost use Rattle.std.specs.Prelude.{length};
    ghost use Rattle.std.specs.Str.{bytes_eq};
    ghost use Rattle.std.specs.Vec.{vec_len, vec_capacity};
    ghost use Rattle.gate_tx.specs.Coins.{point_eq};
    ghost use Rattle.indexmap.specs.IndexMap.{get, spare};
    ghost use Rattle.gate_pool.specs.Pool.{Pooled, room_of};
    ghost use Rattle.gate_pool.specs.Keeping.{entries_in, IsCarried, IsIndexed, HasPlaces, HasLogRoom};
    ghost use Rattle.gate_pool.specs.Log.{before_of, loads_of, IsLog};

    ghost Value = { Pooled };

    ghost view = { λ s. record {
      entries = entries_in s.nodes.nodes;
      before = before_of (entries_in s.nodes.nodes) s.nodes.places s.gone.items s.mark;
      room = record { entries = s.room; inputs = s.inputs };
      next = vec_capacity s.parents;
      left = room_of (loads_of s.gone.items);
    } };

    ghost invariant = { λ s.
        IsCarried s.nodes.nodes
        × IsIndexed (entries_in s.nodes.nodes) (get bytes_eq s.wtxids) (get point_eq s.spent)
        × HasPlaces s.room s.inputs s.nodes.room s.nodes.names (spare s.wtxids) (spare s.spent)
        × HasLogRoom s.room (length (entries_in s.nodes.nodes)) (vec_len s.gone) (vec_capacity s.gone)
        × IsLog (entries_in s.nodes.nodes) s.nodes.places s.gone.items s.mark };
}

impl<S: BuildHasher + Copy + Drop> Store<S> {
    /// No entries, in tables that hash by `hasher`.
    pub(crate) fn new(alloc: Global, hasher: S) -> Store<S>
        ensures entries { result.entries ≡ [] }
        ensures before { result.before ≡ [] }
        ensures room { result.room.entries ≡ 0 }
    {
        Store {
            nodes: Nodes::new(alloc, hasher),
            wtxids: IndexMap::with_hasher(alloc, hasher),
            spent: IndexMap::with_hasher(alloc, hasher),
            parents: Vec::new(alloc),
            gone: Vec::new(alloc),
            mark: 0,
            room: 0,
            inputs: 0,
        }
    }

    pub(crate) fn entry(&self, txid: &Txid) -> Option<&Entry>
        ensures { option_copied result ≡ entry_by_txid self.now.entries txid.now }
    {
        self.nodes.load(&node_id(txid))
    }

    /// The entry of an id, as `entry` finds it. It is looked for at the place `near` first, over which is written where an
    /// entry that it spends from may stand.
    pub(crate) fn entry_near(&self, txid: &Txid, near: &mut Option<usize>) -> Option<&Entry>
        ensures { option_copied result ≡ entry_by_txid self.now.entries txid.now }
    {
        self.nodes.load_near(&node_id(txid), near)
    }

    /// Where the entry that came last stands, if it has not left.
    pub(crate) fn last_place(&self) -> Option<usize> {
        self.nodes.as_slice().len().checked_sub(1)
    }

    pub(crate) fn by_wtxid(&self, wtxid: &Wtxid) -> Option<&Entry>
        ensures { option_copied result ≡ entry_by_wtxid self.now.entries wtxid.now }
    {
        match self.wtxids.get(wtxid) {
            Some(txid) => self.entry(txid),
            None => None,
        }
    }

    pub(crate) fn spender(&self, point: &OutPoint) -> Option<&Entry>
        ensures { option_copied result ≡ spender_of self.now.entries point.now }
    {
        match self.spent.get(point) {
            Some(txid) => self.entry(txid),
            None => None,
        }
    }

    pub(crate) fn totals(&self, txid: &Txid) -> Option<&Totals>
        ensures found { is_some result ≡ is_some (entry_by_txid self.now.entries txid.now) }
        ensures totals { IfSome result (λ totals. totals.now ≡ totals_of self.now.entries txid.now) }
        ensures small { IfSome result (λ totals. totals.now.below.size < 2 ^ 100) }
    {
        self.nodes.totals(&node_id(txid))
    }

    /// The totals of an entry, as `totals` finds them. It is looked for at the place `near` first, over which is written
    /// where an entry that it spends from may stand.
    pub(crate) fn totals_near(&self, txid: &Txid, near: &mut Option<usize>) -> Option<&Totals>
        ensures found { is_some result ≡ is_some (entry_by_txid self.now.entries txid.now) }
        ensures totals { IfSome result (λ totals. totals.now ≡ totals_of self.now.entries txid.now) }
        ensures small { IfSome result (λ totals. totals.now.below.size < 2 ^ 100) }
    {
        self.nodes.totals_near(&node_id(txid), near)
    }

    pub(crate) fn count(&self) -> usize
        ensures { result ≡ length self.now.entries }
    {
        self.nodes.count()
    }

    pub(crate) fn size(&self) -> u128
        ensures { result ≡ size_of self.now.entries }
    {
        self.nodes.size()
    }

    pub(crate) fn listing(&self, alloc: Global) -> Result<Kept<Txid>, Memory>
        ensures { IfOk result (λ txids. txids ≡ listing_of self.now.entries) }
    {
        let txids = txids_in(alloc, self.nodes.as_slice(), self.count())?;
        Ok(Kept::from_vec(txids))
    }

    pub(crate) fn sort_by_admission(&self, txids: &mut [Txid])
        ensures order { OfThese self.now.entries txids.old (λ these. txids.new ≡ listing_of these) }
        ensures same { IsPermutation txids.old txids.new }
        ensures len { length txids.new ≡ length txids.old }
    {
        let _slots = self.nodes.as_slice();
        sort_by_place(&self.nodes, txids);
    }

    /// The ids of the entries that spend outputs of a transaction.
    pub(crate) fn children(&self, alloc: Global, txid: &Txid) -> Result<Vec<Txid>, Memory>
        ensures { IfOk result (λ ids. AreIdsOf ids.items (children_of self.now.entries txid.now)) }
    {
        let found = self.nodes.children(alloc, &node_id(txid))?;
        txids_of(alloc, found.as_slice())
    }

    /// Whether the entry with the id `child` spends outputs of a transaction.
    pub(crate) fn is_child(&self, txid: &Txid, child: &Txid) -> bool
        ensures { result ≡ list_any (λ e. names e txid.now && has_txid e child.now) self.now.entries }
    {
        self.nodes.is_child(&node_id(txid), &node_id(child))
    }

    /// The arrivals of all entries.
    pub(crate) fn arrivals(&self, alloc: Global) -> Result<Arrivals, Memory>
        ensures { IfOk result (λ arrivals. HaveArrived self.now.entries arrivals.list) }
    {
        let mut arrivals = Arrivals::with_capacity(alloc, self.count())?;
        arrivals.list_anew(self.nodes.as_slice());
        Ok(arrivals)
    }

    /// Takes the memory for this many arrivals more. If more than half of the arrivals are of entries that have left, all
    /// are listed anew, which takes none.
    pub(crate) fn reserve_arrivals(
        &self,
        arrivals: &mut Arrivals,
        more: usize,
    ) -> Result<(), Memory>
        requires { HaveArrived self.now.entries arrivals.old.list }
        ensures arrived { HaveArrived self.now.entries arrivals.new.list }
        ensures kept { arrivals.old.room ≤ arrivals.new.room }
        ensures room { OnOk result (more ≤ arrivals.new.room) }
    {
        self.drop_gone(arrivals);
        arrivals.reserve(more)
    }

    /// Lists the arrivals anew if more than half of them are of entries that have left.
    fn drop_gone(&self, arrivals: &mut Arrivals)
        requires { HaveArrived self.now.entries arrivals.old.list }
        ensures arrived { HaveArrived self.now.entries arrivals.new.list }
        ensures kept { arrivals.old.room ≤ arrivals.new.room }
    {
        if arrivals.len() / 2 > self.count() {
            arrivals.list_anew(self.nodes.as_slice());
        }
    }

    /// The least score of all entries, of equal ones that of the entry that was admitted last.
    pub(crate) fn least(&self) -> Option<Score>
        ensures value { result ≡ least_of self.now.entries }
        ensures bounded { IfSome result (λ score. AreBounded score.family) }
    {
        match self.nodes.least() {
            Some(held) => Some(Score::of(&held.load, &held.totals.below)),
            None => None,
        }
    }

    /// Writes the ids of the entries that pass a test over a list with room.
    pub(crate) fn choose<T: Test>(&self, test: &T, chosen: &mut Vec<NodeId>)
        requires { length self.now.entries ≤ vec_capacity chosen.old }
        ensures ids { chosen.new.items ≡ listing_of (filter (T.chosen test.now) self.now.entries) }
        ensures capacity { vec_capacity chosen.new ≡ vec_capacity chosen.old }
    {
        choose(self.nodes.as_slice(), test, chosen);
    }

    /// The ids of the entries that have left since the log began and that no entry has, in order of admission.
    pub(crate) fn departed(&self, alloc: Global) -> Result<Vec<Txid>, Memory>
        ensures { IfOk result (λ txids. txids.items ≡ departed self.now.before self.now.entries) }
    {
        let _slots = self.nodes.as_slice();
        let mut seats = self.seats_left(alloc, self.gone.as_slice(), self.mark)?;
        sort_by_seat(seats.as_mut_slice());
        txids_at(alloc, seats.as_slice())
    }

    /// The ids of the entries that have come since the log began and that no entry had then, in order of admission.
    pub(crate) fn arrived(&self, alloc: Global) -> Result<Vec<Txid>, Memory>
        ensures { IfOk result (λ txids. txids.items ≡ arrived self.now.before self.now.entries) }
    {
        let left = txids_left(alloc, self.hasher(), self.gone.as_slice(), self.mark)?;
        let slots = self.nodes.as_slice();
        txids_beside(alloc, &slots[self.mark..], &left)
    }

    /// The state that the hashers are made from.
    pub(crate) fn hasher(&self) -> S {
        *self.wtxids.hasher()
    }

    /// States that no two entries share an id or spend one outpoint, for proofs: it does nothing.
    pub(crate) fn recall_distinct(&self)
        ensures { AreDistinct self.now.entries }
    {
        let _room = self.room;
    }

    /// How many entries have left since the log began, with this many more.
    pub(crate) fn entries_left(&self, more: usize) -> Result<usize, Memory>
        ensures { IfOk result (λ sum. sum ≡ self.now.left.entries + more) }
    {
        self.gone.len().checked_add(more).ok_or(Memory)
    }

    /// How many inputs all that has left since the log began has together, with this many more and those of the entries of
    /// some ids.
    pub(crate) fn inputs_left(&self, leaving: &[Txid], more: usize) -> Result<usize, Memory>
        ensures { IfOk result (λ sum. sum ≡ self.now.left.inputs + inputs_of self.now.entries leaving.now + more) }
    {
        let mut sum = inputs_gone(self.gone.as_slice(), more)?;
        for txid in leaving {
            sum = sum.checked_add(self.inputs_at(txid)).ok_or(Memory)?;
        }
        Ok(sum)
    }

    /// How many inputs the entry of an id has; none if no entry has the id.
    fn inputs_at(&self, txid: &Txid) -> usize
        ensures { result ≡ inputs_in (entry_by_txid self.now.entries txid.now) }
    {
        match self.entry(txid) {
            Some(entry) => entry.transaction().inputs().len(),
            None => 0,
        }
    }

    /// Takes the memory for this many entries more, of this many inputs together, of which the next newcomer has no more
    /// than `next`. If memory runs out, there is as much room as before.
    pub(crate) fn reserve(
        &mut self,
        entries: usize,
        inputs: usize,
        next: usize,
    ) -> Result<(), Memory>
        ensures entries { self.new.entries ≡ self.old.entries }
        ensures before { self.new.before ≡ self.old.before }
        ensures left { self.new.left ≡ self.old.left }
        ensures kept { IsNotLess self.old.room self.new.room }
        ensures next_kept { self.old.next ≤ self.new.next }
        ensures most { OnErr result (self.new.room ≡ self.old.room) }
        ensures room { OnOk result (self.new.room.entries ≡ max self.old.room.entries entries) }
        ensures inputs { OnOk result (inputs ≤ self.new.room.inputs) }
        ensures next { OnOk result (next ≤ self.new.next) }
    {
        let Some(places) = self.nodes.count().checked_add(entries) else {
            return Err(Memory);
        };
        self.gone.reserve(places)?;
        self.parents.clear();
        self.parents.reserve(next)?;
        self.wtxids.reserve(entries)?;
        self.spent.reserve(inputs)?;
        self.nodes.reserve(entries, inputs)?;
        self.room = self.room.max(entries);
        self.inputs = self.inputs.max(inputs);
        Ok(())
    }

    /// Puts an entry at the end, for which there is room.
    pub(crate) fn put(&mut self, entry: Entry)
        requires room { 0 < self.old.room.entries }
        requires inputs { length entry.tx.inputs ≤ self.old.room.inputs }
        requires next { length entry.tx.inputs ≤ self.old.next }
        requires new { IsNew self.old.entries entry }
        ensures entries { self.new.entries ≡ self.old.entries ++ entry ∷ [] }
        ensures before { self.new.before ≡ self.old.before }
        ensures left { self.new.left ≡ self.old.left }
        ensures room { self.new.room.entries + 1 ≡ self.old.room.entries }
        ensures room_inputs { self.new.room.inputs + length entry.tx.inputs ≡ self.old.room.inputs }
    {
        let _slots = self.nodes.as_slice();
        self.room -= 1;
        self.inputs -= entry.transaction().inputs().len();
        entry.recall_bounds();
        put_entry(&mut self.wtxids, &mut self.spent, &entry);
        list_parents(&mut self.parents, entry.transaction().inputs());
        let none = Vec::new(*self.wtxids.allocator());
        let parents = std::mem::replace(&mut self.parents, none);
        let id = node_id(&entry.txid());
        let size = entry.vsize();
        let fee = entry.fee();
        self.nodes.put(id, parents, size, fee, entry);
    }

    /// Takes out the entry of an id and all that is below the id.
    pub(crate) fn take_out(&mut self, id: &NodeId)
        ensures rest { self.new.entries ≡ without_family self.old.entries id.now }
        ensures before { self.new.before ≡ self.old.before }
        ensures room { self.new.room ≡ self.old.room }
        ensures next { self.new.next ≡ self.old.next }
        ensures all { all_of self.new ≡ all_of self.old }
    {
        let _slots = self.nodes.as_slice();
        let count = self.gone.len();
        self.nodes.take_family(id, &mut self.gone);
        drop_each(&mut self.wtxids, &mut self.spent, &self.gone[count..]);
    }

    /// The id of an entry that spends outputs of a transaction, whether that is an entry or not.
    pub(crate) fn child(&self, id: &NodeId) -> Option<NodeId>
        ensures some { IfSome result (λ child. IsChild self.now.entries id.now child) }
        ensures none { IfNone result ((e : Admitted) → Contains self.now.entries e → names e id.now ≡ false) }
    {
        self.nodes.child(id).copied()
    }

    /// Takes out the entry of an id alone.
    pub(crate) fn take_one(&mut self, txid: &Txid)
        ensures entries { self.new.entries ≡ filter (λ e. not (has_txid e txid.now)) self.old.entries }
        ensures before { self.new.before ≡ self.old.before }
    {
        let _slots = self.nodes.as_slice();
        match self.nodes.take_one(&node_id(txid)) {
            Some(gone) => {
                drop_entry(&mut self.wtxids, &mut self.spent, &gone.load);
                self.gone.push_reserved(gone);
            }
            None => {}
        }
    }

    /// Gives up the room that was taken, and returns the least score.
    pub(crate) fn settle(&mut self) -> Option<Score>
        ensures entries { self.new.entries ≡ self.old.entries }
        ensures before { self.new.before ≡ self.old.before }
        ensures room { self.new.room.entries ≡ 0 }
        ensures value { result ≡ least_of self.old.entries }
        ensures bounded { IfSome result (λ score. AreBounded score.family) }
    {
        self.room = 0;
        self.inputs = 0;
        self.least()
    }

    /// Begins the log anew. It closes holes if they are more than half of all places, and gives up the room that was
    /// taken.
    pub(crate) fn mark(&mut self)
        ensures entries { self.new.entries ≡ self.old.entries }
        ensures before { self.new.before ≡ self.old.entries }
        ensures room { self.new.room.entries ≡ 0 }
        ensures left { self.new.left ≡ room_of [] }
    {
        self.room = 0;
        self.inputs = 0;
        self.gone.clear();
        self.nodes.tidy();
        self.mark = self.nodes.as_slice().len();
    }

    /// Takes the entries back to those that there were when the log began, each to its place, and gives up the room that
    /// was taken.
    pub(crate) fn rewind(&mut self, arrivals: &mut Arrivals)
        requires room { IsRewindable self.old }
        requires arrived { HaveArrived self.old.entries arrivals.old.list }
        requires arrivals_room { self.old.left.entries ≤ arrivals.old.room }
        ensures entries { self.new.entries ≡ self.old.before }
        ensures before { self.new.before ≡ self.old.before }
        ensures room { self.new.room.entries ≡ 0 }
        ensures few { length self.new.entries ≤ length self.old.entries + self.old.left.entries }
        ensures arrived { HaveArrived self.new.entries arrivals.new.list }
    {
        let _slots = self.nodes.as_slice();
        self.room = 0;
        self.inputs = 0;
        take_late(
            &mut self.nodes,
            &mut self.wtxids,
            &mut self.spent,
            self.mark,
        );
        put_each_back(
            &mut self.nodes,
            &mut self.wtxids,
            &mut self.spent,
            arrivals,
            &mut self.gone,
            self.mark,
        );
        let _rewound = self.nodes.as_slice();
    }

    /// A copy of the entries, in tables that hash alike. The transactions are shared, and the totals are copied.
    pub(crate) fn copy(&self, alloc: Global) -> Result<Store<S>, Memory>
        ensures entries { IfOk result (λ copy. copy.entries ≡ self.now.entries) }
        ensures before { IfOk result (λ copy. copy.before ≡ self.now.entries) }
        ensures room { IfOk result (λ copy. copy.room.entries ≡ 0) }
    {
        let mut wtxids = IndexMap::with_hasher(alloc, self.hasher());
        let mut spent = IndexMap::with_hasher(alloc, self.hasher());
        self.recall_distinct();
        index_each(self.nodes.as_slice(), &mut wtxids, &mut spent)?;
        let gone = Vec::with_capacity(alloc, self.count())?;
        let nodes = self.nodes.copy(alloc)?;
        let mark = nodes.as_slice().len();
        Ok(Store {
            nodes,
            wtxids,
            spent,
            parents: Vec::new(alloc),
            gone,
            mark,
            room: 0,
            inputs: 0,
        })
    }
}
