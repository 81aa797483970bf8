//! What leaves with an entry: all that is below what is chosen, by id, by what it spends or by its time.
ghost use Rattle.std.specs.Prelude.{◌≡◌, ◌≤◌, Bool, None, filter, Contains};
ghost use Rattle.gate_tx.specs.declared.TxIn.{TxIn as Input};
ghost use Rattle.gate_tx.specs.declared.OutPoint.{OutPoint as Point};
ghost use Rattle.gate_tx.specs.Ids.{txid_of};
ghost use Rattle.gate_pool.specs.Pool.{Admitted, all_of, spender_of, has_txid, is_before, listing_of};
ghost use Rattle.gate_pool.specs.Arrivals.{HaveArrived};
ghost use Rattle.gate_pool.specs.Family.{names, spends_one_of, without_below};
ghost use Rattle.gate_pool.specs.Counting.{is_sibling};
ghost use Rattle.gate_pool.specs.Removal.{PassesSpenders};

use crate::arrivals::Arrivals;
use crate::naming::node_id;
use crate::store::Store;
use gate_graph::NodeId;
use gate_tx::{OutPoint, TxIn, Txid};
use std::hash::BuildHasher;

impl<S: BuildHasher + Copy + Drop> Store<S> {
    /// Takes out the entry that spends an outpoint, and all below it.
    fn take_spender(&mut self, point: &OutPoint)
        ensures rest { (test : Admitted → Bool) → PassesSpenders test point.now → without_below test self.new.entries ≡ without_below test self.old.entries }
        ensures gone { spender_of self.new.entries point.now ≡ None }
        ensures still { (p : Point) → spender_of self.old.entries p ≡ None → spender_of self.new.entries p ≡ None }
        ensures before { self.new.before ≡ self.old.before }
        ensures room { self.new.room ≡ self.old.room }
        ensures next { self.new.next ≡ self.old.next }
        ensures all { all_of self.new ≡ all_of self.old }
    {
        self.recall_distinct();
        match self.spender(point) {
            Some(entry) => {
                let id = node_id(&entry.txid());
                self.take_out(&id);
            }
            None => {}
        }
    }

    /// Takes out the entries that spend what the inputs spend, and all below them.
    pub(crate) fn take_conflicts(&mut self, inputs: &[TxIn])
        ensures rest { self.new.entries ≡ without_below (spends_one_of inputs.now) self.old.entries }
        ensures gone { (i : Input) → Contains inputs.now i → spender_of self.new.entries i.prevout ≡ None }
        ensures before { self.new.before ≡ self.old.before }
        ensures room { self.new.room ≡ self.old.room }
        ensures next { self.new.next ≡ self.old.next }
        ensures all { all_of self.new ≡ all_of self.old }
    {
        for input in inputs {
            self.take_spender(&input.prevout);
        }
    }

    /// Takes out the entry of an id, if there is one, and all below it.
    fn take_entry(&mut self, txid: &Txid)
        ensures rest { self.new.entries ≡ without_below (λ e. has_txid e txid.now) self.old.entries }
        ensures before { self.new.before ≡ self.old.before }
        ensures room { self.new.room ≡ self.old.room }
        ensures next { self.new.next ≡ self.old.next }
        ensures all { all_of self.new ≡ all_of self.old }
    {
        match self.entry(txid) {
            Some(entry) => {
                let id = node_id(&entry.txid());
                self.take_out(&id);
            }
            None => {}
        }
    }

    /// Takes out the entry that makes room, if there is one of its id, and all below it.
    pub(crate) fn take_sibling(&mut self, sibling: Option<Txid>)
        ensures rest { self.new.entries ≡ without_below (is_sibling sibling) self.old.entries }
        ensures before { self.new.before ≡ self.old.before }
        ensures room { self.new.room ≡ self.old.room }
        ensures next { self.new.next ≡ self.old.next }
        ensures all { all_of self.new ≡ all_of self.old }
    {
        match sibling {
            Some(txid) => {
                self.take_entry(&txid);
            }
            None => {}
        }
    }

    /// Takes out the entries that spend outputs of a transaction, whether that is an entry or not, and all below them.
    pub(crate) fn take_children(&mut self, txid: &Txid)
        ensures entries { self.new.entries ≡ without_below (λ e. names e txid.now) self.old.entries }
        ensures before { self.new.before ≡ self.old.before }
    {
        let id = node_id(txid);
        while let Some(child) = self.child(&id) {
            self.take_out(&child);
        }
    }

    /// Takes out the entries that were chosen, and all below them.
    pub(crate) fn take_chosen(&mut self, chosen: &[NodeId])
        ensures entries { (test : Admitted → Bool) → chosen.now ≡ listing_of (filter test self.old.entries) → self.new.entries ≡ without_below test self.old.entries }
        ensures before { self.new.before ≡ self.old.before }
    {
        for id in chosen {
            self.take_out(id);
        }
    }

    /// Takes out the entry of an id and all below it, if it was admitted before a second.
    fn take_early(&mut self, txid: &Txid, time: u64)
        ensures rest { without_below (is_before time) self.new.entries ≡ without_below (is_before time) self.old.entries }
        ensures fewer { (e : Admitted) → Contains self.new.entries e → Contains self.old.entries e }
        ensures late { (e : Admitted) → Contains self.new.entries e → txid_of e.tx ≡ txid.now → time ≤ e.time }
        ensures before { self.new.before ≡ self.old.before }
    {
        self.recall_distinct();
        match self.entry(txid) {
            Some(entry) => {
                if entry.time() < time {
                    self.take_out(&node_id(txid));
                }
            }
            None => {}
        }
    }

    /// Takes out the entries that were admitted before a second, and all below them. Their arrivals go, and those of
    /// other entries stay.
    pub(crate) fn take_before(&mut self, arrivals: &mut Arrivals, time: u64)
        requires { HaveArrived self.old.entries arrivals.old.list }
        ensures rest { self.new.entries ≡ without_below (is_before time) self.old.entries }
        ensures arrived { HaveArrived self.new.entries arrivals.new.list }
        ensures before { self.new.before ≡ self.old.before }
    {
        while let Some(txid) = arrivals.take_before(time) {
            self.take_early(&txid, time);
        }
    }
}
