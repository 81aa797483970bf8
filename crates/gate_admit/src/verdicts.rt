//! Verdicts on scripts, handed in by whoever runs them.
ghost use Rattle.std.specs.Prelude.{◌≡◌, ◌++◌, ◌∷◌, [], None, IfOk, OnOk};
ghost use Rattle.gate_admit.specs.Verdicts.{is_among, is_needed};
ghost use Rattle.gate_admit.specs.VerdictMap.{subject_eq, entries_for, CopiesRow};
ghost use Rattle.indexmap.specs.IndexMap.{get};

use crate::confirmed::Confirmed;
use gate_bytes::Memory;
use gate_chain::{Chain, ChainDenial, ChainFault};
use gate_pool::Pool;
use gate_submission::{Verdict, VerdictRow};
use gate_tx::Wtxid;
use indexmap::IndexMap;
use std::alloc::Global;
use std::hash::BuildHasher;
use std::marker::Model;

/// An input of a transaction.
#[derive(Clone, Copy, PartialEq, Eq, Hash)]
struct Subject {
    wtxid: Wtxid,
    input: u32,
}

/// Verdicts by transaction and input, and one for every other pair: contracts see the rows in the order in which they were
/// added, no two on one input, and the verdict for the rest.
#[derive(Drop)]
pub struct Verdicts<S: BuildHasher + Copy> {
    verdicts: IndexMap<Subject, Verdict, S>,
    other: Option<Verdict>,
}

impl<S: BuildHasher + Copy> Model for Verdicts<S> {
    ghost use Rattle.gate_admit.specs.Verdicts.{VerdictTable};
    ghost use Rattle.gate_admit.specs.VerdictMap.{rows_of};

    ghost Value = { VerdictTable };

    ghost view = { λ v. record { rows = rows_of v.verdicts.entries; other = v.other } };
}

impl<S: BuildHasher + Copy> Verdicts<S> {
    ghost use Rattle.std.specs.Prelude.{◌≡◌, ◌++◌, ◌∷◌, [], None, Some, not, IfOk, IfErr, OnOk, OnErr, if◌then◌else◌};
    ghost use Rattle.gate_bytes.specs.Order.{first_failing};
    ghost use Rattle.gate_chain.specs.Connecting.{Tells};
    ghost use Rattle.gate_admit.specs.Verdicts.{has_row_on, verdict_of, row_rules, with_row};

    /// No rows, and no verdict for the rest.
    pub fn new(alloc: Global, hasher: S) -> Verdicts<S>
        ensures { result ≡ record { rows = []; other = None } }
    {
        Verdicts {
            verdicts: IndexMap::with_hasher(alloc, hasher),
            other: None,
        }
    }

    /// Adds a row, unless there is one on its input, and says whether it was added.
    pub fn add(&mut self, row: VerdictRow) -> Result<bool, Memory>
        ensures added { IfOk result (λ added. added ≡ not (has_row_on self.old.rows row.wtxid row.input)) }
        ensures rows { IfOk result (λ added. self.new ≡ record self.old { rows = if added then self.old.rows ++ row ∷ [] else self.old.rows }) }
        ensures err { OnErr result (self.new ≡ self.old) }
    {
        let subject = Subject {
            wtxid: row.wtxid,
            input: row.input,
        };
        if self.verdicts.contains_key(&subject) {
            return Ok(false);
        }
        self.verdicts.insert(subject, row.verdict)?;
        Ok(true)
    }

    /// Adds a row that is learnt. It is denied by C12 if there is one on its input, and after any fault the rows are what
    /// they were.
    #[tactic(auto, unfolding(crate::specs::Verdicts::row_rules))]
    pub fn learn(&mut self, row: VerdictRow) -> Result<(), ChainFault>
        ensures ok { OnOk result (self.new ≡ with_row self.old row) }
        ensures err { OnErr result (self.new ≡ self.old) }
        ensures passes { OnOk result (first_failing (row_rules self.old row) ≡ None) }
        ensures denied { IfErr result (λ fault. Tells fault (first_failing (row_rules self.old row))) }
    {
        if self.add(row)? {
            Ok(())
        } else {
            Err(ChainFault::Denied(ChainDenial::VerdictKnown))
        }
    }

    /// Sets the verdict for every pair of transaction and input without a row.
    pub fn answer_others(&mut self, verdict: Verdict)
        ensures { self.new ≡ record self.old { other = Some verdict } }
    {
        self.other = Some(verdict);
    }

    /// The verdict for every pair of transaction and input without a row, if there is one.
    pub fn other(&self) -> Option<Verdict>
        ensures { result ≡ self.now.other }
    {
        self.other
    }

    /// The verdict on an input: that of its row, else the one for every pair without a row.
    pub fn on(&self, wtxid: &Wtxid, input: u32) -> Option<Verdict>
        ensures { result ≡ verdict_of self.now wtxid.now input }
    {
        // Without rows, as where scripts are checked elsewhere, there is nothing to look up.
        if self.verdicts.is_empty() {
            return self.other;
        }
        let subject = Subject {
            wtxid: *wtxid,
            input,
        };
        match self.verdicts.get(&subject) {
            Some(verdict) => Some(*verdict),
            None => self.other,
        }
    }
}

/// Takes the entries out of a table that are neither on an entry of the pool nor on one of these transactions.
fn take_out<S: BuildHasher + Copy + Drop>(
    verdicts: &mut IndexMap<Subject, Verdict, S>,
    pool: &Pool<S>,
    confirmed: &Confirmed<S>,
)
    ensures { verdicts.new.entries ≡ entries_for pool.now.entries (is_among confirmed.now) verdicts.old.entries }
{
    verdicts.retain(
        |subject: &Subject, verdict: &mut Verdict| -> bool
            ensures { (result ≡ is_needed pool.entry.now.entries (is_among confirmed.entry.now) subject.now.wtxid) × (verdict.new ≡ verdict.old) }
        { pool.by_wtxid(&subject.wtxid).is_some() || confirmed.has(&subject.wtxid) },
    );
}

impl<S: BuildHasher + Copy + Drop> Verdicts<S> {
    ghost use Rattle.std.specs.Prelude.{◌≡◌, ◌+◌, List, drop, length, IfOk};
    ghost use Rattle.gate_pool.specs.Pool.{Admitted};
    ghost use Rattle.gate_admit.specs.Verdicts.{is_among, rows_for, rows_over};

    /// The wtxids that rows are kept for beside those of entries: those of the transactions of a chain's blocks above the
    /// lowest `from` ones.
    pub fn confirmed(
        &self,
        alloc: Global,
        chain: &Chain<S>,
        from: usize,
    ) -> Result<Confirmed<S>, Memory>
        ensures { IfOk result (λ confirmed. (pool : List Admitted) → rows_for pool (is_among confirmed) self.now.rows ≡ rows_over pool (drop from chain.now.blocks) self.now.rows) }
    {
        let hasher = *self.verdicts.hasher();
        if self.verdicts.is_empty() {
            return Ok(Confirmed::none(alloc, hasher));
        }
        Confirmed::above(alloc, hasher, chain, from)
    }

    /// Takes out the rows that nothing asks for any more: those whose wtxid is neither an entry's nor among those of
    /// confirmed transactions. It returns how many went, and takes no memory.
    pub fn forget(&mut self, pool: &Pool<S>, confirmed: &Confirmed<S>) -> usize
        ensures rows { self.new ≡ record self.old { rows = rows_for pool.now.entries (is_among confirmed.now) self.old.rows } }
        ensures count { length self.new.rows + result ≡ length self.old.rows }
    {
        let before = self.verdicts.len();
        take_out(&mut self.verdicts, pool, confirmed);
        before - self.verdicts.len()
    }

    /// A copy of the rows, whose table hashes alike.
    pub fn copy(&self, alloc: Global) -> Result<Verdicts<S>, Memory>
        ensures { IfOk result (λ copy. copy ≡ self.now) }
    {
        Ok(Verdicts {
            verdicts: copy_rows(alloc, &self.verdicts)?,
            other: self.other,
        })
    }
}

/// Puts a row at the end of a table.
fn put_row<S: BuildHasher>(
    rows: &mut IndexMap<Subject, Verdict, S>,
    subject: Subject,
    verdict: Verdict,
) -> Result<(), Memory>
    ensures { OnOk result (get subject_eq rows.old subject ≡ None → rows.new.entries ≡ rows.old.entries ++ (subject, verdict) ∷ []) }
{
    rows.insert(subject, verdict)?;
    Ok(())
}

/// Puts the row at the next place at the end of the copies.
fn copy_row<S: BuildHasher>(
    rows: &IndexMap<Subject, Verdict, S>,
    place: usize,
    copies: &mut IndexMap<Subject, Verdict, S>,
) -> Result<(), Memory>
    ensures { OnOk result (CopiesRow place rows.now.entries copies.old.entries copies.new.entries) }
{
    match rows.get_index(place) {
        Some((subject, verdict)) => put_row(copies, *subject, *verdict),
        None => Ok(()),
    }
}

fn copy_rows<S: BuildHasher + Copy + Drop>(
    alloc: Global,
    rows: &IndexMap<Subject, Verdict, S>,
) -> Result<IndexMap<Subject, Verdict, S>, Memory>
    ensures { IfOk result (λ copies. copies.entries ≡ rows.now.entries) }
{
    let count = rows.len();
    let mut copies = IndexMap::with_capacity_and_hasher(alloc, count, *rows.hasher())?;
    for place in 0..count {
        copy_row(rows, place, &mut copies)?;
    }
    Ok(copies)
}
