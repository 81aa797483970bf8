ghost use Rattle.std.specs.Prelude.{◌≡◌, ◌≤◌};
ghost use Rattle.gate_tx.specs.Ids.{txid_of, wtxid_of};
ghost use Rattle.gate_tx.specs.Money.{max_money};
ghost use Rattle.gate_pool.specs.Pool.{IsBounded, largest_vsize};

use gate_bytes::{Copied, Counted, Memory};
use gate_tx::{Identified, Transaction, Txid, Wtxid};
use std::alloc::Global;
use std::marker::Model;

/// The largest size of an entry, in virtual bytes.
pub const MAX_VSIZE: u64 = 10_000_000;

/// A transaction in the pool.
#[derive(Drop)]
pub struct Entry {
    identified: Counted<Identified>,
    fee: u64,
    vsize: u64,
    time: u64,
}

impl Model for Entry {
    ghost use Rattle.gate_pool.specs.Pool.{Admitted, IsBounded};

    ghost Value = { Admitted };

    ghost view = { λ e. record { tx = e.identified; fee = e.fee; vsize = e.vsize; time = e.time } };

    ghost invariant = { λ e. IsBounded (record { tx = e.identified; fee = e.fee; vsize = e.vsize; time = e.time }) };
}

impl Entry {
    /// An entry of a transaction, its fee in satoshi, its size in virtual bytes, and the time of its admission in
    /// seconds since 1970.
    pub fn new(identified: Counted<Identified>, fee: u64, vsize: u64, time: u64) -> Entry
        requires fee { fee ≤ max_money }
        requires least { 1 ≤ vsize }
        requires most { vsize ≤ largest_vsize }
        ensures { result ≡ record { tx = identified; fee = fee; vsize = vsize; time = time } }
    {
        Entry {
            identified,
            fee,
            vsize,
            time,
        }
    }

    /// States the bounds of the entry's numbers, for proofs: it does nothing.
    pub fn recall_bounds(&self)
        ensures { IsBounded self.now }
    {
        let _fee = self.fee;
    }

    pub fn identified(&self) -> &Counted<Identified>
        ensures { result.now ≡ self.now.tx }
    {
        &self.identified
    }

    pub fn transaction(&self) -> &Transaction
        ensures { result.now ≡ self.now.tx }
    {
        self.identified.get().transaction()
    }

    pub fn txid(&self) -> Txid
        ensures { result ≡ txid_of self.now.tx }
    {
        self.identified.get().txid()
    }

    pub fn wtxid(&self) -> Wtxid
        ensures { result ≡ wtxid_of self.now.tx }
    {
        self.identified.get().wtxid()
    }

    /// The fee, in satoshi.
    pub fn fee(&self) -> u64
        ensures value { result ≡ self.now.fee }
        ensures most { result ≤ max_money }
    {
        self.fee
    }

    /// The size, in virtual bytes.
    pub fn vsize(&self) -> u64
        ensures value { result ≡ self.now.vsize }
        ensures least { 1 ≤ result }
        ensures most { result ≤ largest_vsize }
    {
        self.vsize
    }

    /// The second at which it was admitted, since 1970.
    pub fn time(&self) -> u64
        ensures { result ≡ self.now.time }
    {
        self.time
    }
}

/// A copy is one more owner of the same transaction. It takes no memory.
impl Copied for Entry {
    fn copy(&self, alloc: Global) -> Result<Entry, Memory> {
        Ok(Entry {
            identified: self.identified.copy(alloc)?,
            fee: self.fee,
            vsize: self.vsize,
            time: self.time,
        })
    }
}
