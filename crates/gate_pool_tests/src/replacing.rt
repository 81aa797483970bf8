//! A pool of one entry, and a transaction that may replace it: BIP 125's rules at their limits, and calls that no part of the
//! gate makes.
use gate_bytes::Counted;
use gate_pool::{Entry, Pool};
use gate_rbf::{ParentsOf, conflicts, judge_replacement, replaced};
use gate_standard::{Denial, Feerate, Rounding};
use gate_tx::{Identified, Transaction, Txid};
use std::alloc::Global;
use std::hash::{BuildHasherDefault, DefaultHasher};
use std::test::Fail;

type Hashing = BuildHasherDefault<DefaultHasher>;

/// What a replacement pays for its own relay by default.
const RATE: Feerate = Feerate {
    rate: 1_000,
    rounding: Rounding::Down,
};

/// A transaction of version 2 that spends an outpoint with the sequence 0xfffffffd, and so may be replaced, and has an output
/// of one satoshi and an empty script.
const FIRST: &str = "02000000010707070707070707070707070707070707070707070707070707070707070707\
    0000000000fdffffff0101000000000000000000000000";

/// The same with two satoshi.
const REPLACEMENT: &str =
    "02000000010707070707070707070707070707070707070707070707070707070707070707\
    0000000000fdffffff0102000000000000000000000000";

fn read(alloc: Global, text: &str) -> Result<Identified, Fail> {
    let bytes = hex::decode(alloc, text)?;
    Ok(Identified::read(alloc, bytes.as_slice())?)
}

/// A replacement's fee and size, and what is said of it: the entry has a fee of 1,000 and 100 virtual bytes, and each
/// 1,000 virtual bytes of the replacement cost 1,000.
const REPLACEMENTS: [(u64, u64, Result<u64, Denial>); 5] = [
    (1_000, 100, Err(Denial::LowerFeeRate)),
    (999, 50, Err(Denial::LowerFee)),
    (1_000, 50, Err(Denial::LowerDifference)),
    (1_049, 50, Err(Denial::LowerDifference)),
    (1_050, 50, Ok(1)),
];

fn are_judged(alloc: Global, pool: &Pool<Hashing>, tx: &Transaction) -> Result<bool, Fail> {
    for (fee, vsize, wanted) in REPLACEMENTS {
        let vsize = vsize.max(1);
        if judge_replacement(
            alloc,
            pool,
            None,
            tx,
            RATE,
            ParentsOf::Conflicts,
            fee,
            vsize,
        )? != wanted
        {
            return Ok(false);
        }
    }
    Ok(true)
}

/// Whether the transaction conflicts with the entry alone, and would replace it alone.
fn conflicts_with(
    alloc: Global,
    pool: &Pool<Hashing>,
    tx: &Transaction,
    entry: Txid,
) -> Result<bool, Fail> {
    let direct = conflicts(alloc, pool, None, tx)?;
    let below = replaced(alloc, pool, direct.as_slice())?;
    Ok(direct.as_slice() == [entry].as_slice() && below.as_slice() == [entry].as_slice())
}

/// Whether an entry of the first transaction, with the fee and the size that `REPLACEMENTS` are judged by, is replaced.
fn is_replaced(
    alloc: Global,
    pool: &mut Pool<Hashing>,
    entry: Entry,
    replacement: &Transaction,
) -> Result<bool, Fail> {
    let txid = entry.txid();
    if !pool.is_new(&entry) {
        return Ok(false);
    }
    pool.admit(entry)?;
    let is_judged = are_judged(alloc, pool, replacement)?;
    let is_alone = conflicts_with(alloc, pool, replacement, txid)?;
    Ok(is_judged && is_alone)
}

/// An entry with a fee of 1,000 satoshi and 100 virtual bytes.
fn entry(alloc: Global) -> Result<Entry, Fail> {
    let first = read(alloc, FIRST)?;
    Ok(Entry::new(Counted::new(alloc, first)?, 1_000, 100, 0))
}

fn is_one_replaced(
    alloc: Global,
    pool: &mut Pool<Hashing>,
    replacement: &Transaction,
) -> Result<bool, Fail> {
    let entry = entry(alloc)?;
    is_replaced(alloc, pool, entry, replacement)
}

fn is_replaced_in(alloc: Global, pool: &mut Pool<Hashing>) -> Result<bool, Fail> {
    let replacement = read(alloc, REPLACEMENT)?;
    is_one_replaced(alloc, pool, replacement.transaction())
}

#[test]
fn an_entry_is_replaced(rt: HostRuntime) -> Result<(), Fail> {
    let mut pool = Pool::new(rt.alloc(), BuildHasherDefault::new())?;
    assert!(rt; is_replaced_in(rt.alloc(), &mut pool)?);
    Ok(())
}
