//! A pool that is taken back to what it was at its mark: its entries stand in their order again, with their totals, and are
//! found again by what they spend.
use gate_bytes::Counted;
use gate_pool::{Entry, Pool};
use gate_tx::{Identified, OutPoint, Txid};
use std::alloc::Global;
use std::hash::{BuildHasherDefault, DefaultHasher};
use std::test::Fail;

type Hashing = BuildHasherDefault<DefaultHasher>;

/// A transaction's bytes and its id, in hexadecimal digits, the id in the order in which ids are printed.
struct Sample {
    bytes: &'static str,
    id: &'static str,
}

/// A transaction of version 2 without witnesses, of one input and two outputs of a satoshi with empty scripts. Its input,
/// as those of all here, has the sequence 0xfffffffd.
const PARENT: Sample = Sample {
    bytes: "02000000010707070707070707070707070707070707070707070707070707070707070707\
        0000000000fdffffff0201000000000000000001000000000000000000000000",
    id: "920c431a028c55553e926386e0c88cc78cc945d6cc2614a74c787c1cc1a8b24c",
};

/// It spends the first output of `PARENT`.
const CHILD: Sample = Sample {
    bytes: "02000000014cb2a8c11c7c784ca71426ccd645c98cc78cc8e08663923e55558c021a430c92\
        0000000000fdffffff0101000000000000000000000000",
    id: "087e87af81911b0bdbbd8d7b07aa228f41c67f6a3e7ab7681ae4c31352916ba1",
};

/// A transaction of one input and one output.
const ABOVE: Sample = Sample {
    bytes: "02000000010909090909090909090909090909090909090909090909090909090909090909\
        0000000000fdffffff0101000000000000000000000000",
    id: "59b8e33fa700a5305d1636f9dd56061ad5fbc60dd061257374c92fda684d7bfa",
};

/// It spends the output of `ABOVE`, and an outpoint beside it.
const ORPHAN: Sample = Sample {
    bytes: "0200000002fa7b4d68da2fc974732561d00dc6fbd51a0656ddf936165d30a500a73fe3b859\
        0000000000fdffffff09090909090909090909090909090909090909090909090909090909\
        090909090100000000fdffffff0101000000000000000000000000",
    id: "58eb0994d32e4268ce06655e561ded4abffcdb47a7d69d7a95324c0ad1970960",
};

/// It spends the output of `ORPHAN`.
const GRANDCHILD: Sample = Sample {
    bytes: "0200000001600997d10a4c32957a9dd6a747dbfcbf4aed1d565e6506ce68422ed39409eb58\
        0000000000fdffffff0101000000000000000000000000",
    id: "7849937f14677dc62927e5533282cd8501c383ad823481c3037b36c1bbb01a69",
};

/// It has no family.
const ALONE: Sample = Sample {
    bytes: "02000000010a0a0a0a0a0a0a0a0a0a0a0a0a0a0a0a0a0a0a0a0a0a0a0a0a0a0a0a0a0a0a0a\
        0000000000fdffffff0101000000000000000000000000",
    id: "74f03b43ae304163fbb23ee85043b216137c485ea39e2e5d425a792010b49d8c",
};

/// It spends what `PARENT` spends.
const RIVAL: Sample = Sample {
    bytes: "02000000010707070707070707070707070707070707070707070707070707070707070707\
        0000000000fdffffff0102000000000000000000000000",
    id: "7aeab3f181103b6df05e5764b7e20bcaf3f00fdf3815985972bc73a04386f982",
};

/// It spends the output of `RIVAL`.
const BELOW: Sample = Sample {
    bytes: "020000000182f98643a073bc7259981538df0ff0f3ca0be2b764575ef06d3b1081f1b3ea7a\
        0000000000fdffffff0101000000000000000000000000",
    id: "bb132da70de9c194dbb9bd2875a64d46786ab7dfdb57ea5d610af73ccbb3c832",
};

/// What the pool has when its log begins: two families, one of which lacks its first transaction, and an entry alone.
const BEFORE: [Sample; 5] = [PARENT, CHILD, ORPHAN, GRANDCHILD, ALONE];

/// What it has after the changes: a family was replaced, a newcomer came below what replaced it and another above a family, and
/// an entry left and came back.
const AFTER: [Sample; 6] = [ORPHAN, GRANDCHILD, RIVAL, BELOW, ABOVE, ALONE];

/// An entry with a fee of 1,000 satoshi and 100 virtual bytes.
fn entry(alloc: Global, sample: &Sample) -> Result<Entry, Fail> {
    let bytes = hex::decode(alloc, sample.bytes)?;
    let identified = Identified::read(alloc, bytes.as_slice())?;
    Ok(Entry::new(Counted::new(alloc, identified)?, 1_000, 100, 0))
}

/// Puts an entry in, in place of its conflicts.
fn enter(alloc: Global, pool: &mut Pool<Hashing>, sample: &Sample) -> Result<(), Fail> {
    let entry = entry(alloc, sample)?;
    pool.reserve(1, entry.transaction().inputs().len())?;
    if pool.entry(&entry.txid()).is_some() || pool.by_wtxid(&entry.wtxid()).is_some() {
        return Ok(());
    }
    pool.replace(entry);
    Ok(())
}

/// Whether the pool lists these, in this order.
fn lists(alloc: Global, pool: &Pool<Hashing>, samples: &[Sample]) -> Result<bool, Fail> {
    let mut wanted = Vec::new(alloc);
    for sample in samples {
        if let Some(id) = Txid::read(sample.id) {
            wanted.push(id)?;
        }
    }
    let listed = pool.listing(alloc)?;
    Ok(listed.as_slice() == wanted.as_slice())
}

/// How many entries are above and below that of a sample, each with itself; none if there is no such entry.
fn family(pool: &Pool<Hashing>, sample: &Sample) -> Option<(u64, u64)> {
    let totals = pool.totals(&Txid::read(sample.id)?)?;
    Some((totals.above.count, totals.below.count))
}

/// Whether the transaction `sample` is the one that spends an output of a transaction.
fn spends(pool: &Pool<Hashing>, sample: &Sample, txid: Txid, index: u32) -> bool {
    match pool.spender(&OutPoint { txid, index }) {
        Some(entry) => Txid::read(sample.id) == Some(entry.txid()),
        None => false,
    }
}

fn fill(alloc: Global, pool: &mut Pool<Hashing>) -> Result<(), Fail> {
    for sample in &BEFORE {
        enter(alloc, pool, sample)?;
    }
    pool.mark();
    Ok(())
}

fn change(alloc: Global, pool: &mut Pool<Hashing>) -> Result<(), Fail> {
    enter(alloc, pool, &RIVAL)?;
    enter(alloc, pool, &BELOW)?;
    enter(alloc, pool, &ABOVE)?;
    let alone = entry(alloc, &ALONE)?;
    pool.take_spenders(alone.transaction().inputs());
    enter(alloc, pool, &ALONE)
}

/// Takes the pool back, in memory that it takes now.
fn take_back(pool: &mut Pool<Hashing>) -> Result<(), Fail> {
    pool.reserve_to_rewind(&[], 0, 0)?;
    pool.rewind();
    Ok(())
}

/// Whether the pool is as it was when its log began.
fn is_as_before(alloc: Global, pool: &Pool<Hashing>) -> Result<bool, Fail> {
    let is_listed = lists(alloc, pool, &BEFORE)?;
    let are_families = family(pool, &PARENT) == Some((1, 2))
        && family(pool, &CHILD) == Some((2, 1))
        && family(pool, &ORPHAN) == Some((1, 2))
        && family(pool, &ABOVE).is_none()
        && family(pool, &RIVAL).is_none();
    let are_spent = spends(pool, &PARENT, Txid::new([7; 32]), 0)
        && spends(pool, &ALONE, Txid::new([10; 32]), 0)
        && pool
            .spender(&OutPoint {
                txid: Txid::new([9; 32]),
                index: 0,
            })
            .is_none();
    let has_none = pool.departed(alloc)?.is_empty() && pool.arrived(alloc)?.is_empty();
    Ok(is_listed && are_families && are_spent && has_none)
}

fn is_taken_back(alloc: Global, pool: &mut Pool<Hashing>) -> Result<bool, Fail> {
    fill(alloc, pool)?;
    change(alloc, pool)?;
    let is_changed = lists(alloc, pool, &AFTER)?;
    take_back(pool)?;
    Ok(is_changed && is_as_before(alloc, pool)?)
}

/// A pool that was taken back is changed and taken back again, and then changed without.
fn is_taken_back_again(alloc: Global, pool: &mut Pool<Hashing>) -> Result<bool, Fail> {
    change(alloc, pool)?;
    take_back(pool)?;
    let is_back = is_as_before(alloc, pool)?;
    change(alloc, pool)?;
    Ok(is_back && lists(alloc, pool, &AFTER)? && family(pool, &ORPHAN) == Some((2, 2)))
}

#[test]
fn a_pool_is_taken_back(rt: HostRuntime) -> Result<(), Fail> {
    let mut pool = Pool::new(rt.alloc(), BuildHasherDefault::new())?;
    assert!(rt; is_taken_back(rt.alloc(), &mut pool)?);
    assert!(rt; is_taken_back_again(rt.alloc(), &mut pool)?);
    Ok(())
}
