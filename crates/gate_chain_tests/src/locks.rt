//! Locktimes and relative locks at their limits, worked out from BIP 68 and BIP 113.
use gate_bytes::Kept;
use gate_chain::{Chain, OpenFault};
use gate_locks::{is_final, sequence_locks_met};
use gate_tx::{OutPoint, Transaction, TxIn, TxOut, Txid, Witness};
use std::alloc::{AllocError, Global};
use std::hash::{BuildHasherDefault, FoldHasher};
use std::test::Fail;

type Hasher = BuildHasherDefault<FoldHasher>;

/// A transaction with one input, and an output of nothing.
fn spending(
    alloc: Global,
    version: i32,
    sequence: u32,
    locktime: u32,
) -> Result<Option<Transaction>, AllocError> {
    let mut inputs = Vec::with_capacity(alloc, 1)?;
    inputs.push(TxIn {
        prevout: OutPoint {
            txid: Txid::new([0x11; 32]),
            index: 0,
        },
        script: Kept::from_vec(Vec::new(alloc)),
        sequence,
        witness: Witness::new(alloc),
    })?;
    let mut outputs = Vec::with_capacity(alloc, 1)?;
    outputs.push(TxOut {
        value: 0,
        script: Kept::from_vec(Vec::new(alloc)),
    })?;
    Ok(Transaction::new(version, inputs, outputs, locktime).ok())
}

fn is_final_with(
    alloc: Global,
    locktime: u32,
    sequence: u32,
    next_height: u32,
    mtp: u32,
) -> Result<Option<bool>, AllocError> {
    let tx = spending(alloc, 2, sequence, locktime)?;
    Ok(tx.map(|tx| is_final(&tx, next_height, mtp)))
}

#[test]
fn locktimes_of_heights_and_times(rt: HostRuntime) -> Result<(), Fail> {
    let rows = [
        (0, 0, 0, true),
        (100, 101, 0, true),
        (101, 101, 4_000_000_000, false),
        (499_999_999, 499_999_999, 4_000_000_000, false),
        (500_000_000, 4_000_000_000, 500_000_000, false),
        (500_000_000, 0, 500_000_001, true),
    ];
    for (locktime, next_height, mtp, met) in rows {
        let open = is_final_with(rt.alloc(), locktime, 0, next_height, mtp)?;
        assert!(rt; open == Some(met), "{locktime}");
        let waived = is_final_with(rt.alloc(), locktime, 0xffff_ffff, next_height, mtp)?;
        assert!(rt; waived == Some(true), "{locktime}");
    }
    Ok(())
}

/// A chain of 101 block times from a height on, with 600 seconds from one to the next.
fn chain_from(alloc: Global, first: u32) -> Result<Chain<Hasher>, OpenFault> {
    let mut times = Vec::new(alloc);
    for place in 0..101u32 {
        times.push(1000 + 600 * place)?;
    }
    Chain::open_from(
        alloc,
        BuildHasherDefault::new(),
        first,
        Vec::new(alloc),
        times,
    )
}

/// A version, a sequence, the height of the coin, and whether the lock is met.
type Lock = (i32, u32, u32, bool);

fn is_met(tx: &Transaction, height: u32, chain: &Chain<Hasher>) -> Option<bool> {
    let tip = chain.tip();
    if tx.inputs().len() != 1 || height > tip + 1 {
        return None;
    }
    Some(sequence_locks_met(tx, &[height], chain))
}

fn is_met_with(
    alloc: Global,
    chain: &Chain<Hasher>,
    version: i32,
    sequence: u32,
    height: u32,
) -> Result<Option<bool>, AllocError> {
    match spending(alloc, version, sequence, 0)? {
        Some(tx) => Ok(is_met(&tx, height, chain)),
        None => Ok(None),
    }
}

/// Whether all locks are met or not as they should be, above a chain from this height on.
fn are_right(alloc: Global, first: u32, locks: &[Lock]) -> Result<bool, Fail> {
    let chain = chain_from(alloc, first)?;
    for (version, sequence, height, met) in locks {
        if is_met_with(alloc, &chain, *version, *sequence, *height)? != Some(*met) {
            return Ok(false);
        }
    }
    Ok(true)
}

// BIP 68: a lock of n blocks is met n blocks above the coin's.
const BY_HEIGHT: [Lock; 9] = [
    (2, 10, 91, true),
    (2, 11, 91, false),
    (1, 11, 91, true),
    (-1, 11, 91, false),
    (2, 0x8000_000b, 91, true),
    (2, 0x001f_000a, 91, true),
    (2, 0x001f_000b, 91, false),
    (2, 0, 101, true),
    (2, 1, 101, false),
];

// BIP 68: a lock of n units is met 512 * n seconds after the median time past of the block before the coin's, here
// 1000 + 600 * (height - 6) from height 11 on.
const BY_TIME: [Lock; 11] = [
    (2, 0x0040_006f, 1, true),
    (2, 0x0040_0070, 1, false),
    (2, 0x0040_006f, 0, true),
    (2, 0x0040_0070, 0, false),
    (2, 0x0040_0069, 11, true),
    (2, 0x0040_006a, 11, false),
    (-1, 0x0040_0070, 1, false),
    (1, 0x0040_0070, 1, true),
    (2, 0xc040_0070, 1, true),
    (2, 0x0040_0000, 101, true),
    (2, 0x0040_0001, 101, false),
];

/// At a tip of 900,100 a lock of 111 units of 512 seconds is met if the chain knows the median time past before the coin's
/// block; its times begin at height 900,000.
const FROM_A_HEIGHT: [Lock; 3] = [
    (2, 0x0040_006f, 1, false),
    (2, 0x0040_006f, 900_000, false),
    (2, 0x0040_006f, 900_001, true),
];

#[test]
fn relative_locks(rt: HostRuntime) -> Result<(), Fail> {
    assert!(rt; are_right(rt.alloc(), 0, &BY_HEIGHT)?, "by height");
    assert!(rt; are_right(rt.alloc(), 0, &BY_TIME)?, "by time");
    assert!(rt;
        are_right(rt.alloc(), 900_000, &FROM_A_HEIGHT)?,
        "from a height"
    );
    Ok(())
}
