//! What is seen of a pool, as text.
use crate::colliding::Colliding;
use gate_bytes::Memory;
use gate_pool::{Entry, Pool, Score, Sums, add_up, ancestors, descendants};
use gate_tx::{Txid, Wtxid};
use std::alloc::Global;

/// How many entries of a family there are, with their size and fees.
fn push_sums(text: &mut String, family: &str, sums: &Sums) -> Result<(), Memory> {
    write!(text, " {family} {} {} {}", sums.count, sums.size, sums.fees)?;
    Ok(())
}

/// The totals of an entry's ancestors, itself left out.
fn push_ancestors(
    alloc: Global,
    text: &mut String,
    pool: &Pool<Colliding>,
    entry: &Entry,
) -> Result<(), Memory> {
    match ancestors(alloc, pool, entry.transaction().inputs(), pool.count())? {
        Some(found) => push_sums(text, "above", &add_up(pool, found.as_slice())),
        None => Ok(()),
    }
}

/// The totals of an entry and its descendants.
fn push_descendants(
    alloc: Global,
    text: &mut String,
    pool: &Pool<Colliding>,
    entry: &Entry,
) -> Result<(), Memory> {
    match descendants(alloc, pool, &[entry.txid()], pool.count())? {
        Some(found) => push_sums(text, "below", &add_up(pool, found.as_slice())),
        None => Ok(()),
    }
}

fn push_ids(text: &mut String, txid: &Txid, wtxid: &Wtxid) -> Result<(), Memory> {
    write!(text, "{txid} {wtxid}")?;
    Ok(())
}

/// The fee, size and second of an entry.
fn push_figures(text: &mut String, fee: u64, vsize: u64, time: u64) -> Result<(), Memory> {
    write!(text, " {fee} {vsize} {time}")?;
    Ok(())
}

/// The ids, fee, size and second of an entry, and the totals of its family.
fn push_entry(
    alloc: Global,
    text: &mut String,
    pool: &Pool<Colliding>,
    entry: &Entry,
) -> Result<(), Memory> {
    push_ids(text, &entry.txid(), &entry.wtxid())?;
    push_figures(text, entry.fee(), entry.vsize(), entry.time())?;
    push_ancestors(alloc, text, pool, entry)?;
    push_descendants(alloc, text, pool, entry)?;
    text.push('\n')?;
    Ok(())
}

fn push_score(text: &mut String, score: &Score) -> Result<(), Memory> {
    write!(text, "least {} {} {}\n", score.txid, score.fees, score.size)?;
    Ok(())
}

/// The least score of a pool.
fn push_least(text: &mut String, pool: &Pool<Colliding>) -> Result<(), Memory> {
    match pool.least() {
        Some(score) => push_score(text, score),
        None => Ok(()),
    }
}

/// How many entries a pool has, and their size.
fn push_count(text: &mut String, count: usize, size: u128) -> Result<(), Memory> {
    write!(text, "pool {count} {size}\n")?;
    Ok(())
}

fn push_entries(
    alloc: Global,
    text: &mut String,
    pool: &Pool<Colliding>,
    txids: &[Txid],
) -> Result<(), Memory> {
    for txid in txids {
        if let Some(entry) = pool.entry(txid) {
            push_entry(alloc, text, pool, entry)?;
        }
    }
    Ok(())
}

/// How many entries there are, their size, each in order of admission, and the least score.
pub(crate) fn push_pool(
    alloc: Global,
    text: &mut String,
    pool: &Pool<Colliding>,
) -> Result<(), Memory> {
    push_count(text, pool.count(), pool.size())?;
    let listing = pool.listing(alloc)?;
    push_entries(alloc, text, pool, listing.as_slice())?;
    push_least(text, pool)
}
