//! Package replacement: whether two that are judged together may take the place of entries (J10 to J16).
ghost use Rattle.std.specs.Prelude.{◌≡◌, ◌++◌, ◌∷◌, [], ◌≤◌, ◌<◌, All, IfOk, OnOk, length, if◌then◌else◌};
ghost use Rattle.gate_bytes.specs.Order.{first_failing};
ghost use Rattle.gate_pool.specs.Pool.{listing_of};
ghost use Rattle.gate_pool.specs.Family.{fees_of, is_among};
ghost use Rattle.gate_admit.specs.Bounds.{FitsEntry};
ghost use Rattle.gate_diagram.specs.Diagram.{IsSmall, improves, pair_chunks};
ghost use Rattle.gate_package.specs.Replacement.{chunks_at, is_no_dearer, left_at, new_chunks, old_chunks, pays_too_little, price_of, replacement_rules, rules_on};

use gate_admit::{Policy, Pool};
use gate_bytes::Memory;
use gate_diagram::{Price, improves, joined, sum_of};
use gate_pool::Lent;
use gate_rivals::{
    children_of, entries_of, have_ancestors, have_too_many, list_replaced, list_rivals, parents_of,
    some_is_entangled,
};
use gate_rules::PackageDenial;
use gate_standard::rate_of;
use gate_submission::Candidate;
use gate_tx::Txid;
use std::alloc::Global;
use std::hash::BuildHasher;

/// What an entry pays.
fn price_of(entry: &Lent<'_>) -> Price
    ensures price { result ≡ price_of entry.now }
    ensures small { FitsEntry result.fee result.vsize }
{
    let entry = entry.entry();
    entry.recall_bounds();
    Price {
        fee: entry.fee(),
        vsize: entry.vsize(),
    }
}

/// Whether all pay less than what they replace pays, or not enough more to pay for their own relay (J13).
fn pays_too_little(policy: &Policy, paid: u128, sum: Price) -> bool
    ensures { result ≡ pays_too_little policy.now paid sum }
{
    let fee = u128::from(sum.fee);
    fee < paid || fee - paid < policy.incremental_feerate().fee(sum.vsize)
}

/// Whether the feerate of all is not above that of the first (J14).
fn is_no_dearer(sum: Price, prices: &[Price]) -> bool
    requires fit { All (λ price. FitsEntry price.fee price.vsize) prices.now }
    requires some { 0 < sum.vsize }
    ensures { result ≡ is_no_dearer sum prices.now }
{
    match prices.first() {
        Some(first) => rate_of(sum.fee, sum.vsize) <= rate_of(first.fee, first.vsize),
        None => false,
    }
}

/// Puts the chunks of a parent and its child at the end of a list.
fn put_pair(chunks: &mut Vec<Price>, parent: Price, child: Price) -> Result<(), Memory>
    requires of_parent { FitsEntry parent.fee parent.vsize }
    requires of_child { FitsEntry child.fee child.vsize }
    ensures items { OnOk result (chunks.new.items ≡ chunks.old.items ++ pair_chunks parent child) }
    ensures small { All IsSmall chunks.old.items → OnOk result (All IsSmall chunks.new.items) }
{
    match joined(parent, child) {
        Some(both) => chunks.push(both)?,
        None => {
            chunks.push(parent)?;
            chunks.push(child)?;
        }
    }
    Ok(())
}

/// Puts the chunks of an entry that is replaced at the end of a list.
fn put_chunks<S: BuildHasher + Copy + Drop>(
    alloc: Global,
    pool: &Pool<S>,
    chunks: &mut Vec<Price>,
    entry: &Lent<'_>,
) -> Result<(), Memory>
    ensures items { OnOk result (chunks.new.items ≡ chunks.old.items ++ chunks_at pool.now.entries entry.now) }
    ensures small { All IsSmall chunks.old.items → OnOk result (All IsSmall chunks.new.items) }
{
    let above = parents_of(alloc, pool, entry)?;
    if let Some(parent) = above.first() {
        return put_pair(chunks, price_of(parent), price_of(entry));
    }
    let below = children_of(alloc, pool, entry)?;
    if below.is_empty() {
        chunks.push(price_of(entry))?;
    }
    Ok(())
}

/// The chunks of what is replaced, with the parents that stay.
fn old_chunks<S: BuildHasher + Copy + Drop>(
    alloc: Global,
    pool: &Pool<S>,
    replaced: &[Lent<'_>],
) -> Result<Vec<Price>, Memory>
    ensures items { IfOk result (λ chunks. chunks.items ≡ old_chunks pool.now.entries replaced.now) }
    ensures small { IfOk result (λ chunks. All IsSmall chunks.items) }
{
    let mut chunks = Vec::new(alloc);
    for entry in replaced {
        put_chunks(alloc, pool, &mut chunks, entry)?;
    }
    Ok(chunks)
}

/// Whether an entry has one of these ids.
fn is_among(ids: &[Txid], entry: &Lent<'_>) -> bool
    ensures { result ≡ is_among ids.now entry.now }
{
    ids.contains(&entry.txid())
}

/// Puts what a parent pays at the end of a list, if the parent has none of these ids.
fn put_unless(chunks: &mut Vec<Price>, gone: &[Txid], parent: &Lent<'_>) -> Result<(), Memory>
    ensures items { OnOk result (chunks.new.items ≡ chunks.old.items ++ (if is_among gone.now parent.now then [] else price_of parent.now ∷ [])) }
    ensures small { All IsSmall chunks.old.items → OnOk result (All IsSmall chunks.new.items) }
{
    if is_among(gone, parent) {
        return Ok(());
    }
    chunks.push(price_of(parent))?;
    Ok(())
}

/// Puts the parent of an entry that is replaced at the end of a list, if it isn't replaced itself.
fn put_left<S: BuildHasher + Copy + Drop>(
    alloc: Global,
    pool: &Pool<S>,
    chunks: &mut Vec<Price>,
    gone: &[Txid],
    entry: &Lent<'_>,
) -> Result<(), Memory>
    ensures items { OnOk result (chunks.new.items ≡ chunks.old.items ++ left_at pool.now.entries gone.now entry.now) }
    ensures small { All IsSmall chunks.old.items → OnOk result (All IsSmall chunks.new.items) }
{
    let above = parents_of(alloc, pool, entry)?;
    if let Some(parent) = above.first() {
        return put_unless(chunks, gone, parent);
    }
    Ok(())
}

/// The chunks behind the replacement: all that enter are one, and each parent that stays is one.
fn new_chunks<S: BuildHasher + Copy + Drop>(
    alloc: Global,
    pool: &Pool<S>,
    gone: &[Txid],
    replaced: &[Lent<'_>],
    sum: Price,
) -> Result<Vec<Price>, Memory>
    requires listed { gone.now ≡ listing_of replaced.now }
    requires small_sum { IsSmall sum }
    ensures items { IfOk result (λ chunks. chunks.items ≡ new_chunks pool.now.entries replaced.now sum) }
    ensures small { IfOk result (λ chunks. All IsSmall chunks.items) }
{
    let mut chunks = Vec::new(alloc);
    chunks.push(sum)?;
    for entry in replaced {
        put_left(alloc, pool, &mut chunks, gone, entry)?;
    }
    Ok(chunks)
}

/// Whether the diagram behind the replacement is better than the one before it (J16).
#[tactic(auto, using(crate::proofs::Chunking::new_few, crate::proofs::Chunking::old_few))]
fn improves_diagram<S: BuildHasher + Copy + Drop>(
    alloc: Global,
    pool: &Pool<S>,
    gone: &[Txid],
    replaced: &[Lent<'_>],
    sum: Price,
) -> Result<bool, Memory>
    requires listed { gone.now ≡ listing_of replaced.now }
    requires small_sum { IsSmall sum }
    requires few { length replaced.now ≤ 100 }
    ensures { IfOk result (λ better. better ≡ improves (new_chunks pool.now.entries replaced.now sum) (old_chunks pool.now.entries replaced.now)) }
{
    let old = old_chunks(alloc, pool, replaced)?;
    let new = new_chunks(alloc, pool, gone, replaced, sum)?;
    Ok(improves(&new, &old))
}

/// What these entries pay together.
fn paid_by(entries: &[Lent<'_>]) -> u128
    ensures { result ≡ fees_of entries.now }
{
    let mut paid = 0;
    for entry in entries {
        paid += u128::from(price_of(entry).fee);
    }
    paid
}

/// The first of J13 to J16 that fails, where these entries, which have these ids, are replaced by what pays this together.
fn check_replaced<S: BuildHasher + Copy + Drop>(
    alloc: Global,
    policy: &Policy,
    pool: &Pool<S>,
    gone: &[Txid],
    replaced: &[Lent<'_>],
    prices: &[Price],
    sum: Price,
) -> Result<Option<PackageDenial>, Memory>
    requires listed { gone.now ≡ listing_of replaced.now }
    requires few { length replaced.now ≤ 100 }
    requires fit { All (λ price. FitsEntry price.fee price.vsize) prices.now }
    requires small_sum { IsSmall sum }
    requires some { 0 < sum.vsize }
    ensures { IfOk result (λ denial. denial ≡ first_failing (rules_on policy.now pool.now.entries replaced.now prices.now sum)) }
{
    if pays_too_little(policy, paid_by(replaced), sum) {
        return Ok(Some(PackageDenial::LowerFee));
    }
    if is_no_dearer(sum, prices) {
        return Ok(Some(PackageDenial::LowerRateThanFirst));
    }
    if some_is_entangled(alloc, pool, replaced)? {
        return Ok(Some(PackageDenial::ConflictTopology));
    }
    if !improves_diagram(alloc, pool, gone, replaced, sum)? {
        return Ok(Some(PackageDenial::LowerDiagram));
    }
    Ok(None)
}

/// The first of J10 to J16 that fails for transactions that replace entries, each at its price.
#[tactic(auto, unfolding(crate::specs::Replacement::replacement_rules))]
pub(crate) fn check_replacement<S: BuildHasher + Copy + Drop>(
    alloc: Global,
    policy: &Policy,
    pool: &Pool<S>,
    these: &[Candidate<'_>],
    prices: &[Price],
) -> Result<Option<PackageDenial>, Memory>
    requires fit { All (λ price. FitsEntry price.fee price.vsize) prices.now }
    requires one_each { length prices.now ≡ length these.now }
    ensures { IfOk result (λ denial. denial ≡ first_failing (replacement_rules policy.now pool.now.entries these.now prices.now)) }
{
    if these.len() != 2 {
        return Ok(Some(PackageDenial::ReplacesAsOthers));
    }
    if have_ancestors(pool, these) {
        return Ok(Some(PackageDenial::HasAncestors));
    }
    let rivals = list_rivals(alloc, pool, these)?;
    if have_too_many(pool, rivals.as_slice()) {
        return Ok(Some(PackageDenial::TooManyReplacements));
    }
    let gone = list_replaced(alloc, pool, rivals.as_slice())?;
    let gone = gone.as_slice();
    let replaced = entries_of(alloc, pool, gone)?;
    let replaced = replaced.as_slice();
    check_replaced(alloc, policy, pool, gone, replaced, prices, sum_of(prices))
}
