//! Why entries leave the pool, and why they enter it.
use crate::sight::Sight;
use gate_core::State;
use gate_figures::Explained;
use gate_message::{ChainEvent, Event};
use gate_tx::Txid;
use std::hash::BuildHasher;

/// The second of an event, if it has one.
pub(crate) fn second_of(event: &Event) -> Option<u64> {
    match event {
        Event::Tx { now, .. } => Some(*now),
        Event::Package { now, .. } => Some(*now),
        Event::Rpc(call) => Some(call.get().time()),
        Event::Chain(ChainEvent::MoveTip { now, .. }) => Some(*now),
        _ => None,
    }
}

/// Whether a block that an event connects has a transaction of this txid.
fn is_confirmed(event: &Event, txid: &Txid) -> bool {
    let Event::Chain(ChainEvent::MoveTip { blocks, .. }) = event else {
        return false;
    };
    for block in blocks.get().as_slice() {
        if let Some(block) = block {
            for transaction in block.transactions() {
                if transaction.get().txid() == *txid {
                    return true;
                }
            }
        }
    }
    false
}

/// The virtual size of the transaction that an event submits, if it was granted.
fn granted_size(explained: &Option<Explained>) -> u64 {
    match explained {
        Some(Ok(grant)) => grant.vsize,
        _ => 0,
    }
}

/// Why an entry left that the submitted transaction didn't replace. An entry can be too old only if one entered before
/// `second` less the time that it may stay; the pool is trimmed only if it would be above its budget.
fn lapsed<S: BuildHasher + Copy + Drop>(
    state: &State<S>,
    sight: &Sight,
    second: u64,
    earliest: Option<u64>,
) -> &'static str {
    let limit = second.saturating_sub(state.policy().stay());
    let may_expire = match earliest {
        Some(earliest) => earliest < limit,
        None => false,
    };
    let size = sight
        .pool_size
        .saturating_add(u128::from(granted_size(&sight.explained)));
    let may_be_trimmed = size > u128::from(state.budget());
    match (may_expire, may_be_trimmed) {
        (false, _) => "trimmed",
        (true, false) => "expired",
        (true, true) => "expired or trimmed",
    }
}

/// Why an entry left at an event, which led to this state. `earliest` is the first second at which any entry came. It is
/// `None` if there was no memory to know it.
pub(crate) fn reason_to_leave<S: BuildHasher + Copy + Drop>(
    state: &State<S>,
    sight: &Sight,
    event: &Event,
    txid: &Txid,
    earliest: Option<u64>,
) -> Option<&'static str> {
    match event {
        Event::Chain(_) if is_confirmed(event, txid) => Some("confirmed"),
        Event::Chain(ChainEvent::MoveTip { disconnect: 0, .. }) => Some("conflict of a block"),
        Event::Chain(ChainEvent::MoveTip { .. }) => Some("reorganisation"),
        _ => {
            let relatives = sight.relatives.as_ref()?;
            if relatives.replaced.as_slice().contains(txid) {
                return Some("replaced");
            }
            Some(lapsed(state, sight, second_of(event)?, earliest))
        }
    }
}

/// Why an entry came at an event.
pub(crate) fn reason_to_enter(event: &Event) -> &'static str {
    match event {
        Event::Chain(_) => "returned",
        _ => "admitted",
    }
}
