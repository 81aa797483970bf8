//! The entries of the pool that a submission has to do with.
ghost use Rattle.std.specs.Prelude.{IfOk};
ghost use Rattle.gate_core.specs.Submissions.{submission_of};
ghost use Rattle.gate_core.specs.World.{standing_of};
ghost use Rattle.gate_figures.specs.Relatives.{AreRelatives, RelativesFound};

use crate::families::replaced;
use gate_admit::{Policy, Pool, sibling};
use gate_bytes::Memory;
use gate_core::{Event, State, submission};
use gate_pool::parents;
use gate_rbf::conflicts;
use gate_tx::{Transaction, Txid};
use std::alloc::Global;
use std::hash::BuildHasher;

/// The entries of the pool that a transaction has to do with, by their txids.
#[derive(Drop)]
pub struct Relatives {
    /// Those that spend an outpoint that it spends.
    pub conflicts: Vec<Txid>,
    /// Those that it would replace: the conflicts, its sibling, and all that is below them.
    pub replaced: Vec<Txid>,
    /// Those whose outputs it spends.
    pub parents: Vec<Txid>,
}

fn relatives_of<S: BuildHasher + Copy + Drop>(
    alloc: Global,
    policy: &Policy,
    pool: &Pool<S>,
    tx: &Transaction,
) -> Result<Relatives, Memory>
    ensures { IfOk result (AreRelatives policy.now pool.now.entries tx.now) }
{
    let sibling = sibling(alloc, policy, pool, tx)?;
    Ok(Relatives {
        conflicts: conflicts(alloc, pool, None, tx)?,
        replaced: replaced(alloc, pool, sibling, tx)?,
        parents: parents(alloc, pool, tx.inputs())?,
    })
}

/// The entries that the transaction that an event submits has to do with, in the pool before the event. It is `None` for
/// an event that submits nothing, or bytes that are no transaction.
pub fn relatives_in<S: BuildHasher + Copy + Drop>(
    alloc: Global,
    state: &State<S>,
    event: &Event,
) -> Result<Option<Relatives>, Memory>
    ensures { IfOk result (RelativesFound (standing_of state.now) (submission_of event.now)) }
{
    let Some(prepared) = submission(event) else {
        return Ok(None);
    };
    match prepared.candidate() {
        Some(candidate) => {
            let tx = candidate.identified().get().transaction();
            Ok(Some(relatives_of(alloc, state.policy(), state.pool(), tx)?))
        }
        None => Ok(None),
    }
}
