ghost use Rattle.std.specs.Prelude.{◌≡◌, ◌≤◌, length, IfOk};
ghost use Rattle.std.specs.Vec.{vec_capacity};
ghost use Rattle.gate_pool.specs.Search.{parents_of};

use gate_bytes::Memory;
use gate_graph::NodeId;
use gate_tx::{TxIn, Txid};
use std::alloc::Global;

/// Converts a transaction's id to a node's.
pub(crate) fn node_id(txid: &Txid) -> NodeId
    ensures { result ≡ txid.now }
{
    let mut bytes = [0; 32];
    bytes.copy_from_slice(txid.as_bytes());
    NodeId::new(bytes)
}

/// Converts nodes' ids to transactions' ids, in their order.
pub(crate) fn txids_of(alloc: Global, ids: &[NodeId]) -> Result<Vec<Txid>, Memory>
    ensures { IfOk result (λ txids. txids.items ≡ ids.now) }
{
    let mut txids = Vec::with_capacity(alloc, ids.len())?;
    for id in ids {
        txids.push(Txid::new(*id.bytes()))?;
    }
    Ok(txids)
}

/// Writes the ids of the transactions whose outputs the inputs spend, one for each input, over a list with room.
pub(crate) fn list_parents(parents: &mut Vec<NodeId>, inputs: &[TxIn])
    requires { length inputs.now ≤ vec_capacity parents.old }
    ensures { parents.new.items ≡ parents_of inputs.now }
{
    parents.clear();
    for input in inputs {
        parents.push_reserved(node_id(&input.prevout.txid));
    }
}
