//! Ids that are gathered, each once.
ghost use Rattle.std.specs.Prelude.{◌≡◌, OnOk, OnErr};
ghost use Rattle.gate_rbf.specs.Gathering.{IsPut};

use gate_bytes::Memory;
use gate_tx::Txid;

/// Puts an id at the end of a list, unless it is there already.
pub(crate) fn put(ids: &mut Vec<Txid>, txid: Txid) -> Result<(), Memory>
    ensures ok { OnOk result (IsPut ids.old.items txid ids.new.items) }
    ensures err { OnErr result (ids.new.items ≡ ids.old.items) }
{
    if !ids.contains(&txid) {
        ids.push(txid)?;
    }
    Ok(())
}
