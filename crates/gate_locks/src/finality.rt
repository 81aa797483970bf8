ghost use Rattle.std.specs.Prelude.{◌≡◌, ◌==◌};
ghost use Rattle.std.specs.List.{list_all};
ghost use Rattle.gate_locks.specs.Finality.{is_final_at};

use gate_tx::{Transaction, TxIn};

/// A locktime below this is a height, and from it on a time in seconds since 1970 (Bitcoin Core's `LOCKTIME_THRESHOLD`).
const FIRST_TIME: u32 = 500_000_000;

/// The sequence of an input that waives the locktime.
const SEQUENCE_FINAL: u32 = 0xffff_ffff;

/// Whether the transaction is final in the next block (Bitcoin Core's `IsFinalTx`). The time that its locktime may be
/// compared with is the median time past of the tip (BIP 113).
#[tactic(auto, unfolding(crate::specs::Finality::is_final_at))]
pub fn is_final(tx: &Transaction, next_height: u32, mtp: u32) -> bool
    ensures { result ≡ is_final_at tx.now next_height mtp }
{
    let locktime = tx.locktime();
    let threshold = if locktime < FIRST_TIME {
        next_height
    } else {
        mtp
    };
    locktime == 0 || locktime < threshold || waives_locktime(tx.inputs())
}

fn waives_locktime(inputs: &[TxIn]) -> bool
    ensures { result ≡ list_all (λ i. i.sequence == SEQUENCE_FINAL) inputs.now }
{
    inputs.iter().all(|input| input.sequence == SEQUENCE_FINAL)
}
