//! The return of a transaction whose block was disconnected.
ghost use Rattle.std.specs.Prelude.{◌≡◌, IfOk, OnErr};
ghost use Rattle.gate_admit.specs.Readmission.{readmitted};
ghost use Rattle.gate_admit.specs.Rules.{decision_of};
ghost use Rattle.gate_admit.specs.Standing.{standing};
ghost use Rattle.gate_admit.specs.declared.attempt.Attempt.TheVariants.{Again};

use crate::attempt::Attempt;
use crate::grant::Grant;
use crate::judging::decide;
use crate::policy::Policy;
use crate::standing::Standing;
use crate::verdicts::Verdicts;
use gate_bytes::{Copied, Memory};
use gate_chain::Chain;
use gate_pool::{Entry, Pool};
use gate_standard::Denial;
use gate_submission::Prepared;
use gate_trim::Floor;
use std::alloc::Global;
use std::hash::BuildHasher;

/// Tries a transaction again over the chain, and enters it at this second if it is granted: it stands at the end of the
/// pool, even if entries before it spend its outputs. Nothing expires and nothing is trimmed.
pub fn readmit<S: BuildHasher + Copy + Drop>(
    alloc: Global,
    chain: &Chain<S>,
    pool: &mut Pool<S>,
    prepared: &Prepared,
    verdicts: &Verdicts<S>,
    policy: &Policy,
    now: u64,
) -> Result<Result<Grant, Denial>, Memory>
    // A34 and A35 are not asked, so that the pool's floor does not matter.
    ensures decision { IfOk result (λ decision. decision ≡ decision_of Again (standing chain.now pool.old.entries 0 verdicts.now policy.now) prepared.now) }
    ensures entries { IfOk result (λ decision. pool.new.entries ≡ readmitted pool.old.entries prepared.now now decision) }
    ensures err { OnErr result (pool.new.entries ≡ pool.old.entries) }
    ensures before { pool.new.before ≡ pool.old.before }
{
    let Some(candidate) = prepared.candidate() else {
        return Ok(Err(Denial::Decode));
    };
    let floor = Floor::new(0);
    let over = Standing {
        chain,
        pool,
        floor: &floor,
        verdicts,
        policy,
    };
    let decision = decide(alloc, Attempt::Again, &over, &candidate)?;
    if let Ok(grant) = decision {
        let identified = candidate.identified().copy(alloc)?;
        let entry = Entry::new(identified, grant.fee, grant.vsize, now);
        pool.reserve(1, entry.transaction().inputs().len())?;
        pool.replace(entry);
    }
    Ok(decision)
}
