//! Whether a transaction would enter.
ghost use Rattle.std.specs.Prelude.{◌≡◌, IfOk};
ghost use Rattle.gate_admit.specs.Standing.{standing};
ghost use Rattle.gate_query.specs.Answers.{tested};

use gate_admit::{Chain, Floor, Policy, Pool, Prepared, Verdicts, judge};
use gate_bytes::Memory;
use gate_rpc::{RpcError, RpcResult};
use gate_standard::Denial;
use std::alloc::Global;
use std::hash::BuildHasher;

/// Judges a transaction without entering it. The answer has its ids, and either its fee in satoshi and its size in
/// virtual bytes, or the rule that denies it. If what was prepared is no transaction, the answer is an error.
pub fn test_submission<S: BuildHasher + Copy + Drop>(
    alloc: Global,
    chain: &Chain<S>,
    pool: &Pool<S>,
    floor: &Floor,
    verdicts: &Verdicts<S>,
    policy: &Policy,
    prepared: &Prepared,
) -> Result<Result<RpcResult, RpcError>, Memory>
    ensures { IfOk result (λ answer. answer ≡ tested (standing chain.now pool.now.entries floor.now verdicts.now policy.now) prepared.now) }
{
    let Some(txid) = prepared.txid() else {
        return Ok(Err(RpcError::Denied(Denial::Decode)));
    };
    let Some(wtxid) = prepared.wtxid() else {
        return Ok(Err(RpcError::Denied(Denial::Decode)));
    };
    match judge(alloc, chain, pool, floor, prepared, verdicts, policy)? {
        Ok(grant) => Ok(Ok(RpcResult::Allowed {
            txid,
            wtxid,
            fee: grant.fee,
            vsize: grant.vsize,
        })),
        Err(denial) => Ok(Ok(RpcResult::Rejected {
            txid,
            wtxid,
            denial,
        })),
    }
}
