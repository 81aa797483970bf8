//! The explanation of an event.
ghost use Rattle.std.specs.Prelude.{◌≡◌, IfOk};
ghost use Rattle.gate_core.specs.Submissions.{submission_of};
ghost use Rattle.gate_core.specs.World.{standing_of};
ghost use Rattle.gate_admit.specs.declared.attempt.Attempt.TheVariants.{First};
ghost use Rattle.gate_figures.specs.Explaining.{explained, explanation_of, figures_for};
ghost use Rattle.gate_admit.specs.Rules.{decision_of};
ghost use Rattle.gate_figures.specs.Figures.{figures_of, paying_figures};

use crate::coins::{coinless, young};
use crate::explanation::{Explained, Explanation};
use crate::families::{crowded, descendants_replaced, fees_replaced};
use crate::fees::{Price, pays, pays_above};
use crate::figures::Figures;
use crate::locks::locked;
use crate::outputs::{carriers, data_past, dust, dust_paying, nonstandard};
use crate::reports::{nonstandard_inputs, nonstandard_witness};
use crate::rivals::{non_signalling, outpaid_at, rate_at};
use crate::sweeping::unswept;
use crate::verdicts::doubted;
use gate_admit::{Prepared, judge, sibling, tip_median};
use gate_bytes::Memory;
use gate_core::{Event, State, submission};
use gate_standard::Denial;
use gate_tx::Identified;
use std::alloc::Global;
use std::hash::BuildHasher;

/// The figures of a rule on a transaction's fee, cost or size; any other rule has none here.
#[tactic(auto, unfolding(crate::specs::Figures::paying_figures))]
fn paying_figures<S: BuildHasher + Copy + Drop>(
    alloc: Global,
    state: &State<S>,
    tx: &Identified,
    denial: Denial,
) -> Result<Option<Figures>, Memory>
    ensures { IfOk result (λ figures. figures ≡ paying_figures (standing_of state.now) tx.now denial) }
{
    let transaction = tx.transaction();
    let pool = state.pool();
    let inputs = transaction.inputs();
    let policy = state.policy();
    let price = Price::of(alloc, state.chain(), pool, policy, tx)?;
    match denial {
        Denial::InBelowOut => Ok(Some(Figures::Balance {
            coins: price.coins,
            outputs: price.outputs,
        })),
        Denial::DustWithFee => {
            let rate = policy.standards().dust_rate;
            Ok(dust_paying(rate, price.fee, transaction.outputs()))
        }
        Denial::TooManySigops => Ok(Some(Figures::Costs { cost: price.cost })),
        Denial::MempoolMinFee => Ok(pays(
            policy.feerate(state.floor().rate()),
            price.fee,
            price.vsize,
        )),
        Denial::MinRelayFee => Ok(pays(policy.relay_feerate(), price.fee, price.vsize)),
        Denial::TooLongChain => crowded(alloc, policy, pool, transaction, price.vsize),
        Denial::LowerFeeRate => {
            let sibling = sibling(alloc, policy, pool, transaction)?;
            let rate = rate_at(price.fee, price.vsize);
            Ok(outpaid_at(pool, sibling, inputs, rate))
        }
        Denial::LowerFee => Ok(Some(Figures::Pays {
            fee: price.fee,
            needs: fees_replaced(alloc, policy, pool, transaction)?,
        })),
        Denial::LowerDifference => {
            let gone = fees_replaced(alloc, policy, pool, transaction)?;
            let rate = policy.incremental_feerate();
            Ok(pays_above(rate, gone, price.fee, price.vsize))
        }
        _ => Ok(None),
    }
}

/// The figures by which a rule denies a transaction.
#[tactic(auto, unfolding(crate::specs::Figures::figures_of))]
fn figures_of<S: BuildHasher + Copy + Drop>(
    alloc: Global,
    state: &State<S>,
    tx: &Identified,
    denial: Denial,
) -> Result<Option<Figures>, Memory>
    ensures { IfOk result (λ figures. figures ≡ figures_of (standing_of state.now) tx.now denial) }
{
    let transaction = tx.transaction();
    let inputs = transaction.inputs();
    let chain = state.chain();
    let pool = state.pool();
    let policy = state.policy();
    let standards = policy.standards();
    match denial {
        Denial::Oversize => Ok(Some(Figures::Large {
            size: transaction.stripped_size(),
        })),
        Denial::TxSizeSmall => Ok(Some(Figures::Small {
            size: transaction.stripped_size(),
            needs: standards.least_size,
        })),
        Denial::ScriptPubKey => Ok(nonstandard(&standards, transaction.outputs())),
        Denial::Dust => Ok(dust(standards.dust_rate, transaction.outputs())),
        Denial::DataCarrier => match standards.data_total {
            Some(total) => Ok(data_past(total, transaction.outputs())),
            None => Ok(None),
        },
        Denial::MultiOpReturn => Ok(Some(Figures::DataOutputs {
            count: carriers(transaction.outputs()),
            most: standards.data_outputs,
        })),
        Denial::TxSize => Ok(Some(Figures::Weighs {
            weight: tx.weight(),
        })),
        Denial::NonFinal => Ok(Some(Figures::Final {
            locktime: transaction.locktime(),
            height: chain.tip() + 1,
            median: tip_median(chain),
        })),
        Denial::MempoolConflict => Ok(non_signalling(standards.truc, pool, inputs)),
        Denial::MissingOrSpent => Ok(coinless(chain, pool, inputs)),
        Denial::VerdictMissing | Denial::SoftVerdict | Denial::HardVerdict => {
            Ok(doubted(state.verdicts(), tx))
        }
        Denial::NonBip68Final => Ok(locked(chain, pool, inputs)),
        Denial::PrematureSpend => Ok(young(chain, pool, inputs)),
        Denial::NonstandardInputs => nonstandard_inputs(alloc, policy, chain, pool, inputs),
        Denial::WitnessNonstandard => nonstandard_witness(alloc, policy, chain, pool, inputs),
        Denial::UnsweptDust => Ok(unswept(standards.dust_rate, pool, inputs)),
        Denial::TooManyReplacements => Ok(Some(Figures::Descendants {
            count: descendants_replaced(alloc, policy, pool, transaction)?,
        })),
        _ => paying_figures(alloc, state, tx, denial),
    }
}

/// The figures by which a rule denies a submission over a state, if the rule has some and the submission is a transaction.
/// Of A43 to A45 they are the same whatever is in the pool.
pub fn figures_for<S: BuildHasher + Copy + Drop>(
    alloc: Global,
    state: &State<S>,
    prepared: &Prepared,
    denial: Denial,
) -> Result<Option<Figures>, Memory>
    ensures { IfOk result (λ figures. figures ≡ figures_for (standing_of state.now) prepared.now denial) }
{
    match prepared.candidate() {
        Some(candidate) => figures_of(alloc, state, candidate.identified().get(), denial),
        None => Ok(None),
    }
}

/// The grant of a submission, or the first rule of the written order that fails, with the figures of its definition.
pub fn explain_submission<S: BuildHasher + Copy + Drop>(
    alloc: Global,
    state: &State<S>,
    prepared: &Prepared,
) -> Result<Explained, Memory>
    ensures { IfOk result (λ found. found ≡ explained (standing_of state.now) prepared.now (decision_of First (standing_of state.now) prepared.now)) }
{
    let decision = judge(
        alloc,
        state.chain(),
        state.pool(),
        state.floor(),
        prepared,
        state.verdicts(),
        state.policy(),
    )?;
    match decision {
        Ok(grant) => Ok(Ok(grant)),
        Err(denial) => Ok(Err(Explanation {
            denial,
            figures: figures_for(alloc, state, prepared, denial)?,
        })),
    }
}

/// What is decided on the transaction that an event submits, by the state before the event: its grant, or the first
/// rule of the written order that fails, with the figures of its definition. It is `None` for an event that submits
/// nothing. The rules on the event's caller are left aside.
pub fn explain<S: BuildHasher + Copy + Drop>(
    alloc: Global,
    state: &State<S>,
    event: &Event,
) -> Result<Option<Explained>, Memory>
    ensures { IfOk result (λ found. found ≡ explanation_of (standing_of state.now) (submission_of event.now)) }
{
    match submission(event) {
        Some(prepared) => Ok(Some(explain_submission(alloc, state, prepared)?)),
        None => Ok(None),
    }
}
