//! What is said of the transactions of a list that a user tests, one by one.
//!
//! Each of them is judged behind those before it that would enter. The figures are those of the state before the call, so they
//! are given where the ones before change none of them: what a transaction pays (A34, A35) they never change.
use crate::remedy::Remedy;
use crate::told::Told;
use gate_bytes::Memory;
use gate_core::State;
use gate_figures::{Explanation, Figures, explain_submission};
use gate_message::Event;
use gate_pool::parents;
use gate_rpc::Command;
use gate_standard::Denial;
use gate_submission::Prepared;
use gate_tx::Transaction;
use std::alloc::Global;
use std::hash::BuildHasher;

/// What is known of a transaction of a list before the call.
#[derive(Clone, Copy)]
pub(crate) struct Listed {
    /// Why it will be denied, where this is known.
    explanation: Option<Explanation>,
    /// What helps it.
    remedy: Remedy,
}

impl Listed {
    pub(crate) fn unknown() -> Listed {
        Listed {
            explanation: None,
            remedy: Remedy::Unknown,
        }
    }

    /// What is known of the rule that denies the transaction; `paid` are the figures of A34 or A35 behind those before it.
    pub(crate) fn told(&self, denial: Denial, paid: Option<Figures>) -> Told {
        let rule = denial.row();
        match self.explanation {
            Some(explanation) if explanation.denial == denial => Told {
                rule,
                figures: explanation.figures,
                is_of_descendants: explanation.figures.is_none() && denial == Denial::TooLongChain,
                remedy: self.remedy,
            },
            _ => Told {
                rule,
                figures: paid,
                is_of_descendants: false,
                remedy: Remedy::Unknown,
            },
        }
    }
}

/// The list that an event asks about, if it asks about one.
pub(crate) fn list_of(event: &Event) -> &[Prepared] {
    match event {
        Event::Rpc(call) => match call.get().request() {
            Ok(request) => match &request.command {
                Command::TestList(submissions) => submissions.as_slice(),
                _ => &[],
            },
            Err(_) => &[],
        },
        _ => &[],
    }
}

/// Whether a transaction spends an output of this submission's.
fn spends_one(tx: &Transaction, before: &Prepared) -> bool {
    match before.candidate() {
        Some(candidate) => {
            let txid = candidate.identified().get().txid();
            tx.inputs().iter().any(|input| input.prevout.txid == txid)
        }
        None => false,
    }
}

/// Whether a transaction spends an output of one of these.
fn spends_any(tx: &Transaction, before: &[Prepared]) -> bool {
    for prepared in before {
        if spends_one(tx, prepared) {
            return true;
        }
    }
    false
}

/// Whether a submission spends an output of an entry.
fn has_parent<S: BuildHasher + Copy + Drop>(
    alloc: Global,
    state: &State<S>,
    prepared: &Prepared,
) -> Result<bool, Memory> {
    let Some(candidate) = prepared.candidate() else {
        return Ok(false);
    };
    let tx = candidate.identified().get().transaction();
    let parents = parents(alloc, state.pool(), tx.inputs())?;
    Ok(!parents.is_empty())
}

/// Whether a rule asks what those before in the list may have changed: who spends a coin, and how large a family is.
fn asks_the_pool(denial: Denial) -> bool {
    matches!(
        denial,
        Denial::MempoolConflict | Denial::TooLongChain | Denial::TrucViolation
    )
}

/// What helps a transaction behind these of its list: unknown if it has a parent in the pool, whose family they may change.
fn remedy_behind<S: BuildHasher + Copy + Drop>(
    alloc: Global,
    state: &State<S>,
    before: &[Prepared],
    prepared: &Prepared,
    explanation: Explanation,
) -> Result<Remedy, Memory> {
    if !before.is_empty() && has_parent(alloc, state, prepared)? {
        return Ok(Remedy::Unknown);
    }
    Remedy::of(alloc, state, prepared, explanation.denial)
}

/// What is known of a transaction, behind these of its list.
fn listed_behind<S: BuildHasher + Copy + Drop>(
    alloc: Global,
    state: &State<S>,
    before: &[Prepared],
    prepared: &Prepared,
) -> Result<Listed, Memory> {
    let Some(candidate) = prepared.candidate() else {
        return Ok(Listed::unknown());
    };
    let tx = candidate.identified().get().transaction();
    if spends_any(tx, before) {
        return Ok(Listed::unknown());
    }
    match explain_submission(alloc, state, prepared)? {
        Err(explanation) if before.is_empty() || !asks_the_pool(explanation.denial) => {
            Ok(Listed {
                explanation: Some(explanation),
                remedy: remedy_behind(alloc, state, before, prepared, explanation)?,
            })
        }
        _ => Ok(Listed::unknown()),
    }
}

/// What is known of each transaction of a list.
pub(crate) fn all_listed<S: BuildHasher + Copy + Drop>(
    alloc: Global,
    state: &State<S>,
    event: &Event,
) -> Result<Vec<Listed>, Memory> {
    let list = list_of(event);
    let mut found = Vec::with_capacity(alloc, list.len())?;
    for (place, prepared) in list.iter().enumerate() {
        found.push(listed_behind(alloc, state, &list[..place], prepared)?)?;
    }
    Ok(found)
}
