//! What helps a submission that is denied.
use gate_bytes::Memory;
use gate_core::{State, submission};
use gate_figures::{Explained, least_fee_for};
use gate_message::Event;
use gate_standard::{Denial, has_ephemeral_dust};
use gate_submission::Prepared;
use std::alloc::Global;
use std::fmt;
use std::hash::BuildHasher;

/// What helps a submission that is denied, as far as it is known.
#[derive(Clone, Copy, PartialEq, Eq)]
pub(crate) enum Remedy {
    /// The least fee, in satoshi, with which the same submission passes A34 to A42.
    Fee(u128),
    /// No fee lets it pass A34 to A42, and A48.
    NoFee,
    /// Verdicts that are given.
    Verdicts,
    Unknown,
}

impl Remedy {
    /// What helps a submission that is denied by this rule over this state.
    pub(crate) fn of<S: BuildHasher + Copy + Drop>(
        alloc: Global,
        state: &State<S>,
        prepared: &Prepared,
        denial: Denial,
    ) -> Result<Remedy, Memory> {
        match denial {
            Denial::MempoolMinFee
            | Denial::MinRelayFee
            | Denial::LowerFeeRate
            | Denial::LowerFee
            | Denial::LowerDifference => Remedy::by_fee(alloc, state, prepared),
            Denial::TooLongChain
            | Denial::TrucViolation
            | Denial::SpendsConflicting
            | Denial::UnsweptDust
            | Denial::TooManyReplacements
            | Denial::AddsUnconfirmed => Ok(Remedy::NoFee),
            Denial::VerdictMissing => Ok(Remedy::Verdicts),
            _ => Ok(Remedy::Unknown),
        }
    }

    /// What helps a submission that pays too little. With dust that a child may sweep it may pay no fee (A48).
    fn by_fee<S: BuildHasher + Copy + Drop>(
        alloc: Global,
        state: &State<S>,
        prepared: &Prepared,
    ) -> Result<Remedy, Memory> {
        let Some(tx) = prepared.transaction() else {
            return Ok(Remedy::Unknown);
        };
        if has_ephemeral_dust(&state.policy().standards(), tx) {
            return Ok(Remedy::NoFee);
        }
        match least_fee_for(alloc, state, prepared)? {
            Some(fee) => Ok(Remedy::Fee(fee)),
            None => Ok(Remedy::NoFee),
        }
    }

    /// What helps the submission of an event, if it will be denied.
    pub(crate) fn for_event<S: BuildHasher + Copy + Drop>(
        alloc: Global,
        state: &State<S>,
        event: &Event,
        explained: &Option<Explained>,
    ) -> Remedy {
        match (explained, submission(event)) {
            (Some(Err(explanation)), Some(prepared)) => {
                match Remedy::of(alloc, state, prepared, explanation.denial) {
                    Ok(remedy) => remedy,
                    Err(_) => Remedy::Unknown,
                }
            }
            _ => Remedy::Unknown,
        }
    }

    /// The remedy as a field of a JSON object, behind a comma; empty if there is none.
    pub(crate) fn field(self) -> RemedyField {
        RemedyField(self)
    }
}

/// In words, as they stand behind figures.
impl fmt::Display for Remedy {
    fn fmt<W: fmt::Write>(&self, f: &mut fmt::Formatter<W>) -> fmt::Result {
        match self {
            Remedy::Fee(fee) => write!(f, "; the least fee is {fee}"),
            Remedy::NoFee => write!(f, "; no fee helps"),
            Remedy::Verdicts => write!(
                f,
                " has no verdict; `verdict * ok` in the opening gives one for every input"
            ),
            Remedy::Unknown => Ok(()),
        }
    }
}

/// A remedy as a field of a JSON object.
#[derive(Clone, Copy)]
pub(crate) struct RemedyField(Remedy);

impl fmt::Display for RemedyField {
    fn fmt<W: fmt::Write>(&self, f: &mut fmt::Formatter<W>) -> fmt::Result {
        match self.0 {
            Remedy::Fee(fee) => write!(f, ",\"least_fee\":{fee}"),
            Remedy::NoFee => write!(f, ",\"least_fee\":null"),
            Remedy::Verdicts | Remedy::Unknown => Ok(()),
        }
    }
}
