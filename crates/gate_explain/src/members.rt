//! What is said of the members of a package that are denied, one by one.
//!
//! A member is judged over the pool as those before it left it. Its figures are those of the state before the line, so they are
//! given where none before it came in, but for those that are the same whatever came in: of the transaction by itself (A2 to
//! A19, A51), of what it pays (A34, A35), and of its verdicts (A43 to A45).
use crate::prices::Prices;
use crate::remedy::Remedy;
use crate::told::Told;
use gate_bytes::Memory;
use gate_core::State;
use gate_figures::{Explanation, Figures, crowded_member, explain_submission, figures_for};
use gate_standard::{Denial, is_truc};
use gate_submission::{Fate, Member, Prepared};
use std::alloc::Global;
use std::hash::BuildHasher;

/// What is known of a member before the line.
#[derive(Clone, Copy)]
pub(crate) struct MemberSight {
    /// Why a transaction alone would be denied; a member is denied by the same rule, but for A36 and A50.
    explanation: Option<Explanation>,
    /// The rule on the transaction by itself that fails.
    own_fault: Option<Denial>,
    /// The figures of A36, whose first try alone a member has.
    crowded: Option<Figures>,
    /// The figures of A43 to A45.
    doubted: Option<Figures>,
    /// Whether A35 is asked of it by itself, also where it is judged together with others.
    pays_alone: bool,
}

impl MemberSight {
    /// What is known of a transaction that would be the member at this place.
    fn of<S: BuildHasher + Copy + Drop>(
        alloc: Global,
        state: &State<S>,
        prices: &Prices,
        place: usize,
        prepared: &Prepared,
    ) -> Result<MemberSight, Memory> {
        let explanation = match explain_submission(alloc, state, prepared)? {
            Err(explanation) => Some(explanation),
            Ok(_) => None,
        };
        let crowded = match (prepared.candidate(), prices.at(place)) {
            (Some(candidate), Some(price)) => {
                crowded_member(alloc, state, &candidate, price.vsize)?
            }
            _ => None,
        };
        let is_version_three = match prepared.transaction() {
            Some(tx) => state.policy().standards().truc && is_truc(tx),
            None => false,
        };
        Ok(MemberSight {
            explanation,
            own_fault: prepared.denial_by(&state.policy().standards()),
            crowded,
            doubted: figures_for(alloc, state, prepared, Denial::VerdictMissing)?,
            pays_alone: !is_version_three,
        })
    }

    /// The figures by which a rule denies the member over the state before the line.
    fn figures(&self, denial: Denial) -> Option<Figures> {
        match self.explanation {
            _ if denial == Denial::TooLongChain => self.crowded,
            Some(explanation) if explanation.denial == denial => explanation.figures,
            _ => None,
        }
    }
}

/// What is known of each of these, if they are submitted as one package.
pub(crate) fn all_members<S: BuildHasher + Copy + Drop>(
    alloc: Global,
    state: &State<S>,
    prices: &Prices,
    several: &[&Prepared],
) -> Result<Vec<MemberSight>, Memory> {
    let mut found = Vec::with_capacity(alloc, several.len())?;
    for (place, prepared) in several.iter().enumerate() {
        found.push(MemberSight::of(alloc, state, prices, place, prepared)?)?;
    }
    Ok(found)
}

/// The rule that denied a member when it was judged. One that A46 denies had come in, or was in the pool before.
fn denial_of(member: &Member) -> Option<Denial> {
    match &member.fate {
        Fate::Denied(Denial::MempoolFull) => None,
        Fate::Denied(denial) => Some(*denial),
        _ => None,
    }
}

/// Whether a member came in, or may have: it was taken, or A46 denies it.
fn may_have_entered(member: &Member) -> bool {
    matches!(
        &member.fate,
        Fate::Taken { .. } | Fate::Denied(Denial::MempoolFull)
    )
}

/// The places of the members that were denied when they were judged.
fn denied_places(alloc: Global, members: &[Member]) -> Result<Vec<usize>, Memory> {
    let mut places = Vec::with_capacity(alloc, members.len())?;
    for (place, member) in members.iter().enumerate() {
        if denial_of(member).is_some() {
            places.push(place)?;
        }
    }
    Ok(places)
}

/// What is known of a package before the line, with what became of its members by it.
#[derive(Clone, Copy)]
pub(crate) struct JudgedPackage<'a> {
    pub(crate) sights: &'a [MemberSight],
    pub(crate) prices: &'a Prices,
    pub(crate) members: &'a [Member],
}

impl JudgedPackage<'_> {
    /// Whether the member at this place is denied by A35 for what it pays itself.
    fn lacks_its_own_fee(&self, place: usize) -> bool {
        match (
            self.sights.get(place),
            self.prices.paid(place, Denial::MinRelayFee),
        ) {
            (Some(sight), Some(Figures::Pays { fee, needs })) => sight.pays_alone && fee < needs,
            _ => false,
        }
    }

    /// The figures by which A34 or A35 denies the member at this place. The last one is denied for what all pay together that
    /// were denied by themselves, unless it lacks its own fee.
    fn paid(&self, alloc: Global, place: usize, denial: Denial) -> Result<Option<Figures>, Memory> {
        let places = denied_places(alloc, self.members)?;
        let is_last = place == self.members.len().saturating_sub(1);
        let is_alone = places.len() < 2 || !is_last;
        if is_alone || (denial == Denial::MinRelayFee && self.lacks_its_own_fee(place)) {
            return Ok(self.prices.paid(place, denial));
        }
        self.prices.paid_together(alloc, places.as_slice(), denial)
    }

    /// The figures by which a rule denies the member at this place, which are known.
    fn figures(
        &self,
        alloc: Global,
        place: usize,
        denial: Denial,
    ) -> Result<Option<Figures>, Memory> {
        let Some(sight) = self.sights.get(place) else {
            return Ok(None);
        };
        match denial {
            Denial::MempoolMinFee | Denial::MinRelayFee => self.paid(alloc, place, denial),
            Denial::VerdictMissing | Denial::SoftVerdict | Denial::HardVerdict => Ok(sight.doubted),
            _ if self.is_behind_newcomer(place) && sight.own_fault != Some(denial) => Ok(None),
            _ => Ok(sight.figures(denial)),
        }
    }

    /// Whether one before this place came in, or may have.
    fn is_behind_newcomer(&self, place: usize) -> bool {
        for (number, member) in self.members.iter().enumerate() {
            if number < place && may_have_entered(member) {
                return true;
            }
        }
        false
    }

    /// What is known of the rule that denies the member at this place.
    pub(crate) fn told(&self, alloc: Global, place: usize, denial: Denial) -> Result<Told, Memory> {
        let figures = self.figures(alloc, place, denial)?;
        let has_verdicts = figures.is_some() && denial == Denial::VerdictMissing;
        Ok(Told {
            rule: denial.row(),
            figures,
            is_of_descendants: figures.is_none()
                && denial == Denial::TooLongChain
                && !self.is_behind_newcomer(place),
            remedy: if has_verdicts {
                Remedy::Verdicts
            } else {
                Remedy::Unknown
            },
        })
    }
}
