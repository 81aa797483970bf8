//! What is kept from before an event until after its reply.
use crate::listed::{Listed, all_listed};
use crate::members::{JudgedPackage, MemberSight, all_members};
use crate::prices::{Prices, several_in};
use crate::remedy::Remedy;
use crate::told::Told;
use gate_bytes::Memory;
use gate_core::State;
use gate_figures::{Explained, Relatives, explain, relatives_in};
use gate_message::Event;
use gate_standard::Denial;
use gate_submission::Member;
use std::alloc::Global;
use std::hash::BuildHasher;

/// What was found, or nothing without memory for it.
fn all_or_none<X: Drop>(alloc: Global, answer: Result<Vec<X>, Memory>) -> Vec<X> {
    match answer {
        Ok(found) => found,
        Err(_) => Vec::new(alloc),
    }
}

/// What is known of an event and the state before it. What there is no memory for is `None`.
#[derive(Drop)]
pub struct Sight {
    /// What will be decided on the transaction that the event submits.
    pub(crate) explained: Option<Explained>,
    /// What helps the transaction, if it will be denied.
    pub(crate) remedy: Remedy,
    /// What is known of each transaction of the list that the event asks about; empty for any other event.
    pub(crate) listed: Vec<Listed>,
    /// What is known of each member of the package that the event submits; empty for any other event.
    members: Vec<MemberSight>,
    /// What the transactions of the list or of the package pay.
    prices: Prices,
    /// The entries that this transaction has to do with, if somebody asks for them.
    pub(crate) relatives: Option<Relatives>,
    /// The virtual size of the pool.
    pub(crate) pool_size: u128,
}

fn found<X: Drop>(answer: Result<Option<X>, Memory>) -> Option<X> {
    match answer {
        Ok(found) => found,
        Err(_) => None,
    }
}

impl Sight {
    /// What is known of an event before its step; with the entries that a submission has to do with, if they are asked for.
    pub(crate) fn of<S: BuildHasher + Copy + Drop>(
        alloc: Global,
        state: &State<S>,
        event: &Event,
        with_relatives: bool,
    ) -> Sight {
        let relatives = if with_relatives {
            found(relatives_in(alloc, state, event))
        } else {
            None
        };
        let explained = found(explain(alloc, state, event));
        let listed = all_or_none(alloc, all_listed(alloc, state, event));
        let several = all_or_none(alloc, several_in(alloc, event));
        let prices = Prices::of(alloc, state, several.as_slice());
        let members = if listed.is_empty() {
            all_or_none(
                alloc,
                all_members(alloc, state, &prices, several.as_slice()),
            )
        } else {
            Vec::new(alloc)
        };
        Sight {
            listed,
            members,
            prices,
            remedy: Remedy::for_event(alloc, state, event, &explained),
            explained,
            relatives,
            pool_size: state.pool().size(),
        }
    }

    /// What is known of the rule that denies the transaction at this place of the list.
    pub(crate) fn listed(&self, place: usize, denial: Denial) -> Told {
        let paid = self.prices.paid(place, denial);
        match self.listed.as_slice().get(place) {
            Some(listed) => listed.told(denial, paid),
            None => Listed::unknown().told(denial, paid),
        }
    }

    /// What is known of the package that the event submits, of whose members this became.
    pub(crate) fn judged<'a>(&'a self, members: &'a [Member]) -> JudgedPackage<'a> {
        JudgedPackage {
            sights: self.members.as_slice(),
            prices: &self.prices,
            members,
        }
    }
}
