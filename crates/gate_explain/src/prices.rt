//! What the transactions of a list or of a package pay, each behind those before it.
//!
//! A coin is worth as much wherever it is found, so these figures hold whatever entered before a transaction was judged.
use gate_bytes::Memory;
use gate_core::State;
use gate_diagram::Price;
use gate_figures::{AskedRates, Figures, price_behind};
use gate_message::Event;
use gate_rpc::Command;
use gate_standard::Denial;
use gate_submission::{Candidate, Prepared};
use std::alloc::Global;
use std::hash::BuildHasher;

/// The transactions of the list that an event asks about, or of the package that it submits; none of another event.
pub(crate) fn several_in<'a>(alloc: Global, event: &'a Event) -> Result<Vec<&'a Prepared>, Memory> {
    let mut several = Vec::new(alloc);
    match event {
        Event::Package { parent, child, .. } => {
            several.push(parent)?;
            several.push(child)?;
        }
        Event::Rpc(call) => if let Ok(request) = call.get().request() {
            for prepared in several_by(&request.command) {
                several.push(prepared)?;
            }
        },
        _ => {}
    }
    Ok(several)
}

/// The transactions of the list or of the package of a command.
fn several_by(command: &Command) -> &[Prepared] {
    match command {
        Command::TestList(submissions) => submissions.as_slice(),
        Command::SubmitPackage(call) => call.members.as_slice(),
        _ => &[],
    }
}

/// What each of these pays behind those before it; of none if one is no transaction.
fn prices_of<S: BuildHasher + Copy + Drop>(
    alloc: Global,
    state: &State<S>,
    several: &[&Prepared],
) -> Result<Vec<Option<Price>>, Memory> {
    let mut before: Vec<Candidate<'_>> = Vec::with_capacity(alloc, several.len())?;
    let mut prices = Vec::with_capacity(alloc, several.len())?;
    for prepared in several {
        let Some(candidate) = prepared.candidate() else {
            return Ok(Vec::new(alloc));
        };
        prices.push(price_behind(alloc, state, before.as_slice(), &candidate)?)?;
        before.push(candidate)?;
    }
    Ok(prices)
}

/// What the transactions of a list or of a package pay, and what is asked of them.
#[derive(Drop)]
pub(crate) struct Prices {
    rates: AskedRates,
    each: Vec<Option<Price>>,
}

impl Prices {
    /// What these pay over a state. Without memory for it nothing is known.
    pub(crate) fn of<S: BuildHasher + Copy + Drop>(
        alloc: Global,
        state: &State<S>,
        several: &[&Prepared],
    ) -> Prices {
        let each = match prices_of(alloc, state, several) {
            Ok(prices) => prices,
            Err(_) => Vec::new(alloc),
        };
        Prices {
            rates: AskedRates::of(state),
            each,
        }
    }

    /// What the transaction at this place pays, if it is known.
    pub(crate) fn at(&self, place: usize) -> Option<Price> {
        *self.each.as_slice().get(place)?
    }

    /// The figures by which A34 or A35 denies the transaction at this place; any other rule has none here.
    pub(crate) fn paid(&self, place: usize, denial: Denial) -> Option<Figures> {
        self.rates.paid(denial, self.at(place)?)
    }

    /// The figures by which A34 or A35 denies those at these places, which are judged together.
    pub(crate) fn paid_together(
        &self,
        alloc: Global,
        places: &[usize],
        denial: Denial,
    ) -> Result<Option<Figures>, Memory> {
        let mut prices = Vec::with_capacity(alloc, places.len())?;
        for place in places {
            match self.at(*place) {
                Some(price) => prices.push(price)?,
                None => return Ok(None),
            }
        }
        Ok(self.rates.paid_together(denial, prices.as_slice()))
    }
}
