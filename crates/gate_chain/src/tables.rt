use crate::marked::Marked;
use gate_tx::OutPoint;
use indexmap::IndexMap;
use std::hash::BuildHasher;

/// The coins of a chain by their outpoints: those of the opening, and behind them those that connected blocks made.
#[derive(Drop)]
pub(crate) struct CoinTables<S: BuildHasher + Copy + Drop> {
    pub opening: IndexMap<OutPoint, Marked, S>,
    pub made: IndexMap<OutPoint, Marked, S>,
}
