//! Laws over the definitions alone.
ghost use Rattle.gate_chain.specs.Laws.{LearningIsOpening, KeepsCoins, KeepsTimes};

/// The law of a coin that is learnt by a chain without blocks: it gives the chain that is opened with this coin behind the
/// others, and that opening has no fault.
pub fn learning_is_opening()
    ensures { LearningIsOpening }
{}

/// The law of what is left by forgetting: each outpoint that is wanted, or that a remaining block spends or made, has the
/// coin that it had; times, medians and the tip are what they were.
pub fn forgetting_keeps_what_counts()
    ensures coins { KeepsCoins }
    ensures times { KeepsTimes }
{}
