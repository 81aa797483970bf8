//! What an event of the chain's caller led to.
use gate_chain::ChainDenial;
use gate_submission::Moved;

/// What an event of the chain's caller led to. It holds no memory, so that its replies are made once all is done.
#[derive(Clone, Copy, PartialEq, Eq)]
pub enum ChainOutcome {
    /// A coin, or a verdict, is learnt.
    Learnt,
    /// The chain has changed, and the pool with it.
    Moved(Moved),
    /// This many blocks are part of the opening now; this many unspent coins and rows of verdicts are forgotten.
    Forgotten { blocks: u64, coins: u64, rows: u64 },
    /// The rule of the chain that fails: nothing has changed.
    Refused(ChainDenial),
}
