ghost use Rattle.std.specs.Prelude.{◌≡◌};
ghost use Rattle.gate_graph.specs.Ranks.{rate_with};
ghost use Rattle.gate_pool.specs.Scores.{score_from};

use crate::entry::Entry;
use gate_graph::Sums;
use gate_ranking::Rate;
use gate_tx::Txid;

/// What an entry is worth: its own fee over its size, or the fees over the sizes of its descendants, itself among them,
/// whichever is greater as a fraction; its own if they are equal.
#[derive(Clone, Copy, PartialEq, Eq)]
pub struct Score {
    pub txid: Txid,
    /// The fees of that fraction, in satoshi.
    pub fees: u128,
    /// The size of that fraction, in virtual bytes.
    pub size: u128,
    /// The sums of the entry's descendants, itself among them.
    pub family: Sums,
}

/// A fee over a size, or the fees of a family over its size if that is more.
#[tactic(auto, unfolding(gate_graph::specs::Ranks::rate_with))]
fn rate_of(fee: u64, vsize: u64, family: &Sums) -> Rate
    ensures { result ≡ rate_with fee vsize family.now }
{
    let own = Rate::new(u128::from(fee), u128::from(vsize));
    let below = Rate::new(family.fees, family.size);
    if own < below { below } else { own }
}

impl Score {
    /// The score of an entry whose descendants, itself among them, have these sums.
    pub(crate) fn of(entry: &Entry, family: &Sums) -> Score
        ensures { result ≡ score_from entry.now family.now }
    {
        let rate = rate_of(entry.fee(), entry.vsize(), family);
        Score {
            txid: entry.txid(),
            fees: rate.fees(),
            size: rate.size(),
            family: *family,
        }
    }
}
