//! Submissions of events: the one that an event makes, and the coins of its inputs before its step is made.
ghost use Rattle.std.specs.Prelude.{◌≡◌, Some, IfOk, map};
ghost use Rattle.std.specs.Option.{option_copied};
ghost use Rattle.gate_admit.specs.Coins.{view_coin};
ghost use Rattle.gate_core.specs.Submissions.{StandsFor, submission_of, submitted_by, coins_of};

use crate::state::State;
use gate_admit::{Chain, LentCoin, Pool, Prepared, view_coin};
use gate_bytes::{Kept, Memory};
use gate_message::Event;
use gate_rpc::Command;
use gate_tx::{Coin, TxIn};
use std::alloc::Global;
use std::hash::BuildHasher;

/// What a command submits, to let it enter or to ask whether it would. A list of several is no submission.
fn submission_by(command: &Command) -> Option<&Prepared>
    ensures { option_copied result ≡ submitted_by command.now }
{
    match command {
        Command::SendRawTransaction(submission) => Some(submission),
        Command::TestMempoolAccept(submission) => Some(submission),
        _ => None,
    }
}

/// The submission of an event, if it makes one: a peer's, or one that a user sends or tests by itself.
pub fn submission(event: &Event) -> Option<&Prepared>
    ensures { option_copied result ≡ submission_of event.now }
{
    match event {
        Event::Tx { transaction, .. } => Some(transaction),
        Event::Rpc(call) => match call.get().request() {
            Ok(request) => submission_by(&request.command),
            Err(_) => None,
        },
        _ => None,
    }
}

/// The submission that stands for another, if there is one, else that other.
pub(crate) fn standing_for<'a>(
    another: Option<&'a Prepared>,
    submission: &'a Prepared,
) -> &'a Prepared
    requires { StandsFor (option_copied another) (Some submission.now) }
    ensures { result.now ≡ submission.now }
{
    match another {
        Some(another) => another,
        None => submission,
    }
}

/// A copy of a lent coin, with a script of its own.
fn owned_coin(alloc: Global, coin: &LentCoin<'_>) -> Result<Coin, Memory>
    ensures { IfOk result (λ owned. owned ≡ coin.now) }
{
    let script = Kept::from_vec(Vec::from_slice(alloc, coin.script())?);
    Ok(Coin {
        value: coin.value(),
        script,
        height: coin.height(),
        coinbase: coin.is_coinbase(),
    })
}

/// A copy of a lent coin, if there is one, with a script of its own.
fn owned(alloc: Global, coin: &Option<LentCoin<'_>>) -> Result<Option<Coin>, Memory>
    ensures { IfOk result (λ owned. owned ≡ coin.now) }
{
    match coin {
        Some(coin) => Ok(Some(owned_coin(alloc, coin)?)),
        None => Ok(None),
    }
}

/// The coin of each input, in their order; None for an input that has no coin.
fn input_coins<S: BuildHasher + Copy + Drop>(
    alloc: Global,
    chain: &Chain<S>,
    pool: &Pool<S>,
    inputs: &[TxIn],
) -> Result<Vec<Option<Coin>>, Memory>
    ensures { IfOk result (λ coins. coins.items ≡ map (λ i. view_coin chain.now pool.now.entries i.prevout) inputs.now) }
{
    let mut coins = Vec::with_capacity(alloc, inputs.len())?;
    for input in inputs {
        let coin = view_coin(chain, pool, &input.prevout);
        coins.push(owned(alloc, &coin)?)?;
    }
    Ok(coins)
}

impl<S: BuildHasher + Copy + Drop> State<S> {
    /// The coin of each input of a submission, in their order; None for an input that has no coin now. A submission
    /// that spells no transaction has no inputs.
    pub fn coins(&self, alloc: Global, submission: &Prepared) -> Result<Vec<Option<Coin>>, Memory>
        ensures { IfOk result (λ coins. coins.items ≡ coins_of self.now submission.now) }
    {
        match submission.transaction() {
            Some(transaction) => {
                input_coins(alloc, self.chain(), self.pool(), transaction.inputs())
            }
            None => Ok(Vec::new(alloc)),
        }
    }
}
