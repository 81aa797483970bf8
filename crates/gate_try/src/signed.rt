//! The coins and the transaction of a PSBT.
ghost use Rattle.std.specs.Prelude.{◌≡◌, [], IfOk, OnOk};
ghost use Rattle.gate_try.specs.Spent.{SpellsFinal, is_named, is_spent, names, spent_from, with_coin};

use crate::trial::{SpentCoin, Trial, TrialCoin};
use gate_bytes::{Copied, Memory, Text};
use gate_lines::read_small_number;
use gate_psbt::{Psbt, PsbtFault, PsbtInput};
use gate_tx::{OutPoint, TxIn, TxOut, Txid};
use std::alloc::Global;

/// Whether the words of a coin name this outpoint.
fn names(coin: &TrialCoin<'_>, point: &OutPoint) -> bool
    ensures { result ≡ names point.now coin.now }
{
    match (Txid::read(coin.txid), read_small_number(coin.index)) {
        (Some(txid), Some(index)) => txid == point.txid && index == point.index,
        _ => false,
    }
}

/// Whether a coin is said for this outpoint.
fn is_named(coins: &[TrialCoin<'_>], point: &OutPoint) -> bool
    ensures { result ≡ is_named coins.now point.now }
{
    coins.iter().any(|coin| names(coin, point))
}

/// Whether the coin that this outpoint names was taken before.
fn is_spent(coins: &[SpentCoin], point: &OutPoint) -> bool
    ensures { result ≡ is_spent coins.now point.now }
{
    coins.iter().any(|coin| coin.point == *point)
}

/// Takes one more coin, if a PSBT has it, it isn't said and it wasn't taken before.
fn take_coin(
    alloc: Global,
    coins: &mut Vec<SpentCoin>,
    said: &[TrialCoin<'_>],
    point: &OutPoint,
    output: &Option<TxOut>,
) -> Result<(), Memory>
    ensures { OnOk result (coins.new.items ≡ with_coin said.now coins.old.items point.now output.now) }
{
    let Some(output) = output else {
        return Ok(());
    };
    if is_named(said, point) {
        return Ok(());
    }
    if is_spent(coins, point) {
        return Ok(());
    }
    let taken = SpentCoin {
        point: *point,
        output: output.copy(alloc)?,
    };
    coins.push(taken)?;
    Ok(())
}

/// The coins that a PSBT has for these inputs, but those that are said, each once.
fn spent_from(
    alloc: Global,
    inputs: &[TxIn],
    had: &[PsbtInput],
    said: &[TrialCoin<'_>],
) -> Result<Vec<SpentCoin>, Memory>
    ensures { IfOk result (λ coins. coins.items ≡ spent_from said.now [] inputs.now had.now) }
{
    let mut coins = Vec::new(alloc);
    let mut place = 0;
    for input in inputs {
        let Some(it) = had.get(place) else {
            return Ok(coins);
        };
        take_coin(alloc, &mut coins, said, &input.prevout, &it.coin)?;
        place += 1;
    }
    Ok(coins)
}

/// The hexadecimal digits of a PSBT's final transaction.
fn finished_text(alloc: Global, psbt: &Psbt) -> Result<Text, PsbtFault>
    ensures { IfOk result (SpellsFinal psbt.now) }
{
    let transaction = psbt.finished(alloc)?;
    let bytes = transaction.write_tx(alloc)?;
    let digits = hex::encode(alloc, bytes.as_slice())?;
    Ok(Text::from_string(digits))
}

impl Trial<'_> {
    ghost use Rattle.std.specs.Prelude.{◌≡◌, [], OnOk};
    ghost use Rattle.gate_try.specs.Spent.{IsOwn, spent_from};

    /// Takes the coins of a PSBT, but those that are said, and its final transaction if no other is tried.
    pub fn take_psbt(&mut self, alloc: Global, psbt: &Psbt) -> Result<(), PsbtFault>
        ensures coins { OnOk result (self.new.spent.items ≡ spent_from self.old.coins.items [] psbt.now.unsigned.inputs psbt.now.inputs) }
        ensures own { OnOk result (IsOwn psbt.now self.old.transactions.items self.new.finished) }
    {
        let inputs = psbt.unsigned.inputs();
        let had = psbt.inputs.as_slice();
        self.spent = spent_from(alloc, inputs, had, self.coins.as_slice())?;
        self.finished = match self.transactions.as_slice() {
            [] => Some(finished_text(alloc, psbt)?),
            [_, ..] => None,
        };
        Ok(())
    }
}
