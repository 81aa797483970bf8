//! The words of a coin.
ghost use Rattle.std.specs.Prelude.{◌≡◌, MatchOption, IfOk, None, Some, string_bytes};
ghost use Rattle.gate_words.specs.CoinWords.{coin_head_of, coin_of, coin_text, is_coinbase_of, kind_word, outpoint_of, script_of, script_word};

use gate_bytes::{Kept, Memory};
use gate_chain::OpeningCoin;
use gate_lines::{next_word, read_number, read_small_number};
use gate_tx::{Coin, OutPoint, Txid};
use hex::FromHexError;
use std::alloc::Global;

/// The coin that the words `TXID INDEX VALUE HEIGHT plain|cb SCRIPT` say, or `None` if they don't parse. Hexadecimal digits
/// may have either case, and `-` is an empty script. A value may be more than there can be: that is for rules to refuse.
pub fn read_coin(alloc: Global, text: &str) -> Result<Option<OpeningCoin>, Memory>
    ensures { IfOk result (λ coin. coin ≡ coin_of text.now) }
{
    let Some((outpoint, rest)) = read_outpoint(text) else {
        return Ok(None);
    };
    let Some((head, script)) = read_head(rest) else {
        return Ok(None);
    };
    let Some(script) = read_script(alloc, script)? else {
        return Ok(None);
    };
    Ok(Some(OpeningCoin {
        outpoint,
        coin: Coin {
            value: head.value,
            script,
            height: head.height,
            coinbase: head.coinbase,
        },
    }))
}

/// `TXID INDEX`, and what stands after it.
fn read_outpoint(text: &str) -> Option<(OutPoint, &str)>
    ensures { MatchOption result (outpoint_of text.now ≡ None) (λ p. outpoint_of text.now ≡ Some (p.0, p.1.now)) }
{
    let (txid, rest) = next_word(text)?;
    let (index, rest) = next_word(rest)?;
    let outpoint = OutPoint {
        txid: Txid::read(txid)?,
        index: read_small_number(index)?,
    };
    Some((outpoint, rest))
}

/// What the words of a coin say between its outpoint and its script.
#[derive(Clone, Copy)]
struct CoinHead {
    value: i64,
    height: u32,
    coinbase: bool,
}

/// `VALUE HEIGHT plain|cb`, and what stands after it.
fn read_head(text: &str) -> Option<(CoinHead, &str)>
    ensures { MatchOption result (coin_head_of text.now ≡ None) (λ p. coin_head_of text.now ≡ Some (p.0, p.1.now)) }
{
    let (value, rest) = next_word(text)?;
    let (height, rest) = next_word(rest)?;
    let (kind, script) = next_word(rest)?;
    let head = CoinHead {
        value: read_number(value)? as i64,
        height: read_small_number(height)?,
        coinbase: is_coinbase(kind)?,
    };
    Some((head, script))
}

fn is_coinbase(kind: &str) -> Option<bool>
    ensures { result ≡ is_coinbase_of kind.now }
{
    if kind == "plain" {
        Some(false)
    } else if kind == "cb" {
        Some(true)
    } else {
        None
    }
}

/// A script in hexadecimal digits, or `-` for an empty one.
fn read_script(alloc: Global, text: &str) -> Result<Option<Kept<u8>>, Memory>
    ensures { IfOk result (λ script. script ≡ script_of text.now) }
{
    if text.is_empty() {
        return Ok(None);
    }
    if text == "-" {
        return Ok(Some(Kept::from_vec(Vec::new(alloc))));
    }
    match hex::decode(alloc, text) {
        Ok(script) => Ok(Some(Kept::from_vec(script))),
        Err(FromHexError::OutOfMemory) => Err(Memory),
        Err(_) => Ok(None),
    }
}

/// The one text of a coin: digits in lower case, `-` for an empty script.
pub fn coin_text(alloc: Global, coin: &OpeningCoin) -> Result<String, Memory>
    ensures { IfOk result (λ text. string_bytes text ≡ coin_text coin.now) }
{
    let OutPoint { txid, index } = coin.outpoint;
    let value = coin.coin.value;
    let height = coin.coin.height;
    let kind = kind_word(coin.coin.coinbase);
    let script = script_word(alloc, coin.coin.script.as_slice())?;
    Ok(format!(in alloc; "{txid} {index} {value} {height} {kind} {script}")?)
}

fn kind_word(coinbase: bool) -> &'static str
    ensures { result.now ≡ kind_word coinbase }
{
    if coinbase { "cb" } else { "plain" }
}

fn script_word(alloc: Global, script: &[u8]) -> Result<String, Memory>
    ensures { IfOk result (λ word. string_bytes word ≡ script_word script.now) }
{
    if script.is_empty() {
        return Ok(String::from_str(alloc, "-")?);
    }
    Ok(hex::encode(alloc, script)?)
}
